//! Cells of a line.
ghost use Rattle.std.specs.Prelude.{◌≡◌, ◌-◌, ◌++◌, OnOk, chars, decimal, false, length, string_bytes};
ghost use Rattle.unicode_width.specs.Width.{str_width};
ghost use Rattle.riichi_standings_text.specs.Cells as spec;
ghost use Rattle.riichi_standings_text.specs.Texts.{points_in_thousands};

use crate::numbers::{digits_of, push_thousands};
use std::alloc::{AllocError, Global};
use unicode_width::UnicodeWidthStr;

/// Writes so many spaces.
pub(crate) fn push_spaces(text: &mut String, count: usize) -> Result<(), AllocError>
    ensures { OnOk result (string_bytes text.new ≡ string_bytes text.old ++ spec.blanks count) }
{
    for _place in 0..count {
        text.push_str(" ")?;
    }
    Ok(())
}

/// Writes a name at the left of so many columns, by the columns that it takes on a terminal.
pub(crate) fn push_name(text: &mut String, name: &str, columns: usize) -> Result<(), AllocError>
    ensures { OnOk result (string_bytes text.new
        ≡ string_bytes text.old ++ spec.name_cell columns name.now) }
{
    text.push_str(name)?;
    push_spaces(text, columns.saturating_sub(name.width()))
}

/// Writes digits, signs or letters of ASCII at the right of so many columns, behind a space at least.
pub(crate) fn push_cell(text: &mut String, cell: &str, columns: usize) -> Result<(), AllocError>
    ensures { OnOk result (string_bytes text.new
        ≡ string_bytes text.old ++ spec.number_cell columns cell.now) }
{
    push_spaces(text, columns.saturating_sub(cell.len()).max(1))?;
    text.push_str(cell)
}

/// Writes a count at the right of so many columns.
pub(crate) fn push_count_cell(
    text: &mut String,
    count: u64,
    columns: usize,
) -> Result<(), AllocError>
    ensures { OnOk result (string_bytes text.new
        ≡ string_bytes text.old ++ spec.number_cell columns (decimal count)) }
{
    let digits = digits_of(count);
    push_cell(text, digits.as_str(), columns)
}

/// Writes points, as thousands, at the right of so many columns.
pub(crate) fn push_points_cell(
    alloc: Global,
    text: &mut String,
    points: i64,
    columns: usize,
) -> Result<(), AllocError>
    ensures { OnOk result (string_bytes text.new
        ≡ string_bytes text.old ++ spec.number_cell columns (points_in_thousands points)) }
{
    let mut cell = String::new(alloc);
    push_thousands(&mut cell, points)?;
    push_cell(text, cell.as_str(), columns)
}
