//! Rows of a sheet: a label, what is told, and a cell for each of the four.
ghost use Rattle.std.specs.Prelude.{◌≡◌, ◌+◌, ◌≤◌, ◌++◌, length};
ghost use Rattle.arrayvec.specs.ArrayString.{array_string_len};
ghost use Rattle.riichi_table.specs.Players.{of_player};
ghost use Rattle.riichi_game_text.specs.Names.{names_in};
ghost use Rattle.riichi_game_text.specs.FinalTexts.{thousands_text};
ghost use Rattle.riichi_game_sheet.specs.Cells.{right_cell};
ghost use Rattle.riichi_game_sheet.specs.Rows as spec;

use crate::cells::{MOST_ELLIPSIS, MOST_TOLD, push_left, push_right};
use arrayvec::ArrayString;
use riichi_game_text::{MOST_NAME, Names};
use riichi_table::{ByPlayer, Player};
use riichi_text::{ANSWER_ROOM, AnswerText, MOST_U64, push_number};

/// The columns of the label.
const LABEL: usize = 9;

/// The columns of what is told.
const TOLD: usize = 23;

/// The columns of each of the four.
const COLUMN: usize = 12;

/// The bytes of the longest label.
pub(crate) const MOST_LABEL: usize = "E1-255+255".len();

/// The bytes of the longest number, of points as thousands.
const MOST_DIGITS: usize = "-".len() + MOST_U64 + ".".len() + MOST_U64;

const MOST_CELL: usize = COLUMN + MOST_DIGITS + MOST_ELLIPSIS;

const MOST_FRONT: usize = LABEL + MOST_LABEL + TOLD + MOST_TOLD + 2 * MOST_ELLIPSIS;

/// The bytes of the longest row.
pub(crate) const MOST_ROW: usize = MOST_FRONT + 4 * MOST_CELL;

/// A number as it is written.
type Digits = ArrayString<MOST_DIGITS>;

/// How the numbers of a row are written.
#[derive(Clone, Copy, Debug, PartialEq, Eq)]
pub(crate) enum Written {
    /// As points.
    Points,
    /// As changes, with a sign before a gain.
    Changes,
    /// As thousands with one decimal, with a sign but for none.
    Thousands,
}

/// Writes the names above their columns.
#[tactic(auto, unfolding(crate::specs::Rows::names_row))]
pub(crate) fn push_names(text: &mut AnswerText, label: &str, told: &str, names: &Names)
    requires room { array_string_len text.old + MOST_ROW ≤ ANSWER_ROOM }
    requires label { length label.now ≤ MOST_LABEL }
    requires told { length told.now ≤ MOST_TOLD }
    ensures bytes { text.new.bytes
        ≡ text.old.bytes ++ spec.names_row label.now told.now (names_in names.now) }
    ensures len { array_string_len text.new ≤ array_string_len text.old + MOST_ROW }
{
    push_front(text, label, told);
    push_name(text, names, Player::First);
    push_name(text, names, Player::Second);
    push_name(text, names, Player::Third);
    push_name(text, names, Player::Fourth);
}

fn push_name(text: &mut AnswerText, names: &Names, player: Player)
    requires { array_string_len text.old + MOST_CELL ≤ ANSWER_ROOM }
    ensures bytes { text.new.bytes
        ≡ text.old.bytes ++ right_cell COLUMN (of_player (names_in names.now) player) }
    ensures len { array_string_len text.new ≤ array_string_len text.old + MOST_CELL }
{
    push_right(text, COLUMN, names.get(player).as_str());
}

/// Writes a row with a number for each of the four.
#[tactic(auto, unfolding(crate::specs::Rows::sheet_row))]
pub(crate) fn push_row(
    text: &mut AnswerText,
    label: &str,
    told: &str,
    written: Written,
    numbers: &ByPlayer<i64>,
)
    requires room { array_string_len text.old + MOST_ROW ≤ ANSWER_ROOM }
    requires label { length label.now ≤ MOST_LABEL }
    requires told { length told.now ≤ MOST_TOLD }
    ensures bytes { text.new.bytes
        ≡ text.old.bytes ++ spec.sheet_row label.now told.now written numbers.now }
    ensures len { array_string_len text.new ≤ array_string_len text.old + MOST_ROW }
{
    push_front(text, label, told);
    push_cell(text, written, numbers, Player::First);
    push_cell(text, written, numbers, Player::Second);
    push_cell(text, written, numbers, Player::Third);
    push_cell(text, written, numbers, Player::Fourth);
}

/// Writes the label of a row, and what is told in it.
fn push_front(text: &mut AnswerText, label: &str, told: &str)
    requires room { array_string_len text.old + MOST_FRONT ≤ ANSWER_ROOM }
    requires label { length label.now ≤ MOST_LABEL }
    requires told { length told.now ≤ MOST_TOLD }
    ensures bytes { text.new.bytes ≡ text.old.bytes ++ spec.row_front label.now told.now }
    ensures len { array_string_len text.new ≤ array_string_len text.old + MOST_FRONT }
{
    push_left(text, LABEL, label);
    push_left(text, TOLD, told);
}

/// Writes the number of a player into the column.
fn push_cell(text: &mut AnswerText, written: Written, numbers: &ByPlayer<i64>, player: Player)
    requires { array_string_len text.old + MOST_CELL ≤ ANSWER_ROOM }
    ensures bytes { text.new.bytes
        ≡ text.old.bytes ++ right_cell COLUMN (spec.written_digits written (of_player numbers.now player)) }
    ensures len { array_string_len text.new ≤ array_string_len text.old + MOST_CELL }
{
    let digits = digits_of(written, numbers.get(player));
    push_right(text, COLUMN, digits.as_str());
}

#[tactic(auto, unfolding(crate::specs::Rows::written_digits, riichi_game_text::specs::Answers::signed_text, riichi_game_text::specs::Answers::points_change_text))]
fn digits_of(written: Written, number: i64) -> Digits
    ensures { result.bytes ≡ spec.written_digits written number }
{
    let mut digits = Digits::new();
    match written {
        Written::Points => push_number(&mut digits, number),
        Written::Changes => {
            if number > 0 {
                digits.push_str("+");
            }
            push_number(&mut digits, number);
        }
        Written::Thousands => push_thousands(&mut digits, number),
    }
    digits
}

/// Writes points as thousands with one decimal, with a sign but for none.
#[tactic(auto, unfolding(riichi_game_text::specs::FinalTexts::thousands_text))]
fn push_thousands(digits: &mut Digits, points: i64)
    requires { array_string_len digits.old + MOST_DIGITS ≤ MOST_DIGITS }
    ensures { digits.new.bytes ≡ digits.old.bytes ++ thousands_text points }
{
    if points < 0 {
        digits.push_str("-");
    } else if points > 0 {
        digits.push_str("+");
    }
    let points = points.unsigned_abs();
    push_number(digits, points / 1000);
    digits.push_str(".");
    push_number(digits, points % 1000 / 100);
}
