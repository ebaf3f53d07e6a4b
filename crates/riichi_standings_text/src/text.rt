//! Standings in words.
ghost use Rattle.std.specs.Prelude.{◌≡◌, ◌++◌, IfOk, OnOk, flat_map, string_bytes};
ghost use Rattle.riichi_standings.specs.Laws.{name_at};
ghost use Rattle.riichi_standings_text.specs.Columns.{column_numbers};
ghost use Rattle.riichi_standings_text.specs.Texts as spec;

use crate::columns::Columns;
use crate::numbers::{push_count, push_thousands};
use riichi_standings::{SeatResult, Standing, Tournament, results_of};
use std::alloc::{AllocError, Global};

/// A line a player, by place: the place, the name, the total, how many games, and the final points of each session, or a dash. Games
/// that say no session are the player's first, second and so on.
pub fn standings_text(
    alloc: Global,
    tournament: &Tournament,
    list: &[Standing],
) -> Result<String, AllocError>
    ensures { IfOk result (λ text. string_bytes text
        ≡ spec.standings_text tournament.now list.now) }
{
    let columns = Columns::of(tournament, list);
    let mut text = String::new(alloc);
    for standing in list {
        push_line(alloc, &mut text, &columns, tournament, standing)?;
    }
    Ok(text)
}

/// The line of a player.
#[tactic(auto, unfolding(crate::specs::Texts::standing_line))]
fn push_line(
    alloc: Global,
    text: &mut String,
    columns: &Columns,
    tournament: &Tournament,
    standing: &Standing,
) -> Result<(), AllocError>
    ensures { OnOk result (string_bytes text.new
        ≡ string_bytes text.old ++ spec.standing_line columns.now tournament.now standing.now) }
{
    push_place(text, name_of(tournament, standing), standing)?;
    push_total(text, standing)?;
    let own = results_of(alloc, standing.player, tournament.results())?;
    push_sessions(text, columns, own.as_slice())
}

/// The place and the name.
fn push_place(text: &mut String, name: &str, standing: &Standing) -> Result<(), AllocError>
    ensures { OnOk result (string_bytes text.new
        ≡ string_bytes text.old ++ spec.standing_place_text name.now standing.now) }
{
    text.push_str("place ")?;
    push_count(text, standing.place as u64)?;
    text.push_str(" ")?;
    text.push_str(name)
}

/// The total, and how many games.
fn push_total(text: &mut String, standing: &Standing) -> Result<(), AllocError>
    ensures { OnOk result (string_bytes text.new
        ≡ string_bytes text.old ++ spec.standing_total_text standing.now) }
{
    text.push_str(" total ")?;
    push_thousands(text, standing.tally.total)?;
    text.push_str(" games ")?;
    push_count(text, standing.tally.games as u64)
}

/// The name of a player.
pub(crate) fn name_of<'t>(tournament: &'t Tournament, standing: &Standing) -> &'t str
    ensures { result.now ≡ name_at tournament.now.names standing.now.player }
{
    match tournament.names().get(standing.player as usize) {
        None => "",
        Some(name) => name.as_str(),
    }
}

/// The final points of each column, and the end of the line.
fn push_sessions(text: &mut String, columns: &Columns, own: &[SeatResult]) -> Result<(), AllocError>
    ensures { OnOk result (string_bytes text.new
        ≡ string_bytes text.old ++ spec.sessions_text columns.now own.now) }
{
    text.push_str(" sessions")?;
    push_columns(text, columns, own)?;
    text.push_str("\n")
}

/// The final points of each column.
fn push_columns(text: &mut String, columns: &Columns, own: &[SeatResult]) -> Result<(), AllocError>
    ensures { OnOk result (string_bytes text.new ≡ string_bytes text.old
        ++ flat_map (spec.column_text columns.now own.now) (column_numbers columns.now)) }
{
    for column in u64::from(columns.first)..columns.end() {
        text.push_str(" ")?;
        push_points_or_dash(text, columns.points(column as u32, own))?;
    }
    Ok(())
}

/// Points, or a dash for none.
fn push_points_or_dash(text: &mut String, points: Option<i32>) -> Result<(), AllocError>
    ensures { OnOk result (string_bytes text.new
        ≡ string_bytes text.old ++ spec.session_points points) }
{
    match points {
        None => text.push_str("-"),
        Some(points) => push_thousands(text, i64::from(points)),
    }
}
