//! Standings as JSON.
ghost use Rattle.std.specs.Prelude.{◌≡◌, ◌++◌, IfOk, OnOk, encode_utf8, flat_map, string_bytes};
ghost use Rattle.riichi_standings_text.specs.Columns.{column_numbers};
ghost use Rattle.riichi_standings_text.specs.Objects as spec;

use crate::columns::Columns;
use crate::numbers::{push_count, push_points};
use crate::text::name_of;
use riichi_standings::{SeatResult, Standing, Tournament, results_of};
use std::alloc::{AllocError, Global};

/// An object a player on a line, by place: `place`, `name`, `total`, `games`, `firsts`, `best`, and `sessions`, the final points of each
/// session, or null. Points are points. Games that say no session are the player's first, second and so on.
pub fn standings_json(
    alloc: Global,
    tournament: &Tournament,
    list: &[Standing],
) -> Result<String, AllocError>
    ensures { IfOk result (λ text. string_bytes text
        ≡ spec.standings_json tournament.now list.now) }
{
    let columns = Columns::of(tournament, list);
    let mut text = String::new(alloc);
    for standing in list {
        push_object(alloc, &mut text, &columns, tournament, standing)?;
    }
    Ok(text)
}

/// The object of a player.
#[tactic(auto, unfolding(crate::specs::Objects::standing_object))]
fn push_object(
    alloc: Global,
    text: &mut String,
    columns: &Columns,
    tournament: &Tournament,
    standing: &Standing,
) -> Result<(), AllocError>
    ensures { OnOk result (string_bytes text.new
        ≡ string_bytes text.old ++ spec.standing_object columns.now tournament.now standing.now) }
{
    push_front(text, name_of(tournament, standing), standing)?;
    let own = results_of(alloc, standing.player, tournament.results())?;
    push_sessions(text, columns, own.as_slice())
}

/// The members before the sessions.
fn push_front(text: &mut String, name: &str, standing: &Standing) -> Result<(), AllocError>
    ensures { OnOk result (string_bytes text.new
        ≡ string_bytes text.old ++ spec.front_members name.now standing.now) }
{
    push_place(text, name, standing)?;
    push_total(text, standing)?;
    push_best(text, standing)
}

fn push_place(text: &mut String, name: &str, standing: &Standing) -> Result<(), AllocError>
    ensures { OnOk result (string_bytes text.new
        ≡ string_bytes text.old ++ spec.place_and_name name.now standing.now) }
{
    text.push_str("{\"place\":")?;
    push_count(text, standing.place as u64)?;
    text.push_str(",\"name\":\"")?;
    push_escaped(text, name)
}

fn push_total(text: &mut String, standing: &Standing) -> Result<(), AllocError>
    ensures { OnOk result (string_bytes text.new
        ≡ string_bytes text.old ++ spec.total_members standing.now) }
{
    text.push_str("\",\"total\":")?;
    push_points(text, standing.tally.total)?;
    text.push_str(",\"games\":")?;
    push_count(text, standing.tally.games as u64)
}

fn push_best(text: &mut String, standing: &Standing) -> Result<(), AllocError>
    ensures { OnOk result (string_bytes text.new
        ≡ string_bytes text.old ++ spec.best_members standing.now) }
{
    text.push_str(",\"firsts\":")?;
    push_count(text, standing.tally.firsts as u64)?;
    text.push_str(",\"best\":")?;
    push_points(text, i64::from(standing.tally.best))
}

/// A name, which has no control byte, as it stands in a string of JSON.
#[tactic(auto, using(std::proofs::lemmas::Str::chars_from_encodes))]
fn push_escaped(text: &mut String, name: &str) -> Result<(), AllocError>
    ensures { OnOk result (string_bytes text.new
        ≡ string_bytes text.old ++ spec.json_name name.now) }
{
    for character in name.chars() {
        push_character(text, character)?;
    }
    Ok(())
}

fn push_character(text: &mut String, character: char) -> Result<(), AllocError>
    ensures { OnOk result (string_bytes text.new
        ≡ string_bytes text.old ++ spec.json_character character) }
{
    match character {
        '"' => text.push_str("\\\""),
        '\\' => text.push_str("\\\\"),
        _ => text.push(character),
    }
}

/// The member of the sessions, and the end of the object.
fn push_sessions(text: &mut String, columns: &Columns, own: &[SeatResult]) -> Result<(), AllocError>
    ensures { OnOk result (string_bytes text.new
        ≡ string_bytes text.old ++ spec.sessions_member columns.now own.now) }
{
    text.push_str(",\"sessions\":[")?;
    push_columns(text, columns, own)?;
    text.push_str("]}\n")
}

/// The final points of each column.
fn push_columns(text: &mut String, columns: &Columns, own: &[SeatResult]) -> Result<(), AllocError>
    ensures { OnOk result (string_bytes text.new ≡ string_bytes text.old
        ++ flat_map (spec.column_value columns.now own.now) (column_numbers columns.now)) }
{
    for column in u64::from(columns.first)..columns.end() {
        push_comma(text, column > u64::from(columns.first))?;
        push_points_or_null(text, columns.points(column as u32, own))?;
    }
    Ok(())
}

fn push_comma(text: &mut String, is_told: bool) -> Result<(), AllocError>
    ensures { OnOk result (string_bytes text.new
        ≡ string_bytes text.old ++ spec.comma_before is_told) }
{
    text.push_str(if is_told { "," } else { "" })
}

/// Points, or null for none.
fn push_points_or_null(text: &mut String, points: Option<i32>) -> Result<(), AllocError>
    ensures { OnOk result (string_bytes text.new
        ≡ string_bytes text.old ++ spec.points_or_null points) }
{
    match points {
        None => text.push_str("null"),
        Some(points) => push_points(text, i64::from(points)),
    }
}
