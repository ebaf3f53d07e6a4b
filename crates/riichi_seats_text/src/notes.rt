//! What is said of the games of sessions, as notes.
ghost use Rattle.std.specs.Prelude.{◌≡◌, ◌++◌, codes, decimal, map, OnOk};
ghost use Rattle.std.specs.List.{flat_map};
ghost use Rattle.riichi_seats_text.specs.Notes as spec;

use crate::games::{push_decimal, push_name};
use riichi_game_text::Name;
use riichi_seats::{Repeated, SeatCounts, Table, repeated_pairs, seat_counts};
use std::alloc::{AllocError, Global};

/// With the pairs of so many players that meet more than once, and the seats of each player.
pub(crate) fn push_notes(
    alloc: Global,
    text: &mut Vec<u8>,
    names: &[Name],
    players: u16,
    games: &[Table],
) -> Result<(), AllocError>
    ensures { OnOk result (text.new.items ≡ text.old.items
        ++ spec.notes_text (map (λ name. name.bytes) names.now) games.now players) }
{
    let pairs = repeated_pairs(alloc, games, players)?;
    push_pairs(text, names, pairs.as_slice())?;
    push_seats(text, names, players, games)?;
    Ok(())
}

/// With a line for each pair, or that there is none.
fn push_pairs(text: &mut Vec<u8>, names: &[Name], pairs: &[Repeated]) -> Result<(), AllocError>
    ensures { OnOk result (text.new.items ≡ text.old.items
        ++ spec.pairs_text (map (λ name. name.bytes) names.now) pairs.now) }
{
    if pairs.is_empty() {
        return text.extend_from_slice(b"# no two meet twice\n");
    }
    push_pair_lines(text, names, pairs)
}

fn push_pair_lines(text: &mut Vec<u8>, names: &[Name], pairs: &[Repeated]) -> Result<(), AllocError>
    ensures { OnOk result (text.new.items ≡ text.old.items
        ++ flat_map (spec.pair_line (map (λ name. name.bytes) names.now)) pairs.now) }
{
    for pair in pairs {
        push_pair(text, names, pair)?;
    }
    Ok(())
}

#[tactic(auto, unfolding(crate::specs::Notes::pair_line))]
fn push_pair(text: &mut Vec<u8>, names: &[Name], pair: &Repeated) -> Result<(), AllocError>
    ensures { OnOk result (text.new.items ≡ text.old.items
        ++ spec.pair_line (map (λ name. name.bytes) names.now) pair.now) }
{
    text.extend_from_slice(b"# ")?;
    push_name(text, names, pair.one)?;
    text.extend_from_slice(b" and ")?;
    push_name(text, names, pair.other)?;
    text.extend_from_slice(b" meet ")?;
    push_decimal(text, pair.times)?;
    text.extend_from_slice(b" times\n")
}

/// With the seats of each player.
fn push_seats(
    text: &mut Vec<u8>,
    names: &[Name],
    players: u16,
    games: &[Table],
) -> Result<(), AllocError>
    ensures { OnOk result (text.new.items ≡ text.old.items
        ++ spec.seats_text (map (λ name. name.bytes) names.now) games.now players) }
{
    for player in 0..players {
        push_seats_line(text, names, games, player)?;
    }
    Ok(())
}

/// With the line of a player.
#[tactic(auto, unfolding(crate::specs::Notes::seats_line))]
fn push_seats_line(
    text: &mut Vec<u8>,
    names: &[Name],
    games: &[Table],
    player: u16,
) -> Result<(), AllocError>
    ensures { OnOk result (text.new.items ≡ text.old.items
        ++ spec.seats_line (map (λ name. name.bytes) names.now) games.now player) }
{
    let counts = seat_counts(games, player);
    text.extend_from_slice(b"# seats ")?;
    push_name(text, names, player)?;
    push_counts(text, &counts)?;
    text.extend_from_slice(b"\n")?;
    Ok(())
}

/// With the numbers of a player.
#[tactic(auto, unfolding(crate::specs::Notes::counts_text))]
fn push_counts(text: &mut Vec<u8>, counts: &SeatCounts) -> Result<(), AllocError>
    ensures { OnOk result (text.new.items ≡ text.old.items ++ spec.counts_text counts.now) }
{
    push_spaced(text, counts.east)?;
    push_spaced(text, counts.south)?;
    push_spaced(text, counts.west)?;
    push_spaced(text, counts.north)?;
    Ok(())
}

/// With a space and a number.
fn push_spaced(text: &mut Vec<u8>, number: usize) -> Result<(), AllocError>
    ensures { OnOk result (text.new.items ≡ text.old.items ++ codes " " ++ decimal number) }
{
    text.extend_from_slice(b" ")?;
    push_decimal(text, number)?;
    Ok(())
}
