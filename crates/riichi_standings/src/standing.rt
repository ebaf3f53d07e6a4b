//! The players in the order of their places.
ghost use Rattle.std.specs.Prelude.{◌≡◌, ◌≤◌, IfOk, IsPermutation, count_by, length, map, string_bytes, string_cmp};
ghost use Rattle.std.specs.Ordering.{is_lt};
ghost use Rattle.std.specs.List.Sorted.{IsSorted};
ghost use Rattle.riichi_standings.specs.Standings as spec;

use crate::places::{TieBreak, place};
use crate::result::{MOST_RESULTS, SeatResult};
use crate::tally::Tally;
use std::alloc::{AllocError, Global};

/// So many players have standings at most.
pub const MOST_PLAYERS: usize = 4_294_967_295;

/// What stands of a player. Players are compared by place and then by name.
#[derive(Clone, Copy, Debug, PartialEq, Eq, PartialOrd, Ord)]
pub struct Standing {
    /// The place: one more than are ahead.
    pub place: usize,
    /// How many names come before the player's, by their bytes.
    pub names_before: usize,
    /// The number of the player.
    pub player: u32,
    /// What the player has of all results.
    pub tally: Tally,
}

/// The players of these names by their results, in the order of their places and then of their names. The number of a player is the
/// place of the name, from 0 on. Memory that isn't there is an error.
pub fn standings(
    alloc: Global,
    ties: TieBreak,
    names: &[String],
    results: &[SeatResult],
) -> Result<Vec<Standing>, AllocError>
    requires names { length names.now ≤ MOST_PLAYERS }
    requires results { length results.now ≤ MOST_RESULTS }
    ensures each_once { IfOk result (λ list.
        IsPermutation (spec.standings_of ties (map string_bytes names.now) results.now) list.items) }
    ensures in_order { IfOk result (λ list. IsSorted ⟦<Standing as Ord>⟧.cmp list.items) }
{
    let tallies = tallies_of(alloc, names.len() as u32, results)?;
    let mut list = each_standing(alloc, ties, names, tallies.as_slice())?;
    list.sort()?;
    Ok(list)
}

/// What each of so many players has.
fn tallies_of(alloc: Global, players: u32, results: &[SeatResult]) -> Result<Vec<Tally>, AllocError>
    requires { length results.now ≤ MOST_RESULTS }
    ensures { IfOk result (λ tallies. tallies.items ≡ spec.tallies_of players results.now) }
{
    let mut tallies = Vec::new(alloc);
    for player in 0..players {
        tallies.push(Tally::of(player, results))?;
    }
    Ok(tallies)
}

/// What stands of each player, by the numbers of the players.
fn each_standing(
    alloc: Global,
    ties: TieBreak,
    names: &[String],
    tallies: &[Tally],
) -> Result<Vec<Standing>, AllocError>
    requires { length tallies.now ≤ MOST_PLAYERS }
    ensures { IfOk result (λ list. list.items
        ≡ spec.each_standing ties (map string_bytes names.now) tallies.now) }
{
    let mut list = Vec::new(alloc);
    for (player, tally) in tallies.iter().enumerate() {
        list.push(Standing {
            place: place(ties, tallies, tally),
            names_before: names_before(names, player),
            player: player as u32,
            tally: *tally,
        })?;
    }
    Ok(list)
}

/// How many names come before that of a player.
fn names_before(names: &[String], player: usize) -> usize
    ensures { result ≡ spec.names_before (map string_bytes names.now) player }
{
    match names.get(player) {
        None => 0,
        Some(own) => names_less(names, own),
    }
}

/// How many names come before this one.
fn names_less(names: &[String], own: &String) -> usize
    ensures { result ≡ count_by (λ other. is_lt (string_cmp other own.now)) names.now }
{
    names.iter().filter(|other| *other < own).count()
}
