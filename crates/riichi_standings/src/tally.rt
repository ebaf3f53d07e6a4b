//! What a player has of all results.
ghost use Rattle.std.specs.Prelude.{◌≡◌, ◌≤◌, ◌≤ℤ◌, count_by, length, negsuc, pos};
ghost use Rattle.riichi_standings.specs.Tallies as spec;

use crate::result::{MOST_RESULTS, SeatResult};

/// What a player has of all results.
#[derive(Clone, Copy, Debug, PartialEq, Eq, PartialOrd, Ord)]
pub struct Tally {
    /// The sum of the final points of the player's games.
    pub total: i64,
    /// How many games the player has played.
    pub games: usize,
    /// In how many of them the player was first.
    pub firsts: usize,
    /// The most final points of one game; the least number of its kind where there is no game.
    pub best: i32,
}

impl Tally {
    /// What the player of this number has of all results.
    pub fn of(player: u32, results: &[SeatResult]) -> Tally
        requires { length results.now ≤ MOST_RESULTS }
        ensures { result ≡ spec.results_tally player results.now }
    {
        Tally {
            total: total_of(player, results),
            games: games_of(player, results),
            firsts: firsts_of(player, results),
            best: best_of(player, results),
        }
    }
}

fn total_of(player: u32, results: &[SeatResult]) -> i64
    requires { length results.now ≤ MOST_RESULTS }
    ensures { result ≡ spec.total_points_of player results.now }
{
    let mut total: i64 = 0;
    for seat in results {
        total += points_for(player, seat);
    }
    total
}

/// The final points of a result, where it is the player's.
fn points_for(player: u32, seat: &SeatResult) -> i64
    ensures value { result ≡ spec.points_for player seat.now }
    ensures least { negsuc 2147483647 ≤ℤ result }
    ensures most { result ≤ℤ pos 2147483648 }
{
    if seat.player == player {
        i64::from(seat.points)
    } else {
        0
    }
}

fn games_of(player: u32, results: &[SeatResult]) -> usize
    ensures { result ≡ spec.games_of player results.now }
{
    results.iter().filter(|seat| seat.player == player).count()
}

fn firsts_of(player: u32, results: &[SeatResult]) -> usize
    ensures { result ≡ spec.firsts_of player results.now }
{
    results
        .iter()
        .filter(|seat| seat.player == player && seat.place == 1)
        .count()
}

fn best_of(player: u32, results: &[SeatResult]) -> i32
    ensures { result ≡ spec.best_points_of player results.now }
{
    let mut best = i32::MIN;
    for seat in results {
        if seat.player == player && seat.points > best {
            best = seat.points;
        }
    }
    best
}
