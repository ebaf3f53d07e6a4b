//! The sessions of a tournament.
ghost use Rattle.std.specs.Prelude.{◌≡◌, ◌<◌, IfOk, MatchOption, filter, option_map};
ghost use Rattle.std.specs.List.{find};
ghost use Rattle.riichi_standings.specs.Sessions as spec;
ghost use Rattle.riichi_standings.specs.Tallies.{is_of};

use crate::result::SeatResult;
use std::alloc::{AllocError, Global};

/// The first session that was played; the greatest number of its kind where no game says its session.
pub fn first_session(results: &[SeatResult]) -> u32
    ensures { result ≡ spec.first_session results.now }
{
    let mut first = u32::MAX;
    for seat in results {
        first = earlier(first, seat.session);
    }
    first
}

/// The last session that was played; 0 where no game says its session.
pub fn last_session(results: &[SeatResult]) -> u32
    ensures { result ≡ spec.last_session results.now }
{
    let mut last = 0;
    for seat in results {
        last = later(last, seat.session);
    }
    last
}

fn earlier(first: u32, session: Option<u32>) -> u32
    ensures { result ≡ spec.earlier_session first session }
{
    match session {
        Some(session) if session < first => session,
        _ => first,
    }
}

fn later(last: u32, session: Option<u32>) -> u32
    ensures { result ≡ spec.later_session last session }
{
    match session {
        Some(session) if last < session => session,
        _ => last,
    }
}

/// The first session, of those between the first and the last, in which fewer players have played than in the one before it.
pub fn thin_session(results: &[SeatResult]) -> Option<u32>
    ensures { MatchOption result (spec.NoneIsThin results.now) (spec.IsThin results.now) }
{
    for before in first_session(results)..last_session(results) {
        if seats_in(before + 1, results) < seats_in(before, results) {
            return Some(before + 1);
        }
    }
    None
}

/// How many players have played in a session.
fn seats_in(session: u32, results: &[SeatResult]) -> usize
    ensures { result ≡ spec.players_in session results.now }
{
    results.iter().filter(|seat| is_in(session, *seat)).count()
}

fn is_in(session: u32, seat: &SeatResult) -> bool
    ensures { result ≡ spec.is_in session seat.now }
{
    match seat.session {
        Some(own) => own == session,
        None => false,
    }
}

/// The results of a player, in the order in which they came.
pub fn results_of(
    alloc: Global,
    player: u32,
    results: &[SeatResult],
) -> Result<Vec<SeatResult>, AllocError>
    ensures { IfOk result (λ own. own.items ≡ filter (is_of player) results.now) }
{
    let mut own = Vec::new(alloc);
    for seat in results {
        if seat.player == player {
            own.push(*seat)?;
        }
    }
    Ok(own)
}

/// The final points of the first result of a session, where there is one.
pub fn points_in(session: u32, own: &[SeatResult]) -> Option<i32>
    ensures { result ≡ option_map (λ seat. seat.points) (find (spec.is_in session) own.now) }
{
    for seat in own {
        if is_in(session, seat) {
            return Some(seat.points);
        }
    }
    None
}
