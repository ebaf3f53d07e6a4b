//! Seats are exchanged at the tables, so that each player sits as often at one first seat as at another.
ghost use Rattle.std.specs.Prelude.{◌<◌, ◌≤◌};

use crate::draft::{Draft, Place};

/// So many sessions make a block, in which each player is to sit once at each seat.
const BLOCK: u16 = 4;

/// How often all places are looked at.
const PASSES: u16 = 4;

/// Balances the first seats of all players. In each four sessions in turn a player sits once at each seat, where it can be had;
/// in fewer at their end, at no seat twice.
pub(crate) fn balance_seats(draft: &mut Draft) {
    for _ in 0..PASSES {
        balance_sessions(draft);
    }
}

fn balance_sessions(draft: &mut Draft) {
    for session in 0..draft.sessions() {
        balance_session(draft, session);
    }
}

fn balance_session(draft: &mut Draft, session: u16) {
    for number in 0..draft.players() {
        settle(draft, Place { session, number });
    }
}

/// A player who sits at the seat of a place a second time in the block takes a seat that the player hasn't had, and whoever sat
/// there goes to the seat that is left. That one may have had this seat, and goes on so at another table, and so forth: the chain
/// ends where somebody hasn't had the seat, or had the other one twice.
fn settle(draft: &mut Draft, place: Place) {
    let seat = place.seat();
    let player = draft.player(place);
    if seat_again(draft, player, place.session, seat).is_none() {
        return;
    }
    let Some(free) = free_seat(draft, player, place.session) else {
        return;
    };
    let mut at = place;
    for _ in 0..draft.players() {
        exchange_seats(draft, at, at.at_seat(free));
        let moved = draft.player(at.at_seat(seat));
        let Some(again) = seat_again(draft, moved, at.session, seat) else {
            return;
        };
        if seat_again(draft, moved, at.session, free).is_some() {
            return;
        }
        at = again;
    }
}

/// A seat that a player hasn't in the block of a session.
fn free_seat(draft: &Draft, player: u16, session: u16) -> Option<u16> {
    for seat in 0..4 {
        let is_taken = seat_again(draft, player, session, seat).is_some();
        if !is_taken && !has_seat(draft, player, session, seat) {
            return Some(seat);
        }
    }
    None
}

/// Whether a player sits at a seat in a session.
fn has_seat(draft: &Draft, player: u16, session: u16, seat: u16) -> bool {
    place_of(draft, player, session).is_some_and(|place| place.seat() == seat)
}

/// Where a player sits at a seat in another session of the block.
fn seat_again(draft: &Draft, player: u16, session: u16, seat: u16) -> Option<Place> {
    let first = session - session % BLOCK;
    for other in first..first.saturating_add(BLOCK).min(draft.sessions()) {
        if other != session && has_seat(draft, player, other, seat) {
            return place_of(draft, player, other);
        }
    }
    None
}

/// Where a player sits in a session.
fn place_of(draft: &Draft, player: u16, session: u16) -> Option<Place> {
    let found = draft
        .session(session)
        .iter()
        .position(|other| *other == player)?;
    let number = u16::try_from(found).ok()?;
    Some(Place { session, number })
}

/// The players of two seats of a table change places.
fn exchange_seats(draft: &mut Draft, one: Place, other: Place) {
    let (first, second) = (draft.player(one), draft.player(other));
    draft.put(one, second);
    draft.put(other, first);
}
