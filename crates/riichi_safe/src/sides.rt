//! Two-sided waits.
ghost use Rattle.std.specs.Prelude.{◌≡◌, ◌+◌, ◌<◌};
ghost use Rattle.riichi_safe.specs.Safe as spec;

use crate::passed::is_passed;
use crate::safe_record::SafeRecord;
use riichi_tiles::Kind;

/// What is known of a two-sided wait of the threatening player.
#[derive(Clone, Copy, Debug, PartialEq, Eq)]
pub enum WaitState {
    /// Nothing that rules it out.
    Open,
    /// The other kind that it waits for can't be won on, so that this one can't be either.
    Suji,
    /// All four tiles of one of its two kinds are seen.
    Wall,
}

/// A two-sided wait: by two neighbours for the kind below and that above them.
#[derive(Clone, Copy, Debug, PartialEq, Eq)]
pub struct TwoSided {
    /// The lower of the two neighbours, a 2 to 7 of m, p or s.
    pub low: Kind,
    /// The other kind that they wait for.
    pub other: Kind,
    pub state: WaitState,
}

/// The two-sided waits on a kind: that by the two kinds below it, and that by the two above it, each where there is one.
pub fn two_sided(asked: &SafeRecord, kind: Kind) -> [Option<TwoSided>; 2]
    ensures { result ≡ spec.two_sided_of asked.now kind }
{
    [from_below(asked, kind), from_above(asked, kind)]
}

/// The wait by the two kinds below.
#[tactic(auto, unfolding(crate::specs::Safe::wait_from_below))]
fn from_below(asked: &SafeRecord, kind: Kind) -> Option<TwoSided>
    ensures { result ≡ spec.wait_from_below asked.now kind }
{
    let number = kind.index() as u8;
    if number < 3 {
        return None;
    }
    let other = Kind::at(number - 3);
    let low = Kind::at(number - 2);
    if other.begins_run() && low.begins_run() {
        Some(wait_by(asked, low, other))
    } else {
        None
    }
}

/// The wait by the two kinds above.
#[tactic(auto, unfolding(crate::specs::Safe::wait_from_above))]
fn from_above(asked: &SafeRecord, kind: Kind) -> Option<TwoSided>
    ensures { result ≡ spec.wait_from_above asked.now kind }
{
    if !kind.begins_run() {
        return None;
    }
    let number = kind.index() as u8;
    let low = Kind::at(number + 1);
    if !low.begins_run() {
        return None;
    }
    Some(wait_by(asked, low, Kind::at(number + 3)))
}

/// The wait by two neighbours, of which this is the other kind that they wait for.
fn wait_by(asked: &SafeRecord, low: Kind, other: Kind) -> TwoSided
    requires { low + 1 < 34 }
    ensures { result ≡ spec.wait_by asked.now low other }
{
    let state = if is_passed(asked, other) {
        WaitState::Suji
    } else if is_wall(asked, low) || is_wall(asked, Kind::at(low.index() as u8 + 1)) {
        WaitState::Wall
    } else {
        WaitState::Open
    };
    TwoSided { low, other, state }
}

/// Whether all four tiles of a kind are seen.
fn is_wall(asked: &SafeRecord, kind: Kind) -> bool
    ensures { result ≡ spec.is_wall asked.now kind }
{
    asked.copies(kind) == 4
}
