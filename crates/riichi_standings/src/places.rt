//! The places of players by what they have.
ghost use Rattle.std.specs.Prelude.{◌≡◌, ◌≤◌, ◌+◌, count_by, length};
ghost use Rattle.riichi_standings.specs.Places as spec;

use crate::tally::Tally;

/// What parts players with equal totals.
#[derive(Clone, Copy, Debug, PartialEq, Eq)]
pub enum TieBreak {
    /// Nothing: they have the same place.
    Shared,
    /// More first places.
    Firsts,
    /// More final points in the best game.
    Best,
}

/// Whether one player is ahead of another: by the total, and of equal totals by what parts them.
pub fn is_ahead(ties: TieBreak, one: &Tally, other: &Tally) -> bool
    ensures { result ≡ spec.stands_ahead ties one.now other.now }
{
    if one.total != other.total {
        return one.total > other.total;
    }
    match ties {
        TieBreak::Shared => false,
        TieBreak::Firsts => one.firsts > other.firsts,
        TieBreak::Best => one.best > other.best,
    }
}

/// The place of a player among all: one more than are ahead. So players with equal places are followed by as many places that
/// nobody has, as in 1 2 2 4.
pub fn place(ties: TieBreak, all: &[Tally], own: &Tally) -> usize
    requires { length all.now ≤ 4294967295 }
    ensures { result ≡ spec.standing_place ties all.now own.now }
{
    1 + all
        .iter()
        .filter(|other| is_ahead(ties, *other, own))
        .count()
}
