//! Where a cut is kept.
ghost use Rattle.std.specs.Prelude.{◌≡◌, ◌<◌, IsTrue};

use riichi_split::SuitTiles;

/// Whether nine counts are the same: eight at once.
#[inline(always)]
fn are_same(some: &[u8; 9], others: &[u8; 9]) -> bool
    ensures { IsTrue result → some.now ≡ others.now }
{
    let [a, b, c, d, e, f, g, h, last] = *some;
    let [i, j, k, l, m, n, o, p, other_last] = *others;
    let first = u64::from_le_bytes([a, b, c, d, e, f, g, h]);
    let other_first = u64::from_le_bytes([i, j, k, l, m, n, o, p]);
    first == other_first && last == other_last
}

/// Whether two suits have the same tiles.
#[inline(always)]
pub(crate) fn is_suit(some: &SuitTiles, other: &SuitTiles) -> bool
    ensures { IsTrue result → some.now ≡ other.now }
{
    some.has_runs == other.has_runs && are_same(&some.held, &other.held)
}

/// One of so many places. Any would do: it should be found quickly, and seldom be the same for suits that hands have.
#[inline(always)]
pub(crate) fn place_of(tiles: &SuitTiles, places: usize) -> usize
    requires { 0 < places }
    ensures { result < places }
{
    let [a, b, c, d, e, f, g, h, last] = tiles.held;
    let first = u64::from_le_bytes([a, b, c, d, e, f, g, h]);
    let held = (first << 3) ^ last as u64 ^ (tiles.has_runs as u64) << 2;
    let mixed = held.wrapping_mul(0x9e37_79b9_7f4a_7c15);
    let mixed = (mixed ^ mixed >> 32).wrapping_mul(0x9e37_79b9_7f4a_7c15);
    (mixed >> 32) as usize & (places - 1)
}
