//! Which kinds are held, as bits.
ghost use Rattle.std.specs.Prelude.{◌≡◌, ◌*◌, ◌<◌, ◌≤◌, ◌^◌, length, map, nat_lt, take, if◌then◌else◌};
ghost use lib.Lanes.{mask_l};
ghost use Rattle.riichi_tiles.specs.HeldKinds as spec;

use std::simd::prelude::*;

/// A bit for each kind of which there is a tile.
#[inline(always)]
pub(crate) fn bits_of(counts: &[u8; 34]) -> u64
    ensures held { spec.AreHeldOf counts.now result }
    ensures below { result < 2 ^ 34 }
{
    let red = bit_if(counts[33] > 0, 0x2_0000_0000);
    bits_of_first(counts) + bit_if(counts[32] > 0, 0x1_0000_0000) + red
}

/// The bits of the first 32 kinds.
#[inline(always)]
fn bits_of_first(counts: &[u8]) -> u64
    requires { 32 ≤ length counts.now }
    ensures { result ≡ mask_l (map (nat_lt 0) (take 32 counts.now)) }
{
    let first = u8x32::from_slice(counts);
    first.simd_ne(u8x32::splat(0)).to_bitmask()
}

#[inline(always)]
fn bit_if(held: bool, bit: u64) -> u64
    ensures { result ≡ bit * (if held then 1 else 0) }
{
    if held { bit } else { 0 }
}
