//! How long a line may be, and of which bytes.
ghost use Rattle.std.specs.Prelude.{◌≡◌, ◌+◌, ◌<◌, ◌≤◌, false, length, take, drop};
ghost use Rattle.std.specs.List.{list_any};
ghost use Rattle.riichi_hand.specs.Lines.{is_other_byte};

use std::simd::prelude::*;

/// The longest line that is read.
pub const MOST_LINE: usize = 4096;

/// So many bytes are looked at together.
const BLOCK: usize = 16;

/// Whether a line has a byte that is no printable ASCII.
pub fn has_other_byte(line: &[u8]) -> bool
    ensures { result ≡ list_any is_other_byte line.now }
{
    if line.len() >= BLOCK {
        return blocks_have_other_byte(line);
    }
    let mut found = false;
    for byte in line {
        found = found | is_other_byte(*byte);
    }
    found
}

/// `has_other_byte` of a line of a block or more. The last block may overlap the one before.
fn blocks_have_other_byte(line: &[u8]) -> bool
    requires { BLOCK ≤ length line.now }
    ensures { result ≡ list_any is_other_byte line.now }
{
    let last = line.len() - BLOCK;
    let mut place = 0;
    while place < last {
        if block_has_other_byte(line, place) {
            return true;
        }
        place += BLOCK;
    }
    block_has_other_byte(line, last)
}

#[inline(always)]
fn block_has_other_byte(line: &[u8], place: usize) -> bool
    requires { place + BLOCK ≤ length line.now }
    ensures { result ≡ list_any is_other_byte (take BLOCK (drop place line.now)) }
{
    let block = u8x16::from_slice(&line[place..]);
    let below = block.simd_lt(u8x16::splat(0x20));
    let above = block.simd_gt(u8x16::splat(0x7e));
    (below | above).to_bitmask() != 0
}

/// Whether a byte is no printable ASCII: it is outside 0x20 to 0x7E.
pub fn is_other_byte(byte: u8) -> bool
    ensures value { result ≡ is_other_byte byte }
    ensures ascii { result ≡ false → byte < 128 }
{
    byte < 0x20 || byte > 0x7e
}
