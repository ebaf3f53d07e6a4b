//! The text of blocks and melds.
ghost use Rattle.std.specs.Prelude.{◌≡◌, ◌+◌, ◌≤◌, ◌++◌};
ghost use Rattle.arrayvec.specs.ArrayString.{array_string_len};
ghost use Rattle.riichi_text.specs.Tiles as spec;

use crate::kind::{digit_of, letter_of, push_four, push_three, push_two};
use arrayvec::ArrayString;
use riichi_tiles::{Block, Kind, Meld};

/// The bytes of the longest block.
pub const MOST_BLOCK: usize = "123m".len();

/// The bytes of the longest meld.
pub const MOST_MELD: usize = "ankan:1111m".len();

#[tactic(auto, unfolding(crate::specs::Tiles::run_text))]
fn push_run<const ROOM: usize>(text: &mut ArrayString<ROOM>, low: Kind)
    requires { array_string_len text.old + 4 ≤ ROOM }
    ensures bytes { text.new.bytes ≡ text.old.bytes ++ spec.run_text low }
    ensures len { array_string_len text.new ≡ array_string_len text.old + 4 }
{
    let digit = digit_of(low.index());
    text.push(digit as char);
    text.push((digit + 1) as char);
    text.push((digit + 2) as char);
    text.push(letter_of(low.index()) as char);
}

/// Writes a run, a triplet or a pair.
#[tactic(auto, unfolding(crate::specs::Tiles::block_text))]
pub fn push_block<const ROOM: usize>(text: &mut ArrayString<ROOM>, block: &Block)
    requires { array_string_len text.old + MOST_BLOCK ≤ ROOM }
    ensures bytes { text.new.bytes ≡ text.old.bytes ++ spec.block_text block.now }
    ensures len { array_string_len text.new ≤ array_string_len text.old + MOST_BLOCK }
{
    match *block {
        Block::Run(low) => push_run(text, low),
        Block::Triplet(kind) => push_three(text, kind),
        Block::Pair(kind) => push_two(text, kind),
    }
}

/// Writes a meld as it stands in a line.
#[tactic(auto, unfolding(crate::specs::Tiles::meld_text))]
pub fn push_meld<const ROOM: usize>(text: &mut ArrayString<ROOM>, meld: &Meld)
    requires { array_string_len text.old + MOST_MELD ≤ ROOM }
    ensures bytes { text.new.bytes ≡ text.old.bytes ++ spec.meld_text meld.now }
    ensures len { array_string_len text.new ≤ array_string_len text.old + MOST_MELD }
{
    match *meld {
        Meld::Chi(low) => {
            text.push_str("chi:");
            push_run(text, low);
        }
        Meld::Pon(kind) => {
            text.push_str("pon:");
            push_three(text, kind);
        }
        Meld::Kan(kind) => {
            text.push_str("kan:");
            push_four(text, kind);
        }
        Meld::Ankan(kind) => {
            text.push_str("ankan:");
            push_four(text, kind);
        }
    }
}
