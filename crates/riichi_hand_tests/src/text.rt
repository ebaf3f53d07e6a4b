use crate::facts::same;
use arrayvec::ArrayString;
use riichi_text::*;
use riichi_tiles::{Block, Kind, Meld};
use std::process::Abort;

#[test]
fn pushes_numbers_and_kinds(rt: HostRuntime) {
    let mut text: ArrayString<64> = ArrayString::new();
    push_number(&mut text, 0u8);
    push_number(&mut text, 48000u32);
    push_kind(&mut text, Kind::at(4));
    push_two(&mut text, Kind::at(9));
    push_three(&mut text, Kind::at(26));
    push_four(&mut text, Kind::at(33));
    same(&rt, text.as_str(), "0480005m11p999s7777z");
    for (number, digit, letter) in [
        (8, b'9', b'm'),
        (9, b'1', b'p'),
        (26, b'9', b's'),
        (27, b'1', b'z'),
    ] {
        let kind = Kind::at(number).index();
        same(&rt, (digit_of(kind), letter_of(kind)), (digit, letter));
    }
}

/// A block is written so.
fn block_is(rt: &impl Abort, block: &Block, wanted: &str) {
    let mut text: ArrayString<16> = ArrayString::new();
    push_block(&mut text, block);
    same(rt, text.as_str(), wanted);
}

/// A meld is written so.
fn meld_is(rt: &impl Abort, meld: &Meld, wanted: &str) {
    let mut text: ArrayString<16> = ArrayString::new();
    push_meld(&mut text, meld);
    same(rt, text.as_str(), wanted);
}

#[test]
fn pushes_blocks_and_melds(rt: HostRuntime) {
    block_is(&rt, &Block::Run(Kind::at(24)), "789s");
    block_is(&rt, &Block::Triplet(Kind::at(27)), "111z");
    block_is(&rt, &Block::Pair(Kind::at(13)), "55p");
    meld_is(&rt, &Meld::Chi(Kind::at(2)), "chi:345m");
    meld_is(&rt, &Meld::Pon(Kind::at(33)), "pon:777z");
    meld_is(&rt, &Meld::Kan(Kind::at(8)), "kan:9999m");
    meld_is(&rt, &Meld::Ankan(Kind::at(18)), "ankan:1111s");
}
