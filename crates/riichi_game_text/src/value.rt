//! What a hand is worth by the words of a line.
ghost use Rattle.std.specs.Prelude.{◌≡◌, ◌≤◌, min, None, Some};
ghost use Rattle.riichi_tiles.specs.Melds.{cut_at};
ghost use Rattle.riichi_score.specs.Best.{best_of};
ghost use Rattle.riichi_game_text.specs.Words.{said_in};
ghost use Rattle.riichi_game_text.specs.HandLines.{words_with_equals};
ghost use Rattle.riichi_game_text.specs.Written as spec;

use crate::fault::{GameFault, HandFault};
use crate::hand_line::{Known, read_hand};
use crate::numbers::read_number;
use riichi_game::{LimitHand, counted_worth, limit_worth, worth_of_score};
use riichi_hand::{By, Rules, Switch, WinRecord};
use riichi_score::{Score, WinAnswer, Yaku, YakuSet, best};
use riichi_table::Worth;
use riichi_tiles::split_at_mark;

/// A value as it is written.
#[derive(Clone, Copy)]
pub(crate) enum WrittenValue {
    Counted { han: u8, fu: u8 },
    Limit(LimitHand),
    /// A hand: its word, and the words with `=` behind it.
    Hand,
}

/// What a value is worth, and for how many limits somebody is liable where that isn't said.
#[derive(Clone, Copy)]
pub(crate) struct ValueWorth {
    pub(crate) worth: Worth,
    pub(crate) limits: Option<u8>,
}

/// A value by its first word. None where that can't be one.
#[tactic(auto, unfolding(crate::specs::Written::written_value))]
pub(crate) fn written_value(word: &[u8]) -> Option<WrittenValue>
    ensures { result ≡ spec.written_value word.now }
{
    if is_part(word) {
        return None;
    }
    match limit_named(word) {
        Some(hand) => Some(WrittenValue::Limit(hand)),
        None => behind_colon(word),
    }
}

fn is_part(word: &[u8]) -> bool
    ensures { result ≡ spec.is_part word.now }
{
    word == b"from".as_slice()
        || word == b"and".as_slice()
        || word == b"liable".as_slice()
        || word == b"ready".as_slice()
        || word == b"nagashi".as_slice()
        || word == b"riichi".as_slice()
}

fn limit_named(word: &[u8]) -> Option<LimitHand>
    ensures { result ≡ spec.limit_named word.now }
{
    if word == b"mangan".as_slice() {
        Some(LimitHand::Mangan)
    } else if word == b"haneman".as_slice() {
        Some(LimitHand::Haneman)
    } else if word == b"baiman".as_slice() {
        Some(LimitHand::Baiman)
    } else if word == b"sanbaiman".as_slice() {
        Some(LimitHand::Sanbaiman)
    } else if word == b"yakuman".as_slice() {
        Some(LimitHand::Yakuman { limits: 1 })
    } else {
        None
    }
}

/// `yakuman:LIMITS`, or else another value.
fn behind_colon(word: &[u8]) -> Option<WrittenValue>
    ensures { result ≡ spec.behind_colon word.now (cut_at 58 word.now) }
{
    match split_at_mark(word, b':') {
        None => hand_or_counted(word),
        Some((name, limits)) => {
            if name == b"yakuman".as_slice() {
                let limits = small(read_number(limits)?);
                Some(WrittenValue::Limit(LimitHand::Yakuman { limits }))
            } else {
                hand_or_counted(word)
            }
        }
    }
}

/// `HAN.FU`, or else a hand.
fn hand_or_counted(word: &[u8]) -> Option<WrittenValue>
    ensures { result ≡ spec.hand_or_counted (cut_at 46 word.now) }
{
    match split_at_mark(word, b'.') {
        None => Some(WrittenValue::Hand),
        Some((han, fu)) => {
            let han = small(read_number(han)?);
            let fu = small(read_number(fu)?);
            Some(WrittenValue::Counted { han, fu })
        }
    }
}

/// A number; 255 for a greater one, since none of either is a value.
fn small(number: u32) -> u8
    ensures { result ≡ spec.small number }
{
    number.min(255) as u8
}

/// What a value is worth, by the rules for hands and what the game knows.
pub(crate) fn value_worth(
    rules: Rules,
    known: &Known,
    value: WrittenValue,
    hand: &[u8],
    behind: &[u8],
) -> Result<ValueWorth, GameFault>
    ensures { let words = words_with_equals (said_in behind.now) in
        result ≡ spec.value_worth rules known.now value hand.now words }
{
    match value {
        WrittenValue::Counted { han, fu } => counted_value(rules, known.by, han, fu),
        WrittenValue::Limit(hand) => for_one(limit_worth(rules, hand)),
        WrittenValue::Hand => match read_hand(rules, known, hand, behind) {
            Ok(win) => worth_of(rules, &win),
            Err(fault) => Err(GameFault::G7(HandFault::Words(fault))),
        },
    }
}

fn counted_value(rules: Rules, by: By, han: u8, fu: u8) -> Result<ValueWorth, GameFault>
    ensures { result ≡ spec.counted_value rules by han fu }
{
    if han <= 99 {
        for_one(counted_worth(rules, by, han, fu))
    } else {
        Err(GameFault::G6)
    }
}

fn for_one(worth: Option<Worth>) -> Result<ValueWorth, GameFault>
    ensures { result ≡ spec.for_one worth }
{
    match worth {
        None => Err(GameFault::G6),
        Some(worth) => Ok(ValueWorth {
            worth,
            limits: Some(1),
        }),
    }
}

fn worth_of(rules: Rules, win: &WinRecord) -> Result<ValueWorth, GameFault>
    ensures { result ≡ spec.value_worth_of_answer rules (best_of win.now) }
{
    match best(win) {
        WinAnswer::Won(score) => Ok(ValueWorth {
            worth: worth_of_score(&score),
            limits: liable_limits(rules, &score),
        }),
        WinAnswer::NoYaku => Err(GameFault::G7(HandFault::NoYaku)),
        WinAnswer::NoWin => Err(GameFault::G7(HandFault::NoWin)),
    }
}

fn liable_limits(rules: Rules, score: &Score) -> Option<u8>
    ensures { result ≡ spec.liable_limits rules score.now }
{
    if score.yaku.is_yakuman() {
        own_limits(rules, score.yaku)
    } else {
        None
    }
}

/// The limits that a yakuman names itself.
fn own_limits(rules: Rules, yaku: YakuSet) -> Option<u8>
    ensures { result ≡ spec.own_limits rules yaku }
{
    if yaku.contains(Yaku::BigFourWinds) {
        Some(if rules.has(Switch::DoubleYakuman) {
            2
        } else {
            1
        })
    } else if yaku.contains(Yaku::BigThreeDragons) {
        Some(1)
    } else {
        None
    }
}
