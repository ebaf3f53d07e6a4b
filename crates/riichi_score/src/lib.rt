//! What a win is worth: `best` gives the `WinAnswer` of a `WinRecord`, and `win_text` is that on one line; `push_win` writes
//! it behind a text that is kept.
//!
//! A `Score` is that of one reading of the hand: its han (`han`, with the `dora`) and its `fu` give the
//! `base_points`, these what each player pays (`payment`, a `Payment`), and that the winner's `gain`.
//! The yaku are those of riichi_yaku, whose `Yaku` and `YakuSet` stand here again, and `yaku_of` as `yaku`. `best` is the greatest
//! score among the readings that have a yaku, and `best_reading` gives the reading too.
//!
//! Of 234m567m345p67s99s won by ron with 5s, `win_text(&best(&win))` is
//! `won 1 han 30 fu 1000 gain 1000 pinfu`.
#![tactic(auto)]

mod answer;
mod base;
mod decided;
mod indicators;
mod leading;
mod limits;
mod payers;
mod points;
mod read;
mod score;
mod settlement;
mod text;
mod worth;

pub use answer::{WinAnswer, best, hand_of};
pub use base::{base_points, han, is_raised, product_of};
pub use indicators::{counted_ura, dora, red_dora};
pub use limits::yakuman_limits;
pub use payers::{Payment, gain};
pub use points::{block_fu, fu, open_fu, ron_fu, self_draw_fu};
pub use read::{BestReading, best_reading};
pub use riichi_yaku::{Yaku, YakuSet, yaku_of as yaku};
pub use score::Score;
pub use settlement::{paid_for, payment, up};
pub use text::{MOST_WIN, push_win, win_text};
pub use worth::score_of;
