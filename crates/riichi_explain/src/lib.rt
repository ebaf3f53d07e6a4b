//! Why an answer is what it is: a win, a shape, a wait.
//!
//! [`explain_win`] gives the reading of a win that scores and the rows of it, which add up; [`explain_shape`] how far a shape is
//! from each form. [`push_win_lines`] and [`push_shanten_line`] write their lines, which begin with two spaces.
//! [`ranked_readings`] gives every reading of a win with its score, the best first; [`explain_ranked`] explains the win by these,
//! and [`push_other_reading`] writes what one is worth that isn't the best. No call takes memory.
//!
//! [`explain_waits`] gives the kinds that a hand waits for, each as a [`KindWait`]: the copies that neither hand nor melds hold,
//! and the sorts of wait that the readings of the hand with one more of the kind make. [`push_waits_line`] writes their line.
//!
//! ```text
//! waits 123456789m1134p
//!   2p 4 left, two-sided (ryanmen); 5p 4 left, two-sided (ryanmen)
//! ```
#![tactic(auto)]

mod base;
mod decided;
mod dora;
mod explaining;
mod forms;
mod fu;
mod han;
mod missed;
mod notes;
mod others;
mod payers;
mod points_text;
mod ranked;
mod reading_text;
mod room;
mod rows_text;
mod waits;
mod waits_text;
mod win;
mod win_text;
mod words;

pub use base::{BaseRule, Limit, base_rule};
pub use dora::{DoraPart, DoraRow, DoraRows, MOST_DORA_ROWS, dora_rows};
pub use explaining::{MOST_WIN_LINES, Shown, push_win_lines};
pub use forms::{MOST_SHANTEN_LINE, explain_shape, push_shanten_line};
pub use fu::{FuPart, FuRow, FuRows, MOST_FU_ROWS, fu_rows, fu_total};
pub use han::{HanPart, HanRow, HanRows, MOST_HAN_ROWS, han_rows};
pub use missed::MissedWin;
pub use others::{MOST_OTHER_READING, push_other_reading};
pub use payers::{MOST_PAY_ROWS, PayRow, PayRows, Payer, pay_rows};
pub use ranked::{MOST_READINGS, RankedReading, Ranking, ranked_readings};
pub use reading_text::push_no_yaku;
pub use room::{REASONS_ROOM, ReasonsText};
pub use waits::{ExplainedWaits, KindWait, KindWaits, MOST_KIND_WAITS, WaitSorts, explain_waits};
pub use waits_text::{MOST_WAITS_LINE, push_waits_line};
pub use win::{WinExplanation, WonHand, explain_ranked, explain_win};
pub use win_text::{MOST_WON_HAND, push_won_hand, won_hand_text};
pub use words::{
    MOST_DORA_JAPANESE, MOST_DORA_WORDS, MOST_FU_JAPANESE, MOST_FU_WORDS, MOST_PAYER,
    dora_japanese, dora_words, fu_japanese, fu_words, payer_words,
};
