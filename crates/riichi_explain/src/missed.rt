//! Why a hand is no win: how far it is from each form, and what its tiles wait for without the last one.
ghost use Rattle.std.specs.Prelude.{◌≡◌, ◌+◌, ◌≤◌, ◌++◌, length};
ghost use Rattle.arrayvec.specs.ArrayString.{array_string_len};
ghost use Rattle.riichi_hand.specs.Win.{IsWinRecord};
ghost use Rattle.riichi_score.specs.Limits.{waiting_hand};
ghost use Rattle.riichi_score.specs.Scores.{completed_hand};
ghost use Rattle.riichi_explain.specs.Waits.{kind_waits};
ghost use Rattle.riichi_explain.specs.Forms.{AreFormDistances};
ghost use Rattle.riichi_explain.specs.Missed as spec;

use crate::forms::{MOST_SHANTEN_LINE, push_shanten_line, win_forms};
use crate::room::{REASONS_ROOM, ReasonsText};
use crate::waits::{KindWait, KindWaits, MOST_KIND_WAITS, explain_waits};
use crate::waits_text::MOST_WAITS;
use arrayvec::ArrayVec;
use riichi_hand::{HandRecord, WinRecord};
use riichi_shape::{FormDistances, RowSource};
use riichi_text::push_list;

/// The bytes of the longest lines of a hand that is no win.
pub(crate) const MOST_MISSED: usize = MOST_SHANTEN_LINE + MOST_MISSED_WAITS;

const MOST_MISSED_WAITS: usize = "  waits   ".len() + MOST_WAITS + "\n".len();

/// A hand that has no reading.
#[derive(Drop)]
pub struct MissedWin {
    /// How far the hand is from each form, the winning tile among its tiles.
    pub forms: FormDistances,
    /// The kinds that it waits for before the winning tile: none where it isn't ready.
    pub waits: KindWaits,
}

pub(crate) fn missed_win<R: RowSource>(source: &mut R, win: &WinRecord) -> MissedWin
    ensures forms { AreFormDistances (completed_hand win.now) win.now.melds result.forms }
    ensures waits { result.waits.items ≡ kind_waits (waiting_hand win.now) }
    ensures stays { source.new ≡ source.old }
{
    MissedWin {
        forms: win_forms(source, win),
        waits: waits_before(win),
    }
}

/// The kinds that the hand waits for before the winning tile.
#[tactic(auto, using(riichi_score::proofs::HandBefore::hand_before))]
fn waits_before(win: &WinRecord) -> KindWaits
    ensures { result.items ≡ kind_waits (waiting_hand win.now) }
{
    let parts = win.parts();
    match HandRecord::new(parts.concealed, parts.melds) {
        Ok(hand) => explain_waits(&hand).rows,
        Err(_) => ArrayVec::new(),
    }
}

/// Writes the line of the shanten by each form, and below it the kinds that the hand waits for.
#[tactic(auto, unfolding(crate::specs::Missed::missed_lines))]
pub(crate) fn push_missed_lines(text: &mut ReasonsText, missed: &MissedWin)
    requires { array_string_len text.old + MOST_MISSED ≤ REASONS_ROOM }
    ensures { text.new.bytes ≡ text.old.bytes ++ spec.missed_lines missed.now }
{
    push_shanten_line(text, &missed.forms);
    push_missed_waits(text, missed.waits.as_slice());
}

#[tactic(auto, unfolding(crate::specs::Missed::missed_waits))]
fn push_missed_waits(text: &mut ReasonsText, rows: &[KindWait])
    requires few { length rows.now ≤ MOST_KIND_WAITS }
    requires room { array_string_len text.old + MOST_MISSED_WAITS ≤ REASONS_ROOM }
    ensures { text.new.bytes ≡ text.old.bytes ++ spec.missed_waits rows.now }
{
    if !rows.is_empty() {
        text.push_str("  waits   ");
        push_list(text, "; ", rows);
        text.push_str("\n");
    }
}
