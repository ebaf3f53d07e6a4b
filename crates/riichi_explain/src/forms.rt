//! How far tiles are from each form of a winning hand, and the line of it.
ghost use Rattle.std.specs.Prelude.{◌≡◌, ◌+◌, ◌≤◌, ◌++◌, length, pos, ◌-ℤ◌};
ghost use Rattle.arrayvec.specs.ArrayString.{array_string_len};
ghost use Rattle.riichi_score.specs.Scores.{completed_hand};
ghost use Rattle.riichi_shape.specs.EveryWinning.{shanten_of};
ghost use Rattle.riichi_shape.specs.Forms.{least_of};
ghost use Rattle.riichi_explain.specs.Forms as spec;

use crate::room::{REASONS_ROOM, ReasonsText};
use riichi_hand::{ShapeRecord, WinRecord};
use riichi_score::hand_of;
use riichi_shape::{FormDistances, RowSource, form_distances};
use riichi_text::{MOST_U8, push_number};

/// The bytes of the longest line of the shanten.
pub const MOST_SHANTEN_LINE: usize = "  shanten ".len()
    + 3 * (MOST_NAME + MOST_SHANTEN)
    + "\n".len();

const MOST_NAME: usize = ", thirteen orphans ".len();

const MOST_SHANTEN: usize = MOST_U8;

/// How far the tiles of a shape are from each form, by the rows of a source. The least of these, less one, is its shanten.
#[tactic(auto, using(riichi_shape::proofs::ShapeFacts::melds_few, crate::proofs::FormLemmas::distances_of))]
pub fn explain_shape<R: RowSource>(source: &mut R, shape: &ShapeRecord) -> FormDistances
    ensures forms { spec.AreFormDistances shape.now.tiles shape.now.melds result }
    ensures least { pos (least_of result) -ℤ pos 1 ≡ shanten_of shape.now.tiles shape.now.melds }
    ensures stays { source.new ≡ source.old }
{
    form_distances(source, &shape.tiles(), &shape.melds())
}

/// How far the tiles of a win are from each form, the winning tile among them.
pub(crate) fn win_forms<R: RowSource>(source: &mut R, win: &WinRecord) -> FormDistances
    ensures forms { spec.AreFormDistances (completed_hand win.now) win.now.melds result }
    ensures stays { source.new ≡ source.old }
{
    form_distances(source, &hand_of(win), &win.melds())
}

/// Writes the line of the shanten by each form.
#[tactic(auto, unfolding(crate::specs::Forms::shanten_line))]
pub fn push_shanten_line(text: &mut ReasonsText, forms: &FormDistances)
    requires { array_string_len text.old + MOST_SHANTEN_LINE ≤ REASONS_ROOM }
    ensures bytes { text.new.bytes ≡ text.old.bytes ++ spec.shanten_line forms.now }
    ensures len { array_string_len text.new ≤ array_string_len text.old + MOST_SHANTEN_LINE }
{
    text.push_str("  shanten ");
    push_form(text, "sets and a pair ", forms.sets_and_pair);
    push_other(text, ", seven pairs ", forms.seven_pairs);
    push_other(text, ", thirteen orphans ", forms.thirteen_orphans);
    text.push_str("\n");
}

#[tactic(auto, unfolding(crate::specs::Forms::form_text))]
fn push_form(text: &mut ReasonsText, name: &str, lack: u8)
    requires few { length name.now ≤ MOST_NAME }
    requires room { array_string_len text.old + MOST_NAME + MOST_SHANTEN ≤ REASONS_ROOM }
    ensures bytes { text.new.bytes ≡ text.old.bytes ++ spec.form_text name.now lack }
    ensures len { array_string_len text.new
        ≤ array_string_len text.old + length name.now + MOST_SHANTEN }
{
    text.push_str(name);
    push_shanten(text, lack);
}

/// A form that stands beside no meld.
#[tactic(auto, unfolding(crate::specs::Forms::special_form_text))]
fn push_other(text: &mut ReasonsText, name: &str, lack: Option<u8>)
    requires few { length name.now ≤ MOST_NAME }
    requires room { array_string_len text.old + MOST_NAME + MOST_SHANTEN ≤ REASONS_ROOM }
    ensures bytes { text.new.bytes ≡ text.old.bytes ++ spec.special_form_text name.now lack }
    ensures len { array_string_len text.new
        ≤ array_string_len text.old + length name.now + MOST_SHANTEN }
{
    if let Some(lack) = lack {
        push_form(text, name, lack);
    }
}

/// One less than the tiles that are lacking.
#[tactic(auto, unfolding(crate::specs::Forms::shanten_text))]
fn push_shanten(text: &mut ReasonsText, lack: u8)
    requires { array_string_len text.old + MOST_SHANTEN ≤ REASONS_ROOM }
    ensures bytes { text.new.bytes ≡ text.old.bytes ++ spec.shanten_text lack }
    ensures len { array_string_len text.new ≤ array_string_len text.old + MOST_SHANTEN }
{
    if lack == 0 {
        text.push_str("-1");
    } else {
        push_number(text, lack - 1);
    }
}
