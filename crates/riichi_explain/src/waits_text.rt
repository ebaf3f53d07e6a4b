//! The line of the kinds that a hand waits for.
ghost use Rattle.std.specs.Prelude.{◌≡◌, ◌+◌, ◌≤◌, ◌++◌, length};
ghost use Rattle.arrayvec.specs.ArrayString.{array_string_len};
ghost use Rattle.riichi_explain.specs.Waits as spec;

use crate::room::{REASONS_ROOM, ReasonsText};
use crate::waits::{KindWait, MOST_KIND_WAITS, WaitSorts};
use riichi_text::{ListItem, MOST_U8, push_kind, push_list, push_number};
use riichi_tiles::Kind;

/// The bytes of the longest line of waits.
pub const MOST_WAITS_LINE: usize = "  ".len() + MOST_WAITS + "\n".len();

/// The bytes of every kind that a hand may wait for.
pub(crate) const MOST_WAITS: usize = MOST_KIND_WAITS * ("; ".len() + MOST_WAIT);

const MOST_WAIT: usize = MOST_LEFT + MOST_RUN_WORDS + MOST_OTHER_WORDS;

const MOST_LEFT: usize = "1m ".len() + MOST_U8 + " left".len();

const MOST_RUN_WORDS: usize = ", two-sided (ryanmen)".len()
    + ", closed (kanchan)".len()
    + ", edge (penchan)".len();

const MOST_OTHER_WORDS: usize = ", pair (tanki)".len()
    + ", two pairs (shanpon)".len()
    + ", thirteen orphans".len();

/// Writes the line of the kinds that a hand waits for: of each how many are left, and the sorts of wait. Where there are
/// none, it says so.
#[tactic(auto, unfolding(crate::specs::Waits::waits_line))]
pub fn push_waits_line(text: &mut ReasonsText, rows: &[KindWait])
    requires few { length rows.now ≤ MOST_KIND_WAITS }
    requires room { array_string_len text.old + MOST_WAITS_LINE ≤ REASONS_ROOM }
    ensures { text.new.bytes ≡ text.old.bytes ++ spec.waits_line rows.now }
{
    if rows.is_empty() {
        text.push_str("  no tile that is left completes the hand\n");
    } else {
        text.push_str("  ");
        push_list(text, "; ", rows);
        text.push_str("\n");
    }
}

impl ListItem<REASONS_ROOM> for KindWait {
    ghost use Rattle.riichi_explain.specs.declared.waits_text.TheConstants.{MOST_WAIT};
    ghost use Rattle.riichi_explain.specs.Waits.{wait_text};

    ghost item_text = { wait_text };

    ghost most = { MOST_WAIT };

    #[tactic(auto, unfolding(crate::specs::Waits::wait_text))]
    fn push(&self, text: &mut ReasonsText) {
        push_kind_left(text, self.kind, self.left);
        push_run_words(text, &self.sorts);
        push_other_words(text, &self.sorts);
    }
}

#[tactic(auto, unfolding(crate::specs::Waits::kind_left_text))]
fn push_kind_left(text: &mut ReasonsText, kind: Kind, left: u8)
    requires { array_string_len text.old + MOST_LEFT ≤ REASONS_ROOM }
    ensures bytes { text.new.bytes ≡ text.old.bytes ++ spec.kind_left_text kind left }
    ensures len { array_string_len text.new ≤ array_string_len text.old + MOST_LEFT }
{
    push_kind(text, kind);
    text.push_str(" ");
    push_number(text, left);
    text.push_str(" left");
}

#[tactic(auto, unfolding(crate::specs::Waits::run_words))]
fn push_run_words(text: &mut ReasonsText, sorts: &WaitSorts)
    requires { array_string_len text.old + MOST_RUN_WORDS ≤ REASONS_ROOM }
    ensures bytes { text.new.bytes ≡ text.old.bytes ++ spec.run_words sorts.now }
    ensures len { array_string_len text.new ≤ array_string_len text.old + MOST_RUN_WORDS }
{
    push_if(text, sorts.two_sided, ", two-sided (ryanmen)");
    push_if(text, sorts.closed, ", closed (kanchan)");
    push_if(text, sorts.edge, ", edge (penchan)");
}

#[tactic(auto, unfolding(crate::specs::Waits::other_words))]
fn push_other_words(text: &mut ReasonsText, sorts: &WaitSorts)
    requires { array_string_len text.old + MOST_OTHER_WORDS ≤ REASONS_ROOM }
    ensures bytes { text.new.bytes ≡ text.old.bytes ++ spec.other_words sorts.now }
    ensures len { array_string_len text.new ≤ array_string_len text.old + MOST_OTHER_WORDS }
{
    push_if(text, sorts.pair, ", pair (tanki)");
    push_if(text, sorts.two_pairs, ", two pairs (shanpon)");
    push_if(text, sorts.orphans, ", thirteen orphans");
}

#[tactic(auto, unfolding(crate::specs::Waits::word_if))]
fn push_if(text: &mut ReasonsText, there: bool, word: &str)
    requires { array_string_len text.old + length word.now ≤ REASONS_ROOM }
    ensures bytes { text.new.bytes ≡ text.old.bytes ++ spec.word_if there word.now }
    ensures len { array_string_len text.new ≤ array_string_len text.old + length word.now }
{
    if there {
        text.push_str(word);
    }
}
