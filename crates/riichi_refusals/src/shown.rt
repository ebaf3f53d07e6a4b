//! What is shown of a line: seen as it is written there, and of few columns.
ghost use Rattle.std.specs.Prelude.{◌≡◌, ◌+◌, ◌/◌, ◌%◌, ◌≤◌, ◌<◌, ◌++◌, ◌∷◌, [], true, false, IfSome, MatchOption, length, option_map, take, drop, replicate};
ghost use Rattle.std.specs.Str.{is_utf8};
ghost use Rattle.arrayvec.specs.ArrayString.{array_string_len};
ghost use Rattle.riichi_refusals.specs.Shown as spec;

use crate::words::MOST_FAULT_WORDS;
use riichi_hand::is_other_byte;
use riichi_text::{ANSWER_ROOM, AnswerText};

/// How many bytes are shown before a place, and at the most from it on.
pub(crate) const BEFORE: usize = 36;

/// How many bytes of a word are shown.
pub(crate) const SHOWN: usize = BEFORE + BEFORE;

/// The bytes of a byte that is no printable ASCII, as it is shown.
const MOST_BYTE: usize = "\\x1f".len();

/// The bytes of what is shown of a word.
pub(crate) const MOST_SHOWN: usize = SHOWN * MOST_BYTE;

const MOST_SHOWN_LINE: usize = "  ".len() + MOST_SHOWN + "\n".len();

const MOST_MARK_LINE: usize = "  ".len() + BEFORE + "^ ".len() + MOST_FAULT_WORDS + "\n".len();

/// The bytes of the longest marked lines.
pub(crate) const MOST_MARKED: usize = MOST_SHOWN_LINE + MOST_MARK_LINE;

/// Writes what stands around a place, and below it a mark under the place with what may stand there.
#[tactic(auto, unfolding(crate::specs::Shown::marked_lines))]
pub(crate) fn push_marked(
    out: &mut AnswerText,
    text: &[u8],
    place: usize,
    after: usize,
    words: &str,
)
    requires room { array_string_len out.old + MOST_MARKED ≤ ANSWER_ROOM }
    requires after { after ≤ BEFORE }
    requires words { length words.now ≤ MOST_FAULT_WORDS }
    ensures { out.new.bytes ≡ out.old.bytes ++ spec.marked_lines after place text.now words.now }
{
    push_shown_line(out, around(text, place, after));
    push_mark_line(out, place - place.saturating_sub(BEFORE), words);
}

/// The same around the first byte of a line that is no printable ASCII.
#[tactic(auto, unfolding(crate::specs::Shown::foreign_marked))]
pub(crate) fn push_foreign(out: &mut AnswerText, line: &[u8], place: usize, words: &str)
    requires room { array_string_len out.old + MOST_MARKED ≤ ANSWER_ROOM }
    requires words { length words.now ≤ MOST_FAULT_WORDS }
    ensures { out.new.bytes ≡ out.old.bytes ++ spec.foreign_marked place line.now words.now }
{
    push_foreign_line(out, line, place);
    push_mark_line(out, place - place.saturating_sub(BEFORE), words);
}

#[tactic(auto, unfolding(crate::specs::Shown::foreign_line))]
fn push_foreign_line(out: &mut AnswerText, line: &[u8], place: usize)
    requires room { array_string_len out.old + MOST_SHOWN_LINE ≤ ANSWER_ROOM }
    ensures bytes { out.new.bytes ≡ out.old.bytes ++ spec.foreign_line place line.now }
    ensures len { array_string_len out.new ≤ array_string_len out.old + MOST_SHOWN_LINE }
{
    out.push_str("  ");
    push_foreign_text(out, line, place);
    out.push_str("\n");
}

fn push_foreign_text(out: &mut AnswerText, line: &[u8], place: usize)
    requires { array_string_len out.old + MOST_SHOWN ≤ ANSWER_ROOM }
    ensures bytes { out.new.bytes ≡ out.old.bytes ++ spec.foreign_text place line.now }
    ensures len { array_string_len out.new ≤ array_string_len out.old + MOST_SHOWN }
{
    match seen_around(line, place) {
        Some(text) => out.push_str(text),
        None => push_shown(out, around(line, place, 9)),
    }
}

fn seen_around(line: &[u8], place: usize) -> Option<&str>
    ensures value { option_map (λ text. text.now) result ≡ spec.seen_around place line.now }
    ensures short { IfSome result (λ text. length text.now ≤ SHOWN) }
{
    let (whole, less) = (around(line, place, BEFORE), around(line, place, BEFORE - 1));
    let (shorter, shortest) = (
        around(line, place, BEFORE - 2),
        around(line, place, BEFORE - 3),
    );
    seen(whole)
        .or(seen(less))
        .or(seen(shorter))
        .or(seen(shortest))
}

/// A text whose characters are seen as they are, in whatever script; none where a byte is of no character, or where one controls
/// terminals, parts lines, turns their direction or has no width. U+0080 to U+00BF and U+2000 to U+207F are taken for such.
pub fn seen(text: &[u8]) -> Option<&str>
    ensures { option_map (λ text. text.now) result ≡ spec.seen_as_is text.now }
{
    if has_hidden(0, text) {
        return None;
    }
    text_of(text)
}

/// The text of some bytes, where they are UTF-8.
#[tactic(auto, using(crate::proofs::TextLemmas::utf8_tests))]
fn text_of(bytes: &[u8]) -> Option<&str>
    ensures { MatchOption result (is_utf8 bytes.now ≡ false)
        (λ text. (is_utf8 bytes.now ≡ true) × (text.now ≡ bytes.now)) }
{
    match std::str::from_utf8(bytes) {
        Ok(text) => Some(text),
        Err(_) => None,
    }
}

/// Whether one of the bytes behind another isn't seen.
fn has_hidden(before: u8, text: &[u8]) -> bool
    ensures { result ≡ spec.has_hidden before text.now }
{
    match text {
        [] => false,
        [byte, rest @ ..] => hides(before, *byte) || has_hidden(*byte, rest),
    }
}

fn hides(before: u8, byte: u8) -> bool
    ensures { result ≡ spec.hides before byte }
{
    byte < b' '
        || byte == 127
        || byte == 194
        || before == 226 && byte < 130
        || before == 239 && byte == 187
}

#[tactic(auto, unfolding(crate::specs::Shown::shown_line))]
fn push_shown_line(out: &mut AnswerText, text: &[u8])
    requires few { length text.now ≤ SHOWN }
    requires room { array_string_len out.old + MOST_SHOWN_LINE ≤ ANSWER_ROOM }
    ensures bytes { out.new.bytes ≡ out.old.bytes ++ spec.shown_line text.now }
    ensures len { array_string_len out.new ≤ array_string_len out.old + MOST_SHOWN_LINE }
{
    out.push_str("  ");
    push_shown(out, text);
    out.push_str("\n");
}

#[tactic(auto, using(riichi_text::proofs::Pieces::pushed_five), unfolding(crate::specs::Shown::mark_line))]
fn push_mark_line(out: &mut AnswerText, column: usize, words: &str)
    requires column { column ≤ BEFORE }
    requires words { length words.now ≤ MOST_FAULT_WORDS }
    requires room { array_string_len out.old + MOST_MARK_LINE ≤ ANSWER_ROOM }
    ensures { out.new.bytes ≡ out.old.bytes ++ spec.mark_line column words.now }
{
    out.push_str("  ");
    push_spaces(out, column);
    out.push_str("^ ");
    out.push_str(words);
    out.push_str("\n");
}

/// Of a text up to `BEFORE` bytes before a place, and some from it on.
fn around(text: &[u8], place: usize, after: usize) -> &[u8]
    requires { after ≤ BEFORE }
    ensures value { result.now ≡ spec.around after place text.now }
    ensures short { length result.now ≤ SHOWN }
{
    let from = place.saturating_sub(BEFORE);
    front(without_front(text, from), place - from + after)
}

fn without_front(text: &[u8], from: usize) -> &[u8]
    ensures { result.now ≡ drop from text.now }
{
    if from < text.len() {
        &text[from..]
    } else {
        &[]
    }
}

/// The first bytes of a text.
pub(crate) fn front(text: &[u8], most: usize) -> &[u8]
    ensures value { result.now ≡ take most text.now }
    ensures short { length result.now ≤ most }
{
    if most < text.len() {
        &text[..most]
    } else {
        text
    }
}

/// Writes a text whose bytes outside printable ASCII stand as `\xNN`.
pub(crate) fn push_shown(out: &mut AnswerText, text: &[u8])
    requires few { length text.now ≤ SHOWN }
    requires room { array_string_len out.old + MOST_SHOWN ≤ ANSWER_ROOM }
    ensures bytes { out.new.bytes ≡ out.old.bytes ++ spec.shown text.now }
    ensures len { array_string_len out.new ≤ array_string_len out.old + MOST_SHOWN }
{
    for byte in text {
        push_shown_byte(out, *byte);
    }
}

#[tactic(auto, unfolding(crate::specs::Shown::byte_text))]
fn push_shown_byte(out: &mut AnswerText, byte: u8)
    requires { array_string_len out.old + MOST_BYTE ≤ ANSWER_ROOM }
    ensures bytes { out.new.bytes ≡ out.old.bytes ++ spec.byte_text byte }
    ensures len { array_string_len out.new ≤ array_string_len out.old + MOST_BYTE }
{
    if is_other_byte(byte) {
        push_escape(out, byte);
    } else {
        push_byte(out, byte);
    }
}

fn push_escape(out: &mut AnswerText, byte: u8)
    requires { array_string_len out.old + MOST_BYTE ≤ ANSWER_ROOM }
    ensures bytes { out.new.bytes
        ≡ out.old.bytes ++ 92 ∷ 120 ∷ spec.hex_digit (byte / 16) ∷ spec.hex_digit (byte % 16) ∷ [] }
    ensures len { array_string_len out.new ≤ array_string_len out.old + MOST_BYTE }
{
    push_byte(out, b'\\');
    push_byte(out, b'x');
    push_byte(out, hex_digit(byte / 16));
    push_byte(out, hex_digit(byte % 16));
}

fn hex_digit(number: u8) -> u8
    requires { number < 16 }
    ensures value { result ≡ spec.hex_digit number }
    ensures ascii { result < 128 }
{
    if number < 10 {
        b'0' + number
    } else {
        b'a' - 10 + number
    }
}

fn push_byte(out: &mut AnswerText, byte: u8)
    requires room { array_string_len out.old + 1 ≤ ANSWER_ROOM }
    requires ascii { byte < 128 }
    ensures bytes { out.new.bytes ≡ out.old.bytes ++ byte ∷ [] }
    ensures len { array_string_len out.new ≡ array_string_len out.old + 1 }
{
    out.push(byte as char);
}

fn push_spaces(out: &mut AnswerText, count: usize)
    requires few { count ≤ BEFORE }
    requires room { array_string_len out.old + BEFORE ≤ ANSWER_ROOM }
    ensures bytes { out.new.bytes ≡ out.old.bytes ++ replicate count 32 }
    ensures len { array_string_len out.new ≤ array_string_len out.old + BEFORE }
{
    for turn in 0..count {
        push_byte(out, b' ');
    }
}
