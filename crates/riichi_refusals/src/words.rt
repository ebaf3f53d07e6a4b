//! What a refusal asks for, in words.
ghost use Rattle.std.specs.Prelude.{◌≡◌, ◌==◌, ◌≤◌, length, option_map, slice_index_or};
ghost use Rattle.riichi_refusals.specs.Faults as spec;

use riichi_hand::{JobName, Key, LineCode, LineFault};
use riichi_tiles::NotationCode;

/// The bytes of the longest words: the keys of a win.
pub const MOST_FAULT_WORDS: usize = 117;

/// What holds of every line without this fault, in a few words.
pub fn fault_words(fault: &LineFault) -> &'static str
    ensures value { result.now ≡ spec.fault_words fault.now }
    ensures short { length result.now ≤ MOST_FAULT_WORDS }
{
    match fault {
        LineFault::Line(code) => line_words(*code),
        LineFault::Notation(_, fault) => notation_words(fault.code),
    }
}

pub(crate) fn line_words(code: LineCode) -> &'static str
    ensures value { result.now ≡ spec.line_words code }
    ensures short { length result.now ≤ MOST_FAULT_WORDS }
{
    match code {
        LineCode::H1 => "a line has at most 4096 bytes, all of them printable ASCII",
        LineCode::H2 => "the first word is win, waits or shape",
        LineCode::H3 => "the second word is the hand, and has no =",
        LineCode::H4 =>
            "a further word is a key that the job has, =, and a value that the key may have",
        LineCode::H5 => "no key stands twice",
        LineCode::H6 => "a win tells on, by, seat and round",
        LineCode::H7 =>
            "open is one to four melds joined by commas: chi:, pon:, kan: or ankan: and their tiles",
        LineCode::H8 =>
            "a hand has 13 tiles, a shape 13 or 14, three fewer for each meld; on has one tile, dora and ura at most five",
        LineCode::H9 => "there are four tiles of a kind in all",
        LineCode::H10 => "riichi needs a concealed hand",
        LineCode::H11 => "ippatsu and ura need riichi",
        LineCode::H12 => "rinshan is a win by tsumo, beside a kong",
        LineCode::H13 => "chankan is a win by ron",
        LineCode::H14 => "rinshan goes with neither last nor ippatsu, chankan not with last",
        LineCode::H15 =>
            "first is a win by tsumo, or under blessing-of-man by ron of any seat but East, without melds, riichi or another flag",
        LineCode::H16 => "a red five is one of the fives",
    }
}

pub(crate) fn notation_words(code: NotationCode) -> &'static str
    ensures value { result.now ≡ spec.notation_words code }
    ensures short { length result.now ≤ MOST_FAULT_WORDS }
{
    match code {
        NotationCode::N1 => "a text of tiles is not empty",
        NotationCode::N2 => "a digit or one of m p s z stands here",
        NotationCode::N3 => "a letter m, p, s or z stands after the digits",
        NotationCode::N4 => "a digit stands before the letter",
        NotationCode::N5 => "honours are 1z to 7z",
        NotationCode::N6 => "there are four tiles of a kind",
    }
}

/// What is asked of the first word.
pub(crate) fn first_word_words(word: Option<&[u8]>) -> &'static str
    ensures value { result.now ≡ spec.first_word_words (option_map (λ word. word.now) word.entry) }
    ensures short { length result.now ≤ MOST_FAULT_WORDS }
{
    match word {
        Some(word) => if word.starts_with(b"rules") {
            "rules 1 or rules 2 stands alone, in the first line"
        } else {
            line_words(LineCode::H2)
        },
        None => line_words(LineCode::H2),
    }
}

/// What may stand after the hand in place of a word of this key: its values, where the job can have it, else the keys.
#[tactic(auto, unfolding(crate::specs::Faults::entry_words))]
pub(crate) fn entry_words(job: Option<JobName>, key: Option<Key>) -> &'static str
    ensures value { result.now ≡ spec.entry_words job key }
    ensures short { length result.now ≤ MOST_FAULT_WORDS }
{
    match (job, key) {
        (None, _) => line_words(LineCode::H4),
        (Some(job), None) => keys_words(job),
        (Some(job), Some(key)) => match key.meaning() {
            Some(meaning) if job.has_key(key) => meaning,
            _ => keys_words(job),
        },
    }
}

/// The keys of a job.
fn keys_words(job: JobName) -> &'static str
    ensures value { result.now ≡ spec.keys_words job }
    ensures short { length result.now ≤ MOST_FAULT_WORDS }
{
    match job {
        JobName::Waits => "after the hand of waits stands open= alone",
        JobName::Shape => "after the hand of shape stand open= and seen= alone",
        JobName::Win =>
            "after the hand of win stand on=, by=, seat=, round=, open=, riichi=, flags=, dora=, ura=, counters= and sticks= alone",
    }
}

/// What a byte that is no printable ASCII is.
#[tactic(auto, unfolding(crate::specs::Faults::byte_words))]
pub(crate) fn byte_words(line: &[u8], place: usize) -> &'static str
    ensures value { result.now ≡ spec.byte_words line.now place }
    ensures short { length result.now ≤ MOST_FAULT_WORDS }
{
    if line.starts_with(b"\xef\xbb\xbf") {
        "a byte order mark stands here: save the text without it"
    } else if is_tab(line, place) {
        "a tab stands here: words are parted by spaces"
    } else {
        "a byte outside printable ASCII stands here"
    }
}

fn is_tab(line: &[u8], place: usize) -> bool
    ensures { result ≡ (slice_index_or line.now place 0 == 9) }
{
    if place < line.len() {
        line[place] == b'\t'
    } else {
        false
    }
}
