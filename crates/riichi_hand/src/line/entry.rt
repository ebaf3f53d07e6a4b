//! A word of a line that has a key and a value.
ghost use Rattle.std.specs.Prelude.{◌≡◌, ◌<◌, ◌∷◌, ℕ, List, length, slice_index, false, None, Some, MatchOption};
ghost use Rattle.riichi_hand.specs.declared.line.key.Key as keys;
ghost use Rattle.riichi_hand.specs.Keys.{key_named};
ghost use Rattle.riichi_hand.specs.Entries.{keyed_of};
ghost use Rattle.riichi_hand.specs.Words.{begins_with_space, from_words, word_of};

use super::cuts::word_len;
use super::job_name::JobName;
use super::key::Key;

/// A key of a job, the text of its value, and all that comes after their word.
#[derive(Clone, Copy)]
pub(crate) struct Entry<'a> {
    pub(crate) key: Key,
    pub(crate) value: &'a [u8],
    pub(crate) after: &'a [u8],
}

impl<'a> Entry<'a> {
    /// The first word of a text that begins with a word. `None` where it has no `=`, or before its first `=` no key that
    /// the job can have.
    pub(crate) fn first(job: JobName, text: &'a [u8]) -> Option<Entry<'a>>
        requires some { 0 < length text.now }
        requires begins { begins_with_space text.now ≡ false }
        ensures { let word = word_of text.now in
            MatchOption result (keyed_of job word ≡ None)
            (λ entry. (keyed_of job word ≡ Some (entry.key, entry.value.now))
            × (from_words text.now ≡ text.now ∷ from_words entry.after.now)
            × (length entry.after.now < length text.now)) }
    {
        if text.len() < 2 {
            return None;
        }
        let len = name_len(text[0], text[1]);
        if len >= text.len() || text[len] != b'=' {
            return None;
        }
        let Some(key) = Key::read(&text[..len]) else {
            return None;
        };
        if !job.has_key(key) {
            return None;
        }
        let rest = &text[len + 1..];
        let (value, after) = rest.split_at(word_len(rest));
        Some(Entry { key, value, after })
    }
}

/// How long the name of a key is that begins with these two bytes.
fn name_len(first: u8, second: u8) -> usize
    ensures { (name : List ℕ) (key : keys.Key) → key_named name ≡ Some key
        → slice_index name 0 ≡ first → slice_index name 1 ≡ second → result ≡ length name }
{
    match first {
        b'o' => if second == b'n' { 2 } else { 4 },
        b'b' => 2,
        b's' => if second == b't' { 6 } else { 4 },
        b'r' => if second == b'o' { 5 } else { 6 },
        b'd' => 4,
        b'u' => 3,
        b'f' => 5,
        _ => 8,
    }
}
