//! Cuts a text into lines.
ghost use Rattle.std.specs.Prelude.{◌≡◌, ◌<◌, [], ◌∷◌, ◌++◌, true, length, MatchOption};
ghost use Rattle.desk_lines.specs.Lines.{cut_of, ended_lines, without_return, is_plain};

use memchr::memchr;

/// The first line that a line feed ends, and what comes after it.
#[tactic(auto, using(crate::proofs::LineLemmas::cut_of_plain, crate::proofs::CutLemmas::cut_of_first))]
pub(crate) fn first_line(text: &[u8]) -> Option<(&[u8], &[u8])>
    ensures { MatchOption result ((ended_lines text.now ≡ []) × ((cut_of text.now).rest ≡ text.now))
        (λ cut. (ended_lines text.now ≡ cut.0.now ∷ ended_lines cut.1.now)
        × ((cut_of text.now).rest ≡ (cut_of cut.1.now).rest)
        × (length cut.1.now < length text.now)) }
{
    let (bytes, after) = cut_text(text)?;
    Some((without_return(bytes), after))
}

/// What stands before and after the first line feed.
#[tactic(auto, using(riichi_tiles::proofs::CutLemmas::around, crate::proofs::LineLemmas::plain_before))]
pub(crate) fn cut_text(text: &[u8]) -> Option<(&[u8], &[u8])>
    ensures { MatchOption result (is_plain text.now ≡ true)
        (λ cut. (text.now ≡ cut.0.now ++ 10 ∷ cut.1.now) × (is_plain cut.0.now ≡ true)) }
{
    match memchr(b'\n', text) {
        None => None,
        Some(place) => Some((&text[..place], &text[place + 1..])),
    }
}

/// Without a carriage return at its end.
#[tactic(auto, using(crate::proofs::LineLemmas::without_return_facts))]
pub(crate) fn without_return(bytes: &[u8]) -> &[u8]
    ensures { result.now ≡ without_return bytes.now }
{
    match bytes.split_last() {
        None => bytes,
        Some((last, front)) => { if *last == b'\r' { front } else { bytes } }
    }
}
