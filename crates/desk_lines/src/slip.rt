//! Lines that look like a profile line.
ghost use Rattle.std.specs.Prelude.{◌≡◌, false, IsTrue};
ghost use Rattle.desk_lines.specs.Slips.{begins_word, is_like_profile, without_mark, without_space};

/// How much of a line is looked at: more than a profile line with a byte order mark has.
const FRONT: usize = 32;

/// Whether a line begins as one that names a profile, whatever stands before: white space, a byte order mark.
#[tactic(auto, using(crate::proofs::SlipLemmas::front_is), unfolding(crate::specs::Slips::is_like_profile))]
pub(crate) fn is_like_profile(line: &[u8]) -> bool
    ensures { result ≡ is_like_profile line.now }
{
    if begins_job(line) {
        return false;
    }
    begins_word(without_space(without_mark(&line[..FRONT.min(line.len())])))
}

/// Whether a line begins with the first letter of a job, as nearly each does: then no other word stands at its front.
fn begins_job(line: &[u8]) -> bool
    ensures { IsTrue result → is_like_profile line.now ≡ false }
{
    match line.first() {
        Some(first) => *first == b'w' || *first == b's',
        None => false,
    }
}

fn without_mark(text: &[u8]) -> &[u8]
    ensures { result.now ≡ without_mark text.now }
{
    if text.starts_with(b"\xEF\xBB\xBF") {
        &text[3..]
    } else {
        text
    }
}

#[tactic(auto, using(crate::proofs::SlipLemmas::without_space_is))]
fn without_space(text: &[u8]) -> &[u8]
    ensures { result.now ≡ without_space text.now }
{
    text.trim_ascii_start()
}

/// Whether a text begins as the word `rules` does, in any letters.
#[tactic(auto, using(crate::proofs::SlipLemmas::begins_so))]
fn begins_word(text: &[u8]) -> bool
    ensures { result ≡ begins_word text.now }
{
    text[..4.min(text.len())].eq_ignore_ascii_case(b"rule")
}
