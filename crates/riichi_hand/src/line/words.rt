ghost use Rattle.std.specs.Prelude.{◌≡◌, IfOk, drop};
ghost use Rattle.riichi_hand.specs.Words.{words_of, from_words};
ghost use Rattle.riichi_hand.specs.Faults.{IsValueOrFirstFault};
ghost use Rattle.riichi_hand.specs.Lines.{word_faults};

use super::bytes::has_other_byte;
use super::cuts::{has_mark, next_word};
use super::job_name::JobName;
use crate::fault::{LineCode, LineFault};

/// The words of a record line: its job, its hand, and the text of the words after these.
#[derive(Clone, Copy)]
pub(crate) struct Words<'a> {
    pub(crate) job: JobName,
    pub(crate) hand: &'a [u8],
    pub(crate) entries: &'a [u8],
}

impl<'a> Words<'a> {
    ghost use Rattle.riichi_hand.specs.Parts.{parts_of, parts_in};

    /// The words of a line, or H1 for a foreign byte, H2 where the first word is no job, H3 where the second is no hand.
    pub(crate) fn read(line: &'a [u8]) -> Result<Words<'a>, LineFault>
        ensures step { IsValueOrFirstFault result (word_faults line.now)
            (λ words. parts_of (words_of line.now) ≡ parts_in words) }
        ensures from { IfOk result
            (λ words. from_words words.entries.now ≡ drop 2 (from_words line.now)) }
    {
        if has_other_byte(line) {
            return Err(LineFault::Line(LineCode::H1));
        }
        let Some((word, after_job)) = next_word(line) else {
            return Err(LineFault::Line(LineCode::H2));
        };
        let Some(job) = JobName::read(word) else {
            return Err(LineFault::Line(LineCode::H2));
        };
        let Some((hand, entries)) = next_word(after_job) else {
            return Err(LineFault::Line(LineCode::H3));
        };
        if has_mark(hand, b'=') {
            return Err(LineFault::Line(LineCode::H3));
        }
        Ok(Words { job, hand, entries })
    }
}
