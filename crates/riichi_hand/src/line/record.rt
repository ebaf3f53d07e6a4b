//! A line that is a record.
ghost use Rattle.std.specs.Prelude.{◌≡◌, ◌≢◌, ◌==◌, [], None, Some, true, Ok, Err, IfErr, MatchOption, MatchResult, option_map, take, drop};
ghost use Rattle.std.specs.List.{list_all};
ghost use Rattle.riichi_hand.specs.Lines.{outcome_of, is_no_record, has_bad_word};
ghost use Rattle.riichi_hand.specs.Places.{entry_from, fault_from, place_of};
ghost use Rattle.riichi_hand.specs.Refusals.{IsRefusalOf};
ghost use Rattle.riichi_hand.specs.Refusals as spec;
ghost use Rattle.riichi_hand.specs.Entries.{entries_of, Holds};
ghost use Rattle.riichi_hand.specs.Parts.{parts_of};
ghost use Rattle.riichi_hand.specs.Texts.{no_texts};
ghost use Rattle.riichi_hand.specs.Words.{words_of, from_words, word_of};
ghost use Rattle.riichi_hand.specs.declared.line.job_name.JobName.{JobName};
ghost use Rattle.riichi_hand.specs.declared.fault.LineFault.TheVariants.{Line};
ghost use Rattle.riichi_hand.specs.declared.fault.LineCode.TheVariants.{H4, H16};

use super::bytes::MOST_LINE;
use super::cuts::{word_len, word_of};
use super::fields::Fields;
use super::job_name::JobName;
use super::jobs::make_job;
use super::key::Key;
use super::needed::Needed;
use super::places::{fault_from, key_at};
use super::texts::Texts;
use super::words::Words;
use crate::fault::{LineCode, LineFault};
use crate::job::Job;
use crate::rules::Rules;

/// Why a line is refused, and where.
#[derive(Clone, Copy, Debug)]
pub struct Refusal<'a> {
    /// The line's first fault.
    pub fault: LineFault,
    /// The line from the word on at which that stands, where it is one word.
    pub from: Option<&'a [u8]>,
    /// The key at which it stands, or the first that is missing.
    pub key: Option<Key>,
    /// The job, where the line's words are read and the first is one.
    pub job: Option<JobName>,
}

/// Where a word stands in its line, in bytes.
#[derive(Clone, Copy, Debug)]
pub struct Place {
    pub at: usize,
    pub length: usize,
}

impl<'a> Refusal<'a> {
    /// The refusal of a line with this fault. From which word on that of an entry stands is known.
    fn of(fault: LineFault, line: &'a [u8], entry: Option<&'a [u8]>) -> Refusal<'a>
        requires { let job = (parts_of (words_of line.now)).job in
            option_map (λ from. from.now) entry ≡ entry_from job fault (drop 2 (from_words line.now)) }
        ensures fault { result.fault ≡ fault }
        ensures refusal { IsRefusalOf line.now result }
    {
        let from = fault_from(&fault, line, entry);
        Refusal {
            fault,
            from,
            key: key_at(&fault, line, from),
            job: job_at(&fault, line),
        }
    }

    /// The word at fault.
    pub fn word(&self) -> Option<&'a [u8]>
        ensures { option_map (λ word. word.now) result
            ≡ option_map word_of (option_map (λ from. from.now) self.now.from) }
    {
        Some(word_of(self.from?))
    }

    /// Where the word at fault stands in the line that was refused.
    #[tactic(auto, using(crate::proofs::PlaceEnds::at_place))]
    pub fn place(&self, line: &[u8]) -> Option<Place>
        requires { IsRefusalOf line.now self.now }
        ensures place { result ≡ place_of self.now.fault line.now }
        ensures word { let from = fault_from self.now.fault line.now in
            MatchOption result (from ≡ None) (λ place.
            (from ≡ Some (drop place.at line.now))
            × (take place.length (drop place.at line.now) ≡ word_of (drop place.at line.now))) }
    {
        match self.from {
            None => None,
            Some(from) => Some(Place {
                at: line.len() - from.len(),
                length: word_len(from),
            }),
        }
    }
}

/// The job that a line names, where its words are read.
#[tactic(auto, unfolding(crate::specs::Refusals::job_at))]
fn job_at(fault: &LineFault, line: &[u8]) -> Option<JobName>
    ensures { result ≡ spec.job_at fault.now line.now }
{
    match fault {
        LineFault::Line(LineCode::H1) => None,
        _ => JobName::of_line(line),
    }
}

/// The job of a line, as `read_line` reads it, or why it is refused.
pub fn read_placed<'a>(rules: Rules, line: &'a [u8]) -> Result<Option<Job>, Refusal<'a>>
    ensures { MatchResult result (λ job. outcome_of rules line.now ≡ Ok job)
        (λ refusal. (outcome_of rules line.now ≡ Err refusal.fault) × IsRefusalOf line.now refusal) }
{
    let mut fields = Fields::new();
    let mut texts = Texts::new();
    match read_into(rules, line, &mut fields, &mut texts) {
        Ok(job) => Ok(job),
        Err(fault) => Err(Refusal::of(fault, line, fields.at_fault)),
    }
}

/// The job of a line, `None` for a comment or a line of spaces alone or nothing, or the line's first fault. The line comes
/// without the line feed and the carriage return that ended it.
#[tactic(auto, using(crate::proofs::RangeLemmas::bad_word, crate::proofs::RedFault::no_reds_over))]
pub fn read_line(rules: Rules, line: &[u8]) -> Result<Option<Job>, LineFault>
    ensures value { result ≡ outcome_of rules line.now }

    // A record without faults has a job. The numbers of a line are in range, so H4 comes of a word alone; and no line has more red
    // fives than fives.
    ensures silent { result ≡ Ok None → is_no_record line.now ≡ true }
    ensures bad_word { result ≡ Err (Line H4) → has_bad_word line.now ≡ true }
    ensures no_reds_over { result ≢ Err (Line H16) }
{
    // Rooms that are made at once are cleared once.
    let mut fields = Fields::new();
    let mut texts = Texts::new();
    read_into(rules, line, &mut fields, &mut texts)
}

/// The same, by fields that are empty. Where a word after the hand is at fault, they say from where on.
#[inline(never)]
#[tactic(auto, unfolding(crate::specs::Lines::outcome_of))]
fn read_into<'a>(
    rules: Rules,
    line: &'a [u8],
    fields: &mut Fields<'a>,
    texts: &mut Texts,
) -> Result<Option<Job>, LineFault>
    requires fields { (job : JobName) → Holds fields.old (entries_of job []) }
    requires texts { texts.old ≡ no_texts }
    ensures value { result ≡ outcome_of rules line.now }
    ensures silent { result ≡ Ok None → is_no_record line.now ≡ true }
    ensures from { let from = option_map (λ from. from.now) fields.new.at_fault in
        let job = (parts_of (words_of line.now)).job in
        IfErr result (λ fault. from ≡ entry_from job fault (drop 2 (from_words line.now))) }
{
    if line.len() > MOST_LINE {
        return Err(LineFault::Line(LineCode::H1));
    }
    if is_no_record(line) {
        return Ok(None);
    }
    let words = Words::read(line)?; // H1 to H3
    fields.fill(&words)?; // H4 and H5
    let needed = Needed::read(&words, fields)?; // H6
    texts.spell(&words, fields)?; // N1 to N6, then H7
    let job = make_job(rules, needed, &words, fields, texts)?; // H8 to H15
    Ok(Some(job))
}

/// The line says nothing: it is a comment, spaces alone, or empty.
fn is_no_record(line: &[u8]) -> bool
    ensures { result ≡ is_no_record line.now }
{
    match line {
        [] => true,
        [first, ..] => *first == b'#' || is_all_spaces(line),
    }
}

fn is_all_spaces(line: &[u8]) -> bool
    ensures { result ≡ list_all (λ byte. byte == 32) line.now }
{
    line.iter().all(|byte| *byte == b' ')
}
