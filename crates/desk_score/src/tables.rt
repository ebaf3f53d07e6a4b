//! The answers to the texts of the tables, in memory.
ghost use Rattle.std.specs.Prelude.{◌≡◌, ◌↔◌, ◌≤◌, ◌<◌, ℕ, List, [], ◌∷◌, ◌++◌, ◌+◌, length, IsTrue, OnOk, IfOk, IfErr, IsErrOf, Option, map, option_map};
ghost use Rattle.riichi_hand.specs.Rules.{Rules};
ghost use Rattle.desk_lines.specs.Lines.{lines};
ghost use Rattle.desk_lines.specs.Slips.{text_report};
ghost use Rattle.desk_lines.specs.Streams.{FailsOrGoesOn, GivesAll, IsReadWithin};
ghost use Rattle.desk_score.specs.Faults.{fault_in_memory};
ghost use Rattle.desk_score.specs.Score.{AllGive, StopsReading, table_name};
ghost use Rattle.desk_score.specs.Shown.{answers_shown};
ghost use Rattle.desk_score.specs.Tables.{AreAnswered, AreCounted};

use crate::paper::Paper;
use crate::score_fault::ScoreFault;
use desk_core::LIMIT;
use desk_crew::Crew;
use desk_io::Source;
use desk_lines::{DeskFault, DeskReport, Plain, Slip, SuitMemo, TextReport, numbered_text_by};
use riichi_hand::Rules;
use std::alloc::{AllocError, Global};
use std::thread::Threads;

/// The answers to the texts of the tables, in their order.
#[derive(Drop)]
pub(crate) struct Tables {
    /// Who answers.
    crew: Crew,
    /// Those of each table stand behind the line with its number.
    pub(crate) answers: Paper,
    /// How many tables there are.
    count: usize,
    /// Whether no table has more jobs than it may submit.
    pub(crate) within_limit: bool,
    /// How many lines are answered, and how many refused.
    pub(crate) report: DeskReport,
    /// Of each table the first line that looks like a profile line and sets none.
    pub(crate) slips: Vec<Option<Slip>>,
}

impl Tables {
    fn new(alloc: Global, workers: usize) -> Result<Tables, AllocError>
        ensures { IfOk result (λ tables. (names : Option (List (List ℕ))) (given : Rules)
            → AreAnswered names given [] tables) }
    {
        Ok(Tables {
            crew: Crew::new(alloc, workers)?,
            answers: Paper::new(alloc),
            count: 0,
            within_limit: true,
            report: DeskReport {
                answered: 0,
                refused: 0,
            },
            slips: Vec::new(alloc),
        })
    }

    /// Reads each reader to its end, and has its lines answered by so many threads. Where names are given, the tables have
    /// these, and the answers the numbers of their lines.
    pub(crate) fn answer<H: Threads + Sync, R: Source + Drop>(
        rt: &H,
        alloc: Global,
        workers: usize,
        rules: Rules,
        names: Option<&[&str]>,
        readers: Vec<R>,
    ) -> Result<Tables, ScoreFault>
        ensures ok { let told =
            option_map (λ names. map (λ name. name.now) names.now) names.entry in
            IfOk result (λ tables. (texts : List (List ℕ))
            × AllGive ⟦<R as Source>⟧ readers.items texts × AreAnswered told rules texts tables) }
        ensures read_failed { IsErrOf result ScoreFault.Read
            → StopsReading ⟦<R as Source>⟧ readers.items }
        ensures not_write { IsErrOf result ScoreFault.Write → ⊥ }
        ensures not_range { IsErrOf result ScoreFault.Range → ⊥ }
        ensures not_thread { IsErrOf result ScoreFault.Thread → ⊥ }
    {
        let mut tables = Tables::new(alloc, workers)?;
        for mut reader in readers {
            tables.answer_next(rt, alloc, rules, names, &mut reader)?;
        }
        Ok(tables)
    }

    /// Reads the reader of the next table to its end, and adds the answers.
    fn answer_next<H: Threads + Sync, R: Source>(
        &mut self,
        rt: &H,
        alloc: Global,
        rules: Rules,
        names: Option<&[&str]>,
        reader: &mut R,
    ) -> Result<(), ScoreFault>
        ensures ok { let told =
            option_map (λ names. map (λ name. name.now) names.now) names.entry in
            OnOk result ((texts : List (List ℕ)) → AreAnswered told rules texts self.old
            → (text : List ℕ) × GivesAll ⟦<R as Source>⟧ reader.old reader.new text
            × AreAnswered told rules (texts ++ text ∷ []) self.new) }
        ensures read_failed { IsErrOf result ScoreFault.Read
            → FailsOrGoesOn ⟦<R as Source>⟧ reader.old reader.new }
        ensures not_write { IsErrOf result ScoreFault.Write → ⊥ }
        ensures not_range { IsErrOf result ScoreFault.Range → ⊥ }
        ensures not_thread { IsErrOf result ScoreFault.Thread → ⊥ }
        ensures reads { IsReadWithin ⟦<R as Source>⟧ reader.old reader.new }
    {
        let name = name_at(names, self.count);
        self.answers.put_head(self.count, name)?;
        let (crew, answers) = (&mut self.crew, &mut self.answers);
        match answer_table(rt, alloc, crew, rules, names.is_some(), reader, answers) {
            Ok(report) => self.count_table(report),
            Err(fault) => Err(in_memory(fault)),
        }
    }

    /// Counts the answers of the next table, and notes its slip. A count that its type doesn't hold finds no memory.
    fn count_table(&mut self, report: TextReport) -> Result<(), ScoreFault>
        ensures ok { OnOk result ((given : Rules) (texts : List (List ℕ)) (text : List ℕ)
            → AreCounted given texts self.old
            → report ≡ text_report given (lines text)
            → AreCounted given (texts ++ text ∷ []) self.new) }
        ensures err { IfErr result (λ fault. fault ≡ ScoreFault.Memory) }
        ensures same { self.new.answers ≡ self.old.answers }
    {
        self.report = self.report.plus(report.counts)?;
        self.count = one_more_table(self.count)?;
        push_slip(&mut self.slips, report.slip)?;
        self.within_limit = are_within_limit(self.within_limit, report.counts.answered);
        Ok(())
    }
}

/// Reads the text of a table to its end, and puts the answers behind others: by a crew, or, where they are wanted behind the
/// numbers of their lines, by the calling thread.
fn answer_table<H: Threads + Sync, R: Source>(
    rt: &H,
    alloc: Global,
    crew: &mut Crew,
    rules: Rules,
    is_numbered: bool,
    reader: &mut R,
    answers: &mut Paper,
) -> Result<TextReport, DeskFault>
    ensures ok { IfOk result (λ report. (text : List ℕ)
        × GivesAll ⟦<R as Source>⟧ reader.old reader.new text
        × (answers.new.text.items
        ≡ answers.old.text.items ++ answers_shown is_numbered rules (lines text))
        × (report ≡ text_report rules (lines text))) }
    ensures read_failed { IsErrOf result DeskFault.Read
        → FailsOrGoesOn ⟦<R as Source>⟧ reader.old reader.new }
    ensures reads { IsReadWithin ⟦<R as Source>⟧ reader.old reader.new }
{
    if is_numbered {
        let mut rows = SuitMemo::new(alloc);
        return numbered_text_by::<Plain, SuitMemo, R, Paper>(&mut rows, rules, reader, answers);
    }
    crew.answer_text::<Plain, H, R, Paper>(rt, rules, reader, answers)
}

/// The fault of a score, where the answers to a text were written into memory: a write fails where there is none.
fn in_memory(fault: DeskFault) -> ScoreFault
    ensures { result ≡ fault_in_memory fault }
{
    match fault {
        DeskFault::Read => ScoreFault::Read,
        DeskFault::Write | DeskFault::Memory => ScoreFault::Memory,
    }
}

/// The name of a table, where names are given. One that isn't among them is empty.
fn name_at<'a>(names: Option<&'a [&'a str]>, number: usize) -> Option<&'a str>
    ensures { option_map (λ name. name.now) result
        ≡ table_name (option_map (λ names. map (λ name. name.now) names.now) names.entry) number }
{
    match names?.get(number) {
        Some(name) => Some(*name),
        None => Some(""),
    }
}

/// Whether no table has more jobs than it may submit, where so many are those of the last one.
fn are_within_limit(others: bool, jobs: u64) -> bool
    ensures { IsTrue result ↔ (IsTrue others × (jobs ≤ 1000000)) }
{
    others && jobs <= u64::from(LIMIT)
}

/// The most tables of a count.
const MOST_TABLES: usize = usize::MAX;

/// One table more. Just where a `usize` doesn't hold their number there is no memory.
fn one_more_table(tables: usize) -> Result<usize, ScoreFault>
    ensures ok { IfOk result (λ more. more ≡ tables + 1) }
    ensures err { IfErr result (λ fault. (fault ≡ ScoreFault.Memory) × (tables ≡ MOST_TABLES)) }
{
    match tables.checked_add(1) {
        Some(more) => Ok(more),
        None => Err(ScoreFault::Memory),
    }
}

/// Notes the slip of one more table.
fn push_slip(slips: &mut Vec<Option<Slip>>, slip: Option<Slip>) -> Result<(), ScoreFault>
    ensures ok { OnOk result (slips.new.items ≡ slips.old.items ++ slip ∷ []) }
    ensures err { IfErr result (λ fault. fault ≡ ScoreFault.Memory) }
{
    match slips.push(slip) {
        Ok(()) => Ok(()),
        Err(_) => Err(ScoreFault::Memory),
    }
}
