//! The answers to the texts of several readers, each a table of its own.
ghost use Rattle.std.specs.Prelude.{◌≡◌, ◌≢◌, ◌↔◌, ◌⊎◌, ◌≤◌, ℕ, List, length, map, option_map, IsTrue, false, Err, IfOk, IfErr, IsErrOf};
ghost use Rattle.desk_lines.specs.Streams.{WritesAll, StopsWriting};
ghost use Rattle.desk_score.specs.Score.{score_by, tables_scored, score_report, score_slips, AreAllowed, AreWithinLimit, AllGive, StopsReading};

use crate::score_fault::ScoreFault;
use crate::tables::Tables;
use desk_io::{Sink, Source};
use desk_lines::{DeskReport, Slip, write_all};
use riichi_hand::Rules;
use std::alloc::Global;
use std::thread::Threads;

/// The report on the texts of a score.
#[derive(Drop)]
pub struct ScoreReport {
    /// How many lines of all texts are answered, and how many refused.
    pub counts: DeskReport,
    /// Of each text the first line that looks like a profile line and sets none.
    pub slips: Vec<Option<Slip>>,
}

/// The most readers.
const MOST_READERS: usize = 64;

/// The most workers.
const MOST_WORKERS: u32 = 16;

/// Reads 1 to 64 readers to their ends, one after the other, has 1 to 16 workers judge the lines of each in threads of their
/// own, and writes for each reader, numbered from 0, the line `table` with its number and then what `desk_text` would answer
/// to its text. The first line of each text may set the profile of that text, which else is the given one. Nothing is written
/// before all is judged. Where the system gives no thread the calling one judges, so there is no fault of that kind.
pub fn score_text<H: Threads + Sync, R: Source + Drop, W: Sink>(
    rt: &H,
    alloc: Global,
    rules: Rules,
    readers: Vec<R>,
    workers: u32,
    writer: &mut W,
) -> Result<DeskReport, ScoreFault>
    // The readers were read to their ends, and the answers to what they gave were written.
    ensures ok { IfOk result (λ report. (texts : List (List ℕ))
        × AllGive ⟦<R as Source>⟧ readers.items texts
        × AreWithinLimit rules texts
        × WritesAll ⟦<W as Sink>⟧ writer.old writer.new (tables_scored rules texts)
        × (report ≡ score_report rules texts)) }

    // Numbers of readers and workers are tested before anything is read, numbers of jobs once all is read.
    ensures first_range { ¬ AreAllowed (length readers.items) workers
        → result ≡ Err ScoreFault.Range }
    ensures range { IsErrOf result ScoreFault.Range → (¬ AreAllowed (length readers.items) workers)
        ⊎ ((texts : List (List ℕ)) × AllGive ⟦<R as Source>⟧ readers.items texts × (¬ AreWithinLimit rules texts)) }
    ensures no_thread { IsErrOf result ScoreFault.Thread → ⊥ }
    ensures read_failed { IsErrOf result ScoreFault.Read
        → StopsReading ⟦<R as Source>⟧ readers.items }

    // Nothing was written but where a write failed, and then a front of the answers.
    ensures unwritten { IfErr result (λ fault. fault ≢ ScoreFault.Write → writer.new ≡ writer.old) }
    ensures write_failed { IsErrOf result ScoreFault.Write → (texts : List (List ℕ))
        × AllGive ⟦<R as Source>⟧ readers.items texts
        × AreWithinLimit rules texts
        × StopsWriting ⟦<W as Sink>⟧ writer.old writer.new (tables_scored rules texts) }
{
    match score_text_with(rt, alloc, rules, None, readers, workers, writer) {
        Ok(report) => Ok(report.counts),
        Err(fault) => Err(fault),
    }
}

/// The same, where the tables may be named: one name for each reader, in their order. Of each table the name then stands
/// behind its number, with `?` in place of each byte that isn't printed ASCII, and each answer behind the number of its line
/// and a colon, as `numbered_text_by` writes it; such a text is answered by the calling thread alone.
pub fn score_text_with<H: Threads + Sync, R: Source + Drop, W: Sink>(
    rt: &H,
    alloc: Global,
    rules: Rules,
    names: Option<&[&str]>,
    readers: Vec<R>,
    workers: u32,
    writer: &mut W,
) -> Result<ScoreReport, ScoreFault>
    // The readers were read to their ends, and the answers to what they gave were written.
    ensures ok { let told = option_map (λ names. map (λ name. name.now) names.now) names.entry in
        IfOk result (λ report. (texts : List (List ℕ))
        × AllGive ⟦<R as Source>⟧ readers.items texts
        × AreWithinLimit rules texts
        × WritesAll ⟦<W as Sink>⟧ writer.old writer.new (score_by told rules texts)
        × (report.counts ≡ score_report rules texts)
        × (report.slips.items ≡ score_slips rules texts)) }

    // Numbers of readers and workers are tested before anything is read, numbers of jobs once all is read.
    ensures first_range { ¬ AreAllowed (length readers.items) workers
        → result ≡ Err ScoreFault.Range }
    ensures range { IsErrOf result ScoreFault.Range → (¬ AreAllowed (length readers.items) workers)
        ⊎ ((texts : List (List ℕ)) × AllGive ⟦<R as Source>⟧ readers.items texts × (¬ AreWithinLimit rules texts)) }
    ensures no_thread { IsErrOf result ScoreFault.Thread → ⊥ }
    ensures read_failed { IsErrOf result ScoreFault.Read
        → StopsReading ⟦<R as Source>⟧ readers.items }

    // Nothing was written but where a write failed, and then a front of the answers.
    ensures unwritten { IfErr result (λ fault. fault ≢ ScoreFault.Write → writer.new ≡ writer.old) }
    ensures write_failed { let told =
        option_map (λ names. map (λ name. name.now) names.now) names.entry in
        IsErrOf result ScoreFault.Write → (texts : List (List ℕ))
        × AllGive ⟦<R as Source>⟧ readers.items texts
        × AreWithinLimit rules texts
        × StopsWriting ⟦<W as Sink>⟧ writer.old writer.new (score_by told rules texts) }
{
    if !are_allowed(readers.len(), workers) {
        return Err(ScoreFault::Range);
    }
    let tables = Tables::answer(rt, alloc, workers as usize, rules, names, readers)?;
    write_tables(tables, writer)
}

/// Writes the answers, where no table has more jobs than it may submit. So B1 is told just where one has, and else no fault but
/// that of a write.
fn write_tables<W: Sink>(tables: Tables, writer: &mut W) -> Result<ScoreReport, ScoreFault>
    ensures ok { IfOk result (λ report. IsTrue tables.within_limit
        × WritesAll ⟦<W as Sink>⟧ writer.old writer.new tables.answers.text.items
        × (report.counts ≡ tables.report) × (report.slips ≡ tables.slips)) }
    ensures range { (result ≡ Err ScoreFault.Range) ↔ (tables.within_limit ≡ false) }
    ensures err { IfErr result (λ fault. (fault ≡ ScoreFault.Range) ⊎ (fault ≡ ScoreFault.Write)) }
    ensures unwritten { IfErr result (λ fault. fault ≢ ScoreFault.Write → writer.new ≡ writer.old) }
    ensures write_failed { IsErrOf result ScoreFault.Write → IsTrue tables.within_limit
        × StopsWriting ⟦<W as Sink>⟧ writer.old writer.new tables.answers.text.items }
{
    if !tables.within_limit {
        return Err(ScoreFault::Range);
    }
    write_all(writer, tables.answers.as_slice())?;
    Ok(ScoreReport {
        counts: tables.report,
        slips: tables.slips,
    })
}

fn are_allowed(readers: usize, workers: u32) -> bool
    ensures { IsTrue result ↔ AreAllowed readers workers }
{
    (1..=MOST_READERS).contains(&readers) && (1..=MOST_WORKERS).contains(&workers)
}
