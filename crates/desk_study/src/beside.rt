//! A text of questions that is at hand, answered by several threads.
ghost use Rattle.std.specs.Prelude.{◌≡◌, ◌+◌, ◌<◌, ◌≤◌, ◌++◌, ◌^◌, length, IfOk, IfErr, IsErrOf};
ghost use Rattle.desk_lines.specs.Lines.{lines};
ghost use Rattle.desk_lines.specs.Streams.{WritesAll, StopsWriting};
ghost use Rattle.desk_lines.specs.Telling.{report_of, text_of};
ghost use Rattle.desk_study.specs.Answers.{question_answers, question_kinds};
ghost use Rattle.desk_study.specs.Parts as spec;
ghost use denote.Param.Send.{IsSync};

use crate::form::StudiesManner;
use crate::part::Part;
use desk_io::Sink;
use desk_lines::{DeskFault, DeskReport, ended_bytes, next_line, write_all};
use std::alloc::Global;
use std::thread::{self, Threads};

/// A shorter text is not worth a thread.
const LEAST: usize = 4_096;

/// Answers the questions of a text as [`study_text`](crate::study_text) does, by so many threads: each answers a part of the text
/// into memory, and then all is written. So it should be few threads; a short text is answered by one.
pub fn study_text_by<H: Threads + Sync, W: Sink>(
    rt: &H,
    alloc: Global,
    workers: usize,
    manner: StudiesManner,
    text: &[u8],
    writer: &mut W,
) -> Result<DeskReport, DeskFault>
    // The answers were written.
    ensures ok { IfOk result (λ report. WritesAll ⟦<W as Sink>⟧ writer.old writer.new
        (text_of (question_answers manner 1 (lines text.now)))
        × (report ≡ report_of (question_kinds 1 (lines text.now)))) }
    // A write failed: a front of the answers was written.
    ensures write_failed { IsErrOf result DeskFault.Write
        → StopsWriting ⟦<W as Sink>⟧ writer.old writer.new
        (text_of (question_answers manner 1 (lines text.now))) }
    // There was no memory for the answers: nothing was written.
    ensures no_memory { IsErrOf result DeskFault.Memory → writer.new ≡ writer.old }
    ensures no_read { IsErrOf result DeskFault.Read → ⊥ }
{
    let part = answer_by(rt, alloc, workers, manner, 1, text)?;
    write_all(writer, part.answers.as_slice())?;
    Ok(part.report)
}

/// Answers the lines of a text, of which the first has this number, by so many threads: one half by half of them, beside the other.
#[cycle(halves)]
fn answer_by<H: Threads + Sync>(
    rt: &H,
    alloc: Global,
    workers: usize,
    manner: StudiesManner,
    number: u64,
    text: &[u8],
) -> Result<Part, DeskFault>
    requires { number + length text.now < 2 ^ 64 }
    ensures ok { IfOk result (spec.IsAnswered manner number (lines text.now)) }
    ensures err { IfErr result (λ fault. fault ≡ DeskFault.Memory) }
{
    if workers < 2 || text.len() < LEAST {
        return Ok(Part::answer(alloc, manner, number, text)?);
    }
    let half = workers / 2;
    let others = workers - half;
    let (front, back) = cut_before(text, text.len() / workers * half);
    let behind = number + count_lines(front);
    let beside = move || -> Result<Part, DeskFault>
        requires { IsSync H.row × (number + length front.now < 2 ^ 64) }
        ensures { IfOk result (spec.IsAnswered manner number (lines front.entry.now))
            × IfErr result (λ fault. fault ≡ DeskFault.Memory) }
    { answer_by(rt, alloc, half, manner, number, front) };
    let here = move || -> Result<Part, DeskFault>
        requires { IsSync H.row × (behind + length back.now < 2 ^ 64) }
        ensures { IfOk result (spec.IsAnswered manner behind (lines back.entry.now))
            × IfErr result (λ fault. fault ≡ DeskFault.Memory) }
    { answer_by(rt, alloc, others, manner, behind, back) };
    let (first, later) = thread::join(rt, beside, here);
    let part = first?;
    part.with(later?)
}

/// Cuts a text in two, behind the last line that ends before a place, or before all.
fn cut_before(text: &[u8], place: usize) -> (&[u8], &[u8])
    requires { place ≤ length text.now }
    ensures lines { lines text.now ≡ lines result.0.now ++ lines result.1.now }
    ensures len { length text.now ≡ length result.0.now + length result.1.now }
{
    let ended = ended_bytes(&text[..place]);
    text.split_at(ended)
}

/// How many lines a text has.
fn count_lines(text: &[u8]) -> u64
    ensures lines { result ≡ length (lines text.now) }
    ensures few { result ≤ length text.now }
{
    let mut count = 0;
    let mut rest = text;
    while let Some((_line, after)) = next_line(rest) {
        count += 1;
        rest = after;
    }
    count
}
