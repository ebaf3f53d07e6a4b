//! The threads that answer a stream, and what they keep from round to round.
ghost use Rattle.std.specs.Prelude.{◌≡◌, ◌+◌, ◌<◌, ◌≤◌, ◌++◌, ℕ, List, [], None, length, max, min, IfOk, IfErr, OnOk};
ghost use Rattle.desk_lines.specs.Lines.{ended_lines, lines};
ghost use Rattle.desk_lines.specs.Reading.{AreToldAs, kept, with_end};
ghost use Rattle.desk_lines.specs.Slips.{empty_tally};
ghost use Rattle.desk_lines.specs.Streams.{GivesAll, IsReadWithin, Writes};
ghost use Rattle.desk_crew.specs.Crew.{Stands, Waits, Stopped, IsAnswered, IsAhead, IsBetween, IsGivenUp, IsLeft};
ghost use Rattle.desk_crew.specs.Pieces.{answers_in_rooms};
ghost use Rattle.desk_crew.specs.Reading.{AreMoved, FindsEnd, IsStoppedBy, IsStuck};

use crate::piece::piece_size;
use crate::reading::{Ahead, MOST_READS, Stop};
use crate::rooms::Rooms;
use crate::round::answer_beside;
use crate::share::Share;
use crate::standing::Standing;
use desk_io::{Sink, Source};
use desk_lines::{DeskFault, Responder, TextReport};
use riichi_hand::Rules;
use std::alloc::{AllocError, Global};
use std::mem::swap;
use std::sync::atomic::AtomicUsize;
use std::thread::Threads;

/// The most threads.
const MOST_WORKERS: usize = 16;

/// Rounds are told in so many bytes.
const EACH: usize = 65_536;

/// The threads that answer streams, one after another, with what each keeps: rows of suits, and rooms. Of a stream on its way it
/// has how far it is.
#[derive(Drop)]
pub struct Crew {
    standing: Standing,
    shares: Vec<Share>,
    /// The text at hand.
    text: Vec<u8>,
    /// What is read while that is answered.
    ahead: Ahead,
    /// The answers that wait to be written.
    waiting: Rooms,

    ghost some: { 0 < length shares.items },
}

impl Crew {
    /// 1 to 16 threads; another number stands for the nearest of these.
    pub fn new(alloc: Global, workers: usize) -> Result<Crew, AllocError>
        ensures workers { IfOk result (λ crew. length crew.shares.items ≡ max 1 (min workers 16)) }
    {
        let workers = workers.clamp(1, MOST_WORKERS);
        Crew::of(alloc, workers, round_bytes(workers))
    }

    /// The same for objects of JSON, which are several times as long as answers in words: a round is a fourth as long.
    pub fn for_objects(alloc: Global, workers: usize) -> Result<Crew, AllocError>
        ensures workers { IfOk result (λ crew. length crew.shares.items ≡ max 1 (min workers 16)) }
    {
        let workers = workers.clamp(1, MOST_WORKERS);
        Crew::of(alloc, workers, round_bytes(workers) / 4)
    }

    /// A crew of so many threads whose rounds read so many bytes or more.
    pub fn of(alloc: Global, workers: usize, enough: usize) -> Result<Crew, AllocError>
        requires { 1 ≤ workers }
        ensures workers { IfOk result (λ crew. length crew.shares.items ≡ workers) }
    {
        let mut shares = Vec::new(alloc);
        while shares.len() < workers {
            shares.push(Share::new(alloc)?)?;
        }
        Ok(Crew {
            standing: Standing::new(),
            shares,
            text: Vec::new(alloc),
            ahead: Ahead::new(alloc, enough),
            waiting: Rooms::new(alloc)?,
        })
    }

    /// Answers the record lines of a stream by the kind of answer `A`, as `desk_lines::desk_text_by` does: where no call fails,
    /// byte for byte the same. The first line may set the profile, which else is the given one.
    pub fn answer_text<A: Responder + Send + Sync, H: Threads + Sync, R: Source, W: Sink>(
        &mut self,
        rt: &H,
        given: Rules,
        reader: &mut R,
        writer: &mut W,
    ) -> Result<TextReport, DeskFault>
        // The reader was read to its end, and the answers to what it gave were written.
        ensures ok { IfOk result (λ report. (text : List ℕ)
            × GivesAll ⟦<R as Source>⟧ reader.old reader.new text
            × IsAnswered A.may_tell ⟦<W as Sink>⟧ writer.old writer.new
            given (lines text) report) }

        // A read failed, or there were too many: the lines that had ended are answered. A write failed, or memory was wanted: the
        // first of the whole lines that the reader gave are, as far as their answers could be written.
        ensures err { IfErr result (IsLeft A.may_tell ⟦<R as Source>⟧ ⟦<W as Sink>⟧
            reader.old reader.new writer.old writer.new given) }
        ensures reads { IsReadWithin ⟦<R as Source>⟧ reader.old reader.new }
    {
        self.begin();
        self.rounds::<A, H, R, W>(rt, given, reader, writer)?;
        self.end::<A, H, W>(rt, given, writer)
    }

    /// Before the first read of a stream.
    fn begin(&mut self)
        ensures new { (self.new.standing.profile ≡ None)
            × (self.new.standing.tally ≡ empty_tally) }
        ensures none { (self.new.text.items ≡ []) × ((answers_in_rooms self.new.waiting) ≡ []) }
        ensures left { self.new.ahead.left ≡ MOST_READS }
    {
        self.standing = Standing::new();
        self.text.clear();
        self.waiting.clear();
        self.ahead.left = MOST_READS;
    }

    /// Answers the lines of a reader that have ended, up to its end, and writes the answers. The front of a line that has not
    /// ended is then the text at hand.
    fn rounds<A: Responder + Send + Sync, H: Threads + Sync, R: Source, W: Sink>(
        &mut self,
        rt: &H,
        given: Rules,
        reader: &mut R,
        writer: &mut W,
    ) -> Result<(), DeskFault>
        requires new { (self.old.standing.profile ≡ None)
            × (self.old.standing.tally ≡ empty_tally) }
        requires none { (self.old.text.items ≡ []) × ((answers_in_rooms self.old.waiting) ≡ []) }
        requires left { self.old.ahead.left ≡ MOST_READS }
        ensures ok { OnOk result ((text : List ℕ)
            × IsBetween A.may_tell ⟦<R as Source>⟧ ⟦<W as Sink>⟧
            reader.old writer.old given
            text self.new.text.items self.new.standing reader.new writer.new
            × FindsEnd ⟦<R as Source>⟧ reader.old reader.new) }
        ensures err { IfErr result (IsLeft A.may_tell ⟦<R as Source>⟧ ⟦<W as Sink>⟧
            reader.old reader.new writer.old writer.new given) }
        ensures reads { IsReadWithin ⟦<R as Source>⟧ reader.old reader.new }
        ensures written { OnOk result ((answers_in_rooms self.new.waiting) ≡ []) }
    {
        loop {
            let stop = self.turn::<A, H, R, W>(rt, given, reader, writer)?;
            if let Some(end) = stop.outcome() {
                self.settle::<A, H, W>(rt, given, writer)?;
                return end;
            }
        }
    }

    /// One round: answers the lines of the text at hand that have ended, and beside that writes the answers to those before and
    /// reads the next text.
    fn turn<A: Responder + Send + Sync, H: Threads + Sync, R: Source, W: Sink>(
        &mut self,
        rt: &H,
        given: Rules,
        reader: &mut R,
        writer: &mut W,
    ) -> Result<Stop, DeskFault>
        ensures stop { IfOk result
            (IsStoppedBy ⟦<R as Source>⟧ reader.old reader.new self.new.ahead.left) }
        ensures ok { OnOk result ((from : R) (start : W) (text : List ℕ)
            → IsAhead A.may_tell ⟦<R as Source>⟧ ⟦<W as Sink>⟧ from start given
            text self.old.text.items self.old.standing (answers_in_rooms self.old.waiting)
            reader.old writer.old
            → (all : List ℕ)
            × IsAhead A.may_tell ⟦<R as Source>⟧ ⟦<W as Sink>⟧ from start given
            all self.new.text.items self.new.standing (answers_in_rooms self.new.waiting)
            reader.new writer.new) }
        ensures err { IfErr result (λ fault. (from : R) (start : W) (text : List ℕ)
            → IsAhead A.may_tell ⟦<R as Source>⟧ ⟦<W as Sink>⟧ from start given
            text self.old.text.items self.old.standing (answers_in_rooms self.old.waiting)
            reader.old writer.old
            → IsGivenUp A.may_tell ⟦<R as Source>⟧ ⟦<W as Sink>⟧
            from reader.new start writer.new given fault) }
        ensures calls { R.calls reader.new + self.new.ahead.left
            ≡ R.calls reader.old + self.old.ahead.left }
        ensures fewer { IfOk result (λ stop. stop ≡ Stop.Full
            → self.new.ahead.left < self.old.ahead.left) }
    {
        let text = self.text.as_slice();
        let waiting = &self.waiting;
        let (rules, records) = self.standing.begin(given, text);
        let size = piece_size(records);
        let next = AtomicUsize::new(0);
        let ahead = &mut self.ahead;
        let mut moving = || -> Result<Stop, DeskFault>
            ensures { IfOk result (AreMoved R.Source W.Sink
                reader.entry.now reader.exit.now writer.entry.now writer.exit.now
                (answers_in_rooms waiting.entry.now) (kept 8194 text.entry.now)
                ahead.exit.now.text.items ahead.exit.now.left)
                × IfErr result (IsStuck R.Source W.Sink
                reader.entry.now reader.exit.now writer.entry.now writer.exit.now
                (answers_in_rooms waiting.entry.now))
                × (R.calls reader.exit.now + ahead.exit.now.left
                ≡ R.calls reader.entry.now + ahead.entry.now.left)
                × IfOk result (λ stop. stop ≡ Stop.Full
                → ahead.exit.now.left < ahead.entry.now.left) }
        { ahead.move_on(text, waiting, reader, writer) };
        let shares = self.shares.as_mut_slice();
        let stop = answer_beside::<A, H, _, _>(
            rt,
            rules,
            records,
            size,
            &next,
            shares,
            &mut moving,
        )?;
        let tally = &mut self.standing.tally;
        self.waiting
            .gather::<A>(rules, records, size, self.shares.as_mut_slice(), tally)?;
        swap(&mut self.text, &mut self.ahead.text);
        Ok(stop)
    }

    /// Answers the lines of the text at hand that have ended, and writes the answers. The front of a line that has not ended is
    /// then the text at hand.
    fn settle<A: Responder + Send + Sync, H: Threads + Sync, W: Sink>(
        &mut self,
        rt: &H,
        given: Rules,
        writer: &mut W,
    ) -> Result<(), DeskFault>
        ensures ok { OnOk result ((start : W) (lines next : List (List ℕ))
            → AreToldAs 4096 (ended_lines self.old.text.items) next
            → Waits A.may_tell ⟦<W as Sink>⟧
            start given lines self.old.standing writer.old (answers_in_rooms self.old.waiting)
            → Stands A.may_tell ⟦<W as Sink>⟧
            start given (lines ++ next) self.new.standing writer.new) }
        ensures err { IfErr result (λ fault. (start : W) (lines next : List (List ℕ))
            → AreToldAs 4096 (ended_lines self.old.text.items) next
            → Waits A.may_tell ⟦<W as Sink>⟧
            start given lines self.old.standing writer.old (answers_in_rooms self.old.waiting)
            → Stopped A.may_tell ⟦<W as Sink>⟧ start writer.new given (lines ++ next) fault) }
        ensures held { OnOk result (self.new.text.items ≡ kept 8194 self.old.text.items) }
        ensures written { OnOk result ((answers_in_rooms self.new.waiting) ≡ []) }
    {
        self.answer::<A, H, W>(rt, given, writer)?;
        self.waiting.write(writer)?;
        self.waiting.clear();
        Ok(())
    }

    /// Answers the lines of the text at hand that have ended, and beside that writes the answers to those before.
    fn answer<A: Responder + Send + Sync, H: Threads + Sync, W: Sink>(
        &mut self,
        rt: &H,
        given: Rules,
        writer: &mut W,
    ) -> Result<(), DeskFault>
        ensures ok { OnOk result ((start : W) (lines next : List (List ℕ))
            → AreToldAs 4096 (ended_lines self.old.text.items) next
            → Waits A.may_tell ⟦<W as Sink>⟧
            start given lines self.old.standing writer.old (answers_in_rooms self.old.waiting)
            → Waits A.may_tell ⟦<W as Sink>⟧
            start given (lines ++ next) self.new.standing writer.new
            (answers_in_rooms self.new.waiting)) }
        ensures err { IfErr result (λ fault. (start : W) (lines next : List (List ℕ))
            → AreToldAs 4096 (ended_lines self.old.text.items) next
            → Waits A.may_tell ⟦<W as Sink>⟧
            start given lines self.old.standing writer.old (answers_in_rooms self.old.waiting)
            → Stopped A.may_tell ⟦<W as Sink>⟧ start writer.new given (lines ++ next) fault) }
        ensures held { OnOk result (self.new.text.items ≡ kept 8194 self.old.text.items) }
    {
        let text = self.text.as_slice();
        let waiting = &self.waiting;
        let (rules, records) = self.standing.begin(given, text);
        let size = piece_size(records);
        let next = AtomicUsize::new(0);
        let mut writing = || -> Result<(), DeskFault>
            ensures { Writes W.Sink writer.entry.now writer.exit.now result
                (answers_in_rooms waiting.entry.now) }
        { waiting.write(writer) };
        let shares = self.shares.as_mut_slice();
        answer_beside::<A, H, _, _>(rt, rules, records, size, &next, shares, &mut writing)?;
        self.ahead.hold(text)?;
        let tally = &mut self.standing.tally;
        self.waiting
            .gather::<A>(rules, records, size, self.shares.as_mut_slice(), tally)?;
        swap(&mut self.text, &mut self.ahead.text);
        Ok(())
    }

    /// Answers the last line, where it has no line feed.
    fn end<A: Responder + Send + Sync, H: Threads + Sync, W: Sink>(
        &mut self,
        rt: &H,
        given: Rules,
        writer: &mut W,
    ) -> Result<TextReport, DeskFault>
        requires none { (answers_in_rooms self.old.waiting) ≡ [] }
        ensures ok { IfOk result (λ report. (start : W) (text : List ℕ)
            → self.old.text.items ≡ kept 8194 text
            → Stands A.may_tell ⟦<W as Sink>⟧
            start given (ended_lines text) self.old.standing writer.old
            → IsAnswered A.may_tell ⟦<W as Sink>⟧
            start writer.new given (lines text) report) }
        ensures err { IfErr result (λ fault. (start : W) (text : List ℕ)
            → self.old.text.items ≡ kept 8194 text
            → Stands A.may_tell ⟦<W as Sink>⟧
            start given (ended_lines text) self.old.standing writer.old
            → Stopped A.may_tell ⟦<W as Sink>⟧ start writer.new given (lines text) fault) }
    {
        self.end_line()?;
        self.settle::<A, H, W>(rt, given, writer)?;
        Ok(self.standing.report(given))
    }

    /// Ends the line at hand.
    fn end_line(&mut self) -> Result<(), AllocError>
        ensures text { OnOk result (self.new.text.items ≡ with_end self.old.text.items) }
        ensures same { (self.new.standing ≡ self.old.standing)
            × (self.new.waiting ≡ self.old.waiting) }
    {
        if self.text.is_empty() {
            return Ok(());
        }
        self.text.push(b'\n')?;
        Ok(())
    }
}

/// How many bytes a round reads: 2 MiB by one thread, 0.4 by sixteen. Each thread more keeps rows and rooms of its own, and all
/// should take less than 64 MiB, whatever the lines are.
fn round_bytes(workers: usize) -> usize
    requires { workers ≤ 16 }
{
    (101 - 5 * workers) / 3 * EACH
}
