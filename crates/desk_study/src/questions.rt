//! Answers the questions of a text one by one.
ghost use Rattle.std.specs.Prelude.{◌≡◌, ◌∷◌, ◌++◌, [], IfOk, OnOk, OnErr, length};
ghost use Rattle.desk_lines.specs.Outbox.{HasRoomForLine};
ghost use Rattle.desk_lines.specs.Telling.{with_line_feed};
ghost use Rattle.riichi_study.specs.Findings as found;
ghost use Rattle.desk_study.specs.Answers as spec;
ghost use Rattle.riichi_chances.specs.Graph.{most_hands_in};
ghost use Rattle.riichi_study.specs.Lines.{study_of};
ghost use Rattle.desk_study.specs.Ahead.{IsFoundOf};
ghost use Rattle.desk_study.specs.Tellers.{LineWantsMemory, LineAsksTooMany};

use crate::ahead::{Ahead, find_ahead};
use crate::calls::put_calls;
use crate::chances::put_chances;
use crate::form::{StudiesForm, StudiesManner};
use crate::puts::{put_end, put_fault, put_front};
use crate::safe::put_safe;
use crate::shapes::put_shape;
use crate::worths::put_worths;
use desk_lines::{LineKind, Outbox, Teller, profile_of};
use riichi_chances::{HandPlace, Room, Rows, TooManyHands};
use riichi_hand::LineFault;
use riichi_shape::RowSource;
use riichi_study::{Study, read_study};
use riichi_worth::{WorthRoom, WorthRow};
use std::alloc::{AllocError, Global};

/// So many hands have room where the places that are there are too few. No list of hands has more than the last.
const ROOMS: [usize; 3] = [512, 5_120, 65_535];

/// The teller of a text of questions: each is answered by itself. Chances and worths alone take memory, for the hands that a hand may
/// come to; it is kept for the next question.
#[derive(Drop)]
pub struct Questions {
    manner: StudiesManner,
    room: Room,
    worths: WorthRoom,
}

impl Questions {
    pub fn new(alloc: Global, manner: StudiesManner) -> Questions
        ensures { result.manner ≡ manner }
    {
        Questions {
            manner,
            room: Room::new(alloc),
            worths: WorthRoom::new(alloc),
        }
    }

    /// Takes the line of this number, and puts its answer. The first line may set a rule profile, as in a text of record lines: hands
    /// are studied alike under each, and it is not answered. Where there is no memory for a question of chances or of a worth,
    /// nothing is put.
    #[tactic(auto, unfolding(crate::specs::Answers::question_answer, crate::specs::Answers::question_kind))]
    pub fn take<S: RowSource>(
        &mut self,
        number: u64,
        line: &[u8],
        outbox: &mut Outbox,
        source: &mut S,
    ) -> Result<LineKind, AllocError>
        requires { HasRoomForLine outbox.old }
        ensures kind { IfOk result (λ kind. kind ≡ spec.question_kind number line.now) }
        ensures put { OnOk result (outbox.new.bytes.items ≡ outbox.old.bytes.items
            ++ with_line_feed (spec.question_answer self.old.manner number line.now)) }
        ensures no_memory { OnErr result ((outbox.new.bytes.items ≡ outbox.old.bytes.items)
            × LineWantsMemory line.now) }
        ensures manner { self.new.manner ≡ self.old.manner }
    {
        if names_rules(number, line) {
            return Ok(LineKind::NoRecord);
        }
        let told = number_if(self.manner.is_numbered, number);
        if let Ok(kind) = self.answer(told, line, outbox, source) {
            return Ok(kind);
        }
        let asks_worth = asks_worth(line);
        for most in ROOMS {
            if most > self.most(asks_worth) {
                self.make(most, asks_worth)?;
                if let Ok(kind) = self.answer(told, line, outbox, source) {
                    return Ok(kind);
                }
            }
        }
        Err(AllocError)
    }

    /// How many hands of a question there is room for.
    fn most(&self, asks_worth: bool) -> usize {
        let places = self.room.places.len();
        if asks_worth {
            places.min(self.worths.rows.len())
        } else {
            places
        }
    }

    /// Makes room for so many hands of a question.
    fn make(&mut self, most: usize, asks_worth: bool) -> Result<(), AllocError>
        ensures { self.new.manner ≡ self.old.manner }
    {
        if most > self.room.places.len() {
            self.room.make(most)?;
        }
        if asks_worth {
            self.worths.make(most)?;
        }
        Ok(())
    }

    /// Answers a question in the places that are there.
    fn answer<S: RowSource>(
        &mut self,
        number: Option<u64>,
        line: &[u8],
        outbox: &mut Outbox,
        source: &mut S,
    ) -> Result<LineKind, TooManyHands>
        requires { HasRoomForLine outbox.old }
        ensures kind { IfOk result (λ kind. kind ≡ spec.studied_kind (study_of line.now)) }
        ensures put { OnOk result (outbox.new.bytes.items ≡ outbox.old.bytes.items
            ++ with_line_feed (spec.studied self.old.manner.form number (study_of line.now))) }
        ensures many { OnErr result ((outbox.new.bytes.items ≡ outbox.old.bytes.items)
            × LineWantsMemory line.now) }
        ensures manner { self.new.manner ≡ self.old.manner }
    {
        let places = self.room.places.as_mut_slice();
        let rows = self.room.rows.as_mut_slice();
        let worths = self.worths.rows.as_mut_slice();
        answer_question(
            self.manner.form,
            number,
            line,
            outbox,
            source,
            places,
            rows,
            worths,
        )
    }
}

/// Puts the answer to a question, with its line's number where it is told. The hands that a hand may come to stand in places that are
/// lent, with rows beside them for chances or for worths; where they are too few, nothing is put.
pub fn answer_question<S: RowSource>(
    form: StudiesForm,
    number: Option<u64>,
    line: &[u8],
    outbox: &mut Outbox,
    source: &mut S,
    places: &mut [HandPlace],
    rows: &mut [Rows],
    worths: &mut [WorthRow],
) -> Result<LineKind, TooManyHands>
    requires { HasRoomForLine outbox.old }
    ensures kind { IfOk result (λ kind. kind ≡ spec.studied_kind (study_of line.now)) }
    ensures put { OnOk result (outbox.new.bytes.items ≡ outbox.old.bytes.items
        ++ with_line_feed (spec.studied form number (study_of line.now))) }
    ensures many { OnErr result ((outbox.new.bytes.items ≡ outbox.old.bytes.items)
        × LineAsksTooMany (most_hands_in (length places.old) (length rows.old))
        (most_hands_in (length places.old) (length worths.old)) line.now) }
{
    match read_study(line) {
        Ok(None) => Ok(LineKind::NoRecord),
        Ok(Some(study)) => {
            let ahead = find_ahead(places, rows, worths, &study, source)?;
            put_answer(form, number, &study, &ahead, outbox, source);
            Ok(LineKind::Answered)
        }
        Err(fault) => {
            put_refusal(form, number, &fault, outbox);
            Ok(LineKind::Refused)
        }
    }
}

/// Whether a line asks what a hand is worth.
fn asks_worth(line: &[u8]) -> bool {
    matches!(read_study(line), Ok(Some(Study::Worth(_, _))))
}

/// Whether the line of this number sets a rule profile: the first of all may.
fn names_rules(number: u64, line: &[u8]) -> bool
    ensures { result ≡ spec.names_rules number line.now }
{
    number == 1 && profile_of(line).is_some()
}

/// The number of a line, where answers are numbered.
fn number_if(is_numbered: bool, number: u64) -> Option<u64>
    ensures { result ≡ spec.number_asked is_numbered number }
{
    if is_numbered { Some(number) } else { None }
}

/// Puts the answer to a question, with its line's number where it is told.
fn put_answer<S: RowSource>(
    form: StudiesForm,
    number: Option<u64>,
    study: &Study,
    ahead: &Ahead,
    outbox: &mut Outbox,
    source: &mut S,
)
    requires found { IsFoundOf study.now ahead.now }
    requires room { HasRoomForLine outbox.old }
    ensures { outbox.new.bytes.items ≡ outbox.old.bytes.items
        ++ (spec.form_front form number ++ spec.told_in form (found.finding_of study.now) ++ 10 ∷ []) }
{
    put_front(form, number, outbox);
    match study {
        Study::Shape(hand, order) => put_shape(form, hand, *order, outbox, source),
        Study::Calls(asked) => put_calls(form, asked, outbox, source),
        Study::Safe(asked) => put_safe(form, asked, outbox),
        Study::Chances(_, _) => match ahead {
            Ahead::Chances(found) => put_chances(form, found, outbox),
            _ => unreachable!(),
        },
        Study::Worth(_, _) => match ahead {
            Ahead::Worths(found) => put_worths(form, found, outbox),
            _ => unreachable!(),
        },
    }
    put_end(outbox);
}

/// Puts why a line is refused, with its number where it is told.
fn put_refusal(form: StudiesForm, number: Option<u64>, fault: &LineFault, outbox: &mut Outbox)
    requires { HasRoomForLine outbox.old }
    ensures { outbox.new.bytes.items ≡ outbox.old.bytes.items
        ++ (spec.form_front form number ++ spec.fault_told form fault.now ++ 10 ∷ []) }
{
    put_front(form, number, outbox);
    put_fault(form, fault, outbox);
    put_end(outbox);
}

impl Teller for Questions {
    ghost use Rattle.std.specs.Prelude.{List, ℕ};
    ghost use Rattle.desk_study.specs.Tellers.{HasAnswered, LineWantsMemory};

    ghost Answer = { List ℕ };

    ghost written = { λ text. text };

    ghost most = { 4096 };

    ghost tells = { λ first now lines told report. HasAnswered first now lines told report };

    ghost wants_memory = { λ _ line. LineWantsMemory line };

    fn tell<S: RowSource>(
        &mut self,
        number: u64,
        line: &[u8],
        outbox: &mut Outbox,
        source: &mut S,
    ) -> Result<LineKind, AllocError> {
        let kind = self.take(number, line, outbox, source)?;
        Ok(kind)
    }
}
