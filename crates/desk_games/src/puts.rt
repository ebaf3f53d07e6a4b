//! Answers to the lines of a game on their way to the writer.
ghost use Rattle.std.specs.Prelude.{◌≡◌, ◌+◌, ◌++◌, ◌≤◌, Some};
ghost use Rattle.arrayvec.specs.ArrayString.{array_string_len};
ghost use Rattle.riichi_table.specs.Players.{of_player};
ghost use Rattle.riichi_game_text.specs.Answers.{deal_text, penalty_text};
ghost use Rattle.riichi_game_text.specs.GameLines.{said_by};
ghost use Rattle.riichi_game_text.specs.Names.{names_in};
ghost use Rattle.desk_lines.specs.Outbox.{HasRoomForLine, HasRoomForText};
ghost use Rattle.desk_lines.specs.Telling.{with_line_feed};
ghost use Rattle.desk_games.specs.Below.{below_deal, said_end, step_in};
ghost use Rattle.desk_games.specs.Forms.{front_text, number_front, brace_front};
ghost use Rattle.desk_games.specs.Replies.{begun_in, outcome_answer, outcome_written, refused_in, stands_told};
ghost use Rattle.desk_games.specs.Texts.{behind_front};
ghost use Rattle.desk_games.specs.declared.form.Writing.TheVariants.{Words, Members, Rows};

use crate::below::{Step, put_below};
use crate::form::{GamesForm, Writing};
use desk_lines::Outbox;
use riichi_game_json as members;
use riichi_game_reasons::{EndReason, push_end_reason};
use riichi_game_sheet as rows;
use riichi_game_text::{
    GameFault, GameLine, Names, push_begun, push_deal, push_penalty, push_refused, push_stands,
};
use riichi_table::{GameState, Outcome, Player};
use riichi_text::{ANSWER_ROOM, AnswerText, MOST_U64, push_number};

/// The bytes of the longest number of a line, and of what stands beside it.
const MOST_FRONT: usize = "{\"line\":".len() + MOST_U64 + ",".len();

/// How the answer to a line is put.
#[derive(Clone, Copy)]
pub(crate) struct Manner {
    /// The number of the line, where it is told.
    pub(crate) front: Option<u64>,
    pub(crate) form: GamesForm,
}

/// Begins the text of an answer by what stands before each.
fn begin_text(manner: Manner, text: &mut AnswerText)
    ensures bytes { text.new.bytes ≡ front_text manner.form manner.front }
    ensures len { array_string_len text.new ≤ MOST_FRONT }
{
    text.clear();
    match manner.form.writing() {
        Writing::Words => push_number_front(text, manner.front),
        Writing::Members => push_brace_front(text, manner.front),
        Writing::Rows => {}
    }
}

/// Writes the number of a line, where it is told.
fn push_number_front(text: &mut AnswerText, front: Option<u64>)
    requires { array_string_len text.old + MOST_FRONT ≤ ANSWER_ROOM }
    ensures bytes { text.new.bytes ≡ text.old.bytes ++ number_front front }
    ensures len { array_string_len text.new ≤ array_string_len text.old + MOST_FRONT }
{
    if let Some(number) = front {
        push_number(text, number);
        text.push_str(":");
    }
}

/// Writes the brace of an object, with the number of a line as its first member where it is told.
fn push_brace_front(text: &mut AnswerText, front: Option<u64>)
    requires { array_string_len text.old + MOST_FRONT ≤ ANSWER_ROOM }
    ensures bytes { text.new.bytes ≡ text.old.bytes ++ brace_front front }
    ensures len { array_string_len text.new ≤ array_string_len text.old + MOST_FRONT }
{
    match front {
        None => text.push_str("{"),
        Some(number) => {
            text.push_str("{\"line\":");
            push_number(text, number);
            text.push_str(",");
        }
    }
}

/// Puts the answer to a line that is refused.
#[tactic(auto, unfolding(crate::specs::Replies::refused_in))]
pub(crate) fn put_refused(manner: Manner, fault: GameFault, outbox: &mut Outbox)
    requires { HasRoomForText outbox.old }
    ensures { outbox.new.bytes.items ≡ outbox.old.bytes.items
        ++ with_line_feed (Some (front_text manner.form manner.front ++ refused_in manner.form fault)) }
{
    begin_text(manner, &mut outbox.text);
    match manner.form.writing() {
        Writing::Words | Writing::Rows => push_refused(&mut outbox.text, &fault),
        Writing::Members => members::push_refused(&mut outbox.text, &fault),
    }
    outbox.put_text();
}

/// Puts the answer to a line that begins a game.
#[tactic(auto, unfolding(crate::specs::Replies::begun_in))]
pub(crate) fn put_begun(manner: Manner, line: &GameLine, outbox: &mut Outbox)
    requires { HasRoomForText outbox.old }
    ensures { outbox.new.bytes.items ≡ outbox.old.bytes.items
        ++ with_line_feed (Some (front_text manner.form manner.front ++ begun_in manner.form (said_by line.now))) }
{
    begin_text(manner, &mut outbox.text);
    match manner.form.writing() {
        Writing::Words => push_begun(&mut outbox.text, &line.names, line.rules.start),
        Writing::Members => members::push_begun(&mut outbox.text, line),
        Writing::Rows => rows::push_begun(&mut outbox.text, line),
    }
    outbox.put_text();
}

/// Puts the answer to an outcome, where it has one, and in a form that explains it what stands below it.
pub(crate) fn put_outcome(manner: Manner, step: &Step<'_>, outbox: &mut Outbox)
    requires { HasRoomForLine outbox.old }
    ensures { let answer = outcome_answer manner.form (step_in step.now) in
        outbox.new.bytes.items ≡ outbox.old.bytes.items
        ++ with_line_feed (behind_front (front_text manner.form manner.front) answer) }
{
    match manner.form.writing() {
        Writing::Words => put_in_words(manner, step, outbox),
        Writing::Members => put_members(manner, step, outbox),
        Writing::Rows => put_rows(manner, step, outbox),
    }
}

/// Puts the answer to an outcome as an object.
fn put_members(manner: Manner, step: &Step<'_>, outbox: &mut Outbox)
    requires { HasRoomForText outbox.old }
    ensures { let answer = outcome_written Members manner.form (step_in step.now) in
        outbox.new.bytes.items ≡ outbox.old.bytes.items
        ++ with_line_feed (behind_front (front_text manner.form manner.front) answer) }
{
    begin_text(manner, &mut outbox.text);
    members::push_outcome(
        &mut outbox.text,
        step.rules,
        step.before,
        step.after,
        step.outcome,
    );
    outbox.put_text();
}

/// Puts the rows of an outcome, where it has some.
fn put_rows(manner: Manner, step: &Step<'_>, outbox: &mut Outbox)
    requires { HasRoomForText outbox.old }
    ensures { let answer = outcome_written Rows manner.form (step_in step.now) in
        outbox.new.bytes.items ≡ outbox.old.bytes.items
        ++ with_line_feed (behind_front (front_text manner.form manner.front) answer) }
{
    if matches!(step.outcome, Outcome::End) {
        return;
    }
    begin_text(manner, &mut outbox.text);
    rows::push_outcome(
        &mut outbox.text,
        step.names,
        step.rules,
        &step.before.state,
        &step.after.state.points,
        step.outcome,
    );
    outbox.put_text();
}

/// Puts the answer to an outcome in words, where it has one.
fn put_in_words(manner: Manner, step: &Step<'_>, outbox: &mut Outbox)
    requires { HasRoomForLine outbox.old }
    ensures { let answer = outcome_written Words manner.form (step_in step.now) in
        outbox.new.bytes.items ≡ outbox.old.bytes.items
        ++ with_line_feed (behind_front (front_text manner.form manner.front) answer) }
{
    match step.outcome {
        Outcome::End => put_said_end(manner, step, outbox),
        Outcome::Penalty { player, points } => {
            put_penalty(manner, step.names, *player, *points, outbox);
        }
        _ => put_deal(manner, step, outbox),
    }
}

/// Puts that `end` was said, where that is told.
fn put_said_end(manner: Manner, step: &Step<'_>, outbox: &mut Outbox)
    requires { HasRoomForText outbox.old }
    ensures { let answer = said_end manner.form (step_in step.now) in
        outbox.new.bytes.items ≡ outbox.old.bytes.items
        ++ with_line_feed (behind_front (front_text manner.form manner.front) answer) }
{
    if manner.form.is_explained() {
        begin_text(manner, &mut outbox.text);
        let points = &step.after.state.points;
        push_end_reason(
            &mut outbox.text,
            step.names,
            step.rules,
            points,
            EndReason::Said,
        );
        outbox.put_text();
    }
}

/// Puts the state that a game is in again, where a line is taken back.
#[tactic(auto, unfolding(crate::specs::Replies::stands_told))]
pub(crate) fn put_stands(manner: Manner, state: &GameState, outbox: &mut Outbox)
    requires { HasRoomForText outbox.old }
    ensures { outbox.new.bytes.items ≡ outbox.old.bytes.items
        ++ with_line_feed (Some (front_text manner.form manner.front ++ stands_told manner.form state.now)) }
{
    begin_text(manner, &mut outbox.text);
    match manner.form.writing() {
        Writing::Words => push_stands(&mut outbox.text, state),
        Writing::Members => members::push_stands(&mut outbox.text, state),
        Writing::Rows => rows::push_stands(&mut outbox.text, state),
    }
    outbox.put_text();
}

fn put_penalty(manner: Manner, names: &Names, player: Player, points: u32, outbox: &mut Outbox)
    requires { HasRoomForText outbox.old }
    ensures { outbox.new.bytes.items ≡ outbox.old.bytes.items
        ++ with_line_feed (Some (front_text manner.form manner.front ++ penalty_text (of_player (names_in names.now) player) points)) }
{
    begin_text(manner, &mut outbox.text);
    push_penalty(&mut outbox.text, &names.get(player), points);
    outbox.put_text();
}

fn put_deal(manner: Manner, step: &Step<'_>, outbox: &mut Outbox)
    requires { HasRoomForLine outbox.old }
    ensures { let below = below_deal manner.form (step_in step.now) in
        outbox.new.bytes.items ≡ outbox.old.bytes.items
        ++ with_line_feed (Some (front_text manner.form manner.front
        ++ (deal_text step.now.before.now.state step.now.after.now.state.points ++ below))) }
{
    begin_text(manner, &mut outbox.text);
    push_deal(
        &mut outbox.text,
        &step.before.state,
        &step.after.state.points,
    );
    put_below(manner.form, step, outbox);
    outbox.put_text();
}
