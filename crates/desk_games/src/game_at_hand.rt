//! A game of a text so far.
ghost use Rattle.std.specs.Prelude.{◌≡◌, ◌+◌, ◌≤◌, ◌++◌, length, Some, Ok};
ghost use Rattle.arrayvec.specs.ArrayString.{array_string_len};
ghost use Rattle.riichi_game.specs.Faults.{next_of};
ghost use Rattle.riichi_game_text.specs.GameLines.{said_by};
ghost use Rattle.riichi_game_text.specs.Names.{names_in};
ghost use Rattle.desk_lines.specs.Outbox.{HasRoomForLine, HasRoomForText};
ghost use Rattle.desk_lines.specs.Telling.{with_line_feed};
ghost use Rattle.desk_games.specs.Played.{hold};
ghost use Rattle.desk_games.specs.declared.desk.GameDesk.TheVariants.{Game};
ghost use Rattle.desk_games.specs.Desks as spec;
ghost use Rattle.desk_games.specs.Pending.{pending, HasRoomBelow};
ghost use Rattle.desk_games.specs.Replies.{accept, game_reply, game_undo};
ghost use Rattle.desk_games.specs.Texts.{PutsReply};

use crate::below::{Step, next_line};
use crate::form::{GamesForm, Writing};
use crate::puts::{Manner, put_outcome, put_refused, put_stands};
use arrayvec::ArrayString;
use desk_lines::{LineKind, Outbox};
use riichi_game::Progress;
use riichi_game_json as members;
use riichi_game_reasons::{MOST_FINAL_REASONS, push_final_reasons};
use riichi_game_sheet as rows;
use riichi_game_text::{
    AcceptedLine, GameFault, GameLine, MOST_OVER, Names, push_over, push_stands, read_entry,
};
use riichi_places::{FinalPoints, final_points};
use riichi_table::{ByPlayer, TableRules};
use riichi_text::{ANSWER_ROOM, AnswerText};
use std::marker::Model;

/// The bytes of the longest end of a game.
pub const MOST_END: usize = MOST_OVER;

/// The bytes of the members of the longest object of an end.
const MOST_END_MEMBERS: usize = members::MOST_OVER;

/// The bytes of all that stands below the end of a game.
const MOST_BELOW_END: usize = "\n".len() + MOST_FINAL_REASONS;

/// The bytes of the longest end of a game with all that stands below it, and of the end of its last line.
const END_ROOM: usize = MOST_END + MOST_BELOW_END + "\n".len();

/// What is told behind the last line of a game.
pub(crate) type EndText = ArrayString<END_ROOM>;

/// A game of a text so far: the players, the rules, how far the game has come by its accepted lines, and whether a line of it was
/// refused.
#[derive(Drop)]
pub struct GameAtHand {
    names: Names,
    rules: TableRules,
    progress: Progress,
    /// How far the game had come before its last accepted line, where that one can be taken back.
    former: Option<Progress>,
    is_held: bool,
}

impl Model for GameAtHand {
    ghost use Rattle.riichi_game_text.specs.Names.{names_in};
    ghost use Rattle.desk_games.specs.Played.{GameSoFar};

    ghost Value = { GameSoFar };

    ghost view = { λ game. record { names = names_in game.names; rules = game.rules; progress = game.progress; former = game.former; is_held = game.is_held } };
}

impl GameAtHand {
    /// The game that a line begins, before its first deal.
    pub fn new(line: &GameLine) -> GameAtHand
        ensures { result ≡ spec.new_game (said_by line.now) }
    {
        GameAtHand {
            names: line.names,
            rules: line.rules,
            progress: Progress::first(&line.rules),
            former: None,
            is_held: false,
        }
    }

    /// The names of the players.
    pub fn names(&self) -> Names
        ensures { names_in result ≡ self.now.names }
    {
        self.names
    }

    /// The rules of the table.
    pub fn rules(&self) -> TableRules
        ensures { result ≡ self.now.rules }
    {
        self.rules
    }

    /// How far the game has come: of a game with a refused line by the lines before that one.
    pub fn progress(&self) -> Progress
        ensures { result ≡ self.now.progress }
    {
        self.progress
    }

    /// Whether a line of the game was refused.
    pub fn is_held(&self) -> bool
        ensures { result ≡ self.now.is_held }
    {
        self.is_held
    }

    /// From now on each line of the game is refused.
    pub(crate) fn hold(&mut self)
        ensures { self.new ≡ hold self.old }
    {
        self.is_held = true;
    }

    /// Writes what is told behind the last line of the game, without the end of its last line.
    #[tactic(auto, unfolding(crate::specs::Desks::end_text))]
    pub fn push_end(&self, text: &mut AnswerText)
        requires { array_string_len text.old + MOST_END ≤ ANSWER_ROOM }
        ensures bytes { text.new.bytes ≡ text.old.bytes ++ spec.end_text self.now }
        ensures len { array_string_len text.new ≤ array_string_len text.old + MOST_END }
    {
        let state = &self.progress.state;
        if self.has_ended() {
            push_over(text, &self.names, state.sticks, &self.finals());
        } else {
            push_stands(text, state);
        }
    }

    /// Writes the same as an object of JSON.
    #[tactic(auto, unfolding(crate::specs::Desks::end_object))]
    fn push_end_object(&self, text: &mut AnswerText)
        requires { array_string_len text.old + MOST_END ≤ ANSWER_ROOM }
        ensures bytes { text.new.bytes ≡ text.old.bytes ++ spec.end_object self.now }
        ensures len { array_string_len text.new ≤ array_string_len text.old + MOST_END }
    {
        text.push_str("{");
        self.push_end_members(text);
    }

    #[tactic(auto, unfolding(crate::specs::Desks::end_members))]
    fn push_end_members(&self, text: &mut AnswerText)
        requires { array_string_len text.old + MOST_END_MEMBERS ≤ ANSWER_ROOM }
        ensures bytes { text.new.bytes ≡ text.old.bytes ++ spec.end_members self.now }
        ensures len { array_string_len text.new ≤ array_string_len text.old + MOST_END_MEMBERS }
    {
        let state = &self.progress.state;
        if self.has_ended() {
            members::push_over(text, &self.names, state.sticks, &self.finals());
        } else {
            members::push_stands(text, state);
        }
    }

    /// Writes the same as rows of a sheet, with an empty one behind them.
    #[tactic(auto, unfolding(crate::specs::Desks::end_rows))]
    fn push_end_rows(&self, text: &mut AnswerText)
        requires { array_string_len text.old + MOST_END ≤ ANSWER_ROOM }
        ensures bytes { text.new.bytes ≡ text.old.bytes ++ spec.end_rows self.now }
        ensures len { array_string_len text.new ≤ array_string_len text.old + MOST_END }
    {
        let state = &self.progress.state;
        if self.has_ended() {
            rows::push_over(text, &self.names, state.sticks, &self.finals());
        } else {
            rows::push_stands(text, state);
        }
        text.push_str("\n");
    }

    /// Writes the same in a form of answers.
    fn push_end_in(&self, form: GamesForm, text: &mut AnswerText)
        requires { array_string_len text.old + MOST_END ≤ ANSWER_ROOM }
        ensures bytes { text.new.bytes ≡ text.old.bytes ++ spec.end_text_in form self.now }
        ensures len { array_string_len text.new ≤ array_string_len text.old + MOST_END }
    {
        match form.writing() {
            Writing::Words => self.push_end(text),
            Writing::Members => self.push_end_object(text),
            Writing::Rows => self.push_end_rows(text),
        }
    }

    /// Whether the game is over, and no line of it was refused.
    fn has_ended(&self) -> bool
        ensures { result ≡ spec.has_ended self.now }
    {
        self.progress.is_over && !self.is_held
    }

    /// What each player has where the game ends in its state.
    fn finals(&self) -> ByPlayer<FinalPoints>
        ensures { result ≡ spec.finals self.now }
    {
        final_points(&self.rules, &self.progress.state, &self.progress.penalties)
    }

    /// Puts what is told behind the last line of the game.
    pub(crate) fn put_end(&self, form: GamesForm, outbox: &mut Outbox)
        requires room { HasRoomForLine outbox.old }
        ensures put { outbox.new.bytes.items
            ≡ outbox.old.bytes.items ++ with_line_feed (Some (spec.end_in form self.now)) }
        ensures room { HasRoomForText outbox.new }
    {
        outbox.text.clear();
        self.push_end_in(form, &mut outbox.text);
        self.put_below_end(form, outbox);
        outbox.put_text();
    }

    /// Puts how the final points are made, where that is told. The last line stays in the room of texts, as that before it does.
    fn put_below_end(&self, form: GamesForm, outbox: &mut Outbox)
        requires { HasRoomBelow MOST_BELOW_END outbox.old }
        ensures pending { pending outbox.new
            ≡ pending outbox.old ++ spec.below_end_of form self.now }
        ensures room { length (pending outbox.new) ≤ length (pending outbox.old) + MOST_BELOW_END }
    {
        if form.is_explained() && self.has_ended() {
            next_line(outbox);
            push_final_reasons(&mut outbox.text, &self.names, &self.rules, &self.finals());
        }
    }

    /// What is told behind the last line of the game, with the end of its last line.
    pub(crate) fn ended_text(&self, form: GamesForm) -> EndText
        ensures { result.bytes ≡ with_line_feed (Some (spec.end_in form self.now)) }
    {
        let mut text = AnswerText::new();
        let mut ended = EndText::new();
        self.push_end_in(form, &mut text);
        ended.push_str(text.as_str());
        text.clear();
        self.push_below_end(form, &mut text);
        ended.push_str(text.as_str());
        ended.push_str("\n");
        ended
    }

    /// Writes how the final points are made, where that is told, behind the end of the line before it.
    fn push_below_end(&self, form: GamesForm, text: &mut AnswerText)
        requires { array_string_len text.old + MOST_BELOW_END ≤ ANSWER_ROOM }
        ensures bytes { text.new.bytes ≡ text.old.bytes ++ spec.below_end_of form self.now }
        ensures len { array_string_len text.new ≤ array_string_len text.old + MOST_BELOW_END }
    {
        if form.is_explained() && self.has_ended() {
            text.push_str("\n");
            push_final_reasons(text, &self.names, &self.rules, &self.finals());
        }
    }

    /// Takes the refused lines back, or else the last accepted one, and puts the answer.
    pub(crate) fn undo(&mut self, manner: Manner, outbox: &mut Outbox) -> LineKind
        requires { HasRoomForText outbox.old }
        ensures { PutsReply manner.front (game_undo manner.form self.old) result
            outbox.old.bytes.items outbox.new.bytes.items (Game self.new) }
    {
        if self.is_held {
            self.is_held = false;
            put_stands(manner, &self.progress.state, outbox);
            return LineKind::Answered;
        }
        match self.former {
            None => {
                self.is_held = true;
                put_refused(manner, GameFault::G4, outbox);
                LineKind::Refused
            }
            Some(before) => {
                self.progress = before;
                self.former = None;
                put_stands(manner, &before.state, outbox);
                LineKind::Answered
            }
        }
    }

    /// Takes a line of the game that isn't odd, and whose first word is neither `game` nor a lone `undo`, and puts its answer.
    pub(crate) fn take(&mut self, manner: Manner, line: &[u8], outbox: &mut Outbox) -> LineKind
        requires { HasRoomForLine outbox.old }
        ensures { PutsReply manner.front (game_reply manner.form self.old line.now) result
            outbox.old.bytes.items outbox.new.bytes.items (Game self.new) }
    {
        if self.is_held {
            put_refused(manner, GameFault::G14, outbox);
            return LineKind::Refused;
        }
        match read_entry(&self.names, &self.progress, &self.rules, line) {
            Ok(accepted) => self.accept(manner, line, &accepted, outbox),
            Err(fault) => {
                self.hold();
                put_refused(manner, fault, outbox);
                LineKind::Refused
            }
        }
    }

    /// Goes on by what an accepted line says, and puts its answer.
    fn accept(
        &mut self,
        manner: Manner,
        line: &[u8],
        accepted: &AcceptedLine,
        outbox: &mut Outbox,
    ) -> LineKind
        requires room { HasRoomForLine outbox.old }
        requires after { next_of self.old.progress self.old.rules accepted.now.outcome
            ≡ Ok accepted.now.after }
        ensures { PutsReply manner.front
            (accept manner.form self.old line.now accepted.now.outcome) result
            outbox.old.bytes.items outbox.new.bytes.items (Game self.new) }
    {
        let before = self.progress;
        self.progress = accepted.after;
        self.former = Some(before);
        let step = Step {
            names: &self.names,
            rules: &self.rules,
            before: &before,
            after: &accepted.after,
            outcome: &accepted.outcome,
            line,
        };
        put_outcome(manner, &step, outbox);
        LineKind::Answered
    }
}
