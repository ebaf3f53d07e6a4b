//! Answers the lines of a text of games one by one.
ghost use Rattle.std.specs.Prelude.{◌≡◌, Option};
ghost use Rattle.riichi_game_text.specs.Words.{said_in};
ghost use Rattle.desk_lines.specs.Outbox.{HasRoomForLine};
ghost use Rattle.desk_games.specs.declared.desk.GameDesk.TheVariants.{NoGame};
ghost use Rattle.desk_games.specs.Replies.{Reply, IsReply, IsReplyTo, Begins};
ghost use Rattle.desk_games.specs.Replies as replies;
ghost use Rattle.desk_games.specs.Tellers.{TellsAlike};
ghost use Rattle.desk_games.specs.Texts.{PutsReply};
ghost use Rattle.desk_games.specs.Texts as spec;

use crate::desk::GameDesk;
use crate::form::GamesForm;
use crate::game_at_hand::GameAtHand;
use crate::puts::{Manner, put_begun, put_refused};
use desk_lines::{LineKind, Outbox, Teller};
use riichi_game_text::{GameFault, is_odd, next_said, read_game};
use riichi_hand::Rules;
use riichi_shape::RowSource;
use std::alloc::AllocError;

/// The teller of a text of games. It takes no memory.
#[derive(Drop)]
pub struct Games {
    /// The rules for hands of a game whose line `game` names none.
    given: Rules,
    /// Each answer stands behind the number of its line.
    is_numbered: bool,
    form: GamesForm,
    desk: GameDesk,
}

impl Games {
    /// Before the first line.
    pub fn new(given: Rules, is_numbered: bool, form: GamesForm) -> Games
        ensures given { result.given ≡ given }
        ensures numbered { result.is_numbered ≡ is_numbered }
        ensures form { result.form ≡ form }
        ensures desk { result.desk ≡ NoGame }
    {
        Games {
            given,
            is_numbered,
            form,
            desk: GameDesk::NoGame,
        }
    }

    /// The rules for hands of a game whose line `game` names none.
    pub fn given(&self) -> Rules
        ensures { result ≡ self.now.given }
    {
        self.given
    }

    /// Whether each answer stands behind the number of its line.
    pub fn is_numbered(&self) -> bool
        ensures { result ≡ self.now.is_numbered }
    {
        self.is_numbered
    }

    /// The text of games so far.
    pub fn desk(&self) -> &GameDesk
        ensures { result.now ≡ self.now.desk }
    {
        &self.desk
    }

    /// The text of games behind the last line.
    pub fn into_desk(self) -> GameDesk
        ensures { result ≡ self.desk }
    {
        self.desk
    }

    /// Takes the next line, and puts its answer.
    pub fn take(&mut self, front: Option<u64>, line: &[u8], outbox: &mut Outbox) -> LineKind
        requires { HasRoomForLine outbox.old }
        ensures given { TellsAlike self.new self.old }
        ensures reply { (reply : Reply)
            × IsReply self.old.form self.old.given self.old.desk line.now reply
            × PutsReply front reply result outbox.old.bytes.items outbox.new.bytes.items self.new.desk }
    {
        let manner = Manner {
            front,
            form: self.form,
        };
        if is_odd(line) {
            return self.desk.refuse(manner, GameFault::G1, outbox);
        }
        match next_said(line) {
            None => LineKind::NoRecord,
            Some((first, words)) if first == b"game".as_slice() => self.begin(front, words, outbox),
            Some((first, words)) if says_undo(first, words) => self.desk.undo(manner, outbox),
            Some(_) => self.desk.take(manner, line, outbox),
        }
    }

    /// Takes a line `game` with these words behind it, and puts its answer behind the end of the game before it.
    fn begin(&mut self, front: Option<u64>, words: &[u8], outbox: &mut Outbox) -> LineKind
        requires { HasRoomForLine outbox.old }
        ensures given { TellsAlike self.new self.old }
        ensures reply { (reply : Reply)
            × IsReplyTo self.old.form self.old.given self.old.desk (Begins (said_in words.now)) words.now reply
            × PutsReply front reply result outbox.old.bytes.items outbox.new.bytes.items self.new.desk }
    {
        let manner = Manner {
            front,
            form: self.form,
        };
        self.desk.put_end(self.form, outbox);
        match read_game(self.given, words) {
            None => {
                self.desk = GameDesk::Refused;
                put_refused(manner, GameFault::G3, outbox);
                LineKind::Refused
            }
            Some(line) => {
                self.desk = GameDesk::Game(GameAtHand::new(&line));
                put_begun(manner, &line, outbox);
                LineKind::Answered
            }
        }
    }
}

/// Whether a line has the first word `undo` and none behind it.
pub fn says_undo(first: &[u8], behind: &[u8]) -> bool
    ensures { result ≡ replies.says_undo first.now (said_in behind.now) }
{
    first == b"undo".as_slice() && next_said(behind).is_none()
}

/// The number of a line, where answers are numbered.
fn number_if(is_numbered: bool, number: u64) -> Option<u64>
    ensures { result ≡ spec.number_if is_numbered number }
{
    if is_numbered { Some(number) } else { None }
}

impl Teller for Games {
    ghost use Rattle.std.specs.Prelude.{List, ℕ};
    ghost use Rattle.desk_games.specs.Tellers.{HasTold};

    ghost Answer = { List ℕ };

    ghost written = { λ text. text };

    ghost most = { 4096 };

    ghost tells = { λ first now lines told report. HasTold first now lines told report };

    ghost wants_memory = { λ _ _. ⊥ };

    fn tell<S: RowSource>(
        &mut self,
        number: u64,
        line: &[u8],
        outbox: &mut Outbox,
        _source: &mut S,
    ) -> Result<LineKind, AllocError> {
        let front = number_if(self.is_numbered, number);
        Ok(self.take(front, line, outbox))
    }
}
