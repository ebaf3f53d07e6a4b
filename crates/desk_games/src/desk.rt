//! A text of games so far.
ghost use Rattle.std.specs.Prelude.{◌≡◌, ◌++◌, option_map};
ghost use Rattle.riichi_game_text.specs.declared.fault.GameFault.TheVariants.{G2};
ghost use Rattle.desk_lines.specs.Outbox.{HasRoomForLine, HasRoomForText};
ghost use Rattle.desk_lines.specs.Telling.{with_line_feed};
ghost use Rattle.desk_games.specs.Desks as spec;
ghost use Rattle.desk_games.specs.Replies.{refusal, undo_reply, other_reply};
ghost use Rattle.desk_games.specs.Texts.{PutsReply};

use crate::form::GamesForm;
use crate::game_at_hand::GameAtHand;
use crate::puts::{Manner, put_refused};
use desk_lines::{LineKind, Outbox};
use riichi_game_text::GameFault;

/// A text of games so far.
#[derive(Drop)]
pub enum GameDesk {
    /// No game has begun.
    NoGame,
    /// The last line `game` was refused, and so is each line behind it.
    Refused,
    /// A game has begun.
    Game(GameAtHand),
}

impl GameDesk {
    /// The game at hand, where no line of it was refused.
    pub fn game(&self) -> Option<&GameAtHand>
        ensures { option_map (λ game. game.now) result ≡ spec.open_game self.now }
    {
        match self {
            GameDesk::Game(game) if !game.is_held() => Some(game),
            _ => None,
        }
    }

    /// Whether a line of the game at hand was refused, the line `game` among them.
    pub fn is_held(&self) -> bool
        ensures { result ≡ spec.is_held_desk self.now }
    {
        match self {
            GameDesk::NoGame => false,
            GameDesk::Refused => true,
            GameDesk::Game(game) => game.is_held(),
        }
    }

    /// From now on each line of the game at hand is refused.
    fn hold(&mut self)
        ensures { self.new ≡ spec.held_desk self.old }
    {
        if let GameDesk::Game(game) = self {
            game.hold();
        }
    }

    /// Puts what is told behind the last line of the game at hand.
    pub(crate) fn put_end(&self, form: GamesForm, outbox: &mut Outbox)
        requires room { HasRoomForLine outbox.old }
        ensures put { outbox.new.bytes.items
            ≡ outbox.old.bytes.items ++ with_line_feed (spec.told_at_end form self.now) }
        ensures room { HasRoomForText outbox.new }
    {
        if let GameDesk::Game(game) = self {
            game.put_end(form, outbox);
        }
    }

    /// Takes a line that has this fault by itself, and puts its answer.
    pub(crate) fn refuse(
        &mut self,
        manner: Manner,
        fault: GameFault,
        outbox: &mut Outbox,
    ) -> LineKind
        requires { HasRoomForText outbox.old }
        ensures { PutsReply manner.front (refusal manner.form self.old fault) result
            outbox.old.bytes.items outbox.new.bytes.items self.new }
    {
        let told = if self.is_held() {
            GameFault::G14
        } else {
            fault
        };
        put_refused(manner, told, outbox);
        self.hold();
        LineKind::Refused
    }

    /// Takes the line `undo`, and puts its answer.
    pub(crate) fn undo(&mut self, manner: Manner, outbox: &mut Outbox) -> LineKind
        requires { HasRoomForText outbox.old }
        ensures { PutsReply manner.front (undo_reply manner.form self.old) result
            outbox.old.bytes.items outbox.new.bytes.items self.new }
    {
        match self {
            GameDesk::Game(game) => game.undo(manner, outbox),
            _ => self.refuse(manner, GameFault::G2, outbox),
        }
    }

    /// Takes a line that isn't odd, and whose first word is neither `game` nor a lone `undo`, and puts its answer.
    pub(crate) fn take(&mut self, manner: Manner, line: &[u8], outbox: &mut Outbox) -> LineKind
        requires { HasRoomForLine outbox.old }
        ensures { PutsReply manner.front (other_reply manner.form self.old line.now) result
            outbox.old.bytes.items outbox.new.bytes.items self.new }
    {
        match self {
            GameDesk::Game(game) => game.take(manner, line, outbox),
            _ => self.refuse(manner, GameFault::G2, outbox),
        }
    }
}
