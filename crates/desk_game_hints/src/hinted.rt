//! Answers the lines of a text of games one by one, and says below a refused line what is wrong.
ghost use Rattle.std.specs.Prelude.{◌≡◌, ◌++◌, ◌≤◌, ◌+◌, ℕ, List, Option, IfSome, IsTrue};
ghost use Rattle.arrayvec.specs.ArrayString.{array_string_len};
ghost use Rattle.desk_lines.specs.Outbox.{HasRoomForLine, HasRoomForText};
ghost use Rattle.desk_lines.specs.Telling.{with_line_feed};
ghost use Rattle.desk_games.specs.declared.desk.GameDesk.TheVariants.{NoGame};
ghost use Rattle.desk_games.specs.Replies.{Reply, IsReply, seen_in};
ghost use Rattle.desk_games.specs.Tellers.{TellsAlike};
ghost use Rattle.desk_games.specs.Texts.{number_if};
ghost use Rattle.desk_game_hints.specs.Hinted as spec;

use desk_games::{GameAtHand, GameDesk, Games, GamesForm, says_undo};
use desk_lines::{LineKind, Outbox, Teller};
use riichi_game_hints::{push_begin_hint, push_game_hint};
use riichi_game_text::{GameFault, is_odd, next_said, read_entry};
use riichi_hand::Rules;
use riichi_shape::RowSource;
use riichi_text::{ANSWER_ROOM, AnswerText};
use std::alloc::AllocError;

/// The bytes of an outbox that lines may fill so that a hint has room behind them.
const MOST_BEFORE_HINT: usize = 65_536 - (ANSWER_ROOM + "\n".len());

/// The teller of a text of games that says below each refused line what is wrong, and where one is found a line to try. It takes no
/// memory.
#[derive(Drop)]
pub struct HintedGames {
    games: Games,
}

impl HintedGames {
    /// Before the first line.
    pub fn new(given: Rules, is_numbered: bool, form: GamesForm) -> HintedGames
        ensures given { result.games.given ≡ given }
        ensures numbered { result.games.is_numbered ≡ is_numbered }
        ensures form { result.games.form ≡ form }
        ensures desk { result.games.desk ≡ NoGame }
    {
        HintedGames {
            games: Games::new(given, is_numbered, form),
        }
    }

    /// The text of games behind the last line.
    pub fn into_desk(self) -> GameDesk
        ensures { result ≡ self.games.desk }
    {
        self.games.into_desk()
    }

    /// Takes the next line, and puts its answer, and below a refused one its hint.
    fn take(&mut self, front: Option<u64>, line: &[u8], outbox: &mut Outbox) -> LineKind
        requires { HasRoomForLine outbox.old }
        ensures given { TellsAlike self.new.games self.old.games }
        ensures reply { (reply : Reply)
            × IsReply self.old.games.form self.old.games.given self.old.games.desk line.now reply
            × spec.PutsHinted self.old.games.given front line.now reply result
            outbox.old.bytes.items outbox.new.bytes.items self.new.games.desk }
    {
        let was_held = self.games.desk().is_held();
        let kind = self.games.take(front, line, outbox);
        self.put_hint(was_held, kind, line, outbox);
        kind
    }

    /// Puts what is wrong with a line behind its answer, where it is refused; a line of its game may have been refused before.
    fn put_hint(&self, was_held: bool, kind: LineKind, line: &[u8], outbox: &mut Outbox)
        ensures { (hint : Option (List ℕ))
            × IfSome hint (λ text. spec.IsHintBehind self.now.games.given was_held self.now.games.desk kind line.now text)
            × (outbox.new.bytes.items ≡ outbox.old.bytes.items ++ with_line_feed hint) }
    {
        match kind {
            LineKind::Refused => self.put_fault(was_held, line, outbox),
            LineKind::Answered => {}
            LineKind::NoRecord => {}
        }
    }

    /// Puts what is wrong with a refused line, where it has room.
    fn put_fault(&self, was_held: bool, line: &[u8], outbox: &mut Outbox)
        ensures { (hint : Option (List ℕ))
            × IfSome hint (λ text. spec.IsFaultBehind self.now.games.given was_held self.now.games.desk line.now text)
            × (outbox.new.bytes.items ≡ outbox.old.bytes.items ++ with_line_feed hint) }
    {
        if has_room(outbox) {
            let fault = refused_fault(was_held, self.games.desk(), line);
            outbox.text.clear();
            self.push_hint(fault, line, &mut outbox.text);
            outbox.put_text();
        }
    }

    /// Writes what is wrong with a line that is refused for this fault.
    fn push_hint(&self, fault: GameFault, line: &[u8], text: &mut AnswerText)
        requires { array_string_len text.old ≡ 0 }
        ensures { (said : List ℕ)
            × spec.IsHintFor self.now.games.given self.now.games.desk line.now fault said
            × (text.new.bytes ≡ text.old.bytes ++ said) }
    {
        match self.games.desk() {
            GameDesk::Game(game) => push_game_hint(
                text,
                &game.names(),
                &game.rules(),
                &game.progress(),
                line,
                fault,
            ),
            GameDesk::NoGame => push_begin_hint(text, self.games.given(), line, fault),
            GameDesk::Refused => push_begin_hint(text, self.games.given(), line, fault),
        }
    }
}

/// Whether a hint has room behind the answers of lines.
fn has_room(outbox: &Outbox) -> bool
    ensures { IsTrue result → HasRoomForText outbox.now }
{
    outbox.as_slice().len() <= MOST_BEFORE_HINT
}

/// Why a line was refused, behind which the text of games is this one; a line of its game may have been refused before.
fn refused_fault(was_held: bool, desk: &GameDesk, line: &[u8]) -> GameFault
    ensures { result ≡ spec.fault_seen was_held desk.now (seen_in line.now) line.now }
{
    if is_odd(line) {
        return held_or(was_held, GameFault::G1);
    }
    match next_said(line) {
        Some((first, _)) if first == b"game".as_slice() => GameFault::G3,
        Some((first, words)) if says_undo(first, words) => held_or(was_held, undo_fault(desk)),
        _ => held_or(was_held, entry_fault(desk, line)),
    }
}

fn held_or(was_held: bool, fault: GameFault) -> GameFault
    ensures { result ≡ spec.held_or was_held fault }
{
    if was_held { GameFault::G14 } else { fault }
}

/// Why `undo` was refused.
fn undo_fault(desk: &GameDesk) -> GameFault
    ensures { result ≡ spec.undo_fault desk.now }
{
    match desk {
        GameDesk::NoGame => GameFault::G2,
        GameDesk::Refused => GameFault::G2,
        GameDesk::Game(_) => GameFault::G4,
    }
}

/// The fault of a line that neither begins a game nor is `undo`.
fn entry_fault(desk: &GameDesk, line: &[u8]) -> GameFault
    ensures { result ≡ spec.entry_fault desk.now line.now }
{
    match desk {
        GameDesk::NoGame => GameFault::G2,
        GameDesk::Refused => GameFault::G2,
        GameDesk::Game(game) => fault_in(game, line),
    }
}

fn fault_in(game: &GameAtHand, line: &[u8]) -> GameFault
    ensures { result ≡ spec.fault_in game.now line.now }
{
    match read_entry(&game.names(), &game.progress(), &game.rules(), line) {
        Ok(_) => GameFault::G4,
        Err(fault) => fault,
    }
}

/// The number of a line, where answers are numbered.
fn front_of(games: &Games, number: u64) -> Option<u64>
    ensures { result ≡ number_if games.now.is_numbered number }
{
    if games.is_numbered() {
        Some(number)
    } else {
        None
    }
}

impl Teller for HintedGames {
    ghost use Rattle.std.specs.Prelude.{List, ℕ};
    ghost use Rattle.desk_game_hints.specs.Hinted.{HasToldHinted};

    ghost Answer = { List ℕ };

    ghost written = { λ text. text };

    ghost most = { 4096 };

    ghost tells = { λ first now lines told report. HasToldHinted first now lines told report };

    ghost wants_memory = { λ _ _. ⊥ };

    fn tell<S: RowSource>(
        &mut self,
        number: u64,
        line: &[u8],
        outbox: &mut Outbox,
        _source: &mut S,
    ) -> Result<LineKind, AllocError> {
        let front = front_of(&self.games, number);
        Ok(self.take(front, line, outbox))
    }
}
