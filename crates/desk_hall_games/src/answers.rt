//! The texts of answers to messages.
ghost use Rattle.std.specs.Prelude.{◌≡◌, ◌+◌, ◌≤◌, ◌++◌, decimal, length};
ghost use Rattle.arrayvec.specs.ArrayString.{array_string_len};
ghost use Rattle.desk_hall.specs.Messages.{request_in};
ghost use Rattle.desk_hall_games.specs.Texts as spec;

use crate::position::GamePosition;
use desk_hall::{Asked, Decision, Judged};
use riichi_game_text::{GameFault, MOST_DEAL, push_deal, push_penalty, push_refused, read_entry};
use riichi_table::Outcome;
use riichi_text::{ANSWER_ROOM, AnswerText, MOST_U64, push_number};

/// The bytes of the longest answer to a message.
pub const MOST_JUDGED: usize = MOST_DEAL + "\n".len() + MOST_DEAL;

/// Writes the answer to a message that asked this at a number, and came to that.
pub fn push_answer(
    text: &mut AnswerText,
    number: u64,
    asked: Asked<'_>,
    judged: &Judged<GamePosition>,
)
    requires { array_string_len text.old + MOST_JUDGED ≤ ANSWER_ROOM }
    ensures bytes { text.new.bytes
        ≡ text.old.bytes ++ spec.judged_text number (request_in asked.entry) judged.now }
    ensures len { array_string_len text.new ≤ array_string_len text.old + MOST_JUDGED }
{
    match &judged.decision {
        Decision::Taken(position) | Decision::Again(position) => push_position(text, position),
        Decision::Another { first, other } => {
            push_position(text, first);
            text.push_str("\n");
            push_position(text, other);
        }
        Decision::Early | Decision::NoDeal => push_numbered(text, "next ", judged.next),
        Decision::Refused => push_refused(text, &fault_of(&judged.front, asked)),
        Decision::Gone | Decision::Withdrawn | Decision::GoneAlready => {
            push_numbered(text, "withdrawn ", number);
        }
        Decision::NotLast => push_numbered(text, "withdraw ", judged.last_live),
    }
}

/// Why the game refuses a line there; where it wouldn't, the line is too long for a book.
fn fault_of(front: &GamePosition, asked: Asked<'_>) -> GameFault
    ensures { result ≡ spec.fault_asked front.now (request_in asked.entry) }
{
    match asked {
        Asked::Withdrawal => GameFault::G1,
        Asked::Line(line) => {
            match read_entry(&front.game.names, &front.after, &front.game.rules, line) {
                Ok(_) => GameFault::G1,
                Err(fault) => fault,
            }
        }
    }
}

/// Writes the answer to the last outcome; none and `end` have none.
#[tactic(auto, unfolding(crate::specs::Texts::position_text))]
fn push_position(text: &mut AnswerText, position: &GamePosition)
    requires { array_string_len text.old + MOST_DEAL ≤ ANSWER_ROOM }
    ensures bytes { text.new.bytes ≡ text.old.bytes ++ spec.position_text position.now }
    ensures len { array_string_len text.new ≤ array_string_len text.old + MOST_DEAL }
{
    match &position.outcome {
        None | Some(Outcome::End) => {}
        Some(Outcome::Penalty { player, points }) => {
            push_penalty(text, &position.game.names.get(*player), *points);
        }
        Some(_) => push_deal(text, &position.before.state, &position.after.state.points),
    }
}

/// Writes a number behind some words.
fn push_numbered(text: &mut AnswerText, words: &str, number: u64)
    requires { array_string_len text.old + length words.now + MOST_U64 ≤ ANSWER_ROOM }
    ensures bytes { text.new.bytes ≡ text.old.bytes ++ (words.now ++ decimal number) }
    ensures len { array_string_len text.new
        ≤ array_string_len text.old + length words.now + MOST_U64 }
{
    text.push_str(words);
    push_number(text, number);
}
