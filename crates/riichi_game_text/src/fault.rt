//! Why a line of a game is refused.
ghost use Rattle.std.specs.Prelude.{◌≡◌, ◌+◌, ◌≤◌, ◌++◌, length};
ghost use Rattle.arrayvec.specs.ArrayString.{array_string_len};
ghost use Rattle.riichi_game_text.specs.FaultTexts as spec;

use riichi_hand::{LineFault, fault_text};
use riichi_text::{ANSWER_ROOM, AnswerText};

/// Why a line of a game is refused, in the order in which faults are looked for.
#[derive(Clone, Copy, Debug, PartialEq, Eq)]
pub enum GameFault {
    /// The line is no UTF-8, has a control byte, or is over 4096 bytes.
    G1,
    /// The first word is none of a line, or no game has begun.
    G2,
    /// A line `game` with a name, a word or a value that can't be.
    G3,
    /// Words are missing, too many, twice or out of order, or a number can't be.
    G4,
    /// A name isn't one of the game, or stands where it can't.
    G5,
    /// A value that no hand has, or limits that nobody can be liable for.
    G6,
    /// A hand is at fault.
    G7(HandFault),
    /// The rules have no liability, or no nagashi mangan.
    G8,
    /// A bet of a player who may not bet.
    G9,
    /// A player has bet who isn't ready at the draw.
    G10,
    /// A written state that doesn't add up, or a round that the rules don't have.
    G11,
    /// There would be too many counters or sticks, or more points than a ledger keeps.
    G12,
    /// The game is over.
    G13,
    /// The line stands behind a refused one of the same game.
    G14,
}

/// What is wrong with a hand.
#[derive(Clone, Copy, Debug, PartialEq, Eq)]
pub enum HandFault {
    /// A fault of its words.
    Words(LineFault),
    NoYaku,
    NoWin,
}

/// The bytes of the longest answer to a line that is refused.
pub const MOST_REFUSED: usize = "refused G10".len() + " ".len() + MOST_HAND_FAULT;

/// The bytes of the room of a hand's fault.
const MOST_HAND_FAULT: usize = 40;

/// Writes the answer to a line that is refused, without the line's end.
pub fn push_refused(text: &mut AnswerText, fault: &GameFault)
    requires { array_string_len text.old + MOST_REFUSED ≤ ANSWER_ROOM }
    ensures bytes { text.new.bytes ≡ text.old.bytes ++ spec.refused_text fault.now }
    ensures len { array_string_len text.new ≤ array_string_len text.old + MOST_REFUSED }
{
    text.push_str("refused ");
    text.push_str(code_text(fault));
    if let GameFault::G7(fault) = fault {
        push_hand_fault(text, fault);
    }
}

/// Writes the answer of a hand that is at fault, behind a space.
fn push_hand_fault(text: &mut AnswerText, fault: &HandFault)
    requires { array_string_len text.old + 1 + MOST_HAND_FAULT ≤ ANSWER_ROOM }
    ensures bytes { text.new.bytes ≡ text.old.bytes ++ spec.hand_fault_text fault.now }
    ensures len { array_string_len text.new ≤ array_string_len text.old + 1 + MOST_HAND_FAULT }
{
    text.push_str(" ");
    match fault {
        HandFault::Words(fault) => text.push_str(fault_text(fault).as_str()),
        HandFault::NoYaku => text.push_str("no yaku"),
        HandFault::NoWin => text.push_str("no win"),
    }
}

fn code_text(fault: &GameFault) -> &'static str
    ensures value { result.now ≡ spec.code_text fault.now }
    ensures short { length result.now ≤ 3 }
{
    match fault {
        GameFault::G1 => "G1",
        GameFault::G2 => "G2",
        GameFault::G3 => "G3",
        GameFault::G4 => "G4",
        GameFault::G5 => "G5",
        GameFault::G6 => "G6",
        GameFault::G7(_) => "G7",
        GameFault::G8 => "G8",
        GameFault::G9 => "G9",
        GameFault::G10 => "G10",
        GameFault::G11 => "G11",
        GameFault::G12 => "G12",
        GameFault::G13 => "G13",
        GameFault::G14 => "G14",
    }
}
