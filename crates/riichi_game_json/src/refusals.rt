//! The answer to a line that is refused.
ghost use Rattle.std.specs.Prelude.{◌≡◌, ◌+◌, ◌≤◌, ◌++◌, length};
ghost use Rattle.arrayvec.specs.ArrayString.{array_string_len};
ghost use Rattle.riichi_game_text.specs.FaultTexts as faults;
ghost use Rattle.riichi_game_text.specs.declared.fault.GameFault.TheVariants.{G7};
ghost use Rattle.riichi_game_json.specs.Refusals as spec;

use riichi_game_text::{GameFault, HandFault};
use riichi_hand::{Key, LineFault, line_code_text, name_text, notation_code_text};
use riichi_text::{ANSWER_ROOM, AnswerText, MOST_U64, push_number};

const MOST_LINE_FAULT: usize = "N1".len()
    + "\",\"text\":\"".len()
    + Key::MOST_NAME
    + "\",\"place\":".len()
    + MOST_U64;

const MOST_HAND: usize = "\"refused\",\"code\":\"".len() + MOST_LINE_FAULT;

const MOST_HAND_MEMBER: usize = ",\"hand\":{\"answer\":".len() + MOST_HAND + "}".len();

/// The bytes of the longest refusal.
pub const MOST_REFUSED: usize = "\"answer\":\"refused\",\"code\":\"G10\"".len()
    + MOST_HAND_MEMBER
    + "}".len();

/// Writes the answer to a line that is refused: its code, and where a hand is at fault the hand's own answer.
pub fn push_refused(text: &mut AnswerText, fault: &GameFault)
    requires { array_string_len text.old + MOST_REFUSED ≤ ANSWER_ROOM }
    ensures bytes { text.new.bytes ≡ text.old.bytes ++ spec.refused_members fault.now }
    ensures len { array_string_len text.new ≤ array_string_len text.old + MOST_REFUSED }
{
    text.push_str("\"answer\":\"refused\",\"code\":\"");
    text.push_str(code_text(fault));
    text.push_str("\"");
    push_hand_if(text, fault);
    text.push_str("}");
}

/// Writes the hand's own answer, where a hand is at fault.
fn push_hand_if(text: &mut AnswerText, fault: &GameFault)
    requires { array_string_len text.old + MOST_HAND_MEMBER ≤ ANSWER_ROOM }
    ensures bytes { text.new.bytes ≡ text.old.bytes ++ spec.hand_member fault.now }
    ensures len { array_string_len text.new ≤ array_string_len text.old + MOST_HAND_MEMBER }
{
    if let GameFault::G7(hand) = fault {
        push_hand_member(text, hand);
    }
}

fn push_hand_member(text: &mut AnswerText, hand: &HandFault)
    requires { array_string_len text.old + MOST_HAND_MEMBER ≤ ANSWER_ROOM }
    ensures bytes { text.new.bytes ≡ text.old.bytes ++ spec.hand_member (G7 hand.now) }
    ensures len { array_string_len text.new ≤ array_string_len text.old + MOST_HAND_MEMBER }
{
    text.push_str(",\"hand\":{\"answer\":");
    push_hand(text, hand);
    text.push_str("}");
}

/// Writes a hand's own answer.
fn push_hand(text: &mut AnswerText, hand: &HandFault)
    requires { array_string_len text.old + MOST_HAND ≤ ANSWER_ROOM }
    ensures bytes { text.new.bytes ≡ text.old.bytes ++ spec.hand_members hand.now }
    ensures len { array_string_len text.new ≤ array_string_len text.old + MOST_HAND }
{
    match hand {
        HandFault::Words(fault) => {
            text.push_str("\"refused\",\"code\":\"");
            push_line_fault(text, fault);
        }
        HandFault::NoYaku => text.push_str("\"no yaku\""),
        HandFault::NoWin => text.push_str("\"no win\""),
    }
}

/// Writes the code of a hand's fault, and for a text of tiles its name and the place in it.
fn push_line_fault(text: &mut AnswerText, fault: &LineFault)
    requires { array_string_len text.old + MOST_LINE_FAULT ≤ ANSWER_ROOM }
    ensures bytes { text.new.bytes ≡ text.old.bytes ++ spec.line_fault_members fault.now }
    ensures len { array_string_len text.new ≤ array_string_len text.old + MOST_LINE_FAULT }
{
    match fault {
        LineFault::Line(code) => {
            text.push_str(line_code_text(*code));
            text.push_str("\"");
        }
        LineFault::Notation(name, fault) => {
            text.push_str(notation_code_text(fault.code));
            text.push_str("\",\"text\":\"");
            text.push_str(name_text(*name));
            text.push_str("\",\"place\":");
            push_number(text, fault.place);
        }
    }
}

fn code_text(fault: &GameFault) -> &'static str
    ensures value { result.now ≡ faults.code_text fault.now }
    ensures short { length result.now ≤ 3 }
{
    match fault {
        GameFault::G1 => "G1",
        GameFault::G2 => "G2",
        GameFault::G3 => "G3",
        GameFault::G4 => "G4",
        GameFault::G5 => "G5",
        GameFault::G6 => "G6",
        GameFault::G7(_) => "G7",
        GameFault::G8 => "G8",
        GameFault::G9 => "G9",
        GameFault::G10 => "G10",
        GameFault::G11 => "G11",
        GameFault::G12 => "G12",
        GameFault::G13 => "G13",
        GameFault::G14 => "G14",
    }
}
