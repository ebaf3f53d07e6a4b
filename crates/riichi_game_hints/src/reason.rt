//! What is wrong with a line, in words.
ghost use Rattle.std.specs.Prelude.{◌≡◌, ◌≤◌, ◌+◌, ◌∷◌, ◌++◌, ℕ, List, None, IfSome, length};
ghost use Rattle.arrayvec.specs.ArrayString.{array_string_len};
ghost use Rattle.riichi_game_text.specs.Names.{names_in, player_named};
ghost use Rattle.riichi_game_text.specs.Words.{said_in};
ghost use Rattle.riichi_game_hints.specs.Reasons as spec;

use crate::line::shown_text;
use crate::sums::{Sum, sum_of};
use riichi_game_drafts::{Draft, MOST_WORD, Word, nearest_player};
use riichi_game_text::{GameFault, HandFault, MOST_NAME, Name, Names, next_said};
use riichi_table::Player;
use riichi_text::{ANSWER_ROOM, AnswerText, push_number};

const MOST_NAMES: usize = 4 * (MOST_NAME + " or ".len());

const MOST_STRANGER: usize = MOST_WORD + " is no player: ".len() + MOST_NAMES;

const MOST_UNKNOWN: usize = MOST_WORD + " is no word of such a line".len();

const MOST_PAYMENT: usize = MOST_WORD
    + " are points: a value is HAN.FU, as 3.40, or a limit hand, as mangan".len();

const MOST_FIRST: usize = MOST_WORD
    + "no line begins with ".len()
    + ": ron, tsumo, draw, abort, chombo, penalty, stands, end, undo and game do".len();

/// The bytes of the longest words of a code.
pub(crate) const MOST_FAULT_WORDS: usize = 120;

/// The bytes of the longest words that say what is wrong.
pub(crate) const MOST_REASON: usize = MOST_FAULT_WORDS + MOST_STRANGER;

/// A refused line.
#[derive(Clone, Copy)]
pub(crate) struct Refused<'a> {
    pub(crate) line: &'a [u8],
    pub(crate) fault: GameFault,
    /// The points that each player began with.
    pub(crate) start: u32,
}

/// What is wrong with a line.
#[derive(Drop)]
pub(crate) enum Reason<'a> {
    /// No line begins with its first word.
    First(&'a str),
    /// `undo` takes nothing back.
    Undone,
    /// What the points of a written state add up to, where they are numbers.
    Points(Option<Sum>),
    /// This word stands for a name and is no player's.
    Stranger(&'a str),
    /// This word is none of such a line.
    Unknown(&'a str),
    /// These points stand in the place of a value.
    Payment(&'a str),
    /// Words stand in the place of a value and are none of a hand.
    Value,
    /// Points are no whole hundreds.
    Hundreds,
    /// What its code says.
    Code,
}

/// Writes what is wrong with a line: the word at fault, where one is known, or what its code says.
pub(crate) fn push_reason(text: &mut AnswerText, names: &Names, draft: &Draft, about: &Refused<'_>)
    requires { array_string_len text.old + MOST_REASON ≤ ANSWER_ROOM }
    ensures words { (reason : List ℕ)
        × spec.IsLineReason (names_in names.now) about.now.line.now about.now.fault reason
        × (text.new.bytes ≡ text.old.bytes ++ reason) }
    ensures len { array_string_len text.new ≤ array_string_len text.old + MOST_REASON }
{
    let reason = reason_of(names, draft, about);
    push_words(text, names, &about.fault, &reason);
}

/// What is wrong with a line.
fn reason_of<'a>(names: &Names, draft: &'a Draft, about: &Refused<'a>) -> Reason<'a>
    ensures holds { spec.Holds (names_in names.now) about.now.line.now about.now.fault result }
    ensures short { spec.IsShort result }
{
    match reason_of_line(about) {
        Some(reason) => reason,
        None => reason_of_words(names, draft, &about.fault),
    }
}

/// What is wrong with a line by its code: its first word, `undo`, or the points of a state.
fn reason_of_line<'a>(about: &Refused<'a>) -> Option<Reason<'a>>
    ensures holds { IfSome result (spec.HoldsByLine about.now.line.now about.now.fault) }
    ensures short { IfSome result spec.IsShort }
{
    match about.fault {
        GameFault::G2 => match first_word(about.line) {
            Some(word) if word.as_bytes() != b"undo".as_slice() => Some(Reason::First(word)),
            _ => None,
        },
        GameFault::G4 if says_undo(about.line) => Some(Reason::Undone),
        GameFault::G11 => Some(Reason::Points(sum_of(about.line, about.start))),
        _ => None,
    }
}

/// What is wrong with a line by the words that were read of it.
fn reason_of_words<'a>(names: &Names, draft: &'a Draft, fault: &GameFault) -> Reason<'a>
    ensures holds { (line : List ℕ) → spec.Holds (names_in names.now) line fault.now result }
    ensures short { spec.IsShort result }
{
    if let Some(word) = stranger_in(names, draft) {
        return Reason::Stranger(word);
    }
    if let Some(word) = shown_word(&draft.unknown) {
        return Reason::Unknown(word);
    }
    if let Some(points) = shown_word(&draft.payment) {
        return Reason::Payment(points);
    }
    match fault {
        GameFault::G7(HandFault::Words(_)) if !draft.is_hand => Reason::Value,
        GameFault::G4 if draft.has_odd_points => Reason::Hundreds,
        _ => Reason::Code,
    }
}

/// Writes the words of a reason.
fn push_words(text: &mut AnswerText, names: &Names, fault: &GameFault, reason: &Reason<'_>)
    requires room { array_string_len text.old + MOST_REASON ≤ ANSWER_ROOM }
    requires short { spec.IsShort reason.now }
    ensures bytes { text.new.bytes
        ≡ text.old.bytes ++ spec.line_fault_words (names_in names.now) fault.now reason.now }
    ensures len { array_string_len text.new ≤ array_string_len text.old + MOST_REASON }
{
    match reason {
        Reason::First(word) => push_first(text, *word),
        Reason::Undone => text.push_str("there is no line to take back"),
        Reason::Points(sum) => push_sum(text, sum),
        Reason::Stranger(word) => push_stranger(text, names, *word),
        Reason::Unknown(word) => push_unknown(text, *word),
        Reason::Payment(points) => push_payment(text, *points),
        Reason::Value => text.push_str(
            "a value is HAN.FU, as 3.40, a limit hand, as mangan, or a hand with on= and its last tile",
        ),
        Reason::Hundreds => text.push_str("points are whole hundreds, up to 1000000"),
        Reason::Code => text.push_str(fault_words(fault)),
    }
}

/// Whether a line is the word `undo` alone.
#[tactic(auto, unfolding(crate::specs::Reasons::is_undo_line))]
pub(crate) fn says_undo(line: &[u8]) -> bool
    ensures { result ≡ spec.is_undo_line (said_in line.now) }
{
    match next_said(line) {
        None => false,
        Some((word, rest)) => word == b"undo".as_slice() && next_said(rest).is_none(),
    }
}

/// Writes by how much the points of a written state miss, or that there is no such round.
fn push_sum(text: &mut AnswerText, sum: &Option<Sum>)
    requires { array_string_len text.old + MOST_REASON ≤ ANSWER_ROOM }
    ensures bytes { text.new.bytes ≡ text.old.bytes ++ spec.sum_words sum.now }
    ensures len { array_string_len text.new ≤ array_string_len text.old + MOST_REASON }
{
    match sum {
        None => text.push_str(
            "the points don't add up, or the rules of this game have no such round",
        ),
        Some(Sum::Right) => text.push_str("the rules of this game have no such round"),
        Some(Sum::More(points)) => push_missed(text, *points, " more"),
        Some(Sum::Less(points)) => push_missed(text, *points, " less"),
    }
}

fn push_missed(text: &mut AnswerText, points: u64, side: &str)
    requires room { array_string_len text.old + MOST_REASON ≤ ANSWER_ROOM }
    requires short { length side.now ≤ 5 }
    ensures bytes { text.new.bytes ≡ text.old.bytes ++ spec.missed_words points side.now }
    ensures len { array_string_len text.new ≤ array_string_len text.old + MOST_REASON }
{
    text.push_str("the points with 1000 for each stick are ");
    push_number(text, points);
    text.push_str(side);
    text.push_str(" than four times the start");
}

/// The first word of a line, where it can be shown.
fn first_word(line: &[u8]) -> Option<&str>
    ensures { IfSome result (λ word. (rest : List (List ℕ))
        × (said_in line.now ≡ word.now ∷ rest) × (length word.now ≤ MOST_WORD)) }
{
    let (word, _) = next_said(line)?;
    short_text(word)
}

/// The word that stands for a name and is no player's.
fn stranger_in<'a>(names: &Names, draft: &'a Draft) -> Option<&'a str>
    ensures { IfSome result (λ word. (player_named (names_in names.now) word.now ≡ None)
        × (length word.now ≤ MOST_WORD)) }
{
    let word = shown_word(&draft.stranger)?;
    match names.find(word.as_bytes()) {
        None => Some(word),
        Some(_) => None,
    }
}

/// A word of a draft, where one stands there.
pub(crate) fn shown_word(word: &Word) -> Option<&str>
    ensures { IfSome result (λ text. length text.now ≤ MOST_WORD) }
{
    if word.is_empty() {
        None
    } else {
        short_text(word.as_slice())
    }
}

/// A word as a text, where it is a short one without control bytes.
fn short_text(word: &[u8]) -> Option<&str>
    ensures { IfSome result (λ text. (text.now ≡ word.now) × (length word.now ≤ MOST_WORD)) }
{
    if word.len() > MOST_WORD {
        None
    } else {
        shown_text(word)
    }
}

/// Writes that no line begins with a word.
fn push_first(text: &mut AnswerText, word: &str)
    requires room { array_string_len text.old + MOST_REASON ≤ ANSWER_ROOM }
    requires short { length word.now ≤ MOST_WORD }
    ensures bytes { text.new.bytes ≡ text.old.bytes ++ spec.first_words word.now }
    ensures len { array_string_len text.new ≤ array_string_len text.old + MOST_FIRST }
{
    text.push_str("no line begins with ");
    text.push_str(word);
    text.push_str(": ron, tsumo, draw, abort, chombo, penalty, stands, end, undo and game do");
}

/// Writes that a word is no player's name, and whose it may be.
fn push_stranger(text: &mut AnswerText, names: &Names, word: &str)
    requires room { array_string_len text.old + MOST_REASON ≤ ANSWER_ROOM }
    requires short { length word.now ≤ MOST_WORD }
    ensures bytes { text.new.bytes
        ≡ text.old.bytes ++ spec.stranger_words (names_in names.now) word.now }
    ensures len { array_string_len text.new ≤ array_string_len text.old + MOST_REASON }
{
    text.push_str(word);
    text.push_str(" is no player: ");
    push_nearest(text, names, nearest_player(names, word.as_bytes()));
}

/// Writes the nearest name, or where there is none all four.
fn push_nearest(text: &mut AnswerText, names: &Names, nearest: Option<Player>)
    requires { array_string_len text.old + MOST_NAMES ≤ ANSWER_ROOM }
    ensures bytes { text.new.bytes
        ≡ text.old.bytes ++ spec.nearest_words (names_in names.now) nearest }
    ensures len { array_string_len text.new ≤ array_string_len text.old + MOST_NAMES }
{
    match nearest {
        None => push_all(text, names),
        Some(player) => {
            text.push_str(names.get(player).as_str());
            text.push_str("?");
        }
    }
}

/// Writes the names of the four.
fn push_all(text: &mut AnswerText, names: &Names)
    requires { array_string_len text.old + MOST_NAMES ≤ ANSWER_ROOM }
    ensures bytes { text.new.bytes ≡ text.old.bytes ++ spec.all_names (names_in names.now) }
    ensures len { array_string_len text.new ≤ array_string_len text.old + MOST_NAMES }
{
    push_name(text, &names.get(Player::First), ", ");
    push_name(text, &names.get(Player::Second), ", ");
    push_name(text, &names.get(Player::Third), " or ");
    push_name(text, &names.get(Player::Fourth), "");
}

fn push_name(text: &mut AnswerText, name: &Name, mark: &str)
    requires room { array_string_len text.old + MOST_NAME + 4 ≤ ANSWER_ROOM }
    requires short { length mark.now ≤ 4 }
    ensures bytes { text.new.bytes ≡ text.old.bytes ++ (name.now.bytes ++ mark.now) }
    ensures len { array_string_len text.new ≤ array_string_len text.old + MOST_NAME + 4 }
{
    text.push_str(name.as_str());
    text.push_str(mark);
}

/// Writes that a word is none of a line.
fn push_unknown(text: &mut AnswerText, word: &str)
    requires room { array_string_len text.old + MOST_REASON ≤ ANSWER_ROOM }
    requires short { length word.now ≤ MOST_WORD }
    ensures bytes { text.new.bytes ≡ text.old.bytes ++ spec.unknown_words word.now }
    ensures len { array_string_len text.new ≤ array_string_len text.old + MOST_UNKNOWN }
{
    text.push_str(word);
    text.push_str(" is no word of such a line");
}

/// Writes that points are no value.
fn push_payment(text: &mut AnswerText, points: &str)
    requires room { array_string_len text.old + MOST_REASON ≤ ANSWER_ROOM }
    requires short { length points.now ≤ MOST_WORD }
    ensures bytes { text.new.bytes ≡ text.old.bytes ++ spec.payment_words points.now }
    ensures len { array_string_len text.new ≤ array_string_len text.old + MOST_PAYMENT }
{
    text.push_str(points);
    text.push_str(" are points: a value is HAN.FU, as 3.40, or a limit hand, as mangan");
}

/// What a code says.
pub(crate) fn fault_words(fault: &GameFault) -> &'static str
    ensures value { result.now ≡ spec.game_fault_words fault.now }
    ensures short { length result.now ≤ MOST_FAULT_WORDS }
{
    match fault {
        GameFault::G1 => "the line is over 4096 bytes, no UTF-8, or has a control byte, as a tab",
        GameFault::G2 => {
            "a line begins with ron, tsumo, draw, abort, chombo, penalty, stands, end, undo or game"
        }
        GameFault::G3 => {
            "behind game stand four names that differ, or none, and words of the rules, each once"
        }
        GameFault::G4 => "words are missing, too many or out of order, or a number can't be",
        GameFault::G5 => {
            "a name stands twice, or a player can't be what it says: a winner is neither the discarder nor liable"
        }
        GameFault::G6 => "no hand has this value: fu are 20, 25 or a ten from 30 on, by han",
        GameFault::G7(fault) => hand_words(fault),
        GameFault::G8 => {
            "the rules of this game have it off: behind game, liable=on or nagashi=on turns it on"
        }
        GameFault::G9 => "who has fewer than 1000 points can't bet in this game",
        GameFault::G10 => "who declared riichi is ready",
        GameFault::G11 => {
            "the points and 1000 for each stick aren't four times the start, or the rules have no such round"
        }
        GameFault::G12 => "there would be over 99 counters or sticks, or more points than are kept",
        GameFault::G13 => "the game is over: only a penalty may follow, an undo or another game",
        GameFault::G14 => "a line of this game is refused: undo takes it back, and those behind it",
    }
}

/// What is wrong with a hand.
fn hand_words(fault: &HandFault) -> &'static str
    ensures value { result.now ≡ spec.hand_fault_words fault.now }
    ensures short { length result.now ≤ MOST_FAULT_WORDS }
{
    match fault {
        HandFault::Words(_) => {
            "the words of the hand are at fault: its tiles, on= and the tile that it was won on, open=, dora="
        }
        HandFault::NoYaku => "the hand has no yaku",
        HandFault::NoWin => "the tiles and the one of on= are no winning hand",
    }
}
