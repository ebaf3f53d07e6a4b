//! What an outcome moves.
ghost use Rattle.std.specs.Prelude.{◌≡◌, ◌+◌, ◌*◌, ◌≤◌, ◌++◌, codes, length};
ghost use Rattle.std.specs.List.{flat_map};
ghost use Rattle.arrayvec.specs.ArrayString.{array_string_len};
ghost use Rattle.riichi_game_json.specs.MoveValues as spec;

use crate::states::player_index;
use crate::values::push_natural;
use riichi_game_reasons::{unparted, win_of};
use riichi_settle::{Move, Reason, Taking};
use riichi_table::{Outcome, Player, Win, Worth};
use riichi_text::{ANSWER_ROOM, AnswerText, MOST_U32};

const MOST_PARTY: usize = MOST_U32;

const MOST_MOVED: usize = "{\"from\":".len()
    + MOST_PARTY
    + ",\"to\":".len()
    + MOST_PARTY
    + ",\"points\":".len()
    + MOST_U32
    + ",\"why\":".len();

const MOST_WORD: usize = "\"other half\"".len();

const MOST_COUNTED: usize = ",\"counters\":".len() + MOST_U32;

const MOST_MOVE: usize = MOST_MOVED + MOST_WORD + MOST_COUNTED + "}".len();

/// The bytes of a move, and of the comma before it.
pub(crate) const MOST_LISTED_MOVE: usize = ",".len() + MOST_MOVE;

/// Writes the moves of an outcome, with commas between them, under so many counters on the table.
pub(crate) fn push_moves(text: &mut AnswerText, counters: u8, outcome: &Outcome, moves: &[Move])
    requires { array_string_len text.old + length moves.now * MOST_LISTED_MOVE ≤ ANSWER_ROOM }
    ensures bytes { text.new.bytes
        ≡ text.old.bytes ++ spec.moves_json counters outcome.now moves.now }
    ensures len { array_string_len text.new
        ≤ array_string_len text.old + length moves.now * MOST_LISTED_MOVE }
{
    if let [first, rest @ ..] = moves {
        push_move(text, counters, outcome, first);
        push_more(text, counters, outcome, rest);
    }
}

/// Writes these moves, each behind a comma.
fn push_more(text: &mut AnswerText, counters: u8, outcome: &Outcome, moves: &[Move])
    requires { array_string_len text.old + length moves.now * MOST_LISTED_MOVE ≤ ANSWER_ROOM }
    ensures bytes { text.new.bytes ≡ text.old.bytes
        ++ flat_map (λ next. codes "," ++ spec.move_json counters outcome.now next) moves.now }
    ensures len { array_string_len text.new
        ≤ array_string_len text.old + length moves.now * MOST_LISTED_MOVE }
{
    for moved in moves {
        push_listed(text, counters, outcome, moved);
    }
}

/// Writes a move behind a comma.
fn push_listed(text: &mut AnswerText, counters: u8, outcome: &Outcome, moved: &Move)
    requires { array_string_len text.old + MOST_LISTED_MOVE ≤ ANSWER_ROOM }
    ensures bytes { text.new.bytes ≡ text.old.bytes
        ++ (codes "," ++ spec.move_json counters outcome.now moved.now) }
    ensures len { array_string_len text.new ≤ array_string_len text.old + MOST_LISTED_MOVE }
{
    text.push_str(",");
    push_move(text, counters, outcome, moved);
}

fn push_move(text: &mut AnswerText, counters: u8, outcome: &Outcome, moved: &Move)
    requires { array_string_len text.old + MOST_MOVE ≤ ANSWER_ROOM }
    ensures bytes { text.new.bytes
        ≡ text.old.bytes ++ spec.move_json counters outcome.now moved.now }
    ensures len { array_string_len text.new ≤ array_string_len text.old + MOST_MOVE }
{
    match moved {
        Move::Points {
            from,
            to,
            points,
            why,
        } => {
            push_moved(text, Some(*from), Some(*to), *points);
            text.push_str(why_word(*why));
            push_why(text, counters, outcome, win_of(outcome, *to), *why);
            text.push_str("}");
        }
        Move::Bet { player } => {
            push_moved(text, Some(*player), None, 1000);
            text.push_str("\"bet\"}");
        }
        Move::Sticks { to, count, why } => {
            push_moved(text, None, Some(*to), 1000 * u32::from(*count));
            text.push_str(taking_word(*why));
            push_natural(text, ",\"sticks\":", u32::from(*count));
            text.push_str("}");
        }
    }
}

/// Writes who gives how many points to whom, and the name of the reason's member.
fn push_moved(text: &mut AnswerText, from: Option<Player>, to: Option<Player>, points: u32)
    requires { array_string_len text.old + MOST_MOVED ≤ ANSWER_ROOM }
    ensures bytes { text.new.bytes ≡ text.old.bytes ++ spec.moved_members from to points }
    ensures len { array_string_len text.new ≤ array_string_len text.old + MOST_MOVED }
{
    push_party(text, "{\"from\":", from);
    push_party(text, ",\"to\":", to);
    push_natural(text, ",\"points\":", points);
    text.push_str(",\"why\":");
}

/// Writes the number of a player, or that it is the table.
fn push_party(text: &mut AnswerText, before: &str, party: Option<Player>)
    requires { array_string_len text.old + length before.now + MOST_PARTY ≤ ANSWER_ROOM }
    ensures bytes { text.new.bytes ≡ text.old.bytes ++ (before.now ++ spec.party party) }
    ensures len { array_string_len text.new
        ≤ array_string_len text.old + length before.now + MOST_PARTY }
{
    match party {
        None => {
            text.push_str(before);
            text.push_str("null");
        }
        Some(player) => push_natural(text, before, player_index(player)),
    }
}

fn why_word(why: Reason) -> &'static str
    ensures value { result.now ≡ spec.why_word why }
    ensures short { length result.now ≤ MOST_WORD }
{
    match why {
        Reason::Ron => "\"ron\"",
        Reason::Tsumo => "\"tsumo\"",
        Reason::Liable => "\"liable\"",
        Reason::OtherHalf => "\"other half\"",
        Reason::Counters => "\"counters\"",
        Reason::Ready => "\"ready\"",
        Reason::Nagashi => "\"nagashi\"",
        Reason::Chombo => "\"chombo\"",
    }
}

/// Writes what is paid for, to a player who has won so much, where this one has.
fn push_why(text: &mut AnswerText, counters: u8, outcome: &Outcome, win: Option<Win>, why: Reason)
    requires { array_string_len text.old + MOST_COUNTED ≤ ANSWER_ROOM }
    ensures bytes { text.new.bytes
        ≡ text.old.bytes ++ spec.why_member counters outcome.now win why }
    ensures len { array_string_len text.new ≤ array_string_len text.old + MOST_COUNTED }
{
    match why {
        Reason::Ron | Reason::Tsumo => push_won(text, outcome, win),
        Reason::Liable | Reason::OtherHalf => push_parted(text, win),
        Reason::Counters => push_natural(text, ",\"counters\":", u32::from(counters)),
        Reason::Ready | Reason::Nagashi | Reason::Chombo => {}
    }
}

/// Writes what is paid for as ever.
fn push_won(text: &mut AnswerText, outcome: &Outcome, win: Option<Win>)
    requires { array_string_len text.old + MOST_COUNTED ≤ ANSWER_ROOM }
    ensures bytes { text.new.bytes ≡ text.old.bytes ++ spec.won_member outcome.now win }
    ensures len { array_string_len text.new ≤ array_string_len text.old + MOST_COUNTED }
{
    if let Some(win) = win {
        push_worth(text, unparted(outcome, win.worth, win.liable));
    }
}

fn push_worth(text: &mut AnswerText, worth: Worth)
    requires { array_string_len text.old + MOST_COUNTED ≤ ANSWER_ROOM }
    ensures bytes { text.new.bytes ≡ text.old.bytes ++ spec.worth_member worth }
    ensures len { array_string_len text.new ≤ array_string_len text.old + MOST_COUNTED }
{
    match worth {
        Worth::Counted { base } => push_natural(text, ",\"base\":", u32::from(base)),
        Worth::Yakuman { limits } => push_natural(text, ",\"limits\":", u32::from(limits)),
    }
}

/// Writes for how many limits of a hand somebody is liable.
fn push_parted(text: &mut AnswerText, win: Option<Win>)
    requires { array_string_len text.old + MOST_COUNTED ≤ ANSWER_ROOM }
    ensures bytes { text.new.bytes ≡ text.old.bytes ++ spec.parted_member win }
    ensures len { array_string_len text.new ≤ array_string_len text.old + MOST_COUNTED }
{
    if let Some(
        Win {
            liable: Some(liable),
            ..
        },
    ) = win
    {
        push_natural(text, ",\"limits\":", u32::from(liable.limits));
    }
}

fn taking_word(why: Taking) -> &'static str
    ensures value { result.now ≡ spec.taking_word why }
    ensures short { length result.now ≤ MOST_WORD }
{
    match why {
        Taking::Winner => "\"sticks\"",
        Taking::OwnBet => "\"own bet\"",
    }
}
