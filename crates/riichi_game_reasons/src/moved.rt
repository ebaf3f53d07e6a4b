//! What an outcome moves, in words.
ghost use Rattle.std.specs.Prelude.{◌≡◌, ◌+◌, ◌≤◌, ◌++◌};
ghost use Rattle.arrayvec.specs.ArrayString.{array_string_len};
ghost use Rattle.riichi_table.specs.Players.{of_player};
ghost use Rattle.riichi_game.specs.Outcomes.{wins_in};
ghost use Rattle.riichi_game_text.specs.Names.{names_in};
ghost use Rattle.riichi_game_reasons.specs.MoveLines as spec;

use riichi_game_text::{MOST_NAME, Names};
use riichi_settle::{Move, Reason, Taking};
use riichi_table::{ByPlayer, Liable, Outcome, Player, Win, Worth};
use riichi_text::{ANSWER_ROOM, AnswerText, MOST_U8, MOST_U32, push_number};

/// The bytes of the longest worth of a hand.
const MOST_HAND: usize = "65535 base points".len();

const MOST_COUNT: usize = MOST_U8 + " counters".len();

/// The bytes of the longest reason of a payment.
const MOST_WHY: usize = "the other half of ".len() + MOST_COUNT;

const MOST_PAID: usize = MOST_NAME + " pays ".len() + MOST_NAME + " ".len() + MOST_U32;

const MOST_LYING: usize = " takes ".len() + "65535".len() + " sticks: ".len();

const MOST_TAKEN: usize = " takes the own bet back: ".len() + MOST_U32;

/// The bytes of the longest line of a move.
pub const MOST_MOVE: usize = "  ".len() + MOST_PAID + ": ".len() + MOST_WHY;

/// Writes what is moved, and why, without the line's end: a move of this outcome, with so many counters on the table.
pub fn push_move(text: &mut AnswerText, names: &Names, counters: u8, outcome: &Outcome, step: &Move)
    requires { array_string_len text.old + MOST_MOVE ≤ ANSWER_ROOM }
    ensures bytes { text.new.bytes
        ≡ text.old.bytes ++ spec.move_line (names_in names.now) counters outcome.now step.now }
    ensures len { array_string_len text.new ≤ array_string_len text.old + MOST_MOVE }
{
    text.push_str("  ");
    match step {
        Move::Points {
            from,
            to,
            points,
            why,
        } => {
            push_payer(text, names, *from, *to, *points);
            text.push_str(": ");
            push_why(text, counters, outcome, win_of(outcome, *to), *why);
        }
        Move::Bet { player } => {
            text.push_str(names.get(*player).as_str());
            text.push_str(" bets 1000");
        }
        Move::Sticks { to, count, why } => {
            text.push_str(names.get(*to).as_str());
            push_sticks(text, *count, *why);
        }
    }
}

/// What a player has won by an outcome.
pub fn win_of(outcome: &Outcome, player: Player) -> Option<Win>
    ensures { result ≡ of_player (wins_in outcome.now) player }
{
    let wins = match outcome {
        Outcome::Ron { wins, .. } => *wins,
        Outcome::Tsumo { winner, win, .. } => ByPlayer::all(None).with(*winner, Some(*win)),
        _ => ByPlayer::all(None),
    };
    wins.get(player)
}

/// Writes who pays whom how much.
fn push_payer(text: &mut AnswerText, names: &Names, from: Player, to: Player, points: u32)
    requires { array_string_len text.old + MOST_PAID ≤ ANSWER_ROOM }
    ensures bytes { text.new.bytes
        ≡ text.old.bytes ++ spec.paid_words (names_in names.now) from to points }
    ensures len { array_string_len text.new ≤ array_string_len text.old + MOST_PAID }
{
    text.push_str(names.get(from).as_str());
    text.push_str(" pays ");
    text.push_str(names.get(to).as_str());
    text.push_str(" ");
    push_number(text, points);
}

/// Writes the sticks that a player takes, behind the name.
fn push_sticks(text: &mut AnswerText, count: u16, why: Taking)
    requires { array_string_len text.old + MOST_TAKEN ≤ ANSWER_ROOM }
    ensures bytes { text.new.bytes ≡ text.old.bytes ++ spec.taken_words count why }
    ensures len { array_string_len text.new ≤ array_string_len text.old + MOST_TAKEN }
{
    match why {
        Taking::Winner => push_lying(text, count),
        Taking::OwnBet => text.push_str(" takes the own bet back: "),
    }
    push_number(text, 1000 * u32::from(count));
}

/// Writes how many of the sticks that lie are taken.
fn push_lying(text: &mut AnswerText, count: u16)
    requires { array_string_len text.old + MOST_LYING ≤ ANSWER_ROOM }
    ensures bytes { text.new.bytes ≡ text.old.bytes ++ spec.lying_words count }
    ensures len { array_string_len text.new ≤ array_string_len text.old + MOST_LYING }
{
    text.push_str(" takes ");
    push_number(text, count);
    if count == 1 {
        text.push_str(" stick: ");
    } else {
        text.push_str(" sticks: ");
    }
}

/// Writes why points are paid to a player who has won so much, where this one has.
fn push_why(text: &mut AnswerText, counters: u8, outcome: &Outcome, win: Option<Win>, why: Reason)
    requires { array_string_len text.old + MOST_WHY ≤ ANSWER_ROOM }
    ensures bytes { text.new.bytes
        ≡ text.old.bytes ++ spec.why_words counters outcome.now win why }
    ensures len { array_string_len text.new ≤ array_string_len text.old + MOST_WHY }
{
    match why {
        Reason::Ron => {
            text.push_str("ron, ");
            push_won_hand(text, outcome, win);
        }
        Reason::Tsumo => {
            text.push_str("self-draw, ");
            push_won_hand(text, outcome, win);
        }
        Reason::Liable => {
            text.push_str("liable for ");
            push_parted(text, win);
        }
        Reason::OtherHalf => {
            text.push_str("the other half of ");
            push_parted(text, win);
        }
        Reason::Counters => push_counters(text, counters),
        Reason::Ready => text.push_str("ready at the draw"),
        Reason::Nagashi => text.push_str("nagashi mangan"),
        Reason::Chombo => text.push_str("dead hand"),
    }
}

/// Writes what is paid for as ever.
fn push_won_hand(text: &mut AnswerText, outcome: &Outcome, win: Option<Win>)
    requires { array_string_len text.old + MOST_HAND ≤ ANSWER_ROOM }
    ensures bytes { text.new.bytes ≡ text.old.bytes ++ spec.won_words outcome.now win }
    ensures len { array_string_len text.new ≤ array_string_len text.old + MOST_HAND }
{
    if let Some(win) = win {
        push_hand(text, unparted(outcome, win.worth, win.liable));
    }
}

/// What of a hand is paid for as ever: the limits that nobody but the discarder is liable for, or the whole hand.
pub fn unparted(outcome: &Outcome, worth: Worth, liable: Option<Liable>) -> Worth
    ensures { result ≡ spec.unparted outcome.now worth liable }
{
    match liable {
        Some(liable) if is_parted(outcome, liable) => Worth::Yakuman {
            limits: worth.limits().saturating_sub(liable.limits),
        },
        _ => worth,
    }
}

/// Whether somebody other than the discarder is liable.
fn is_parted(outcome: &Outcome, liable: Liable) -> bool
    ensures { result ≡ spec.is_parted outcome.now liable }
{
    match outcome {
        Outcome::Ron { from, .. } => !liable.player.is(*from),
        _ => true,
    }
}

fn push_hand(text: &mut AnswerText, worth: Worth)
    requires { array_string_len text.old + MOST_HAND ≤ ANSWER_ROOM }
    ensures bytes { text.new.bytes ≡ text.old.bytes ++ spec.hand_words worth }
    ensures len { array_string_len text.new ≤ array_string_len text.old + MOST_HAND }
{
    match worth {
        Worth::Counted { base } => push_counted(text, base),
        Worth::Yakuman { limits } => push_yakuman(text, limits),
    }
}

/// Writes the name of a limit hand, or base points.
fn push_counted(text: &mut AnswerText, base: u16)
    requires { array_string_len text.old + MOST_HAND ≤ ANSWER_ROOM }
    ensures bytes { text.new.bytes ≡ text.old.bytes ++ spec.counted_words base }
    ensures len { array_string_len text.new ≤ array_string_len text.old + MOST_HAND }
{
    if base == 2000 {
        text.push_str("mangan");
    } else if base == 3000 {
        text.push_str("haneman");
    } else if base == 4000 {
        text.push_str("baiman");
    } else if base == 6000 {
        text.push_str("sanbaiman");
    } else if base == 8000 {
        text.push_str("yakuman by 13 han");
    } else {
        push_number(text, base);
        text.push_str(" base points");
    }
}

/// Writes a yakuman with its limits, where these are more than one.
fn push_yakuman(text: &mut AnswerText, limits: u8)
    requires { array_string_len text.old + MOST_HAND ≤ ANSWER_ROOM }
    ensures bytes { text.new.bytes ≡ text.old.bytes ++ spec.yakuman_words limits }
    ensures len { array_string_len text.new ≤ array_string_len text.old + MOST_HAND }
{
    text.push_str("yakuman");
    if limits != 1 {
        text.push_str(":");
        push_number(text, limits);
    }
}

/// Writes for how many limits of a hand somebody is liable.
fn push_parted(text: &mut AnswerText, win: Option<Win>)
    requires { array_string_len text.old + MOST_COUNT ≤ ANSWER_ROOM }
    ensures bytes { text.new.bytes ≡ text.old.bytes ++ spec.parted_words win }
    ensures len { array_string_len text.new ≤ array_string_len text.old + MOST_COUNT }
{
    if let Some(
        Win {
            liable: Some(liable),
            ..
        },
    ) = win
    {
        push_limits(text, liable.limits);
    }
}

fn push_limits(text: &mut AnswerText, limits: u8)
    requires { array_string_len text.old + MOST_COUNT ≤ ANSWER_ROOM }
    ensures bytes { text.new.bytes ≡ text.old.bytes ++ spec.limits_words limits }
    ensures len { array_string_len text.new ≤ array_string_len text.old + MOST_COUNT }
{
    push_number(text, limits);
    if limits == 1 {
        text.push_str(" limit");
    } else {
        text.push_str(" limits");
    }
}

fn push_counters(text: &mut AnswerText, counters: u8)
    requires { array_string_len text.old + MOST_COUNT ≤ ANSWER_ROOM }
    ensures bytes { text.new.bytes ≡ text.old.bytes ++ spec.counters_words counters }
    ensures len { array_string_len text.new ≤ array_string_len text.old + MOST_COUNT }
{
    push_number(text, counters);
    if counters == 1 {
        text.push_str(" counter");
    } else {
        text.push_str(" counters");
    }
}
