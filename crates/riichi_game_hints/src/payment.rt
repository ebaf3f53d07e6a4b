//! The value of a hand by the points that it pays.
use crate::sums::number_spelled;
use riichi_game::Progress;
use riichi_game_drafts::{Draft, Line, ValueWord, add_behind, value_word};
use riichi_game_text::{AcceptedLine, Names, next_said, read_entry};
use riichi_table::{ByPlayer, GameState, Outcome, Player, TableRules};

/// Values of hands, limit hands first: of those that pay alike the first is told.
const VALUES: &[u8] =
    b"mangan haneman baiman sanbaiman yakuman 1.30 2.30 3.30 4.30 1.40 2.40 3.40 2.25 3.25 4.25 2.20 3.20 4.20 1.50 2.50 3.50 1.60 2.60 3.60 1.70 2.70 1.80 2.80 1.90 2.90 1.100 2.100";

/// What is tried of a line, and in which state.
#[derive(Clone, Copy)]
pub(crate) struct Table<'a> {
    pub(crate) names: &'a Names,
    pub(crate) rules: &'a TableRules,
    pub(crate) progress: &'a Progress,
}

/// The points that those pay who pay least and most.
#[derive(Clone, Copy, PartialEq)]
struct Paid {
    least: i64,
    most: i64,
}

/// Where a draft has points in the place of a value, and the line that it made can have a value that pays so, the line with that value;
/// else the line as it is.
pub(crate) fn with_payment(
    table: &Table<'_>,
    draft: &mut Draft,
    made: Option<Line>,
) -> Option<Line> {
    let line = made?;
    let Some(paid) = paid_in(draft.payment.as_slice()) else {
        return Some(line);
    };
    let mut rest: &[u8] = VALUES;
    while let Some((value, after)) = next_said(rest) {
        let other = with_value(line.as_slice(), value);
        if pays_so(table, other.as_slice(), paid) {
            draft.note_payment(value);
            return Some(other);
        }
        rest = after;
    }
    Some(line)
}

/// The points of `8000`, or of `2000/4000`.
fn paid_in(payment: &[u8]) -> Option<Paid> {
    let (one, other) = match value_word(payment)? {
        ValueWord::Number(points) => (number_spelled(points)?, number_spelled(points)?),
        ValueWord::Counted(one, other) => (number_spelled(one)?, number_spelled(other)?),
        _ => return None,
    };
    Some(Paid {
        least: one.min(other),
        most: one.max(other),
    })
}

/// The line with a value in the place of `HAN.FU`.
fn with_value(pattern: &[u8], value: &[u8]) -> Line {
    let mut line = Line::new();
    let mut rest = pattern;
    while let Some((word, after)) = next_said(rest) {
        let word = if word == b"HAN.FU".as_slice() {
            value
        } else {
            word
        };
        add_behind(&mut line, b" ", word);
        rest = after;
    }
    line
}

/// Whether a line is accepted, and these points are paid by it.
fn pays_so(table: &Table<'_>, line: &[u8], paid: Paid) -> bool {
    match read_entry(table.names, table.progress, table.rules, line) {
        Ok(accepted) => paid_by(&table.progress.state, &accepted) == Some(paid),
        Err(_) => false,
    }
}

/// What is paid for a win, without counters and bets.
fn paid_by(before: &GameState, accepted: &AcceptedLine) -> Option<Paid> {
    let (riichi, each) = match accepted.outcome {
        Outcome::Ron { riichi, .. } => (riichi, 300),
        Outcome::Tsumo { riichi, .. } => (riichi, 100),
        _ => return None,
    };
    let counters = i64::from(before.counters).saturating_mul(each);
    let mut paid: Option<Paid> = None;
    for player in Player::ALL {
        let lost = lost_by(before, &accepted.after.state, &riichi, player);
        if lost > 0 {
            paid = Some(paid_too(paid, lost.saturating_sub(counters)));
        }
    }
    paid
}

/// What a player loses beside a bet.
fn lost_by(before: &GameState, after: &GameState, riichi: &ByPlayer<bool>, player: Player) -> i64 {
    let had = i64::from(before.points.get(player));
    let has = i64::from(after.points.get(player));
    let bet = if riichi.get(player) { 1000 } else { 0 };
    had.saturating_sub(has).saturating_sub(bet)
}

/// One player more pays so many points.
fn paid_too(paid: Option<Paid>, points: i64) -> Paid {
    match paid {
        None => Paid {
            least: points,
            most: points,
        },
        Some(paid) => Paid {
            least: paid.least.min(points),
            most: paid.most.max(points),
        },
    }
}
