//! What is told of a win, as a row.
ghost use Rattle.std.specs.Prelude.{◌≡◌};
ghost use Rattle.riichi_win_arrays.specs.ScoreRows as spec;

use riichi_hand::{LineCode, LineFault};
use riichi_score::{Payment, Score, WinAnswer};

/// What is told of a row. But for `told` all is 0 where the row is no win with a yaku.
#[repr(C)]
#[derive(Clone, Copy, Debug, PartialEq, Eq)]
pub struct ScoreRow {
    /// The yaku, bit n for the yaku with number n.
    pub yaku: u64,
    /// The base points.
    pub base: u32,
    /// All that the winner gains, in points.
    pub gain: u32,
    /// What the discarder pays; 0 where the win is by self-draw.
    pub discarder: u32,
    /// What the dealer pays for another's self-draw.
    pub dealer: u32,
    /// What each player who isn't the dealer pays for a self-draw.
    pub other: u32,
    /// 100 of a win with a yaku, 101 of a win without one, 102 of no win, and n where the row is refused for the fault Hn.
    pub told: u8,
    /// The han, with the dora; 0 for a yakuman.
    pub han: u8,
    /// The fu, rounded up; 0 for a yakuman.
    pub fu: u8,
    /// How many of the han are dora.
    pub dora: u8,
}

impl ScoreRow {
    /// Without a score.
    fn only(told: u8) -> ScoreRow
        ensures { result ≡ spec.only told }
    {
        ScoreRow {
            yaku: 0,
            base: 0,
            gain: 0,
            discarder: 0,
            dealer: 0,
            other: 0,
            told,
            han: 0,
            fu: 0,
            dora: 0,
        }
    }

    fn won(score: &Score) -> ScoreRow
        ensures { result ≡ spec.won score.now }
    {
        let paid = paid_by(&score.payment);
        ScoreRow {
            yaku: score.yaku.bits(),
            base: score.base,
            gain: score.gain,
            discarder: paid.discarder,
            dealer: paid.dealer,
            other: paid.other,
            told: 100,
            han: score.han,
            fu: score.fu,
            dora: score.dora,
        }
    }

    /// The row of an answer.
    pub(crate) fn of(answer: &Result<WinAnswer, LineFault>) -> ScoreRow
        ensures { result ≡ spec.score_row answer.now }
    {
        match answer {
            Ok(WinAnswer::Won(score)) => ScoreRow::won(score),
            Ok(WinAnswer::NoYaku) => ScoreRow::only(101),
            Ok(WinAnswer::NoWin) => ScoreRow::only(102),
            Err(fault) => ScoreRow::only(fault_number(fault)),
        }
    }
}

/// What each payer pays, in points.
#[derive(Clone, Copy)]
pub struct Paid {
    pub discarder: u32,
    pub dealer: u32,
    /// Each of the others.
    pub other: u32,
}

/// What each payer of a payment pays.
pub fn paid_by(payment: &Payment) -> Paid
    ensures { result ≡ spec.paid_by payment.now }
{
    let (discarder, dealer, other) = match payment {
        Payment::Ron { points } => (*points, 0, 0),
        Payment::Tsumo { other, dealer } => (0, *dealer, *other),
        Payment::DealerTsumo { each } => (0, 0, *each),
    };
    Paid {
        discarder,
        dealer,
        other,
    }
}

/// The number of a fault; no record has one of notation.
pub fn fault_number(fault: &LineFault) -> u8
    ensures { result ≡ spec.fault_number fault.now }
{
    match fault {
        LineFault::Line(code) => code_number(*code),
        LineFault::Notation(_, _) => 4,
    }
}

fn code_number(code: LineCode) -> u8
    ensures { result ≡ spec.code_number code }
{
    match code {
        LineCode::H1 => 1,
        LineCode::H2 => 2,
        LineCode::H3 => 3,
        LineCode::H4 => 4,
        LineCode::H5 => 5,
        LineCode::H6 => 6,
        LineCode::H7 => 7,
        LineCode::H8 => 8,
        LineCode::H9 => 9,
        LineCode::H10 => 10,
        LineCode::H11 => 11,
        LineCode::H12 => 12,
        LineCode::H13 => 13,
        LineCode::H14 => 14,
        LineCode::H15 => 15,
        LineCode::H16 => 16,
    }
}
