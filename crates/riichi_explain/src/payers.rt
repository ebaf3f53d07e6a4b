//! Who pays what.
ghost use Rattle.std.specs.Prelude.{◌≡◌, ◌+◌, ◌<◌, ◌≤◌, [], ◌∷◌, ◌++◌, length};
ghost use Rattle.riichi_explain.specs.Payers as spec;

use arrayvec::ArrayVec;
use riichi_hand::{By, WinRecord};
use riichi_score::up;

/// Who pays.
#[derive(Clone, Copy, Debug, PartialEq, Eq)]
pub enum Payer {
    Discarder,
    Dealer,
    /// Each of the two who are neither the dealer nor the winner.
    TwoOthers,
    /// Each of the three who are not the dealer.
    ThreeOthers,
}

/// What each of these players pays: the points of the hand, rounded up to a hundred, and those of the counters.
#[derive(Clone, Copy, Debug, PartialEq, Eq)]
pub struct PayRow {
    pub payer: Payer,
    pub points: u32,
    pub counters: u32,
}

/// What fills the places of a list that no row has taken.
impl Default for PayRow {
    ghost use Rattle.riichi_explain.specs.declared.payers.Payer.TheVariants.{Discarder};

    ghost is_default = { λ row. row ≡ record { payer = Discarder; points = 0; counters = 0 } };

    fn default() -> Self {
        PayRow {
            payer: Payer::Discarder,
            points: 0,
            counters: 0,
        }
    }
}

/// The most rows of who pays: the dealer and the others.
pub const MOST_PAY_ROWS: usize = 2;

/// The rows of all who pay: the dealer before the others.
pub type PayRows = ArrayVec<PayRow, MOST_PAY_ROWS>;

/// What is paid for a win of so many base points.
pub fn pay_rows(base: u32, win: &WinRecord) -> PayRows
    requires { base ≤ 800000 }
    ensures value { result.items ≡ spec.pay_rows base win.now }
    ensures most { length result.items ≤ MOST_PAY_ROWS }
{
    let mut rows = ArrayVec::new();
    let dealer = win.seat().is_dealer();
    match win.by() {
        By::Ron => push_ron(&mut rows, base, dealer, win.counters()),
        By::Tsumo => push_tsumo(&mut rows, base, dealer, win.counters()),
    }
    rows
}

fn push_ron(rows: &mut PayRows, base: u32, dealer: bool, counters: u8)
    requires base { base ≤ 800000 }
    requires empty { rows.old.items ≡ [] }
    ensures { rows.new.items ≡ spec.ron_rows base dealer counters }
{
    let times = if dealer { 6 } else { 4 };
    rows.push(PayRow {
        payer: Payer::Discarder,
        points: up(times * base),
        counters: 300 * u32::from(counters),
    });
}

fn push_tsumo(rows: &mut PayRows, base: u32, dealer: bool, counters: u8)
    requires base { base ≤ 800000 }
    requires empty { rows.old.items ≡ [] }
    ensures { rows.new.items ≡ spec.tsumo_rows base dealer counters }
{
    let counters = 100 * u32::from(counters);
    let double = up(2 * base);
    if dealer {
        push_row(rows, Payer::ThreeOthers, double, counters);
    } else {
        push_row(rows, Payer::Dealer, double, counters);
        push_row(rows, Payer::TwoOthers, up(base), counters);
    }
}

fn push_row(rows: &mut PayRows, payer: Payer, points: u32, counters: u32)
    requires { length rows.old.items < MOST_PAY_ROWS }
    ensures { rows.new.items ≡ rows.old.items ++ spec.row payer points counters ∷ [] }
{
    rows.push(PayRow {
        payer,
        points,
        counters,
    });
}
