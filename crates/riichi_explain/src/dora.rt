//! The rows of a hand's dora.
ghost use Rattle.std.specs.Prelude.{◌≡◌, ◌+◌, ◌<◌, ◌≤◌, [], ◌++◌, length};
ghost use Rattle.riichi_score.specs.Dora.{dora_of, red_dora};
ghost use Rattle.riichi_explain.specs.Dora as spec;

use arrayvec::ArrayVec;
use riichi_hand::WinRecord;
use riichi_score::{counted_ura, red_dora};
use riichi_tiles::{Counts, Kind, dora_of};

/// Where dora come from.
#[derive(Clone, Copy, Debug, PartialEq, Eq)]
pub enum DoraPart {
    /// What the indicators make dora.
    Indicated,
    /// What the indicators below those make dora: ura dora.
    Below,
    RedFives,
}

/// A row of the dora: where they come from, and how many han they earn.
#[derive(Clone, Copy, Debug, PartialEq, Eq)]
pub struct DoraRow {
    pub part: DoraPart,
    pub han: u32,
}

/// What fills the places of a list that no row has taken.
impl Default for DoraRow {
    ghost use Rattle.riichi_explain.specs.declared.dora.DoraPart.TheVariants.{Indicated};

    ghost is_default = { λ row. row ≡ record { part = Indicated; han = 0 } };

    fn default() -> Self {
        DoraRow {
            part: DoraPart::Indicated,
            han: 0,
        }
    }
}

/// The most rows of dora: one of each part.
pub const MOST_DORA_ROWS: usize = 3;

/// Rows of dora, of those parts that there are.
pub type DoraRows = ArrayVec<DoraRow, MOST_DORA_ROWS>;

/// The rows of a win's dora. They add up to its dora.
#[tactic(auto, using(crate::proofs::DoraLemmas::rows_give_dora))]
pub fn dora_rows(win: &WinRecord) -> DoraRows
    ensures value { result.items ≡ spec.dora_rows win.now }
    ensures adds_up { spec.dora_total result.items ≡ dora_of win.now }
{
    let mut rows = ArrayVec::new();
    push_dora_rows(&mut rows, win);
    rows
}

#[tactic(auto, unfolding(crate::specs::Dora::dora_rows))]
fn push_dora_rows(rows: &mut DoraRows, win: &WinRecord)
    requires { rows.old.items ≡ [] }
    ensures { rows.new.items ≡ spec.dora_rows win.now }
{
    push_counted(rows, DoraPart::Indicated, shown_dora(&win.dora(), win));
    push_counted(rows, DoraPart::Below, shown_dora(&counted_ura(win), win));
    push_counted(rows, DoraPart::RedFives, red_fives(win));
}

/// The han of the red fives.
fn red_fives(win: &WinRecord) -> u32
    ensures { result ≡ red_dora win.now.rules win.now.reds }
{
    u32::from(red_dora(win.rules(), &win.reds()))
}

/// A row, where there is any.
fn push_counted(rows: &mut DoraRows, part: DoraPart, han: u32)
    requires { length rows.old.items < MOST_DORA_ROWS }
    ensures items { rows.new.items ≡ rows.old.items ++ spec.dora_row_if part han }
    ensures most { length rows.new.items ≤ length rows.old.items + 1 }
{
    if han > 0 {
        rows.push(DoraRow { part, han });
    }
}

/// The dora that some indicators make.
#[tactic(auto, using(riichi_score::proofs::DoraSums::kinds_more))]
fn shown_dora(indicators: &Counts, win: &WinRecord) -> u32
    ensures { result ≡ spec.shown_dora indicators.now win.now }
{
    let mut sum = 0;
    for number in 0..34 {
        sum += dora_by(indicators, win, Kind::at(number));
    }
    sum
}

/// What the indicators of a kind earn.
fn dora_by(indicators: &Counts, win: &WinRecord, kind: Kind) -> u32
    ensures value { result ≡ spec.dora_by indicators.now win.now kind }
    ensures most { result ≤ 84 }
{
    let shown = indicators.get(kind);
    if shown == 0 {
        return 0;
    }
    u32::from(shown) * u32::from(win.copies_won(dora_of(kind)))
}

/// The sum of some rows.
pub fn dora_total(rows: &[DoraRow]) -> u64
    requires { length rows.now ≤ MOST_DORA_ROWS }
    ensures { result ≡ spec.dora_total rows.now }
{
    let mut sum = 0;
    for row in rows {
        sum += u64::from(row.han);
    }
    sum
}
