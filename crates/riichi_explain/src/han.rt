//! The rows of a hand's han.
ghost use Rattle.std.specs.Prelude.{◌≡◌, ◌+◌, ◌<◌, ◌≤◌, ◌++◌, [], length, map, true, false};
ghost use Rattle.riichi_yaku.specs.YakuSets.{han_of, is_yakuman, yaku_in};
ghost use Rattle.riichi_tiles.specs.Melds.{are_concealed};
ghost use Rattle.riichi_score.specs.Dora.{dora_of};
ghost use Rattle.riichi_explain.specs.Han as spec;

use arrayvec::ArrayVec;
use riichi_hand::WinRecord;
use riichi_score::{YakuSet, dora};
use riichi_yaku::Yaku;

/// What earns han.
#[derive(Clone, Copy, Debug, PartialEq, Eq)]
pub enum HanPart {
    Yaku(Yaku),
    /// A yaku that is worth the limit, without han.
    Yakuman(Yaku),
    /// Every dora; [`dora_rows`](crate::dora_rows) tells them apart.
    Dora,
}

/// A row of the han: what earns it, and how many.
#[derive(Clone, Copy, Debug, PartialEq, Eq)]
pub struct HanRow {
    pub part: HanPart,
    pub han: u8,
}

/// What fills the places of a list that no row has taken.
impl Default for HanRow {
    ghost use Rattle.riichi_explain.specs.declared.han.HanPart.TheVariants.{Dora};

    ghost is_default = { λ row. row ≡ record { part = Dora; han = 0 } };

    fn default() -> Self {
        HanRow {
            part: HanPart::Dora,
            han: 0,
        }
    }
}

/// The most rows of han: every yaku, and the dora.
pub const MOST_HAN_ROWS: usize = Yaku::COUNT + 1;

/// Rows of han: the yaku in the order of their table, then the dora.
pub type HanRows = ArrayVec<HanRow, MOST_HAN_ROWS>;

/// The rows of a win that has this set of yaku. Those of a counted hand add up to its han.
#[tactic(auto, using(crate::proofs::HanLemmas::han_rows_facts), unfolding(crate::specs::Han::han_rows))]
pub fn han_rows(set: YakuSet, win: &WinRecord) -> HanRows
    ensures value { result.items ≡ spec.han_rows set win.now }
    ensures counted { is_yakuman set ≡ false → spec.han_total result.items
        ≡ han_of set (are_concealed win.now.melds) + dora_of win.now }
    ensures yakuman { is_yakuman set ≡ true → spec.han_total result.items ≡ 0 }
{
    let mut rows = ArrayVec::new();
    if set.is_yakuman() {
        push_yakuman_rows(&mut rows, set);
    } else {
        push_yaku_rows(&mut rows, set, win.melds().concealed());
        push_dora_row(&mut rows, win);
    }
    rows
}

fn push_yakuman_rows(rows: &mut HanRows, set: YakuSet)
    requires { rows.old.items ≡ [] }
    ensures { rows.new.items ≡ map spec.yakuman_row (yaku_in set) }
{
    for yaku in set.iter() {
        let part = HanPart::Yakuman(yaku);
        rows.push(HanRow { part, han: 0 });
    }
}

fn push_yaku_rows(rows: &mut HanRows, set: YakuSet, concealed: bool)
    requires { rows.old.items ≡ [] }
    ensures items { rows.new.items ≡ map (spec.yaku_row concealed) (yaku_in set) }
    ensures most { length rows.new.items ≤ Yaku.COUNT }
{
    for yaku in set.iter() {
        let part = HanPart::Yaku(yaku);
        let han = yaku.han(concealed);
        rows.push(HanRow { part, han });
    }
}

fn push_dora_row(rows: &mut HanRows, win: &WinRecord)
    requires { length rows.old.items ≤ Yaku.COUNT }
    ensures { rows.new.items ≡ rows.old.items ++ spec.dora_row win.now }
{
    push_counted(rows, HanPart::Dora, dora(win));
}

/// A row, where there is any.
fn push_counted(rows: &mut HanRows, part: HanPart, han: u8)
    requires { length rows.old.items < MOST_HAN_ROWS }
    ensures items { rows.new.items ≡ rows.old.items ++ spec.counted_row part han }
    ensures most { length rows.new.items ≤ length rows.old.items + 1 }
{
    if han > 0 {
        rows.push(HanRow { part, han });
    }
}
