//! The dora of a hand, from its indicators and its red fives.
ghost use Rattle.std.specs.Prelude.{◌≡◌, ◌≤◌};
ghost use Rattle.std.specs.List.{sum_by};
ghost use Rattle.riichi_tiles.specs.Melds.{every_kind};
ghost use Rattle.riichi_tiles.specs.Tiles.{IsCounts};
ghost use Rattle.riichi_score.specs.Dora as spec;

use riichi_hand::{Rules, Switch, WinRecord};
use riichi_tiles::{Counts, Kind, KindSet, Reds, dora_of};

/// The han of a hand's dora: for each tile of `dora` and `ura` one for each copy of the kind that it
/// indicates, melds and the winning tile included, and one for each red five, where the rules count these.
#[tactic(auto, unfolding(crate::specs::Dora::dora_of))]
pub fn dora(win: &WinRecord) -> u8
    ensures value { result ≡ spec.dora_of win.now }
    ensures most { result ≤ 52 }
{
    indicator_dora(win) + red_dora(win.rules(), &win.reds())
}

/// The han of the red fives, which are plain fives under rules that have none.
pub fn red_dora(rules: Rules, reds: &Reds) -> u8
    ensures value { result ≡ spec.red_dora rules reds.now }
    ensures most { result ≤ 12 }
{
    if rules.has(Switch::RedFives) {
        reds.total()
    } else {
        0
    }
}

/// The indicators below, none under rules that don't count them.
pub fn counted_ura(win: &WinRecord) -> Counts
    ensures { result ≡ spec.counted_ura win.now }
{
    if win.rules().has(Switch::Ura) {
        win.ura()
    } else {
        Counts::new()
    }
}

fn indicator_dora(win: &WinRecord) -> u8
    ensures value { result ≡ sum_by (spec.kind_dora win.now) every_kind }
    ensures most { result ≤ 40 }
{
    let _told = win.parts();
    let dora = win.dora();
    let ura = counted_ura(win);
    let mut left = dora.total() + ura.total();
    if left == 0 {
        return 0;
    }
    let shown = KindSet::of(&dora.to_array());
    let hidden = KindSet::of(&ura.to_array());
    let mut sum = 0;
    let mut number = 0;
    while left > 0 {
        let next = shown.first_from(number).min(hidden.first_from(number));
        let kind = Kind::at(next as u8);
        let indicators = dora.get(kind) + ura.get(kind);
        sum += kind_dora(win, kind, indicators);
        left -= indicators;
        number = next + 1;
    }
    sum
}

/// What the indicators of a kind earn, of which there are so many.
fn kind_dora(win: &WinRecord, kind: Kind, indicators: u8) -> u8
    requires told { indicators ≡ spec.indicators win.now kind }
    requires few { indicators ≤ 8 }
    ensures value { result ≡ spec.kind_dora win.now kind }
    ensures most { result ≤ 168 }
{
    if indicators == 0 {
        return 0;
    }
    indicators * win.copies_won(dora_of(kind))
}
