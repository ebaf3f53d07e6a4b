//! The yaku of how the hand was won.
ghost use Rattle.std.specs.Prelude.{◌≡◌};
ghost use Rattle.riichi_yaku.specs.Luck as spec;

use riichi_hand::{Switch, WinRecord, is_ron};

pub(crate) fn is_riichi(win: &WinRecord) -> bool
    ensures { result ≡ spec.is_riichi win.now }
{
    win.riichi() == 1
}

pub(crate) fn is_double_riichi(win: &WinRecord) -> bool
    ensures { result ≡ spec.is_double_riichi win.now }
{
    win.riichi() == 2
}

pub(crate) fn is_ippatsu(win: &WinRecord) -> bool
    ensures { result ≡ spec.is_ippatsu win.now }
{
    win.flags().ippatsu && win.rules().has(Switch::Ippatsu)
}

pub(crate) fn is_fully_concealed(win: &WinRecord) -> bool
    ensures { result ≡ spec.is_fully_concealed win.now }
{
    win.melds().concealed() && !is_ron(win.by())
}

pub(crate) fn is_after_a_kong(win: &WinRecord) -> bool
    ensures { result ≡ spec.is_after_a_kong win.now }
{
    win.flags().rinshan
}

pub(crate) fn is_robbing_the_kong(win: &WinRecord) -> bool
    ensures { result ≡ spec.is_robbing_the_kong win.now }
{
    win.flags().chankan
}

pub(crate) fn is_last_tile(win: &WinRecord) -> bool
    ensures { result ≡ spec.is_last_tile win.now }
{
    win.flags().last
}
