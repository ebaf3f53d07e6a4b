//! Numbers of draws for both goals, with their upper ends.
ghost use Rattle.std.specs.Prelude.{◌≡◌};
ghost use Rattle.riichi_chances.specs.Aims as spec;
ghost use Rattle.riichi_chances.specs.declared.rows.Column.{Column};

use crate::halves::Halves;
use crate::span::ByTurns;
use std::marker::Model;

/// For a goal the draws that are reached, or the upper end.
#[derive(Clone, Copy)]
pub(crate) enum Column {
    Ready,
    Win,
    ReadyAtMost,
    WinAtMost,
}

impl Column {
    /// The least number that counts for what an accepted tile leads to, where the hand itself has so many: for an upper end as
    /// many, since the tile may be thrown.
    pub fn least(self, own: u128) -> u128
        ensures { result ≡ spec.floor_of self own }
    {
        match self {
            Column::Ready | Column::Win => 0,
            Column::ReadyAtMost | Column::WinAtMost => own,
        }
    }
}

/// At each place the numbers of draws where so many turns are left. Places for such rows are lent.
#[derive(Clone, Copy)]
#[repr(C)]
pub struct Rows {
    pub(crate) ready: ByTurns,
    pub(crate) win: ByTurns,
    pub(crate) ready_at_most: ByTurns,
    pub(crate) win_at_most: ByTurns,
}

impl Model for Rows {
    ghost use Rattle.riichi_chances.specs.Rows.{Rows};

    ghost Value = { Rows };

    ghost view = { λ rows. record {
      ready = rows.ready;
      win = rows.win;
      ready_at_most = rows.ready_at_most;
      win_at_most = rows.win_at_most;
    } };

    ghost inverse = { λ rows. record {
      ready = rows.ready;
      win = rows.win;
      ready_at_most = rows.ready_at_most;
      win_at_most = rows.win_at_most;
    } };
}

impl Rows {
    /// Rows of a hand of which nothing is told yet.
    pub fn free() -> Rows {
        Rows::all([Halves::of(0); 19])
    }

    /// The same numbers in each column.
    pub(crate) fn all(numbers: ByTurns) -> Rows
        ensures { (column : Column) → spec.numbers_for column result ≡ numbers }
    {
        Rows {
            ready: numbers,
            win: numbers,
            ready_at_most: numbers,
            win_at_most: numbers,
        }
    }

    pub(crate) fn at(&self, column: Column) -> &ByTurns
        ensures { result.now ≡ spec.numbers_for column self.now }
    {
        match column {
            Column::Ready => &self.ready,
            Column::Win => &self.win,
            Column::ReadyAtMost => &self.ready_at_most,
            Column::WinAtMost => &self.win_at_most,
        }
    }
}
