//! What a player wins, as a row.
ghost use Rattle.std.specs.Prelude.{◌≡◌, true};
ghost use Rattle.riichi_game_rows.specs.WorthRows as spec;

use crate::four::player_in;
use riichi_game::occurs;
use riichi_hand::{By, Rules};
use riichi_score::base_points;
use riichi_table::{Liable, Win, Worth};

/// What a player wins: 6 bytes. All is 0 of a player who doesn't win.
#[repr(C)]
#[derive(Clone, Copy, Debug, PartialEq, Eq)]
pub struct WorthRow {
    /// The base points, of a hand below a yakuman.
    pub base: u16,
    /// How many limits, of a yakuman.
    pub limits: u8,
    /// 0 where the player doesn't win, 1 for base points, 2 for a yakuman.
    pub kind: u8,
    /// One more than the number of the player who is liable; 0 for nobody.
    pub liable: u8,
    /// For how many limits that player is liable.
    pub liable_limits: u8,
}

impl WorthRow {
    /// Of a player who doesn't win.
    pub(crate) const NONE: WorthRow = WorthRow {
        base: 0,
        limits: 0,
        kind: 0,
        liable: 0,
        liable_limits: 0,
    };

    /// Whether kind and liable player are some that there are.
    pub(crate) fn is_worth(&self) -> bool
        ensures { result ≡ spec.is_worth_row self.now }
    {
        self.kind < 3 && self.liable <= 4
    }

    /// What the player wins, if anything.
    pub(crate) fn win(&self) -> Option<Win>
        requires { spec.is_worth_row self.now ≡ true }
        ensures { result ≡ spec.row_win self.now }
    {
        if self.kind == 0 {
            return None;
        }
        Some(Win {
            worth: self.worth(),
            liable: self.liable(),
        })
    }

    fn worth(&self) -> Worth
        ensures { result ≡ spec.row_worth self.now }
    {
        if self.kind == 1 {
            Worth::Counted { base: self.base }
        } else {
            Worth::Yakuman {
                limits: self.limits,
            }
        }
    }

    fn liable(&self) -> Option<Liable>
        requires { spec.is_worth_row self.now ≡ true }
        ensures { result ≡ spec.row_liable self.now }
    {
        if self.liable == 0 {
            return None;
        }
        Some(Liable {
            player: player_in(u32::from(self.liable) - 1)?,
            limits: self.liable_limits,
        })
    }

    /// The row of a worth that nobody is liable for.
    pub fn of(worth: Worth) -> WorthRow
        ensures { result ≡ spec.worth_row worth }
    {
        match worth {
            Worth::Counted { base } => WorthRow {
                base,
                kind: 1,
                ..WorthRow::NONE
            },
            Worth::Yakuman { limits } => WorthRow {
                limits,
                kind: 2,
                ..WorthRow::NONE
            },
        }
    }
}

/// The base points of a hand of so many han and fu; 0 where no hand has so many.
pub fn counted_base(rules: Rules, by: By, han: u8, fu: u8) -> u32
    ensures { result ≡ spec.counted_base rules by han fu }
{
    if occurs(rules, by, han, fu) {
        base_points(rules, han, fu)
    } else {
        0
    }
}
