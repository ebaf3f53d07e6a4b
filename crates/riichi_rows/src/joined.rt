//! Rows that are kept joined while another row changes.
ghost use Rattle.std.specs.Prelude.{ℕ, ◌≡◌, ◌≤◌};
ghost use Rattle.riichi_rows.specs.Join.{IsLeastJoin, IsLeastSum};
ghost use Rattle.riichi_rows.specs.Lanes.{lane};
ghost use Rattle.riichi_rows.specs.Row.{suit_entries, AreJoinedBeside};
ghost use Rattle.riichi_tiles.specs.Suits.{of_suit};
ghost use Rattle.riichi_tiles.specs.declared.by_suit.BySuit.{BySuit};
ghost use Rattle.riichi_tiles.specs.declared.suit.Suit.{Suit};
ghost use Rattle.riichi_rows.specs.declared.row.SuitRow.{SuitRow};

use crate::join::join_lanes;
use crate::lanes::{Lanes, add_lanes};
use crate::row::{SuitRow, entry};
use riichi_tiles::BySuit;

/// The least sums of the rows of some suits, by sets and pairs.
#[derive(Clone, Copy)]
pub struct JoinedRows {
    pub(crate) sums: Lanes,
}

/// The rows of two suits.
pub fn join_two(left: &SuitRow, right: &SuitRow) -> JoinedRows
    ensures { IsLeastSum (lane left.now.entries.lacks) (lane right.now.entries.lacks)
        (lane result.sums.lacks) }
{
    JoinedRows {
        sums: join_lanes(left.entries, right.entries),
    }
}

/// The least sum of four entries whose sets add up to the number asked, with one pair in all.
pub fn join_rows(rows: &BySuit<SuitRow>, sets: u8) -> Option<u8>
    requires { sets ≤ 4 }
    ensures { IsLeastJoin (suit_entries rows.now) sets result }
{
    let far = join_two(&rows.bamboos, &rows.honours);
    far.and(&rows.circles).with(&rows.characters, sets)
}

impl JoinedRows {
    /// These and the row of one suit more.
    pub fn and(&self, row: &SuitRow) -> JoinedRows
        ensures { IsLeastSum (lane row.now.entries.lacks) (lane self.now.sums.lacks)
            (lane result.sums.lacks) }
    {
        JoinedRows {
            sums: join_lanes(row.entries, self.sums),
        }
    }

    /// Where these are the rows beside a suit: the least sum of four entries, that suit's of `row`,
    /// whose sets add up to the number asked, with one pair in all.
    pub fn with(&self, row: &SuitRow, sets: u8) -> Option<u8>
        requires { sets ≤ 4 }
        ensures { (suit : Suit) (rows : BySuit SuitRow) → of_suit rows suit ≡ row.now
            → AreJoinedBeside suit rows self.now → IsLeastJoin (suit_entries rows) sets result }
    {
        let sums = add_lanes(row.entries.lacks, self.sums.opposite(sets).lacks);
        entry(sums.least())
    }
}
