//! What a player asks for, and what the player needs, as rows.
ghost use Rattle.std.specs.Prelude.{◌≡◌};
ghost use Rattle.riichi_game_rows.specs.NeedRows as spec;

use crate::four::{flags_by_player, player_in};
use riichi_need::{Need, Needs, Question, Row};
use riichi_table::{GameState, TableRules};
use riichi_win_arrays::paid_by;

/// Which place a player is to reach in the next deal: 6 bytes.
#[repr(C)]
#[derive(Clone, Copy, Debug, PartialEq, Eq)]
pub struct QuestionRow {
    /// The player.
    pub player: u8,
    /// The place, from 1 to 4.
    pub place: u8,
    /// Who bets in the deal: each of these flags is set where it isn't 0. The player's own bet changes nothing.
    pub riichi: [u8; 4],
}

/// A row of the table of payments: 16 bytes. All is 0 where no row up to one yakuman is enough.
#[repr(C)]
#[derive(Clone, Copy, Debug, PartialEq, Eq)]
pub struct PaidRow {
    /// The base points.
    pub base: u32,
    /// What the discarder pays, with the counters; 0 by self-draw.
    pub discarder: u32,
    /// What the dealer pays for another's self-draw.
    pub dealer: u32,
    /// What each player who isn't the dealer pays for a self-draw.
    pub other: u32,
}

/// What a player needs, by one way of winning: 32 bytes.
#[repr(C)]
#[derive(Clone, Copy, Debug, PartialEq, Eq)]
pub struct NeedRow {
    /// With fewer others than the place who have as many points or more.
    pub strictly: PaidRow,
    /// With fewer others than the place who are ahead.
    pub with_tie: PaidRow,
}

/// What a player needs, by each way of winning: 160 bytes.
#[repr(C)]
#[derive(Clone, Copy, Debug, PartialEq, Eq)]
pub struct NeedsRow {
    /// Off each player, by the first seats; all 0 at the player's own place.
    pub off: [NeedRow; 4],
    /// By self-draw.
    pub by_tsumo: NeedRow,
}

impl QuestionRow {
    /// What is asked in this state, none where player or place say nothing.
    pub fn question(&self, rules: &TableRules, state: &GameState) -> Option<Question>
        ensures { result ≡ spec.question_in rules.now state.now self.now }
    {
        let player = player_in(u32::from(self.player))?;
        if self.place < 1 || self.place > 4 {
            return None;
        }
        Some(Question {
            rules: *rules,
            state: *state,
            bets: flags_by_player(&self.riichi),
            player,
            place: self.place,
        })
    }
}

impl PaidRow {
    fn of(row: &Option<Row>) -> PaidRow
        ensures { result ≡ spec.paid_row row.now }
    {
        match row {
            None => PaidRow {
                base: 0,
                discarder: 0,
                dealer: 0,
                other: 0,
            },
            Some(row) => {
                let paid = paid_by(&row.payment);
                PaidRow {
                    base: row.base,
                    discarder: paid.discarder,
                    dealer: paid.dealer,
                    other: paid.other,
                }
            }
        }
    }
}

impl NeedRow {
    fn of(need: &Need) -> NeedRow
        ensures { result ≡ spec.need_row need.now }
    {
        NeedRow {
            strictly: PaidRow::of(&need.strictly),
            with_tie: PaidRow::of(&need.with_tie),
        }
    }

    fn by_ron(need: &Option<Need>) -> NeedRow
        ensures { result ≡ spec.ron_row need.now }
    {
        match need {
            None => NeedRow {
                strictly: PaidRow::of(&None),
                with_tie: PaidRow::of(&None),
            },
            Some(need) => NeedRow::of(need),
        }
    }
}

impl NeedsRow {
    /// The rows of what a player needs.
    pub fn of(needs: &Needs) -> NeedsRow
        ensures { result ≡ spec.needs_row needs.now }
    {
        let by_ron = &needs.by_ron;
        NeedsRow {
            off: [
                NeedRow::by_ron(&by_ron.first),
                NeedRow::by_ron(&by_ron.second),
                NeedRow::by_ron(&by_ron.third),
                NeedRow::by_ron(&by_ron.fourth),
            ],
            by_tsumo: NeedRow::of(&needs.by_tsumo),
        }
    }
}
