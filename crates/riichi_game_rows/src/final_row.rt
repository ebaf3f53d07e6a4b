//! What players have at the end, as rows.
ghost use Rattle.std.specs.Prelude.{◌≡◌};
ghost use Rattle.riichi_game_rows.specs.FinalRows as spec;

use riichi_places::FinalPoints;
use riichi_table::ByPlayer;

/// What a player has at the end: 32 bytes. All is in points.
#[repr(C)]
#[derive(Clone, Copy, Debug, PartialEq, Eq)]
pub struct FinalRow {
    /// The points, with the sticks that lie at the end.
    pub points: i64,
    /// The bonus of the place, or the part of a shared one.
    pub bonus: i64,
    /// The final points: the points over the return, with the bonus and without the penalties.
    pub total: i64,
    /// The penalties, those for chombo with them.
    pub penalty: u32,
    /// The place, from 1 to 4.
    pub place: u32,
}

/// What the four players have at the end: 128 bytes.
#[repr(C)]
#[derive(Clone, Copy, Debug, PartialEq, Eq)]
pub struct FinalsRow {
    /// By the first seats.
    pub players: [FinalRow; 4],
}

impl FinalRow {
    fn of(last: &FinalPoints) -> FinalRow
        ensures { result ≡ spec.final_row last.now }
    {
        FinalRow {
            points: last.points,
            bonus: last.bonus,
            total: last.total,
            penalty: last.penalty,
            place: u32::from(last.place),
        }
    }
}

impl FinalsRow {
    /// The rows of the four players.
    pub fn of(finals: &ByPlayer<FinalPoints>) -> FinalsRow
        ensures { result ≡ spec.finals_row finals.now }
    {
        FinalsRow {
            players: [
                FinalRow::of(&finals.first),
                FinalRow::of(&finals.second),
                FinalRow::of(&finals.third),
                FinalRow::of(&finals.fourth),
            ],
        }
    }
}
