//! The columns of sessions in standings.
ghost use Rattle.std.specs.Prelude.{◌≡◌, ◌+◌, ◌≤◌, max};
ghost use Rattle.riichi_standings_text.specs.Columns as spec;

use riichi_standings::{SeatResult, Standing, Tournament, first_session, last_session, points_in};

/// The columns of sessions: a number for each, from the first to the last.
#[derive(Clone, Copy)]
pub(crate) struct Columns {
    pub(crate) first: u32,
    pub(crate) last: u32,
    /// Whether the games say their sessions. Where they don't, the columns are the first game of each player, the second and so on.
    is_said: bool,
}

impl Columns {
    /// Those of a tournament.
    pub(crate) fn of(tournament: &Tournament, list: &[Standing]) -> Columns
        ensures { result ≡ spec.columns_of tournament.now.results list.now }
    {
        let results = tournament.results();
        let last = last_session(results);
        if last > 0 {
            return Columns {
                first: first_session(results),
                last,
                is_said: true,
            };
        }
        Columns {
            first: 1,
            last: u32::try_from(most_games(list)).unwrap_or(u32::MAX),
            is_said: false,
        }
    }

    /// The number behind that of the last column; that of the first where there is none.
    pub(crate) fn end(&self) -> u64
        ensures value { result ≡ max (self.now.last + 1) self.now.first }
        ensures small { result ≤ 4294967296 }
    {
        (u64::from(self.last) + 1).max(u64::from(self.first))
    }

    /// The final points of a player in a column, by the player's own results.
    #[tactic(auto, unfolding(crate::specs::Columns::points_at))]
    pub(crate) fn points(&self, column: u32, own: &[SeatResult]) -> Option<i32>
        ensures { result ≡ spec.points_at self.now column own.now }
    {
        if self.is_said {
            return points_in(column, own);
        }
        match own.get((column as usize).saturating_sub(1)) {
            None => None,
            Some(seat) => Some(seat.points),
        }
    }
}

/// How many games the player has played who has played most.
fn most_games(list: &[Standing]) -> usize
    ensures { result ≡ spec.most_games list.now }
{
    list.iter()
        .fold(0, |most, standing| most.max(standing.tally.games))
}
