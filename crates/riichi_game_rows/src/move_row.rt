//! What an outcome moves and changes, as rows.
ghost use Rattle.std.specs.Prelude.{◌≡◌, length, min};
ghost use Rattle.riichi_game_rows.specs.MoveRows as spec;

use riichi_settle::{Move, Moves, Reason, Taking, changes_by};

/// Something that is moved: 12 bytes.
#[repr(C)]
#[derive(Clone, Copy, Debug, PartialEq, Eq)]
pub struct MoveRow {
    /// How many points; of sticks 1000 for each.
    pub points: u32,
    /// How many sticks are put on the table, or taken from it.
    pub sticks: u32,
    /// The player who gives, or 4 for the table.
    pub from: u8,
    /// The player who gets, or 4 for the table.
    pub to: u8,
    /// Why: 0 ron, 1 self-draw, 2 liable, 3 the other half of what another is liable for, 4 counters, 5 ready, 6 nagashi mangan,
    /// 7 chombo, 8 a bet, 9 the sticks of a winner, 10 an own bet that comes back.
    pub why: u16,
}

/// What an outcome changes: 40 bytes.
#[repr(C)]
#[derive(Clone, Copy, Debug, PartialEq, Eq)]
pub struct ChangesRow {
    /// What the points of each player change, from before the bets.
    pub points: [i64; 4],
    /// How many sticks lie afterwards.
    pub sticks: u32,
    /// How many moves there are.
    pub moves: u32,
}

/// The number of the table, behind those of the players.
const TABLE: u8 = 4;

/// Puts the rows of moves, as many as both `moves` and `rows` have, which it returns.
#[tactic(auto, using(crate::proofs::MoveLemmas::moved_next))]
pub fn fill_moves(moves: &[Move], rows: &mut [MoveRow]) -> usize
    ensures rows { result ≡ min (length moves.now) (length rows.old) }
    ensures moved { spec.AreMovesPut result moves.now rows.old rows.new }
{
    let filled = moves.len().min(rows.len());
    for place in 0..filled {
        rows[place] = move_row(&moves[place]);
    }
    filled
}

/// The row of a move.
fn move_row(step: &Move) -> MoveRow
    ensures { result ≡ spec.move_row step.now }
{
    match step {
        Move::Points {
            from,
            to,
            points,
            why,
        } => MoveRow {
            points: *points,
            sticks: 0,
            from: *from as u8,
            to: *to as u8,
            why: *why as u16,
        },
        Move::Bet { player } => MoveRow {
            points: 1000,
            sticks: 1,
            from: *player as u8,
            to: TABLE,
            why: 8,
        },
        Move::Sticks { to, count, why } => MoveRow {
            points: 1000 * u32::from(*count),
            sticks: u32::from(*count),
            from: TABLE,
            to: *to as u8,
            why: taking_number(*why),
        },
    }
}

fn taking_number(why: Taking) -> u16
    ensures { result ≡ spec.taking_number why }
{
    match why {
        Taking::Winner => 9,
        Taking::OwnBet => 10,
    }
}

impl ChangesRow {
    /// The row of what moves change, where so many sticks lay before.
    pub fn of(sticks: u8, moves: &Moves) -> ChangesRow
        ensures { result ≡ spec.changes_row sticks moves.now.items }
    {
        let changes = changes_by(sticks, moves);
        let points = &changes.points;
        ChangesRow {
            points: [points.first, points.second, points.third, points.fourth],
            sticks: u32::from(changes.sticks),
            moves: moves.len() as u32,
        }
    }
}
