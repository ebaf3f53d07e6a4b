//! A session by an order of the players.
ghost use Rattle.std.specs.Prelude.{◌≡◌, ◌≤◌, IfOk};
ghost use Rattle.riichi_seats.specs.Seatings as spec;

use crate::session::{numbers, push_tables};
use crate::table::Table;
use std::alloc::{AllocError, Global};

/// The games of a session of players who are numbered by their places so far: the first four sit at the first table, the next four
/// at the second, and so on; of each four the first sits East. It fails for want of memory.
pub fn seats_by_order(alloc: Global, tables: u16) -> Result<Vec<Table>, AllocError>
    requires { tables ≤ 100 }
    ensures order { IfOk result (λ games. games.items ≡ spec.tables_by_number tables) }
    ensures session { IfOk result (λ games. spec.IsSession tables games.items) }
{
    let order = numbers(alloc, 4 * tables)?;
    let mut games = Vec::new(alloc);
    push_tables(&mut games, order.as_slice())?;
    Ok(games)
}
