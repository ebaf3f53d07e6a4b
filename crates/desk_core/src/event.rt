ghost use Rattle.std.specs.Prelude.{◌≡◌};

use crate::piece::Piece;
use crate::ticket::Ticket;
use riichi_hand::Job;

/// What may happen at a desk.
#[derive(Drop)]
pub enum Event {
    Submit { table: u32, job: Job },
    Arrive(Piece),
    Close { table: u32 },
    Take { table: u32 },
    /// The table takes the job of the ticket back.
    Withdraw(Ticket),
}

impl Event {
    ghost use Rattle.desk_core.specs.History.{table_of};

    /// The number of the table that the event is about.
    pub fn table(&self) -> u32
        ensures { result ≡ table_of self.now }
    {
        match self {
            Event::Submit { table, .. } => *table,
            Event::Arrive(piece) => piece.ticket().table,
            Event::Close { table } => *table,
            Event::Take { table } => *table,
            Event::Withdraw(ticket) => ticket.table,
        }
    }
}
