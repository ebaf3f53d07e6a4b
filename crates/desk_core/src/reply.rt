use crate::arrived::Arrived;
use crate::refusal::SubmitFault;
use crate::taken::Taken;
use crate::ticket::Ticket;

/// What a desk replies to an event.
#[derive(Clone, Copy, Debug, PartialEq, Eq)]
pub enum Reply {
    /// The desk has no table of that number. Nothing was changed.
    NoTable,
    /// The job was accepted under this ticket.
    Ticket(Ticket),
    Refused(SubmitFault),
    Arrived(Arrived),
    /// Whether this closing was the first.
    Closed(bool),
    Taken(Taken),
    /// Whether the ticket was withdrawn now.
    Withdrawn(bool),
}
