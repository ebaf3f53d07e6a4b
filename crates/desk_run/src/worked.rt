use desk_core::Ticket;

/// What a worker did in one go over the places.
#[derive(Clone, Copy, PartialEq, Eq, Debug)]
pub enum Worked {
    /// No place was ready when it came by.
    Nothing,
    /// It scored the job of this ticket.
    Did(Ticket),
}
