ghost use Rattle.std.specs.Prelude.{◌≡◌};
ghost use Rattle.desk_core.specs.declared.ticket.Ticket.{Ticket};

use desk_core::Ticket;

/// What is called between the scoring of a job and the step that marks it done.
pub trait Gate {
    /// What one call for a ticket makes of the gate: the gate before, the ticket, the gate after.
    /// A gate that counts its calls says here that it counts one more.
    ghost called: { Self → Ticket → Self → Type 0 } = { λ before ticket after. Unit {0} };

    /// Called when the job of the ticket has been scored and is not yet marked done.
    fn before_finish(&mut self, ticket: Ticket)
        ensures { called self.old ticket self.new };
}

/// The gate that does nothing.
#[derive(Clone, Copy, Drop)]
pub struct NoGate;

impl Gate for NoGate {
    ghost called = { λ before ticket after. after ≡ before };

    fn before_finish(&mut self, _ticket: Ticket) {}
}
