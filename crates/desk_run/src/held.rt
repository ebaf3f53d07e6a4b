use desk_core::Ticket;
use riichi_hand::Job;

/// The place that a worker holds, with the ticket and the job that lay there.
pub struct Held {
    pub place: u64,
    pub ticket: Ticket,
    pub job: Job,
}
