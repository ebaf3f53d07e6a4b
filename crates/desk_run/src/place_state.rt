ghost use Rattle.std.specs.Prelude.{◌≡◌, replicate, IfOk};
ghost use Rattle.desk_run.specs.declared.place_state.PlaceState.TheVariants as state;

use desk_core::Ticket;
use riichi_hand::Job;
use std::alloc::{AllocError, Global};

/// A place as its table knows it: not taken up yet, vacant, or out with a ticket and
/// the job of that ticket.
#[derive(Drop)]
pub enum PlaceState {
    Fresh,
    Vacant,
    Out(Ticket, Job),
}

impl PlaceState {
    /// So many places that the table keeps.
    pub(crate) fn all_vacant(alloc: Global, count: usize) -> Result<Vec<PlaceState>, AllocError>
        ensures { IfOk result (λ states. states.items ≡ replicate count state.Vacant) }
    {
        // The checker finds the type of a job within a `Vec` of states only where some value names it.
        let _none: Option<Job> = None;
        let mut states = Vec::with_capacity(alloc, count)?;
        for _place in 0..count {
            states.push_reserved(PlaceState::Vacant);
        }
        Ok(states)
    }

    pub(crate) fn out(ticket: Ticket, job: &Job) -> PlaceState
        ensures { result ≡ state.Out ticket job.now }
    {
        PlaceState::Out(ticket, *job)
    }
}
