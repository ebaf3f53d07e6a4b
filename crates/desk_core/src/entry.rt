ghost use Rattle.std.specs.Prelude.{◌≡◌, ◌≢◌};

use crate::arrived::Arrived;
use crate::piece::Piece;
use riichi_hand::Job;

/// A job that was submitted, or its piece where that has arrived. An entry has the room for the
/// piece from the start.
#[derive(Drop)]
pub(crate) enum Entry {
    Waiting(Job),
    Scored(Piece),
}

impl Entry {
    ghost use Rattle.desk_core.specs.Entry.{job_with_arrival, TakesIn};

    pub(crate) fn waiting(job: &Job) -> Entry
        ensures { result ≡ Entry.Waiting job.now }
    {
        Entry::Waiting(*job)
    }

    /// Takes in a piece for this job, where it is the first one and carries the job.
    pub(crate) fn arrive(&mut self, piece: Piece) -> Arrived
        ensures outcome { TakesIn (job_with_arrival self.old) piece.job result
            (job_with_arrival self.new) }
        ensures kept { result ≢ Arrived.Accepted → self.new ≡ self.old }
    {
        match self {
            Entry::Scored(_) => Arrived::Doubled,
            Entry::Waiting(job) => {
                if *job == piece.job() {
                    *self = Entry::Scored(piece);
                    Arrived::Accepted
                } else {
                    Arrived::Stranger
                }
            }
        }
    }
}
