//! Why a table's offer was refused, and what is handed back.

ghost use Rattle.std.specs.Prelude.{◌≡◌};

use riichi_hand::Job;

/// Why a job was not offered: the first of these that holds.
#[derive(Clone, Copy, PartialEq, Eq, Debug)]
pub enum OfferFault {
    /// C1: the table has closed.
    Closed,
    /// C2: the table has submitted as many jobs as it may.
    Limit,
    /// B3: each place of the table is out.
    NoPlace,
    /// C3: there was no memory for the job and its answer.
    Memory,
}

/// A refused job.
#[derive(Clone, Copy, PartialEq, Eq, Debug)]
pub struct OfferBack {
    pub fault: OfferFault,
    pub job: Job,
}

impl OfferBack {
    pub(crate) fn of(fault: OfferFault, job: &Job) -> OfferBack
        ensures { (result.fault ≡ fault) × (result.job ≡ job.now) }
    {
        OfferBack { fault, job: *job }
    }
}
