//! Why a call refused, and what it hands back.

use crate::event::Event;
use riichi_hand::Job;

/// Why a job was refused: the first of these that holds.
#[derive(Clone, Copy, Debug, PartialEq, Eq)]
pub enum SubmitFault {
    /// C1: the table has closed.
    Closed,
    /// C2: the table has submitted as many jobs as it may.
    Limit,
    /// C3: there was no memory for the job and its answer.
    Memory,
}

/// A refused job.
#[derive(Clone, Copy, Debug, PartialEq, Eq)]
pub struct SubmitBack {
    pub fault: SubmitFault,
    pub job: Job,
}

/// Why a desk could not be made: the first of these that holds.
#[derive(Clone, Copy, Debug, PartialEq, Eq)]
pub enum CoreFault {
    /// C4: no table, or more than 64.
    Tables,
    /// C3: there was no memory for the tables.
    Memory,
}

/// The events of a run that found no memory for its replies.
#[derive(Drop)]
pub struct RunBack {
    pub events: Vec<Event>,
}
