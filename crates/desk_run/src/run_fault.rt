/// Why a run gave no answers: the first of these that holds.
#[derive(Clone, Copy, PartialEq, Eq, Debug)]
pub enum RunFault {
    /// B1: not 1 to 64 tables, 1 to 16 workers and 1 to 32 places, or a table with too many jobs.
    Range,
    /// B2: there was no memory for the board or the answers.
    Memory,
    /// B4: a worker could not be started.
    Thread,
}
