/// The place of a submission: the table, and how many jobs it had submitted before.
#[derive(Clone, Copy, Debug, PartialEq, Eq)]
pub struct Ticket {
    pub table: u32,
    pub seq: u32,
}
