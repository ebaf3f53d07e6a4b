/// How many tables and workers a board has, and how many places each of its tables has.
#[derive(Clone, Copy, PartialEq, Eq, Debug)]
pub struct BoardSize {
    pub tables: u32,
    pub workers: u32,
    pub places: u32,
}
