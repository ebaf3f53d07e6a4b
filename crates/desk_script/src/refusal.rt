use riichi_hand::LineFault;

/// Why a command was refused at once: the first of these that holds.
#[derive(Clone, Copy, Debug, PartialEq, Eq)]
pub enum Refusal {
    /// P1: the line is no command.
    NoCommand,
    /// P2: the table is not open.
    NotOpen,
    /// P3: the table is open already.
    OpenAlready,
    /// P4: 64 tables are open.
    AllOpen,
    /// The fault of the record.
    Record(LineFault),
}
