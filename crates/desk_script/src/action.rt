/// What a command is about.
#[derive(Clone, Copy)]
pub(crate) enum Action {
    Open,
    Submit,
    /// A piece for the ticket of this number.
    Arrive { seq: u32 },
    Close,
    Take,
    /// The ticket of this number is withdrawn.
    Withdraw { seq: u32 },
}
