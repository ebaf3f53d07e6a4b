use crate::told::Told;
use desk_core::Event;

/// What a line asks.
#[derive(Drop)]
pub(crate) enum LineRequest {
    /// Nothing of the desk: this is its answer.
    Told(Told),
    /// This of the desk.
    Event(Event),
}
