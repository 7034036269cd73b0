//! What a machine with its history is asked for.
use machine_state::Event;

/// A call.
#[derive(Clone, Copy)]
pub enum Call {
    /// An event is performed.
    Perform(Event),
    /// The last event that is remembered is undone.
    Undo,
}
