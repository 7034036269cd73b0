//! What a part of an event may change.
use cap_format::CapKind;
use string_move::Pieces;

/// What a part of an event may change, besides processes.
#[derive(Drop)]
pub enum Reach {
    /// Nothing.
    Nothing,
    /// An object of this kind with this number, if there is one.
    Object(CapKind, u32),
    /// The endpoint through which a message is told, and the pieces of pages to which its string goes.
    Message { endpoint: u16, into: Pieces },
}
