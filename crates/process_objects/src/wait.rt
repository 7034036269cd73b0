//! For whom a receiver waits.

/// Which endpoints may reach a receiver.
#[derive(Clone, Copy, PartialEq, Eq)]
pub enum Wait {
    /// All of them.
    Open,
    /// Those with this endpoint id.
    Closed(u32),
}
