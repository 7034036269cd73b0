/// Where a process stands.
#[derive(Clone, Copy, PartialEq, Eq)]
pub enum Spot {
    /// In no place: it waits for a message, or it has faulted.
    Nowhere,
    /// On this hart.
    Hart(u8),
    /// In the ready queue of this priority.
    Ready(u8),
    /// Among the sleepers of this process.
    Sleeper(u16),
}
