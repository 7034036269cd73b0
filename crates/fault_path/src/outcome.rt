//! What a fault comes to.

/// What became of a process that faulted.
#[derive(Clone, Copy)]
pub enum Outcome {
    /// It is faulted, and this process was told.
    Delivered(u16),
    /// It sleeps on this process, and performs its instruction again later.
    MustWait(u16),
    /// It is faulted, and nobody was told.
    Unheard,
}
