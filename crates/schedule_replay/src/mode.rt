//! What is written of a run.

/// Which records are written.
#[derive(Clone, Copy)]
pub enum Mode {
    /// None.
    Silent,
    /// All but those of accesses and instructions.
    Records,
    /// All.
    Trace,
}
