//! Where a string can't be reached.
use walk_meaning::WalkFault;

/// The first access to a string that faults.
#[derive(Clone, Copy)]
pub struct StringFault {
    /// Of the first byte of the span that was accessed.
    pub address: u32,
    /// Why its walk reached nothing.
    pub why: WalkFault,
}
