//! How a replay ends.
use crate::counts::Counts;
use listing_read::ScheduleFault;

/// How a replay ends.
#[derive(Clone, Copy)]
pub enum Replayed {
    /// All lines were read, and all their events run.
    Ended(Counts),
    /// A line was refused, the first that has a fault. The events of the lines before it were run.
    Refused { line: u32, fault: ScheduleFault },
    /// The input goes on behind the last byte that is read. The events of the lines before were run.
    TooLong,
    /// Reading failed. The events of the whole lines that were read were run.
    ReadFault,
    /// Writing failed, in the records of the last event that was run.
    WriteFault,
}
