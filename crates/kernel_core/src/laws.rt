//! Laws of events. Each is a function that does nothing, whose contract is the law.
ghost use Rattle.kernel_core.specs.Laws.{FewRecords};

/// An event makes at most 37 records: those of its fetch and its instruction, and then those of a message, which are one
/// for each of the 17 pages of a string on either side and its own.
pub fn few_records()
    ensures { FewRecords }
{}
