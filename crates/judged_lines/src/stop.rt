//! Why there is no further line.

/// Why there is no further line.
#[derive(Clone, Copy)]
pub enum Stop<F> {
    /// There is none.
    End,
    /// The next line is refused.
    Refused { line: u32, fault: F },
    /// The input goes on behind the last byte that is read.
    TooLong,
    /// Reading failed.
    ReadFault,
}
