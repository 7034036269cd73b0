//! What an invocation reaches.
use cap_format::Cap;

/// Who answers an invocation.
#[derive(Clone, Copy, PartialEq, Eq)]
pub enum Callee {
    /// The kernel itself, asked through this capability, which is live or names no object.
    Kernel(Cap),
    /// A process that receives at this endpoint.
    Open { endpoint: u16, process: u16 },
    /// A process that doesn't receive there now.
    Busy(u16),
    /// Nobody: the endpoint expects another payload, or its recipient is no process.
    Dead,
}
