//! An instruction in six calls, each proved by itself. `event` only chooses among them.
//!
//! Each appends its records, and is for a process that stands on a hart.

pub use crate::instructions::perform;
pub use crate::invoking::send;
pub use crate::operating::kernel_op;
pub use crate::system_calls::move_cap;
pub use messages::{fault, listen as receive};
