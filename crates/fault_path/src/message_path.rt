//! Messages between processes: who is told, who waits, who listens.
//!
//! Nothing here knows of strings, of registers of a call, or of faults.

mod listening;
mod telling;
mod waiting;

pub use listening::listen;
pub use telling::tell;
pub use waiting::wait;
