//! The kernel: what each event does to the machine, over any translator.
//!
//! An event is one step of a hart or one tick of its timer, and is atomic. It is a chain of the machine's single changes,
//! of faults and messages, and of operations on what a process invokes. Nothing here knows of texts, of tables or of what a
//! translator keeps.
#![tactic(auto)]

mod answering;
mod cap_accesses;
mod controlling;
mod events;
mod halting;
mod instructions;
mod invoking;
mod laws;
mod loads;
mod logging;
mod operating;
pub mod parts;
mod stores;
mod system_calls;

pub use events::{event, event_for, event_into};
pub use laws::few_records;
pub use machine_state::{Event, LogBytes, Machine, Notable, Observer, Record, Records};
pub use system_calls::SystemCall;
