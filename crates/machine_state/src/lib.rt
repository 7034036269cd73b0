//! The machine's state: objects, queues and harts over any translator, and the single changes and accesses of which
//! events are made.
//!
//! Each call does one thing, and tells it of the abstract machine's state. Nothing here knows what an instruction does, of
//! the order in which an event does things, or of what a translator keeps.
#![tactic(auto)]

mod callees;
mod cap_memory;
mod changes;
mod controlling;
mod decoding;
mod event;
mod faulting;
mod log_bytes;
mod machine;
mod memory;
mod messages;
mod observer;
mod operating;
mod past;
mod places;
mod record;
mod records;
mod replies;
mod restoring;
mod strings;
mod taking;

pub use event::Event;
pub use log_bytes::LogBytes;
pub use machine::Machine;
pub use observer::{Notable, Observer, is_detail};
pub use past::Past;
pub use places::Place;
pub use record::Record;
pub use records::Records;
pub use taking::Name;
