//! GPTs: the tables of sixteen capabilities through which an address is resolved.
//!
//! One table at a time. Nothing here knows of other objects, of live capabilities or of walks. The only way to read
//! a slot is `Gpt::slot`, which counts.
#![tactic(auto)]

mod gpt;
mod header;

pub use gpt::Gpt;
pub use header::GptHeader;
