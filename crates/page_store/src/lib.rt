//! Pages of bytes and pages of capabilities: what the leaves of an address space hold.
//!
//! One page at a time. Nothing here knows of object numbers, of frames or of who may read.
#![tactic(auto)]

mod cap_page;
mod page;

pub use cap_page::CapPage;
pub use page::Page;
