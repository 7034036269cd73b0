//! Capabilities: the 14 kinds, guards, restrictions, and what a capability is allowed to hold.
//!
//! Nothing here knows of objects, of walks or of who holds a capability.
#![tactic(auto)]

mod cap;
mod code;
mod codec;
mod fault;
mod guard;
mod item;
mod kind;
mod limits;
mod out_of_memory;
mod request;
mod restr;
mod weakening;

pub use cap::{Cap, Misaligned};
pub use code::Code;
pub use codec::{CapFault, decode, encode, four_bytes, reads_back, spellings_differ};
pub use fault::FaultCode;
pub use guard::{BadGuard, Guard};
pub use item::Item;
pub use kind::CapKind;
pub use limits::{
    CAPPAGE_SLOTS, CAPPAGES, ENDPOINTS, GPT_SLOTS, GPTS, HARTS, LAST_COUNT, PAGE_BYTES, PAGES,
    PRIORITIES, PROCESSES,
};
pub use out_of_memory::OutOfMemory;
pub use request::{Reply, Request};
pub use restr::Restr;
pub use weakening::{is_harmless, reduce, weaken};
