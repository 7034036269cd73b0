//! Kernel operations of the memory kinds: pages, capability pages, GPTs, windows and local windows.
//!
//! What each request does is a row of `operations`. Nothing here knows who asks, or what becomes of the reply.
#![tactic(auto)]

mod cap_pages;
mod gpts;
mod memory;
mod pages;
mod windows;

pub use memory::invoke;
