//! A counter of steps that has no bytes at run time: only contracts read it.
//!
//! What a step stands for is said by the crate that ticks. Nothing here knows of it.
//!
//! A counter is opened by a permit, and a permit is made with the runtime at hand, which a `main` and a test are given
//! and nothing else can make. A function that is handed one counter and neither of the two counts in that counter or
//! not at all: a reader that counts one of its three reads and the others in a counter of its own doesn't compile, nor
//! does a translator that walks in one of its own. Left to inspection are the one function that reads what is counted,
//! which has to tick once a read, and to whom `main` hands its runtime and its permit.
#![tactic(auto)]

mod counter;
mod permit;

pub use counter::Steps;
pub use permit::Permit;
