//! Lines of an input, each judged by itself, up to the first that is refused.
//!
//! Nothing here knows what a line says: who judges them says so of each, and what is made of it.
#![tactic(auto)]

mod judge;
mod judging;
mod stop;

pub use judge::Judge;
pub use judging::{judge_all, judge_next};
pub use stop::Stop;
