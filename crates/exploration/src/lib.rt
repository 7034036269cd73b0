//! Explorations: the search through all states of a machine for a question, and the theorem on what its answer says of the
//! machine.
//!
//! `machine_space` has the states of a machine as the space of a search, and the search itself. It alone knows how states are
//! kept: what an answer says depends on no such thing. Nothing here knows of lines and texts.
#![tactic(auto)]

mod laws;
pub mod machine_space;

pub use laws::explored_laws;
