//! Whether the next step of a hart is quiet, as it is found by who comes to an object by capabilities, and by which pages may be
//! written.
//!
//! `Reaching` is looked up once: it holds as long as no capability changes, and a quiet step changes none; `KeptReaching` says where
//! it still holds after other steps. What is watched is named by its user: nothing here knows of questions, or of runs. Of a process
//! that goes on by quiet steps `KeptWalks` keeps to which of its own pages, and of those that are settled, it came, so that most of
//! its accesses aren't walked again.
#![tactic(auto)]

mod accesses;
mod comers;
mod instructions;
mod kept_reaching;
mod leads;
mod looking;
mod passing;
mod reaching;
mod tables;
mod walks;
mod watched;
mod writing;

pub use kept_reaching::KeptReaching;
pub use leads::Lead;
pub use looking::is_quiet;
pub use quiet_runs::ReachedBy;
pub use reaching::Reaching;
pub use walks::{KeptWalks, QuietPage};
pub use watched::Watched;
