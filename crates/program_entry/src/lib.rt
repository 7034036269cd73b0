//! What every program does that is handed its arguments and its streams: it reads its words, and ends with a status, and
//! where a stream failed or memory was wanting with a line on standard error.
//!
//! Nothing here knows which programs there are, or what their words mean.
#![tactic(auto)]

mod ending;
mod noting;
mod streams;
mod words;

pub use ending::end;
pub use noting::{Noted, Noting};
pub use streams::Streams;
pub use words::words_of;
