//! Producers: the GPTs at which the walks of several spaces join, so that one leaf table serves them all; and a walk that
//! tells its producer.
//!
//! Nothing here knows of tables, or of what is kept of a walk.
#![tactic(auto)]

mod laws;
mod producer;
mod walking;

pub use laws::{join_law, key_law, region_law, same_key_law};
pub use producer::{Background, Produced, Producer};
pub use walking::{Walked, walk};
