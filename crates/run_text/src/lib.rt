//! Records and states of a machine as lines of text.
//!
//! Nothing here knows where the text goes.
#![tactic(auto)]

mod mapping;
mod names;
mod objects;
mod parts;
mod process;
mod record;
mod standing;
mod state;
mod statements;
mod walk;

pub use mapping::mapping_line;
pub use objects::put_objects;
pub use record::{push_record, record_line};
pub use state::{dump, put_front};
pub use walk::walk_line;
