//! A capability as one word of a text: as it is written, and as it is read. Kinds of objects are written as words too.
//!
//! Nothing here knows which objects a machine has.
#![tactic(auto)]

mod kind;
mod letters;
mod name;
mod spelling;
mod text;

pub use kind::kind_word;
pub use letters::restrictions;
pub use name::{Name, called, read_name};
pub use spelling::{Guarded, Spelled, number_to, read_spelled};
pub use text::{push_capability, push_letters};
