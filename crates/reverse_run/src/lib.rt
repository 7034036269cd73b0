//! Undo: a machine with its history, of which the last events can be undone.
//!
//! `remember` copies what an event may change before it is performed, and `Reversible` keeps such copies of the last
//! events. Nothing here knows of texts, or of how an event finds what it changes.
#![tactic(auto)]

mod call;
mod calls;
mod laws;
mod memento;
mod pasts;
mod remembering;
mod reversible;

pub use call::Call;
pub use calls::make_calls;
pub use laws::undoes_all;
pub use remembering::remember;
pub use reversible::Reversible;
