//! Who runs where: the ready queues, the lists of sleepers and the processes on harts.
//!
//! A process that runs stands in exactly one place. Nothing here knows what a process does, or why it sleeps.
#![tactic(auto)]

mod harts;
mod lists;
mod process_list;
mod queues;
mod spot;

pub use queues::Queues;
pub use spot::Spot;
