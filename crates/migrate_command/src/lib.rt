//! The command `migrate`: a listing and its schedule, written as text of version 2 without names.
//!
//! It runs nothing, and writes each line as soon as it is read. Nothing here knows the word that asks for it.
#![tactic(auto)]

mod input;
mod lines;

pub use input::migrate;
