//! Values that were worked out by hand against the public calls of the crates that walk, that keep what walks found, and
//! that say of a whole machine what a cut across it parts, or undo its events.
//!
//! It has tests alone: those crates are proved once without them, and the tests are proved here. A row of a table
//! is a line of text, whose numbers are hexadecimal.
#![tactic(auto)]

#[cfg(test)]
mod caches;
#[cfg(test)]
mod cuts;
#[cfg(test)]
mod kept;
#[cfg(test)]
mod mappings;
#[cfg(test)]
mod rows;
#[cfg(test)]
mod shared_tables;
#[cfg(test)]
mod sharings;
#[cfg(test)]
mod starts;
#[cfg(test)]
mod tasks;
#[cfg(test)]
mod undoing;
#[cfg(test)]
mod walks;
