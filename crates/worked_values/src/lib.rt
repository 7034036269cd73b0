//! Values that were worked out by hand against the public calls of the crates that change objects and queues: requests,
//! messages, faults and strings.
//!
//! It has tests alone: those crates are proved once without them, and the tests are proved here. A row of a table
//! is a line of text, whose numbers are hexadecimal. Texts are tried in `worked_texts`, walks in `worked_walks`.
#![tactic(auto)]

#[cfg(test)]
mod control_rows;
#[cfg(test)]
mod deliveries;
#[cfg(test)]
mod faults;
#[cfg(test)]
mod invocations;
#[cfg(test)]
mod meetings;
#[cfg(test)]
mod memory_rows;
#[cfg(test)]
mod requests;
#[cfg(test)]
mod rows;
#[cfg(test)]
mod running;
#[cfg(test)]
mod strings;
