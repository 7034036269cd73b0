//! The rows of the whole program as tables: for its words and its input, the output and the status that were worked out
//! by hand. Beside them the text that is generated, and the start of a machine.
//!
//! It has tests alone, so that the crates that they try are proved once.
#![tactic(auto)]

#[cfg(test)]
mod command_rows;
#[cfg(test)]
mod explore_rows;
#[cfg(test)]
mod failures;
#[cfg(test)]
mod kernel_rows;
#[cfg(test)]
mod kernel_table;
#[cfg(test)]
mod rows;
#[cfg(test)]
mod separation_rows;
#[cfg(test)]
mod starts;
#[cfg(test)]
mod translators;
#[cfg(test)]
mod turns;
#[cfg(test)]
mod undone;
#[cfg(test)]
mod word_rows;
