//! Texts, words and bytes that were worked out by hand, or by another program, against the public calls of the crates
//! that read and write them.
//!
//! It has tests alone: those crates are proved once without them, and the tests are proved here. A row of a table
//! is a line of text. What goes on between reading and writing is tried in `worked_values`.
#![tactic(auto)]

#[cfg(test)]
mod adapters;
#[cfg(test)]
mod capabilities;
#[cfg(test)]
mod command_words;
#[cfg(test)]
mod images;
#[cfg(test)]
mod instructions;
#[cfg(test)]
mod lines;
#[cfg(test)]
mod listings;
#[cfg(test)]
mod machine;
#[cfg(test)]
mod numbers;
#[cfg(test)]
mod rows;
#[cfg(test)]
mod texts;
