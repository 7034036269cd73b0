//! Questions worked out by hand: each form of a line with its first faults, and each atom of one machine.
#![tactic(auto)]

#[cfg(test)]
mod atoms;
#[cfg(test)]
mod lines;
#[cfg(test)]
mod starts;
