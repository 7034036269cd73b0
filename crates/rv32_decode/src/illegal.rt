//! The refusal of a word that is no instruction.

/// The word is no instruction of RV32I.
#[derive(Clone, Copy, Debug, PartialEq, Eq)]
pub struct Illegal;
