//! Instructions kept by their words, so that a word that comes again need not be decoded again.
//!
//! Of the words that have one place the last is kept. What is kept is never wrong, since an instruction is a function of its
//! word alone. Nothing here knows of machines, of pages, or of where a word was read.
#![tactic(auto)]

mod decoder;
mod entry;

pub use decoder::Decoder;
