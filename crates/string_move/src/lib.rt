//! Strings in memory: how one is cut at pages, and how its bytes move from pages to pages.
//!
//! Nothing here knows who sends or receives, or how an address leads to a page.
#![tactic(auto)]

mod copying;
mod laws;
mod piece;
mod pieces;
mod scratch;
mod span;
mod spans;

pub use copying::copy;
pub use laws::{copies_mean, spans_cover};
pub use piece::Piece;
pub use pieces::Pieces;
pub use scratch::Scratch;
pub use span::Span;
pub use spans::{Spans, cut};
