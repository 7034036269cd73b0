//! Numbers, words and lines of text: how a number is read and written, what the words of a line are, which lines are
//! skipped, and the buffer in which a line is put together.
//!
//! Nothing here knows what a line means, nor where it comes from or goes to.
#![tactic(auto)]

mod bytes;
mod line;
mod line_buf;
mod line_words;
mod numeral;
mod words;

pub use bytes::push_bytes;
pub use line::{is_skipped, is_visible};
pub use line_buf::LineBuf;
pub use line_words::LineWords;
pub use numeral::{BadNumber, hex_value, numbers_read_back, read_dec, read_hex};
pub use words::{cut, word, word_count, words_from};
