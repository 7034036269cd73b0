//! Bytes in and bytes out: what a program reads from and writes to, and the lines of what it reads.
//!
//! A source tells what it has left and a sink what it took, where they can, and both count their
//! faults. Nothing here knows what the bytes mean, beyond the LF that ends a line.
#![tactic(auto)]

mod adapters;
mod in_memory;
mod last_line;
mod lines;
mod mem_sink;
mod mem_source;
mod moving;
mod scan;
mod search;
mod sure;
mod traits;
mod window;
mod writing;

pub use adapters::{ReadSource, WriteSink};
pub use in_memory::{MemSink, MemSource};
pub use lines::{LineFault, LineReader};
pub use sure::{SureSink, SureSource};
pub use traits::{Failed, Sink, Source};
pub use window::{WINDOW, Window};
pub use writing::{WriteFault, put_all, put_bytes, put_text};

/// The most bytes of a line, without its line feed.
pub const LINE_LIMIT: usize = 512;

/// The most bytes of an input that are read.
pub const INPUT_LIMIT: usize = 16_777_216;
