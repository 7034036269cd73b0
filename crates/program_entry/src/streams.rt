//! What a program reads and writes.
ghost use Rattle.std.specs.Prelude.{◌≡◌, [], IfOk};
ghost use Rattle.std.specs.Io.Buffered.{writer_buffer, writer_inner};

use crate::noting::{Noted, Noting};
use coy_io::{ReadSource, WriteSink};
use std::alloc::{AllocError, Global};
use std::io::{BufWriter, Write};

/// A program's input, its output behind a buffer, and where it says what failed. The errors of input and output are noted.
#[derive(Drop)]
pub struct Streams<'a, R: Drop, W: Write + Drop, E: Drop> {
    pub input: ReadSource<Noting<'a, R>>,
    /// An error where there was no memory for the buffer.
    pub output: Result<WriteSink<BufWriter<Noting<'a, W>>>, AllocError>,
    pub errors: WriteSink<E>,
    pub noted: &'a Noted,
}

impl<'a, R: Drop, W: Write + Drop, E: Drop> Streams<'a, R, W, E> {
    /// The streams of a reader and of two writers, from which nothing was read, to which nothing was written, and of which
    /// nothing failed.
    pub fn new(
        alloc: Global,
        reader: R,
        writer: W,
        errors: E,
        noted: &'a Noted,
    ) -> Streams<'a, R, W, E>
        ensures reader { result.input.reader.stream ≡ reader }
        ensures unread { result.input.faults ≡ 0 }
        ensures writer { IfOk result.output (λ sink. (writer_inner sink.writer).stream ≡ writer) }
        ensures buffer { IfOk result.output (λ sink. writer_buffer sink.writer ≡ []) }
        ensures unwritten { IfOk result.output (λ sink. sink.faults ≡ 0) }
        ensures errors { result.errors.writer ≡ errors }
        ensures unsaid { result.errors.faults ≡ 0 }
    {
        let output = match BufWriter::new(alloc, noted.writer(writer)) {
            Ok(writer) => Ok(WriteSink::new(writer)),
            Err(_) => Err(AllocError),
        };
        Streams {
            input: ReadSource::new(noted.reader(reader)),
            output,
            errors: WriteSink::new(errors),
            noted,
        }
    }
}
