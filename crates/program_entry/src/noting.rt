//! The last errors that the system told of a program's streams. They go to standard error alone: no contract says what
//! they are.
ghost use Rattle.std.specs.Prelude.{◌≡◌};

use std::cell::Cell;
use std::io;
use std::io::{Read, Write};

/// The last error of reading and the last of writing, where there was one.
#[derive(Drop)]
pub struct Noted {
    reading: Cell<Option<io::Error>>,
    writing: Cell<Option<io::Error>>,
}

impl Noted {
    /// No errors.
    pub fn new() -> Noted {
        Noted {
            reading: Cell::new(None),
            writing: Cell::new(None),
        }
    }

    pub(crate) fn of_reading(&self) -> Option<io::Error> {
        self.reading.get()
    }

    pub(crate) fn of_writing(&self) -> Option<io::Error> {
        self.writing.get()
    }

    pub(crate) fn reader<'a, R>(&'a self, reader: R) -> Noting<'a, R>
        ensures { result.stream ≡ reader }
    {
        Noting {
            stream: reader,
            last: &self.reading,
        }
    }

    pub(crate) fn writer<'a, W>(&'a self, writer: W) -> Noting<'a, W>
        ensures { result.stream ≡ writer }
    {
        Noting {
            stream: writer,
            last: &self.writing,
        }
    }
}

/// A reader or a writer whose last error is noted.
#[derive(Drop)]
pub struct Noting<'a, T> {
    stream: T,
    last: &'a Cell<Option<io::Error>>,
}

impl<'a, R: Read> Read for Noting<'a, R> {
    ghost remaining = { λ n. R.remaining n.stream };

    fn read(&mut self, buf: &mut [u8]) -> io::Result<usize> {
        let answer = self.stream.read(buf);
        note(&answer, self.last);
        answer
    }
}

impl<'a, W: Write> Write for Noting<'a, W> {
    ghost contents = { λ n. W.contents n.stream };

    fn write(&mut self, buf: &[u8]) -> io::Result<usize> {
        let answer = self.stream.write(buf);
        note(&answer, self.last);
        answer
    }

    fn flush(&mut self) -> io::Result<()> {
        let answer = self.stream.flush();
        note(&answer, self.last);
        answer
    }
}

/// Notes the error of a call, if it failed.
fn note<T>(answer: &io::Result<T>, last: &Cell<Option<io::Error>>) {
    if let Err(error) = answer {
        last.set(Some(*error));
    }
}
