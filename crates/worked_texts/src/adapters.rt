//! Readers and writers that fail once and then go on: the fault comes at that very call, and hides in no other.

use crate::rows::check;
use coy_io::{Failed, ReadSource, Sink, Source, WriteSink};
use std::io::{self, BufWriter, Read, Write};

/// Answers call by call as it is written: a digit is how many bytes are moved, and `!` an error. Behind them nothing is
/// moved.
#[derive(Drop)]
struct Scripted {
    answers: &'static [u8],
}

impl Scripted {
    fn answer(&mut self) -> io::Result<usize> {
        let Some((answer, behind)) = self.answers.split_first() else {
            return Ok(0);
        };
        self.answers = behind;
        match answer {
            b'!' => Err(io::ErrorKind::Other.into()),
            digit => Ok(usize::from(digit.saturating_sub(b'0'))),
        }
    }
}

impl Read for Scripted {
    fn read(&mut self, buf: &mut [u8]) -> io::Result<usize> {
        let count = self.answer()?;
        Ok(count.min(buf.len()))
    }
}

impl Write for Scripted {
    fn write(&mut self, buf: &[u8]) -> io::Result<usize> {
        let count = self.answer()?;
        Ok(count.min(buf.len()))
    }

    fn flush(&mut self) -> io::Result<()> {
        self.answer()?;
        Ok(())
    }
}

/// What a call answered, as it is written.
fn answer_of(told: Result<usize, Failed>) -> usize {
    match told {
        Ok(count) => usize::from(b'0').saturating_add(count),
        Err(Failed) => usize::from(b'!'),
    }
}

#[test]
fn a_fault_of_a_reader_comes_at_its_own_call(rt: HostRuntime) {
    for row in "3!2 !1 1!!1 2!0".split(' ') {
        let answers = row.as_bytes();
        let mut source = ReadSource::new(Scripted { answers });
        let mut buf = [0; 8];
        for answer in answers {
            let told = source.take(&mut buf);
            check(&rt, answer_of(told) == usize::from(*answer), row);
        }
    }
}

/// A write that takes nothing of a piece is told as a fault, and a piece with no bytes isn't handed on.
#[test]
fn a_fault_of_a_writer_comes_at_its_own_call(rt: HostRuntime) {
    for row in "3!2 3!2\n!1 !1\n1!!1 1!!1\n2022 2!22\n0!03 !!!3".lines() {
        let (answers, wanted) = row.split_once(' ').expect(&rt, row);
        let answers = answers.as_bytes();
        let mut sink = WriteSink::new(Scripted { answers });
        for want in wanted.as_bytes() {
            check(&rt, answer_of(sink.put(b"")) == usize::from(b'0'), row);
            check(&rt, answer_of(sink.put(b"abc")) == usize::from(*want), row);
        }
    }
}

/// The fault of a flush comes at that flush, whether the buffer's bytes or the writer's own flush made it.
#[test]
fn a_fault_of_a_flush_comes_at_its_own_call(rt: HostRuntime) {
    for row in "!3 03 3!".split(' ') {
        let answers = row.as_bytes();
        let buffer = BufWriter::with_capacity(rt.alloc(), 8, Scripted { answers }).expect(&rt, row);
        let mut sink = WriteSink::new(buffer);
        check(&rt, answer_of(sink.put(b"abc")) == usize::from(b'3'), row);
        check(&rt, sink.flush().is_err(), row);
        check(&rt, sink.flush().is_ok(), row);
    }
}
