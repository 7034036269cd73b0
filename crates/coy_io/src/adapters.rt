//! Readers and writers of the standard library as a source and a sink, which tell the bytes that the
//! reader has left and that the writer got, where these do.
ghost use Rattle.std.specs.Prelude.{◌≡◌, ◌+◌, ◌≤◌, ◌⊎◌, [], Ok, length, IfOk, OnOk};
ghost use Rattle.std.specs.Io.KnownBytes.{Keeps, ReadConsumes, WriteAppends};
ghost use Rattle.coy_io.specs.Buffered.{taken_in, gone_out};
ghost use Rattle.coy_io.specs.Causes.{HasCause, faults_after};
ghost use Rattle.coy_io.specs.Pieces.{moved};

use crate::{Failed, Sink, Source, WriteFault};
use std::io::{BufWriter, Read, Write};

/// A source over a reader. Each error of the reader is a fault.
#[derive(Drop)]
pub struct ReadSource<R> {
    reader: R,
    faults: u64,
}

impl<R> ReadSource<R> {
    pub fn new(reader: R) -> ReadSource<R>
        ensures reader { result.reader ≡ reader }
        ensures faults { result.faults ≡ 0 }
    {
        ReadSource { reader, faults: 0 }
    }
}

impl<R: Read> Source for ReadSource<R> {
    ghost held = { λ s. R.remaining s.reader };

    ghost faults = { λ s. s.faults };

    fn take(&mut self, buf: &mut [u8]) -> Result<usize, Failed>
        ensures bound { IfOk result (λ n. n ≤ length buf.new) }
        ensures bytes { ReadConsumes (R.remaining self.old.reader) (R.remaining self.new.reader)
            result buf.new }
        ensures cause { HasCause self.old.faults self.new.faults result }
        ensures faults { self.new.faults ≡ faults_after self.old.faults result }
    {
        match self.reader.read(buf) {
            Ok(count) => Ok(count),
            Err(_) => {
                self.faults = self.faults.saturating_add(1);
                Err(Failed)
            }
        }
    }
}

/// A sink over a writer. Each error of the writer is a fault, and so is a write that takes nothing
/// of a piece that is not empty. An empty piece isn't handed on.
#[derive(Drop)]
pub struct WriteSink<W> {
    writer: W,
    faults: u64,
}

impl<W> WriteSink<W> {
    pub fn new(writer: W) -> WriteSink<W>
        ensures writer { result.writer ≡ writer }
        ensures faults { result.faults ≡ 0 }
    {
        WriteSink { writer, faults: 0 }
    }
}

impl<W: Write + Drop> WriteSink<BufWriter<W>> {
    /// Hands on what the buffer still keeps. Until then a piece that was taken may not have gone
    /// out yet. A flush that fails is a fault of the sink.
    #[tactic(auto, using(crate::proofs::Buffers::keeps_empty))]
    pub fn flush(&mut self) -> Result<(), WriteFault>
        ensures out { OnOk result
            (Keeps (taken_in W.contents self.old) (gone_out W.contents self.new)) }
        ensures kept { Keeps (taken_in W.contents self.old) (taken_in W.contents self.new) }
        ensures cause { HasCause self.old.faults self.new.faults result }
        ensures faults { self.new.faults ≡ faults_after self.old.faults result }
    {
        if self.writer.flush().is_err() {
            self.faults = self.faults.saturating_add(1);
            return Err(WriteFault);
        }
        Ok(())
    }
}

impl<W: Write> Sink for WriteSink<W> {
    ghost taken = { λ s. W.contents s.writer };

    ghost faults = { λ s. s.faults };

    #[tactic(auto, using(crate::proofs::Buffers::keeps_none))]
    fn put(&mut self, bytes: &[u8]) -> Result<usize, Failed>
        ensures bound { IfOk result (λ n. n ≤ length bytes.now) }
        ensures some { IfOk result (λ n. length bytes.now ≤ 0 ⊎ 1 ≤ n) }
        ensures bytes { WriteAppends (W.contents self.old.writer) (W.contents self.new.writer)
            result bytes.now }
        ensures cause { HasCause self.old.faults self.new.faults result }
        ensures faults { self.new.faults ≡ faults_after self.old.faults result }
        ensures empty { bytes.now ≡ [] → (result ≡ Ok 0) × (self.new ≡ self.old) }
    {
        if bytes.is_empty() {
            return Ok(0);
        }
        match self.writer.write(bytes) {
            Ok(count) if count > 0 => Ok(count),
            _ => {
                self.faults = self.faults.saturating_add(1);
                Err(Failed)
            }
        }
    }
}
