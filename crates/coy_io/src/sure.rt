//! A source and a sink that never fail.
ghost use Rattle.std.specs.Prelude.{◌≡◌, ◌+◌, ◌-◌, ◌≤◌, ◌⊎◌, Ok, None, Some, length, min, drop, vec_len, IfOk};
ghost use Rattle.std.specs.Io.KnownBytes.{ReadConsumes, WriteAppends};
ghost use Rattle.coy_io.specs.Causes.{HasCause};
ghost use Rattle.coy_io.specs.Pieces.{moved, CountsOne};

use crate::moving::move_front;
use crate::{Failed, Sink, Source};

/// A source over bytes in memory that gives as many as there is room for.
#[derive(Drop)]
pub struct SureSource {
    /// All the bytes, those already given too.
    pub bytes: Vec<u8>,
    /// How many of them were given.
    pub at: usize,
    ghost in_range: { at ≤ vec_len bytes },
}

impl Source for SureSource {
    ghost held = { λ s. Some (drop s.at s.bytes.items) };

    ghost faults = { λ _. 0 };

    ghost given = { λ s. s.at };

    fn take(&mut self, buf: &mut [u8]) -> Result<usize, Failed>
        ensures bound { IfOk result (λ n. n ≤ length buf.new) }
        ensures bytes { ReadConsumes (Some (drop self.old.at self.old.bytes.items))
            (Some (drop self.new.at self.new.bytes.items)) result buf.new }
        ensures cause { HasCause 0 0 result }
        ensures counts { CountsOne self.old.at self.new.at 0 0 0 0 (moved result) }
        ensures count { result ≡ Ok (min (length buf.old) (vec_len self.old.bytes - self.old.at)) }
        ensures at { self.new.at ≡ self.old.at + moved result }
        ensures kept { self.new.bytes.items ≡ self.old.bytes.items }
    {
        let rest = &self.bytes[self.at..];
        let count = move_front(rest, rest.len(), buf);
        self.at += count;
        Ok(count)
    }
}

/// A sink that takes every piece whole and drops it.
#[derive(Clone, Copy)]
pub struct SureSink;

impl Sink for SureSink {
    ghost taken = { λ _. None };

    ghost faults = { λ _. 0 };

    fn put(&mut self, bytes: &[u8]) -> Result<usize, Failed>
        ensures bound { IfOk result (λ n. n ≤ length bytes.now) }
        ensures some { IfOk result (λ n. length bytes.now ≤ 0 ⊎ 1 ≤ n) }
        ensures bytes { WriteAppends None None result bytes.now }
        ensures cause { HasCause 0 0 result }
        ensures whole { result ≡ Ok (length bytes.now) }
    {
        Ok(bytes.len())
    }
}
