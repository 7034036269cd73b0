//! A sink into memory, which takes bytes in pieces and fails at the calls that are listed.
ghost use Rattle.std.specs.Prelude.{◌≡◌, ◌+◌, ◌≤◌, ◌⊎◌, Some, length, min, Contains, IsErr, IfOk, OnErr};
ghost use Rattle.std.specs.Io.KnownBytes.{WriteAppends};
ghost use Rattle.coy_io.specs.Causes.{HasCause, counted};
ghost use Rattle.coy_io.specs.Memory.{Starves};
ghost use Rattle.coy_io.specs.InMemory.{TookInto};

use crate::{Failed, MemSink, Sink};

impl Sink for MemSink {
    ghost taken = { λ s. Some s.bytes.items };

    ghost faults = { λ s. s.faults };

    ghost calls = { λ s. s.calls };

    fn put(&mut self, bytes: &[u8]) -> Result<usize, Failed>
        ensures bound { IfOk result (λ n. n ≤ length bytes.now) }
        ensures some { IfOk result (λ n. length bytes.now ≤ 0 ⊎ 1 ≤ n) }
        ensures bytes { WriteAppends (Some self.old.bytes.items) (Some self.new.bytes.items)
            result bytes.now }
        ensures cause { HasCause self.old.faults self.new.faults result }
        ensures counts { self.new.calls ≤ self.old.calls + 1 }

        // A call fails exactly where it is listed or finds no memory behind the room.
        ensures listed { Contains self.old.failing.items (counted self.old.calls) →
            IsErr result × (self.new.starved ≡ self.old.starved) }
        ensures starved { OnErr result (Contains self.old.failing.items (counted self.old.calls) ⊎
            let grown = length self.old.bytes.items + min self.old.piece (length bytes.now) in
            Starves self.old.room grown self.old.starved self.new.starved) }
        ensures count { IfOk result (λ n. n ≡ min self.old.piece (length bytes.now)) }
        ensures after { TookInto self.old self.new result }
    {
        self.calls = self.calls.saturating_add(1);
        if self.failing.contains(&self.calls) {
            self.faults = self.faults.saturating_add(1);
            return Err(Failed);
        }
        let count = self.piece.min(bytes.len());
        match self.bytes.extend_from_slice(&bytes[..count]) {
            Ok(()) => Ok(count),
            Err(_) => {
                self.starved = self.starved.saturating_add(1);
                self.faults = self.faults.saturating_add(1);
                Err(Failed)
            }
        }
    }
}
