//! A source over bytes in memory, which gives them in pieces and fails at the calls that are listed.
ghost use Rattle.std.specs.Prelude.{◌≡◌, ◌≤◌, ◌↔◌, Some, length, drop, Contains, IsErr, IfOk};
ghost use Rattle.std.specs.Io.KnownBytes.{ReadConsumes};
ghost use Rattle.coy_io.specs.Causes.{HasCause, counted};
ghost use Rattle.coy_io.specs.Pieces.{moved, CountsOne};
ghost use Rattle.coy_io.specs.Memory.{limit_of, count_of};
ghost use Rattle.coy_io.specs.InMemory.{TookFrom};

use crate::moving::move_front;
use crate::scan::first_line;
use crate::{Failed, MemSource, Source};

impl Source for MemSource {
    ghost held = { λ s. Some (drop s.at s.bytes.items) };

    ghost faults = { λ s. s.faults };

    ghost given = { λ s. s.at };

    ghost calls = { λ s. s.calls };

    fn take(&mut self, buf: &mut [u8]) -> Result<usize, Failed>
        ensures bound { IfOk result (λ n. n ≤ length buf.new) }
        ensures bytes { ReadConsumes (Some (drop self.old.at self.old.bytes.items))
            (Some (drop self.new.at self.new.bytes.items)) result buf.new }
        ensures cause { HasCause self.old.faults self.new.faults result }
        ensures counts { CountsOne self.old.at self.new.at self.old.calls self.new.calls 0 0
            (moved result) }

        // A call fails exactly where it is listed.
        ensures listed { IsErr result ↔ Contains self.old.failing.items (counted self.old.calls) }
        ensures count { IfOk result (λ n. let rest = drop self.old.at self.old.bytes.items in
            n ≡ count_of (length buf.old) (limit_of self.old.piece self.old.by_line rest) rest) }
        ensures after { TookFrom self.old self.new result }
    {
        self.calls = self.calls.saturating_add(1);
        if self.failing.contains(&self.calls) {
            self.faults = self.faults.saturating_add(1);
            return Err(Failed);
        }
        let rest = &self.bytes[self.at..];
        let count = move_front(rest, limit(rest, self.piece, self.by_line), buf);
        self.at += count;
        Ok(count)
    }
}

fn limit(rest: &[u8], piece: usize, by_line: bool) -> usize
    ensures { result ≡ limit_of piece by_line rest.now }
{
    if by_line {
        piece.min(first_line(rest) + 1)
    } else {
        piece
    }
}
