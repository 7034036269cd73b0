//! Where bytes come from and where they go.
ghost use Rattle.std.specs.Prelude.{ℕ, List, Option, ◌+◌, ◌≤◌, ◌⊎◌, length, IfOk};
ghost use Rattle.std.specs.Io.KnownBytes.{ReadConsumes, WriteAppends};
ghost use Rattle.coy_io.specs.Causes.{HasCause};
ghost use Rattle.coy_io.specs.Pieces.{moved, CountsCall};

/// A source or a sink moved nothing, and counted a fault.
#[derive(Clone, Copy)]
pub struct Failed;

/// Bytes that come in pieces.
pub trait Source {
    // The bytes that are left, where the source tells them.
    ghost held: { Self → Option (List ℕ) };

    // How often it has failed.
    ghost faults: { Self → ℕ };

    // How many bytes it has given, where it counts them.
    ghost given: { Self → ℕ } = { λ _. 0 };

    // How many calls it has had, where it counts them.
    ghost calls: { Self → ℕ } = { λ _. 0 };

    // How many of its calls moved nothing, where it counts them: those that told the end, those
    // that failed and those with no room.
    ghost idle: { Self → ℕ } = { λ _. 0 };

    /// Moves some of the bytes that are left to the front of `buf`, and answers how many. Where
    /// `buf` is not empty, 0 means the end of the input. What stands in `buf` behind the bytes
    /// moved may change. A call that fails moves nothing.
    fn take(&mut self, buf: &mut [u8]) -> Result<usize, Failed>
        ensures bound { IfOk result (λ n. n ≤ length buf.new) }
        ensures bytes { ReadConsumes (held self.old) (held self.new) result buf.new }
        ensures cause { HasCause (faults self.old) (faults self.new) result }
        ensures counts { CountsCall given calls idle self.old self.new (moved result) };
}

/// Where bytes go in pieces.
pub trait Sink {
    // The bytes that it took, where the sink tells them.
    ghost taken: { Self → Option (List ℕ) };

    // How often it has failed.
    ghost faults: { Self → ℕ };

    // How many calls it has had, where it counts them.
    ghost calls: { Self → ℕ } = { λ _. 0 };

    /// Takes some bytes from the front of `bytes`, at least one where there are any, and answers
    /// how many. A call that fails takes nothing.
    fn put(&mut self, bytes: &[u8]) -> Result<usize, Failed>
        ensures bound { IfOk result (λ n. n ≤ length bytes.now) }
        ensures some { IfOk result (λ n. length bytes.now ≤ 0 ⊎ 1 ≤ n) }
        ensures bytes { WriteAppends (taken self.old) (taken self.new) result bytes.now }
        ensures cause { HasCause (faults self.old) (faults self.new) result }
        ensures calls { calls self.new ≤ calls self.old + 1 };
}
