//! Who judges lines.
ghost use Rattle.std.specs.Prelude.{◌≡◌, ℕ, List, Result};

/// Judges lines, each by itself, and puts what they say into one value.
pub trait Judge {
    /// What lines are put into.
    type Made;

    /// What is told of a line that is taken.
    type Said;

    /// Why a line is refused.
    type Fault;

    // What it may answer to a line, by what was made before, and what is made then.
    ghost judged: { Self → Self.Made → List ℕ → Result Self.Said Self.Fault → Self.Made → Type 0 };

    // The fault of a line that is too long to be read.
    ghost long: { Self → Self.Fault };

    /// Takes a line, or refuses it.
    fn judge(&self, line: &[u8], made: &mut Self::Made) -> Result<Self::Said, Self::Fault>
        ensures { judged self.now made.old line.now result made.new };

    /// The fault of a line that is too long to be read.
    fn too_long(&self) -> Self::Fault
        ensures { result ≡ long self.now };
}
