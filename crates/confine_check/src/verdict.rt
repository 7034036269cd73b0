//! What is found of a cut.
use cap_format::{Cap, CapKind};

/// A capability that may not stand where it does: in place `place` of object `number` of this kind. The places of a
/// process are its slots, 0 to 2, and then its capability registers; an endpoint's one place is its recipient.
pub struct Breach {
    pub kind: CapKind,
    pub number: u16,
    pub place: u16,
    pub cap: Cap,
}

/// Whether a cut holds, or the first that breaks it.
#[derive(Clone, Copy)]
pub enum Verdict {
    /// The cut holds.
    Yes,
    /// This capability may not stand where it does, in place `place` of object `number` of this kind. Places have the
    /// numbers that they have in `Breach`.
    Capability {
        kind: CapKind,
        number: u16,
        place: u16,
        cap: Cap,
    },
    /// No capability breaks the cut, but this process sleeps on one of the other side.
    Sleeper {
        process: u16,
    },
}
