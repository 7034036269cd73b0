//! The restrictions of a memory capability.

ghost use Rattle.std.specs.Prelude.{◌≡◌, ℕ, ⊤, [], ◌∷◌, codes};
ghost use Rattle.std.specs.Int.RustNames.{bit_or};

use bitflags::{Flag, Flags, bitflag_items};

/// A set of restrictions: RO forbids stores, NX forbids fetches, WK weakens each capability that is
/// loaded through it, OP refuses `setguard`, and of a GPT each request that reads or writes its slots
/// or its header, NC keeps a walk from using fault handlers.
///
/// OP refuses nothing else: `getguard` stays open, and so do the slots of a capability page.
///
/// A capability keeps that no other bit is set; the set alone does not.
#[derive(Clone, Copy, PartialEq, Eq)]
pub struct Restr(u8);

bitflag_items! {
    impl Restr: u8 {
        const RO = 1;
        const NX = 2;
        const WK = 4;
        const OP = 8;
        const NC = 16;
    }
}

impl Flags for Restr {
    type Bits = u8;

    ghost exact = { ⊤ };

    ghost table = { (codes "RO", 1) ∷ (codes "NX", 2) ∷ (codes "WK", 4) ∷ (codes "OP", 8) ∷ (codes "NC", 16) ∷ [] };

    ghost set_of = { λ r. r.0 };

    fn flags<'a>() -> &'a [Flag<Restr>] {
        Restr::FLAGS
    }

    fn bits(&self) -> u8 {
        self.0
    }

    fn from_bits_retain(bits: u8) -> Restr {
        Restr(bits)
    }
}

/// The restrictions of both sets.
pub(crate) fn joined(restr: Restr, more: Restr) -> Restr
    ensures { result.0 ≡ bit_or restr.0 more.0 }
{
    restr.union(more)
}
