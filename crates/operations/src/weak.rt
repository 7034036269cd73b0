//! What is read through WK.
ghost use Rattle.std.specs.Prelude.{◌≡◌};
ghost use Rattle.operations.specs.Weak.{read_through};

use bitflags::Flags;
use cap_format::{Cap, Restr, weaken};

/// The capability as it stands, weakened where WK is among the restrictions of what it was read through.
pub fn read_through(restr: Restr, cap: Cap) -> Cap
    ensures { result ≡ read_through restr.0 cap }
{
    if restr.contains(Restr::WK) {
        weaken(cap)
    } else {
        cap
    }
}
