//! What takes rights away from a capability, and which capabilities give none to speak of.

ghost use Rattle.std.specs.Prelude.{◌≡◌, ◌<◌, true};
ghost use Rattle.cap_format.specs.Kind.{is_memory};
ghost use Rattle.cap_format.specs.Weakening.{weakened, reduced, is_harmless};

use crate::cap::Cap;
use crate::kind::CapKind;
use crate::restr::Restr;
use bitflags::Flags;

/// What is left of a capability that is loaded through WK: it neither writes nor sends.
pub fn weaken(cap: Cap) -> Cap
    ensures { result ≡ weakened cap }
{
    let weak = Restr::RO.union(Restr::WK).union(Restr::NC);
    match cap.kind() {
        CapKind::Null | CapKind::Discrim => cap,
        kind if kind.is_memory() => reduce(cap, weak),
        _ => Cap::null(),
    }
}

/// The same memory capability with more restrictions.
pub fn reduce(cap: Cap, more: Restr) -> Cap
    requires memory { is_memory cap.kind ≡ true }
    requires five { more.0 < 32 }
    ensures { result ≡ reduced cap more.0 }
{
    cap.restricted(more)
}

/// Whether nothing can be changed or told through it.
pub fn is_harmless(cap: Cap) -> bool
    ensures { result ≡ is_harmless cap }
{
    let restr = cap.restr();
    match cap.kind() {
        CapKind::Null | CapKind::Discrim => true,
        CapKind::Page => restr.contains(Restr::RO),
        CapKind::CapPage => restr.contains(Restr::RO) && restr.contains(Restr::WK),
        CapKind::Gpt | CapKind::Window | CapKind::LocalWindow => {
            restr.contains(Restr::RO) && restr.contains(Restr::WK) && restr.contains(Restr::NC)
        }
        _ => false,
    }
}
