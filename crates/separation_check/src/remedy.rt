//! What line of a policy would allow what crosses.
ghost use Rattle.std.specs.Prelude.{◌≡◌};
ghost use Rattle.separation_check.specs.Crossings.{is_page, remedy_of};

use cap_format::{Cap, CapKind, is_harmless};

/// What line of a policy would allow a capability to stand where it crosses from one domain to another.
#[derive(Clone, Copy)]
pub enum Remedy {
    /// That the one domain reads the other.
    Reads,
    /// That it writes it.
    Writes,
    /// None.
    Never,
}

/// What line would allow a capability that crosses.
pub fn remedy_of(cap: Cap) -> Remedy
    ensures { result ≡ remedy_of cap }
{
    if is_harmless(cap) {
        Remedy::Reads
    } else if is_page(cap.kind()) {
        Remedy::Writes
    } else {
        Remedy::Never
    }
}

/// Whether a capability of this kind is a Page.
pub(crate) fn is_page(kind: CapKind) -> bool
    ensures { result ≡ is_page kind }
{
    kind == CapKind::Page
}
