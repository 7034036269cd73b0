//! The domains that hold what is shared by all.
ghost use Rattle.std.specs.Prelude.{◌≡◌, ◌==◌};
ghost use Rattle.separation_check.specs.Marks.{alone, alone_if, both_marks, marks_by, no_marks};

use cap_format::{Cap, CapKind};
use separation_policy::DomainSet;

/// The domains of which an object holds SysCtl, and those of which one holds KernLog.
#[derive(Clone, Copy)]
pub struct Marks {
    pub halts: DomainSet,
    pub logs: DomainSet,
}

impl Marks {
    /// No domain holds either.
    pub(crate) fn none() -> Marks
        ensures { result ≡ no_marks }
    {
        Marks {
            halts: DomainSet::empty(),
            logs: DomainSet::empty(),
        }
    }

    /// The domains that one of both says.
    pub(crate) fn and(self, other: Marks) -> Marks
        ensures { result ≡ both_marks self other }
    {
        Marks {
            halts: self.halts.union(other.halts),
            logs: self.logs.union(other.logs),
        }
    }
}

/// What a capability says of the domain in which it stands.
pub(crate) fn marks_by(domain: u8, cap: Cap) -> Marks
    ensures { result ≡ marks_by domain cap }
{
    Marks {
        halts: alone_if(CapKind::SysCtl, cap, domain),
        logs: alone_if(CapKind::KernLog, cap, domain),
    }
}

/// This domain alone, if a capability is of a kind.
fn alone_if(kind: CapKind, cap: Cap, domain: u8) -> DomainSet
    ensures { result ≡ alone_if kind cap domain }
{
    if cap.kind() == kind {
        alone(domain)
    } else {
        DomainSet::empty()
    }
}

/// This domain alone.
fn alone(domain: u8) -> DomainSet
    ensures { result ≡ alone domain }
{
    if domain < 64 {
        DomainSet::empty().with(domain)
    } else {
        DomainSet::empty()
    }
}
