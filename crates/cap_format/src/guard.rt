//! Guards: what a capability asks of an address, and how much of it goes on.

ghost use Rattle.std.specs.Prelude.{◌≡◌, ◌≤◌, ◌<◌, ◌↔◌, IsTrue, IsOk, IfOk};
ghost use Rattle.cap_format.specs.Capability.{Suits};
ghost use Rattle.cap_format.specs.Guard.{Divides, IsGuard, guard_of, no_guard, whole_guard};

use crate::kind::CapKind;
use std::marker::Model;

/// A guard out of range: `l2g` is not from 12 to 32, or `matches` not below `2^(32 - l2g)`.
#[derive(Clone, Copy, Debug)]
pub struct BadGuard;

/// An address passes where its bits from `l2g` on are `matches`. The lower bits go on.
#[derive(Clone, Copy, PartialEq, Eq)]
pub struct Guard {
    l2g: u8,
    matches: u32,
}

impl Model for Guard {
    ghost use Rattle.cap_format.specs.Guard.{GuardValue, IsGuard, guard_of};

    ghost Value = { GuardValue };

    ghost view = { λ g. guard_of g.l2g g.matches };

    ghost invariant = { λ g. IsGuard (guard_of g.l2g g.matches) };

    ghost inverse = { λ v. record { l2g = v.l2g; matches = v.matches } };
}

impl Guard {
    /// A guard of the bits from `l2g`, 12 to 32, on.
    pub fn new(l2g: u8, matches: u32) -> Result<Guard, BadGuard>
        ensures exactly { IsOk result ↔ IsGuard (guard_of l2g matches) }
        ensures value { IfOk result (λ guard. guard ≡ guard_of l2g matches) }
    {
        if (12..=32).contains(&l2g) && u64::from(matches) < 1u64 << (32 - l2g) {
            Ok(Guard { l2g, matches })
        } else {
            Err(BadGuard)
        }
    }

    /// The guard of numbers that are in range.
    pub(crate) fn of(l2g: u8, matches: u32) -> Guard
        requires { IsGuard (guard_of l2g matches) }
        ensures { result ≡ guard_of l2g matches }
    {
        Guard { l2g, matches }
    }

    /// 12/0, which lets the lowest page pass. Capabilities that use no guard have it.
    pub fn page() -> Guard
        ensures { result ≡ no_guard }
    {
        Guard {
            l2g: 12,
            matches: 0,
        }
    }

    /// 32/0, which lets every address pass.
    pub fn whole() -> Guard
        ensures { result ≡ whole_guard }
    {
        Guard {
            l2g: 32,
            matches: 0,
        }
    }

    /// How many low bits go on, 12 to 32.
    pub fn l2g(self) -> u8
        ensures value { result ≡ self.l2g }
        ensures range { IsGuard self }
    {
        self.l2g
    }

    /// What the higher bits have to be.
    pub fn matches(self) -> u32
        ensures value { result ≡ self.matches }
        ensures range { IsGuard self }
    {
        self.matches
    }

    /// Whether an offset, in bytes, is a multiple of `2^l2g`.
    pub fn divides(self, offset: u32) -> bool
        ensures { IsTrue result ↔ Divides self offset }
    {
        u64::from(offset) % (1u64 << self.l2g()) == 0
    }

    /// Whether a capability of this kind may have the guard, at this object number or offset.
    pub(crate) fn suits(self, kind: CapKind, object: u32) -> bool
        ensures { IsTrue result ↔ Suits self kind object }
    {
        if !kind.is_memory() {
            return self == Guard::page();
        }
        !kind.is_window() || self.divides(object)
    }
}
