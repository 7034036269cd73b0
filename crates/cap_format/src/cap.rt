//! Capabilities: what a holder may do, as a value.

ghost use Rattle.std.specs.Prelude.{◌≡◌, ◌≤◌, ◌<◌, ◌^◌, ◌%◌, ◌↔◌, true, false, IsTrue, IsOk, IfOk, IsSome, IfSome};
ghost use Rattle.cap_format.specs.Kind.{is_memory, is_window, is_counted, is_object, object_limit};
ghost use Rattle.cap_format.specs.Capability.{Capability, IsCapability, capability, null, plain, is_plain, to_object, entry, schedule, window, local_window, with_count, with_guard};
ghost use Rattle.cap_format.specs.Guard.{Divides};
ghost use Rattle.cap_format.specs.Weakening.{reduced};

use crate::guard::Guard;
use crate::kind::CapKind;
use crate::restr::{Restr, joined};
use bitflags::Flags;
use std::marker::Model;

/// An offset that is no multiple of `2^l2g` of its guard.
#[derive(Clone, Copy, Debug)]
pub struct Misaligned;

/// A capability. Fields that its kind does not use are 0, and an unused guard is 12/0.
///
/// The four small fields stand together, so that it has 20 bytes and no gaps.
#[derive(Clone, Copy)]
pub struct Cap {
    kind: CapKind,
    restr: Restr,
    /// The guard's size: how many low bits pass it.
    l2g: u8,
    slot: u8,
    /// The allocation count of the object when the capability was made.
    count: u32,
    /// What the guard asks of the higher bits.
    matches: u32,
    /// The object number, the offset in bytes, or the priority.
    object: u32,
    payload: u32,
}

impl Model for Cap {
    ghost use Rattle.cap_format.specs.Capability.{Capability, IsCapability, capability};
    ghost use Rattle.cap_format.specs.Guard.{guard_of};

    ghost Value = { Capability };

    ghost view = { λ c. capability c.kind c.restr.0 c.count (guard_of c.l2g c.matches) c.object c.payload c.slot };

    ghost invariant = { λ c. IsCapability (capability c.kind c.restr.0 c.count (guard_of c.l2g c.matches) c.object c.payload c.slot) };

    ghost inverse = { λ v. record { kind = v.kind; restr = record { 0 = v.restr }; l2g = v.guard.l2g; slot = v.slot; count = v.count; matches = v.guard.matches; object = v.object; payload = v.payload } };
}

impl PartialEq for Cap {
    ghost use Rattle.std.specs.Prelude.{nat_eq, [], ◌∷◌};
    ghost use Rattle.std.specs.Ordering.{on};
    ghost use Rattle.std.specs.Cmp.Lexicographic.{pointwise};
    ghost use Rattle.std.specs.Cmp.Rules.{comparing};
    ghost use Rattle.std.proofs.Common.{rules};
    ghost use Rattle.cap_format.specs.Kind.{number_of};

    ghost eq = { on (λ c. number_of c.kind ∷ c.restr ∷ c.count ∷ c.guard.l2g ∷ c.guard.matches ∷ c.object ∷ c.payload ∷ c.slot ∷ []) (pointwise nat_eq) };

    ghost laws = { Prim.search (comparing, rules) };

    // No branch stands between the fields of one size, so that they are compared at once.
    fn eq(&self, other: &Cap) -> bool {
        ((self.kind.number() == other.kind.number())
            & (self.restr.bits() == other.restr.bits())
            & (self.l2g == other.l2g)
            & (self.slot == other.slot))
            && ((self.count == other.count)
                & (self.matches == other.matches)
                & (self.object == other.object)
                & (self.payload == other.payload))
    }
}

impl Eq for Cap {
    ghost use Rattle.std.specs.Cmp.Rules.{comparing};
    ghost use Rattle.std.proofs.Common.{rules};

    ghost laws = { Prim.search (comparing, rules) };
}

impl Default for Cap {
    ghost is_default = { λ c. c ≡ null };

    fn default() -> Cap {
        Cap::null()
    }
}

impl Cap {
    /// The capability to nothing.
    pub fn null() -> Cap
        ensures { result ≡ null }
    {
        Cap::plain(CapKind::Null)
    }

    /// A capability of a kind that has no field: Null, Range, Discrim, KernLog or SysCtl.
    pub fn plain(kind: CapKind) -> Cap
        requires { is_plain kind ≡ true }
        ensures { result ≡ plain kind }
    {
        Cap {
            kind,
            restr: Restr::empty(),
            l2g: 12,
            slot: 0,
            count: 0,
            matches: 0,
            object: 0,
            payload: 0,
        }
    }

    /// A capability to an object, without restrictions, through which all of the object is seen.
    pub fn to_object(kind: CapKind, number: u16, count: u32) -> Cap
        requires kind { is_object kind ≡ true }
        requires number { number < object_limit kind }
        requires count { count < 2 ^ 20 }
        ensures { result ≡ to_object kind number count }
    {
        let guard = if kind == CapKind::Gpt {
            Guard::whole()
        } else {
            Guard::page()
        };
        Cap {
            kind,
            restr: Restr::empty(),
            l2g: guard.l2g(),
            slot: 0,
            count,
            matches: guard.matches(),
            object: u32::from(number),
            payload: 0,
        }
    }

    /// The right to send to an endpoint with this payload.
    pub fn entry(endpoint: u16, count: u32, payload: u32) -> Cap
        requires number { endpoint < 1024 }
        requires count { count < 2 ^ 20 }
        ensures { result ≡ entry endpoint count payload }
    {
        Cap {
            kind: CapKind::Entry,
            restr: Restr::empty(),
            l2g: 12,
            slot: 0,
            count,
            matches: 0,
            object: u32::from(endpoint),
            payload,
        }
    }

    /// The right to run at a priority, 0 to 7.
    pub fn schedule(priority: u8) -> Cap
        requires { priority < 8 }
        ensures { result ≡ schedule priority }
    {
        Cap {
            kind: CapKind::Schedule,
            restr: Restr::empty(),
            l2g: 12,
            slot: 0,
            count: 0,
            matches: 0,
            object: u32::from(priority),
            payload: 0,
        }
    }

    /// A window at an offset, in bytes, of the background space.
    pub fn window(restr: Restr, guard: Guard, offset: u32) -> Result<Cap, Misaligned>
        requires { restr.0 < 32 }
        ensures exactly { IsOk result ↔ Divides guard offset }
        ensures value { IfOk result (λ cap. cap ≡ window restr.0 guard offset) }
    {
        if !guard.divides(offset) {
            return Err(Misaligned);
        }
        Ok(Cap {
            kind: CapKind::Window,
            restr,
            l2g: guard.l2g(),
            slot: 0,
            count: 0,
            matches: guard.matches(),
            object: offset,
            payload: 0,
        })
    }

    /// A window at an offset, in bytes, of what slot `slot`, 0 to 15, of the same GPT names.
    pub fn local_window(
        slot: u8,
        restr: Restr,
        guard: Guard,
        offset: u32,
    ) -> Result<Cap, Misaligned>
        requires slot { slot < 16 }
        requires restr { restr.0 < 32 }
        ensures exactly { IsOk result ↔ Divides guard offset }
        ensures value { IfOk result (λ cap. cap ≡ local_window slot restr.0 guard offset) }
    {
        if !guard.divides(offset) {
            return Err(Misaligned);
        }
        Ok(Cap {
            kind: CapKind::LocalWindow,
            restr,
            l2g: guard.l2g(),
            slot,
            count: 0,
            matches: guard.matches(),
            object: offset,
            payload: 0,
        })
    }

    /// The capability with these fields, where each is in the range of its kind.
    pub fn try_new(
        kind: CapKind,
        restr: Restr,
        count: u32,
        guard: Guard,
        object: u32,
        payload: u32,
        slot: u8,
    ) -> Option<Cap>
        ensures exactly { IsSome result ↔
            IsCapability (capability kind restr.0 count guard object payload slot) }
        ensures value { IfSome result
            (λ c. c ≡ capability kind restr.0 count guard object payload slot) }
    {
        if restr.bits() >= kind.restr_limit()
            || count >= kind.count_limit()
            || !guard.suits(kind, object)
            || u64::from(object) >= kind.object_limit()
            || u64::from(payload) >= kind.payload_limit()
            || slot >= kind.slot_limit()
        {
            return None;
        }
        Some(Cap {
            kind,
            restr,
            l2g: guard.l2g(),
            slot,
            count,
            matches: guard.matches(),
            object,
            payload,
        })
    }

    /// The same with another guard, for a memory kind.
    pub fn with_guard(self, guard: Guard) -> Result<Cap, Misaligned>
        requires { is_memory self.kind ≡ true }
        ensures exactly { IsOk result ↔ (is_window self.kind ≡ true → Divides guard self.object) }
        ensures value { IfOk result (λ cap. cap ≡ with_guard self guard) }
    {
        if self.kind.is_window() && !guard.divides(self.object) {
            return Err(Misaligned);
        }
        Ok(Cap {
            l2g: guard.l2g(),
            matches: guard.matches(),
            ..self
        })
    }

    /// The same memory capability with more restrictions.
    pub(crate) fn restricted(self, more: Restr) -> Cap
        requires memory { is_memory self.kind ≡ true }
        requires five { more.0 < 32 }
        ensures { result ≡ reduced self more.0 }
    {
        Cap {
            restr: joined(self.restr, more),
            ..self
        }
    }

    /// The same with another allocation count, for a kind that names an object.
    pub fn with_count(self, count: u32) -> Cap
        requires kind { is_counted self.kind ≡ true }
        requires count { count < 2 ^ 20 }
        ensures { result ≡ with_count self count }
    {
        Cap { count, ..self }
    }

    pub fn kind(self) -> CapKind
        ensures value { result ≡ self.kind }
        ensures range { IsCapability self }
    {
        self.kind
    }

    pub fn restr(self) -> Restr
        ensures value { result.0 ≡ self.restr }
        ensures range { IsCapability self }
    {
        self.restr
    }

    /// The allocation count, 0 where no object is named.
    pub fn count(self) -> u32
        ensures value { result ≡ self.count }
        ensures range { IsCapability self }
    {
        self.count
    }

    pub fn guard(self) -> Guard
        ensures value { result ≡ self.guard }
        ensures range { IsCapability self }
    {
        Guard::of(self.l2g, self.matches)
    }

    /// The object number, the offset in bytes, or the priority.
    pub fn object(self) -> u32
        ensures value { result ≡ self.object }
        ensures range { IsCapability self }
    {
        self.object
    }

    /// What an entry tells the receiver.
    pub fn payload(self) -> u32
        ensures value { result ≡ self.payload }
        ensures range { IsCapability self }
    {
        self.payload
    }

    /// The slot of a local window, 0 to 15.
    pub fn slot(self) -> u8
        ensures value { result ≡ self.slot }
        ensures range { IsCapability self }
    {
        self.slot
    }
}
