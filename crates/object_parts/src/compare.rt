//! Comparing parts.
ghost use Rattle.std.specs.Prelude.{◌≡◌, ℕ, ◌+◌, ◌<◌, ◌≤◌, ◌↔◌, IsTrue, map, length};
ghost use Rattle.cap_format.specs.Capability.{null};
ghost use Rattle.cap_format.specs.Kind.{number_of};
ghost use Rattle.process_objects.specs.Process.{capreg_of};
ghost use Rattle.object_store.specs.Meaning.{live, process_map};
ghost use Rattle.object_parts.specs.Same.{same_numbers, same_caps, same_wait, same_accept, same_doing, same_process, same_endpoint};

use cap_format::{Cap, CapKind};
use endpoint_objects::Endpoint;
use object_store::Objects;
use page_store::{CapPage, Page};
use process_objects::{Accept, Process, State, Wait};

pub(crate) fn same_pages(a: &Page, b: &Page) -> bool
    ensures { result ≡ same_numbers a.now b.now }
{
    a.bytes() == b.bytes()
}

pub(crate) fn same_cap_pages(a: &CapPage, b: &CapPage) -> bool
    ensures { result ≡ same_caps a.now b.now }
{
    all_slots_same(a, b)
}

fn all_slots_same(a: &CapPage, b: &CapPage) -> bool
    ensures { IsTrue result ↔ (a.now ≡ b.now) }
{
    a.tell_range();
    b.tell_range();
    for i in 0..=255 {
        if a.get(i) != b.get(i) {
            return false;
        }
    }
    true
}

pub(crate) fn same_processes(a: &Process, b: &Process) -> bool
    ensures { result ≡ same_process a.now b.now }
{
    a.pc() == b.pc()
        && a.registers() == b.registers()
        && same_states(a.state(), b.state())
        && same_slots(a, b)
        && same_cap_registers(a, b)
}

fn same_slots(a: &Process, b: &Process) -> bool
    ensures { result ≡ same_caps a.now.slots b.now.slots }
{
    all_process_slots_same(a, b)
}

fn all_process_slots_same(a: &Process, b: &Process) -> bool
    ensures { IsTrue result ↔ (a.now.slots ≡ b.now.slots) }
{
    a.tell_range();
    b.tell_range();
    for i in 0..3 {
        if a.slot(i) != b.slot(i) {
            return false;
        }
    }
    true
}

fn same_cap_registers(a: &Process, b: &Process) -> bool
    ensures { result ≡ same_caps a.now.capregs b.now.capregs }
{
    all_cap_registers_same(a, b)
}

fn all_cap_registers_same(a: &Process, b: &Process) -> bool
    ensures { IsTrue result ↔ (a.now.capregs ≡ b.now.capregs) }
{
    a.tell_range();
    b.tell_range();
    for i in 0..32 {
        if a.capreg(i) != b.capreg(i) {
            return false;
        }
    }
    true
}

/// Whether a process of a store, with Null in place of each of its dead capabilities, is the same as another.
pub(crate) fn same_live_processes(objects: &Objects, a: &Process, b: &Process) -> bool
    ensures { result ≡ same_process (process_map (live objects.now.items) a.now) b.now }
{
    a.pc() == b.pc()
        && a.registers() == b.registers()
        && same_states(a.state(), b.state())
        && same_live_slots(objects, a, b)
        && same_live_cap_registers(objects, a, b)
}

fn same_live_slots(objects: &Objects, a: &Process, b: &Process) -> bool
    ensures { result ≡ same_caps (map (live objects.now.items) a.now.slots) b.now.slots }
{
    all_live_slots_same(objects, a, b)
}

#[tactic(auto, using(crate::proofs::Compared::live_more))]
fn all_live_slots_same(objects: &Objects, a: &Process, b: &Process) -> bool
    ensures { IsTrue result ↔ (map (live objects.now.items) a.now.slots ≡ b.now.slots) }
{
    a.tell_range();
    b.tell_range();
    for i in 0..3 {
        if !same_live(objects, a.slot(i), b.slot(i)) {
            return false;
        }
    }
    true
}

fn same_live_cap_registers(objects: &Objects, a: &Process, b: &Process) -> bool
    ensures { result ≡ same_caps (map (live objects.now.items) a.now.capregs) b.now.capregs }
{
    all_live_cap_registers_same(objects, a, b)
}

/// They are looked at eight at a time, since most are Null.
fn all_live_cap_registers_same(objects: &Objects, a: &Process, b: &Process) -> bool
    ensures { IsTrue result ↔ (map (live objects.now.items) a.now.capregs ≡ b.now.capregs) }
{
    a.tell_range();
    b.tell_range();
    for eight in 0..4 {
        if !eight_live_same(objects, a, b, 8 * eight) {
            return false;
        }
    }
    true
}

/// Whether the eight capability registers from `first` on, Null in place of those that are dead, are the same as another's.
fn eight_live_same(objects: &Objects, a: &Process, b: &Process, first: u8) -> bool
    requires { first ≤ 24 }
    ensures { IsTrue result ↔ ((i : ℕ) → first ≤ i → i < first + 8 →
        live objects.now.items (capreg_of a.now i) ≡ capreg_of b.now i) }
{
    if eight_null(a, b, first) {
        return true;
    }
    for i in first..first + 8 {
        if !same_live(objects, a.capreg(i), b.capreg(i)) {
            return false;
        }
    }
    true
}

/// Whether all of them are Null in both, by the numbers of their kinds.
fn eight_null(a: &Process, b: &Process, first: u8) -> bool
    requires { first ≤ 24 }
    ensures { IsTrue result → (i : ℕ) → first ≤ i → i < first + 8 →
        (capreg_of a.now i ≡ null) × (capreg_of b.now i ≡ null) }
{
    kinds_at(a, b, first)
        + kinds_at(a, b, first + 1)
        + kinds_at(a, b, first + 2)
        + kinds_at(a, b, first + 3)
        + kinds_at(a, b, first + 4)
        + kinds_at(a, b, first + 5)
        + kinds_at(a, b, first + 6)
        + kinds_at(a, b, first + 7)
        == 0
}

/// The numbers of the kinds of capability register c`i` of both, added up: 0 where both are Null alone.
#[tactic(auto, using(crate::proofs::Compared::null_kinds))]
fn kinds_at(a: &Process, b: &Process, i: u8) -> u8
    requires { i ≤ 31 }
    ensures value { result ≡ number_of (capreg_of a.now i).kind
        + number_of (capreg_of b.now i).kind }
    ensures small { result ≤ 26 }
    ensures null { result ≡ 0 → (capreg_of a.now i ≡ null) × (capreg_of b.now i ≡ null) }
{
    a.capreg(i).kind().number() + b.capreg(i).kind().number()
}

/// Whether a capability, or Null where it is dead, is the same as another.
fn same_live(objects: &Objects, a: Cap, b: Cap) -> bool
    ensures { IsTrue result ↔ (live objects.now.items a ≡ b) }
{
    // Most are Null.
    if is_null(a) && is_null(b) {
        return true;
    }
    objects.live(a) == b
}

/// Whether a capability is Null, by its kind alone.
#[tactic(auto, using(crate::proofs::Compared::null_kind))]
fn is_null(cap: Cap) -> bool
    ensures { IsTrue result ↔ (cap ≡ null) }
{
    cap.kind() == CapKind::Null
}

fn same_states(a: State, b: State) -> bool
    ensures { result ≡ same_doing a b }
{
    match a {
        State::Running => match b {
            State::Running => true,
            _ => false,
        },
        State::Receiving(x) => match b {
            State::Receiving(y) => same_accepts(x, y),
            _ => false,
        },
        State::Faulted { code, address } => match b {
            State::Faulted {
                code: other,
                address: at,
            } => code.number() == other.number() && address == at,
            _ => false,
        },
    }
}

fn same_accepts(a: Accept, b: Accept) -> bool
    ensures { result ≡ same_accept a b }
{
    same_waits(a.wait(), b.wait())
        && a.caps() == b.caps()
        && a.regs() == b.regs()
        && a.at() == b.at()
        && a.bound() == b.bound()
}

fn same_waits(a: Wait, b: Wait) -> bool
    ensures { result ≡ same_wait a b }
{
    match a {
        Wait::Open => match b {
            Wait::Open => true,
            Wait::Closed(_) => false,
        },
        Wait::Closed(id) => match b {
            Wait::Open => false,
            Wait::Closed(other) => id == other,
        },
    }
}

pub(crate) fn same_endpoints(a: &Endpoint, b: &Endpoint) -> bool
    ensures { result ≡ same_endpoint a.now b.now }
{
    a.recipient == b.recipient && a.id == b.id && a.payload == b.payload && a.matching == b.matching
}
