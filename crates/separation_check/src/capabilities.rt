//! Capabilities that may not stand where they do.
ghost use Rattle.std.specs.Prelude.{ℕ, ◌≡◌, ◌<◌, ◌≤◌, ◌+◌, ◌*◌, ◌++◌, length};
ghost use Rattle.std.specs.Vec.{vec_len, vec_capacity};
ghost use Rattle.cap_format.specs.declared.kind.CapKind.TheVariants.{Gpt};
ghost use Rattle.object_store.specs.Store.{size_of};
ghost use Rattle.object_store.specs.Places.{places_in, reads_in, object_reads};
ghost use Rattle.separation_policy.specs.Closure.{IsClosure};
ghost use Rattle.separation_check.specs.Marks.{object_marks, kind_marks, all_marks};
ghost use Rattle.separation_check.specs.Crossings.{stored_cap, may_hold_page, may_name_of, crosses_by, halts_by, logs_by, crossing_by, listed, object_crossings, kind_crossings, capability_crossings};

use crate::crossing::Crossing;
use crate::marks::{Marks, marks_by};
use crate::remedy::is_page;
use cap_format::{Cap, CapKind, is_harmless};
use object_store::{Objects, cap_in, places, size};
use separation_policy::{Closure, Policy};
use std::sync::ledger::Ledger;
use steps::Steps;

/// Whether an object of domain `a` may hold a Page of domain `d`.
fn may_hold_page(policy: &Policy, closure: &Closure, a: u8, d: u8, harmless: bool) -> bool
    requires { IsClosure policy.now closure.now }
    ensures { result ≡ may_hold_page policy.now a d harmless }
{
    policy.may_write(a, d) || (harmless && closure.sees_written(a, d))
}

/// Whether a capability that names an object of domain `d` may stand in one of domain `a`.
fn may_name_of(policy: &Policy, closure: &Closure, a: u8, d: u8, cap: Cap) -> bool
    requires { IsClosure policy.now closure.now }
    ensures { result ≡ may_name_of policy.now a d cap }
{
    if d == a {
        return true;
    }
    let harmless = is_harmless(cap);
    if harmless && closure.sees(a, d) {
        return true;
    }
    is_page(cap.kind()) && may_hold_page(policy, closure, a, d, harmless)
}

/// Whether a capability that names an object may not stand in one of a domain.
fn crosses_by(policy: &Policy, closure: &Closure, domain: u8, cap: Cap) -> bool
    requires { IsClosure policy.now closure.now }
    ensures { result ≡ crosses_by policy.now domain cap }
{
    if !cap.kind().is_counted() {
        return false;
    }
    let named = policy.domain_of(cap.kind().object_kind(), cap.object());
    !may_name_of(policy, closure, domain, named, cap)
}

/// Whether a capability is SysCtl, which objects of a domain may not hold.
fn halts_by(policy: &Policy, domain: u8, cap: Cap) -> bool
    ensures { result ≡ halts_by policy.now domain cap }
{
    cap.kind() == CapKind::SysCtl && !policy.may_halt(domain)
}

/// Whether it is KernLog, which they may not.
fn logs_by(policy: &Policy, domain: u8, cap: Cap) -> bool
    ensures { result ≡ logs_by policy.now domain cap }
{
    cap.kind() == CapKind::KernLog && !policy.may_log(domain)
}

/// What a capability crosses that stands in a place of an object.
pub fn crossing_by(
    policy: &Policy,
    closure: &Closure,
    kind: CapKind,
    n: u16,
    i: u16,
    cap: Cap,
) -> Option<Crossing>
    requires { IsClosure policy.now closure.now }
    ensures { result ≡ crossing_by policy.now kind n i cap }
{
    let domain = policy.domain_of(kind, n as u32);
    if cap.kind() == CapKind::Range {
        return Some(Crossing::Range {
            kind,
            number: n,
            place: i,
            domain,
        });
    }
    if halts_by(policy, domain, cap) {
        return Some(Crossing::Halts {
            kind,
            number: n,
            place: i,
            domain,
        });
    }
    if logs_by(policy, domain, cap) {
        return Some(Crossing::Logs {
            kind,
            number: n,
            place: i,
            domain,
        });
    }
    if !crosses_by(policy, closure, domain, cap) {
        return None;
    }
    Some(Crossing::Capability {
        kind,
        number: n,
        place: i,
        cap,
        from: domain,
        to: policy.domain_of(cap.kind().object_kind(), cap.object()),
    })
}

/// What a place of an object holds: Null where the capability is dead.
pub fn stored_cap<L: Ledger>(
    objects: &Objects,
    kind: CapKind,
    n: u16,
    i: u16,
    fetches: &mut Steps<L>,
) -> Cap
    requires there { n < size_of objects.now.items kind }
    requires place { i < places_in kind }
    ensures value { result ≡ stored_cap objects.now kind n i }
    ensures counted { fetches.new ≡ fetches.old + reads_in kind }
{
    objects.live(cap_in(objects, kind, n, i, fetches))
}

/// Puts down what there is, behind what was found. There is room for it.
pub(crate) fn push(found: &mut Vec<Crossing>, crossing: Option<Crossing>)
    requires { vec_len found.old + length (listed crossing) ≤ vec_capacity found.old }
    ensures value { found.new.items ≡ found.old.items ++ listed crossing }
    ensures capacity { vec_capacity found.new ≡ vec_capacity found.old }
{
    if let Some(one) = crossing {
        found.push_reserved(one);
    }
}

/// Puts down the crossings of an object, for which there is room, and tells what its domain holds that is shared by all.
fn push_object<L: Ledger>(
    objects: &Objects,
    policy: &Policy,
    closure: &Closure,
    kind: CapKind,
    n: u16,
    found: &mut Vec<Crossing>,
    fetches: &mut Steps<L>,
) -> Marks
    requires closure { IsClosure policy.now closure.now }
    requires there { n < size_of objects.now.items kind }
    requires room { let crossings = object_crossings policy.now (stored_cap objects.now) kind n in
        vec_len found.old + length crossings ≤ vec_capacity found.old }
    ensures value { let crossings = object_crossings policy.now (stored_cap objects.now) kind n in
        found.new.items ≡ found.old.items ++ crossings }
    ensures capacity { vec_capacity found.new ≡ vec_capacity found.old }
    ensures marks { result ≡ object_marks policy.now (stored_cap objects.now) kind n }
    ensures counted { fetches.new ≡ fetches.old + object_reads kind }
{
    let domain = policy.domain_of(kind, n as u32);
    let mut marks = Marks::none();
    'each: for i in 0..places(kind) {
        let cap = stored_cap(objects, kind, n, i, fetches);
        push(found, crossing_by(policy, closure, kind, n, i, cap));
        marks = marks.and(marks_by(domain, cap));
    }
    marks
}

/// The same of the objects of a kind.
fn push_kind<L: Ledger>(
    objects: &Objects,
    policy: &Policy,
    closure: &Closure,
    kind: CapKind,
    found: &mut Vec<Crossing>,
    fetches: &mut Steps<L>,
) -> Marks
    requires closure { IsClosure policy.now closure.now }
    requires room { let size = size_of objects.now.items kind in
        let crossings = kind_crossings policy.now (stored_cap objects.now) kind size in
        vec_len found.old + length crossings ≤ vec_capacity found.old }
    ensures value { let size = size_of objects.now.items kind in
        let crossings = kind_crossings policy.now (stored_cap objects.now) kind size in
        found.new.items ≡ found.old.items ++ crossings }
    ensures capacity { vec_capacity found.new ≡ vec_capacity found.old }
    ensures marks { result ≡ kind_marks policy.now (stored_cap objects.now) objects.now kind }
    ensures counted { fetches.new ≡ fetches.old
        + object_reads kind * size_of objects.now.items kind }
{
    let mut marks = Marks::none();
    'each: for n in 0..size(objects, kind) {
        marks = marks.and(push_object(objects, policy, closure, kind, n, found, fetches));
    }
    marks
}

/// The same of all objects. Each slot of a GPT is read once.
pub(crate) fn push_capabilities<L: Ledger>(
    objects: &Objects,
    policy: &Policy,
    closure: &Closure,
    found: &mut Vec<Crossing>,
    fetches: &mut Steps<L>,
) -> Marks
    requires closure { IsClosure policy.now closure.now }
    requires room { let crossings = capability_crossings policy.now (stored_cap objects.now)
        objects.now in
        vec_len found.old + length crossings ≤ vec_capacity found.old }
    ensures value { let crossings = capability_crossings policy.now (stored_cap objects.now)
        objects.now in
        found.new.items ≡ found.old.items ++ crossings }
    ensures capacity { vec_capacity found.new ≡ vec_capacity found.old }
    ensures marks { result ≡ all_marks policy.now (stored_cap objects.now) objects.now }
    ensures counted { fetches.new ≡ fetches.old + 16 * size_of objects.now.items Gpt }
{
    let pages = push_kind(objects, policy, closure, CapKind::CapPage, found, fetches);
    let gpts = push_kind(objects, policy, closure, CapKind::Gpt, found, fetches);
    let endpoints = push_kind(objects, policy, closure, CapKind::Endpoint, found, fetches);
    let processes = push_kind(objects, policy, closure, CapKind::Process, found, fetches);
    pages.and(gpts.and(endpoints.and(processes)))
}
