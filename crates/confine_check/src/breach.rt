//! Capabilities that may not stand where they do.
ghost use Rattle.std.specs.Prelude.{ℕ, ◌≡◌, ◌<◌, ◌≤◌, ◌+◌, ◌*◌, None, IfSome};
ghost use Rattle.cap_format.specs.declared.kind.CapKind.TheVariants.{Gpt};
ghost use Rattle.object_store.specs.Store.{size_of};
ghost use Rattle.object_store.specs.Places.{places_in, reads_in, object_reads};
ghost use Rattle.confine_check.specs.Sides.{cut_of};
ghost use Rattle.confine_check.specs.Breach.{may_hold, breach_at, breach_of_object, breach_of_kind, breach_of, broken_by};
ghost use Rattle.confine_check.specs.Found.{kinds_before, reads_to};

use crate::cut::Cut;
use crate::verdict::Breach;
use cap_format::{Cap, CapKind, is_harmless};
use confinement::CutSide;
use object_store::{Objects, cap_in, places, size};
use std::sync::ledger::Ledger;
use steps::Steps;

/// Whether an object of this side may hold a capability.
fn may_hold(cut: &Cut, side: CutSide, cap: Cap) -> bool
    ensures { result ≡ may_hold (cut_of cut.now) side cap }
{
    let kind = cap.kind();
    if kind == CapKind::Range {
        return false;
    }
    if !kind.is_counted() {
        return true;
    }
    cut.side_of(kind.object_kind(), cap.object()) == side || is_harmless(cap)
}

/// What the capability in a place of an object breaks.
fn breach_at<L: Ledger>(
    objects: &Objects,
    cut: &Cut,
    kind: CapKind,
    n: u16,
    i: u16,
    fetches: &mut Steps<L>,
) -> Option<Breach>
    requires there { n < size_of objects.now.items kind }
    requires place { i < places_in kind }
    ensures value { result ≡ breach_at (cut_of cut.now) objects.now kind n i }
    ensures counted { fetches.new ≡ fetches.old + reads_in kind }
{
    let cap = objects.live(cap_in(objects, kind, n, i, fetches));
    if may_hold(cut, cut.side_of(kind, n as u32), cap) {
        return None;
    }
    Some(Breach {
        kind,
        number: n,
        place: i,
        cap,
    })
}

/// The first that breaks the cut in an object.
fn breach_of_object<L: Ledger>(
    objects: &Objects,
    cut: &Cut,
    kind: CapKind,
    n: u16,
    fetches: &mut Steps<L>,
) -> Option<Breach>
    requires { n < size_of objects.now.items kind }
    ensures value { result ≡ breach_of_object (cut_of cut.now) objects.now kind n }
    ensures counted { result ≡ None → fetches.new ≡ fetches.old + object_reads kind }
    ensures exact { let gpts = size_of objects.now.items Gpt in IfSome result (λ found.
        fetches.new + kinds_before kind gpts + object_reads kind * n ≡ fetches.old + reads_to (broken_by found) gpts) }
    ensures most { fetches.new ≤ fetches.old + object_reads kind }
{
    'each: for i in 0..places(kind) {
        if let Some(found) = breach_at(objects, cut, kind, n, i, fetches) {
            return Some(found);
        }
    }
    None
}

/// The first that breaks the cut in the objects of a kind.
fn breach_of_kind<L: Ledger>(
    objects: &Objects,
    cut: &Cut,
    kind: CapKind,
    fetches: &mut Steps<L>,
) -> Option<Breach>
    ensures value { result ≡ breach_of_kind (cut_of cut.now) objects.now kind }
    ensures counted { result ≡ None →
        fetches.new ≡ fetches.old + object_reads kind * size_of objects.now.items kind }
    ensures exact { let gpts = size_of objects.now.items Gpt in IfSome result (λ found.
        fetches.new + kinds_before kind gpts ≡ fetches.old + reads_to (broken_by found) gpts) }
    ensures most { fetches.new ≤ fetches.old + object_reads kind * size_of objects.now.items kind }
{
    'each: for n in 0..size(objects, kind) {
        if let Some(found) = breach_of_object(objects, cut, kind, n, fetches) {
            return Some(found);
        }
    }
    None
}

/// The first capability that breaks the cut. Each slot of a GPT is read at most once.
pub(crate) fn breach_of<L: Ledger>(
    objects: &Objects,
    cut: &Cut,
    fetches: &mut Steps<L>,
) -> Option<Breach>
    ensures value { result ≡ breach_of (cut_of cut.now) objects.now }
    ensures counted { result ≡ None →
        fetches.new ≡ fetches.old + 16 * size_of objects.now.items Gpt }
    ensures exact { IfSome result (λ found.
        fetches.new ≡ fetches.old + reads_to (broken_by found) (size_of objects.now.items Gpt)) }
    ensures most { fetches.new ≤ fetches.old + 16 * size_of objects.now.items Gpt }
{
    if let Some(found) = breach_of_kind(objects, cut, CapKind::CapPage, fetches) {
        return Some(found);
    }
    if let Some(found) = breach_of_kind(objects, cut, CapKind::Gpt, fetches) {
        return Some(found);
    }
    if let Some(found) = breach_of_kind(objects, cut, CapKind::Endpoint, fetches) {
        return Some(found);
    }
    breach_of_kind(objects, cut, CapKind::Process, fetches)
}
