//! Where capabilities lead, as far as it matters for who comes to what, and for which pages are written.
ghost use Rattle.std.specs.Prelude.{◌≡◌, ◌↔◌, ◌<◌, ◌≤◌, ◌+◌, ◌*◌, IfOk, IsTrue};
ghost use Rattle.object_store.specs.Store.{size_of};
ghost use Rattle.object_store.specs.Meaning.{state_map};
ghost use Rattle.object_store.specs.Places.{places_in, reads_in};
ghost use Rattle.quiet_finding.specs.Leads.{lead_in, lead_of, lead_to, leads_of};

use cap_format::{Cap, CapKind, OutOfMemory, is_harmless};
use object_store::{Objects, cap_in, places, size};
use std::alloc::Global;
use std::sync::ledger::Ledger;
use steps::Steps;

/// Where a capability leads.
#[derive(Clone, Copy)]
pub struct Lead {
    /// The kind of the object, or a Range or a window; Null where it leads nowhere.
    pub kind: CapKind,
    /// The object's number, or 0.
    pub object: u32,
    /// Whether it is a page, and the capability isn't RO.
    pub writes: bool,
}

/// To an object that is no page.
fn lead_to(kind: CapKind, object: u32) -> Lead
    ensures { result ≡ lead_to kind object }
{
    Lead {
        kind,
        object,
        writes: false,
    }
}

/// Where a capability leads.
fn lead_of(cap: Cap) -> Lead
    ensures { result ≡ lead_of cap }
{
    match cap.kind() {
        CapKind::Page => Lead {
            kind: CapKind::Page,
            object: cap.object(),
            writes: !is_harmless(cap),
        },
        CapKind::Gpt | CapKind::Process => lead_to(cap.kind(), cap.object()),
        CapKind::Range | CapKind::Window => lead_to(cap.kind(), 0),
        _ => lead_to(CapKind::Null, 0),
    }
}

/// Where the capability in a place of the objects of a kind leads.
#[inline(always)]
fn lead_in<L: Ledger>(
    objects: &Objects,
    kind: CapKind,
    place: usize,
    fetches: &mut Steps<L>,
) -> Lead
    requires { place < size_of objects.now.items kind * places_in kind }
    ensures value { result ≡ lead_in (state_map objects.now) kind place }
    ensures counted { fetches.new ≡ fetches.old + reads_in kind }
{
    let _count = size(objects, kind);
    let places = places(kind) as usize;
    let n = (place / places) as u16;
    let i = (place % places) as u16;
    let cap = cap_in(objects, kind, n, i, fetches);
    lead_of(objects.live(cap))
}

/// How many places for capabilities all objects of a kind have.
fn all_places(objects: &Objects, kind: CapKind) -> usize
    ensures { result ≡ size_of objects.now.items kind * places_in kind }
{
    size(objects, kind) as usize * places(kind) as usize
}

/// Where the capabilities of all objects of a kind lead.
pub(crate) fn leads_of<L: Ledger>(
    alloc: Global,
    objects: &Objects,
    kind: CapKind,
    fetches: &mut Steps<L>,
) -> Result<Vec<Lead>, OutOfMemory>
    ensures value { IfOk result (λ leads. leads.items ≡ leads_of (state_map objects.now) kind) }
    ensures least { fetches.old ≤ fetches.new }
    ensures most { fetches.new ≤ fetches.old + reads_in kind * (size_of objects.now.items kind * places_in kind) }
{
    let count = all_places(objects, kind);
    let mut leads = Vec::with_capacity(alloc, count)?;
    'each: for place in 0..count {
        let lead = lead_in(objects, kind, place, fetches);
        leads.push(lead)?;
    }
    Ok(leads)
}

/// Whether the capabilities of all objects of a kind lead there.
#[inline(always)]
pub(crate) fn are_leads_of<L: Ledger>(
    leads: &[Lead],
    objects: &Objects,
    kind: CapKind,
    fetches: &mut Steps<L>,
) -> bool
    ensures exactly { IsTrue result ↔ (leads.now ≡ leads_of (state_map objects.now) kind) }
    ensures least { fetches.old ≤ fetches.new }
    ensures most { fetches.new ≤ fetches.old + reads_in kind * (size_of objects.now.items kind * places_in kind) }
{
    let count = all_places(objects, kind);
    if leads.len() != count {
        return false;
    }
    'each: for place in 0..count {
        let lead = lead_in(objects, kind, place, fetches);
        if !is_same_lead(leads[place], lead) {
            return false;
        }
    }
    true
}

fn is_same_lead(one: Lead, other: Lead) -> bool
    ensures { IsTrue result ↔ (one ≡ other) }
{
    one.kind == other.kind && one.object == other.object && one.writes == other.writes
}
