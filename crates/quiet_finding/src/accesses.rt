//! Whether an access may belong to a quiet step.
ghost use Rattle.std.specs.Prelude.{◌≡◌, ◌<◌, ◌≤◌, ◌+◌, ◌%◌, ◌&&◌, ◌||◌, true, is_some, Ok, IfSome};
ghost use Rattle.std.specs.List.{list_all};
ghost use Rattle.cap_format.specs.declared.kind.CapKind.TheVariants.{Page, Process};
ghost use Rattle.object_store.specs.Store.{size_of};
ghost use Rattle.walk_meaning.specs.declared.noted.Noted.{Noted};
ghost use Rattle.walk_meaning.specs.Walk.{is_data};
ghost use Rattle.machine_state.specs.State.{state_of};
ghost use Rattle.machine_state.specs.DataAccess.{data_access};
ghost use Rattle.quiet_runs.specs.Finding.{is_own, is_quiet_access, may_pass, only_reads};
ghost use Rattle.quiet_runs.specs.Finding.{is_settled};
ghost use Rattle.quiet_finding.specs.Reaching.{IsReaching, finds_passable, finds_settled};
ghost use Rattle.quiet_finding.specs.Walks.{LeadsQuietly};

use crate::reaching::Reaching;
use crate::walks::QuietPage;
use cap_format::{CapKind, Item};
use machine_state::Machine;
use std::sync::ledger::Ledger;
use steps::Steps;
use walk_engine::{Hit, Trail, Translator, walk};
use walk_meaning::{Kind, page_law};

/// Whether a page is a process's own.
pub(crate) fn is_own<T: Translator>(
    machine: &Machine<T>,
    p: u16,
    n: u16,
    reaching: &Reaching,
) -> bool
    requires { IsReaching (state_of machine.now).store reaching.now }
    ensures { result ≡ is_own (state_of machine.now) p n }
{
    let pages = machine.objects().sizes().pages;
    if n >= pages {
        return false;
    }
    reaching.is_own(p, n)
}

/// Whether accesses of a kind leave a page as it is.
fn only_reads(kind: Kind) -> bool
    ensures { result ≡ only_reads kind }
{
    matches!(kind, Kind::Fetch | Kind::Load)
}

/// Whether a walk of a process may read this on its way to a settled page.
fn may_pass(p: u16, item: Item, reaching: &Reaching) -> bool
    ensures { result ≡ finds_passable reaching.now p item }
{
    match item {
        Item::Header(CapKind::Page, n) => reaching.is_settled(n),
        Item::Header(CapKind::Gpt, g) | Item::Slot(g, _) => reaching.is_own_gpt(p, g),
        _ => false,
    }
}

/// Whether a walk of a process read nothing else on its way.
fn goes_by_own(p: u16, trail: &Trail, reaching: &Reaching) -> bool
    ensures { result
        ≡ list_all (λ (n : Noted). finds_passable reaching.now p n.item) trail.now.items }
{
    trail
        .as_slice()
        .iter()
        .all(|noted| may_pass(p, noted.item, reaching))
}

/// Whether a page is settled, and so the way to it a process's own.
fn is_settled_by(p: u16, n: u16, trail: &Trail, reaching: &Reaching) -> bool
    ensures { result ≡ (finds_settled reaching.now n
        && list_all (λ (x : Noted). finds_passable reaching.now p x.item) trail.now.items) }
{
    reaching.is_settled(n) && goes_by_own(p, trail, reaching)
}

/// Whether an access of this kind may reach a page by this way: it is the process's own, or the access
/// only reads it, it is settled, and so is the way the process's own.
fn may_reach<T: Translator>(
    machine: &Machine<T>,
    p: u16,
    kind: Kind,
    n: u16,
    trail: &Trail,
    reaching: &Reaching,
) -> bool
    requires { IsReaching (state_of machine.now).store reaching.now }
    ensures { let s = state_of machine.now in
        result ≡ (is_own s p n || (only_reads kind && (is_settled s.store n
        && list_all (λ (x : Noted). may_pass s p x.item) trail.now.items))) }
{
    if is_own(machine, p, n, reaching) {
        return true;
    }
    if !only_reads(kind) {
        return false;
    }
    is_settled_by(p, n, trail, reaching)
}

/// Whether an access of a process ends at a page that it may reach.
pub(crate) fn is_quiet_access<T: Translator, L: Ledger>(
    machine: &Machine<T>,
    p: u16,
    at: u32,
    kind: Kind,
    kept: &mut Option<QuietPage>,
    reaching: &Reaching,
    fetches: &mut Steps<L>,
) -> bool
    requires there { p < size_of machine.now.objects.items Process }
    requires data { is_data kind ≡ true }
    requires reaching { IsReaching (state_of machine.now).store reaching.now }
    requires kept { IfSome kept.old (LeadsQuietly (state_of machine.now) p kind) }
    ensures value { let s = state_of machine.now in
        result ≡ is_quiet_access s p at kind (data_access s p at kind) }
    ensures kept { IfSome kept.new (LeadsQuietly (state_of machine.now) p kind) }
    ensures least { fetches.old ≤ fetches.new }
    ensures most { fetches.new ≤ fetches.old + 32 }
{
    quiet_hit(machine, p, at, kind, kept, reaching, fetches).is_some()
}

/// Where an access of a process ends, if that is in a page that it may reach. The walk that is kept is
/// asked first.
pub(crate) fn quiet_hit<T: Translator, L: Ledger>(
    machine: &Machine<T>,
    p: u16,
    at: u32,
    kind: Kind,
    kept: &mut Option<QuietPage>,
    reaching: &Reaching,
    fetches: &mut Steps<L>,
) -> Option<Hit>
    requires there { p < size_of machine.now.objects.items Process }
    requires data { is_data kind ≡ true }
    requires reaching { IsReaching (state_of machine.now).store reaching.now }
    requires kept { IfSome kept.old (LeadsQuietly (state_of machine.now) p kind) }
    ensures exactly { let s = state_of machine.now in
        is_some result ≡ is_quiet_access s p at kind (data_access s p at kind) }
    ensures value { IfSome result (λ hit. data_access (state_of machine.now) p at kind ≡ Ok hit) }
    ensures page { IfSome result (λ hit. hit.page < size_of machine.now.objects.items Page) }
    ensures offset { IfSome result (λ hit. hit.offset ≡ at % 4096) }
    ensures kept { IfSome kept.new (LeadsQuietly (state_of machine.now) p kind) }
    ensures least { fetches.old ≤ fetches.new }
    ensures most { fetches.new ≤ fetches.old + 32 }
{
    machine.objects().in_ranges();
    match *kept {
        Some(quiet) if quiet.addresses == at / 4096 => Some(Hit {
            page: quiet.page,
            offset: (at % 4096) as u16,
        }),
        _ => walk_quiet(machine, p, at, kind, kept, reaching, fetches),
    }
}

/// The same by a walk, which then is kept.
fn walk_quiet<T: Translator, L: Ledger>(
    machine: &Machine<T>,
    p: u16,
    at: u32,
    kind: Kind,
    kept: &mut Option<QuietPage>,
    reaching: &Reaching,
    fetches: &mut Steps<L>,
) -> Option<Hit>
    requires there { p < size_of machine.now.objects.items Process }
    requires data { is_data kind ≡ true }
    requires reaching { IsReaching (state_of machine.now).store reaching.now }
    requires kept { IfSome kept.old (LeadsQuietly (state_of machine.now) p kind) }
    ensures exactly { let s = state_of machine.now in
        is_some result ≡ is_quiet_access s p at kind (data_access s p at kind) }
    ensures value { IfSome result (λ hit. data_access (state_of machine.now) p at kind ≡ Ok hit) }
    ensures page { IfSome result (λ hit. hit.page < size_of machine.now.objects.items Page) }
    ensures offset { IfSome result (λ hit. hit.offset ≡ at % 4096) }
    ensures kept { IfSome kept.new (LeadsQuietly (state_of machine.now) p kind) }
    ensures least { fetches.old ≤ fetches.new }
    ensures most { fetches.new ≤ fetches.old + 32 }
{
    page_law();
    machine.objects().in_ranges();
    let space = machine.space(p);
    let _kind = space.kind();
    let mut trail = Trail::new();
    match walk(machine.objects(), space, at, kind, &mut trail, fetches) {
        Ok(place) if may_reach(machine, p, kind, place.number, &trail, reaching) => {
            *kept = Some(QuietPage {
                addresses: at / 4096,
                page: place.number,
            });
            Some(Hit {
                page: place.number,
                offset: place.offset,
            })
        }
        _ => None,
    }
}
