//! Whether a policy holds of a machine, found without memory: what crosses is not told.
ghost use Rattle.std.specs.Prelude.{◌≡◌, ◌<◌, ◌≤◌, ◌+◌, ◌*◌, ◌↔◌, false, is_some, length};
ghost use Rattle.object_store.specs.Store.{size_of};
ghost use Rattle.machine_state.specs.State.{state_of};
ghost use Rattle.cap_format.specs.declared.kind.CapKind.TheVariants.{Gpt};
ghost use Rattle.object_store.specs.Places.{object_reads, places_in};
ghost use Rattle.confinement.specs.Acts.{system_of};
ghost use Rattle.separation_policy.specs.Closure.{IsClosure};
ghost use Rattle.separation_policy.specs.Policy.{PolicyHolds};
ghost use Rattle.separation_check.specs.Crossings.{capability_crossings, crossing_by, crossings_of, kind_crossings, object_crossings, process_crossings, sleeper_crossings, stored_cap};
ghost use Rattle.questions.specs.Atom.{crosses, is_any};

use cap_format::CapKind;
use confine_check::tell_full;
use machine_state::Machine;
use object_store::{Objects, places, size};
use schedules::Queues;
use separation_check::{crossing_by, sleeper_limit, sleeper_on, stored_cap};
use separation_policy::{Closure, Policy};
use std::sync::ledger::Ledger;
use steps::Steps;
use walk_engine::Translator;

/// Whether something in a machine is not allowed by the policy, of which this is the closure. Each slot of a GPT is read once,
/// but none after the first that crosses.
pub fn crosses<T: Translator, L: Ledger>(
    machine: &Machine<T>,
    policy: &Policy,
    closure: &Closure,
    fetches: &mut Steps<L>,
) -> bool
    requires { IsClosure policy.now closure.now }
    ensures value { result ≡ crosses policy.now (state_of machine.now) }
    ensures exactly { (result ≡ false) ↔ PolicyHolds policy.now (system_of (state_of machine.now)) }
    ensures counted { result ≡ false → fetches.new
        ≡ fetches.old + 16 * size_of machine.now.objects.items Gpt }
    ensures least { fetches.old ≤ fetches.new }
    ensures most { fetches.new ≤ fetches.old + 16 * size_of machine.now.objects.items Gpt }
{
    tell_full(machine.objects());
    any_crosses(
        machine.objects(),
        machine.queues(),
        policy,
        closure,
        fetches,
    )
}

/// Does nothing: its contract tells that nothing crosses in a machine of which the policy holds.
pub(crate) fn tell_uncrossed<T: Translator>(machine: &Machine<T>, policy: &Policy)
    ensures { PolicyHolds policy.now (system_of (state_of machine.now)) →
        crosses policy.now (state_of machine.now) ≡ false }
{
    tell_full(machine.objects());
}

/// The same, by the objects as they are stored.
fn any_crosses<L: Ledger>(
    objects: &Objects,
    queues: &Queues,
    policy: &Policy,
    closure: &Closure,
    fetches: &mut Steps<L>,
) -> bool
    requires closure { IsClosure policy.now closure.now }
    requires processes { length queues.now.sleepers ≡ size_of objects.now.items CapKind.Process }
    ensures value { result ≡ is_any (crossings_of policy.now objects.now queues.now) }
    ensures counted { result ≡ false → fetches.new
        ≡ fetches.old + 16 * size_of objects.now.items Gpt }
    ensures least { fetches.old ≤ fetches.new }
    ensures most { fetches.new ≤ fetches.old + 16 * size_of objects.now.items Gpt }
{
    if capability_crosses(objects, policy, closure, fetches) {
        return true;
    }
    sleeper_crosses(queues, objects.sizes().processes, policy)
}

/// Whether a capability crosses.
fn capability_crosses<L: Ledger>(
    objects: &Objects,
    policy: &Policy,
    closure: &Closure,
    fetches: &mut Steps<L>,
) -> bool
    requires { IsClosure policy.now closure.now }
    ensures value { result ≡ is_any (capability_crossings policy.now (stored_cap objects.now)
        objects.now) }
    ensures counted { result ≡ false → fetches.new
        ≡ fetches.old + 16 * size_of objects.now.items Gpt }
    ensures least { fetches.old ≤ fetches.new }
    ensures most { fetches.new ≤ fetches.old + 16 * size_of objects.now.items Gpt }
{
    let in_pages = kind_crosses(objects, policy, closure, CapKind::CapPage, fetches);
    if in_pages {
        return true;
    }
    let in_gpts = kind_crosses(objects, policy, closure, CapKind::Gpt, fetches);
    if in_gpts {
        return true;
    }
    let in_endpoints = kind_crosses(objects, policy, closure, CapKind::Endpoint, fetches);
    if in_endpoints {
        return true;
    }
    kind_crosses(objects, policy, closure, CapKind::Process, fetches)
}

/// Whether one does in an object of a kind.
fn kind_crosses<L: Ledger>(
    objects: &Objects,
    policy: &Policy,
    closure: &Closure,
    kind: CapKind,
    fetches: &mut Steps<L>,
) -> bool
    requires { IsClosure policy.now closure.now }
    ensures value { result ≡ is_any
        (kind_crossings policy.now (stored_cap objects.now) kind (size_of objects.now.items kind)) }
    ensures counted { result ≡ false →
        fetches.new ≡ fetches.old + object_reads kind * size_of objects.now.items kind }
    ensures least { fetches.old ≤ fetches.new }
    ensures most { fetches.new ≤ fetches.old + object_reads kind * size_of objects.now.items kind }
{
    'each: for n in 0..size(objects, kind) {
        if object_crosses(objects, policy, closure, kind, n, fetches) {
            return true;
        }
    }
    false
}

/// Whether one does in an object.
fn object_crosses<L: Ledger>(
    objects: &Objects,
    policy: &Policy,
    closure: &Closure,
    kind: CapKind,
    n: u16,
    fetches: &mut Steps<L>,
) -> bool
    requires closure { IsClosure policy.now closure.now }
    requires there { n < size_of objects.now.items kind }
    ensures value { result ≡ is_any (object_crossings policy.now (stored_cap objects.now) kind n) }
    ensures counted { result ≡ false → fetches.new ≡ fetches.old + object_reads kind }
    ensures least { fetches.old ≤ fetches.new }
    ensures most { fetches.new ≤ fetches.old + object_reads kind }
{
    'each: for i in 0..places(kind) {
        let cap = stored_cap(objects, kind, n, i, fetches);
        if crossing_by(policy, closure, kind, n, i, cap).is_some() {
            return true;
        }
    }
    false
}

/// Whether a process sleeps on one of another domain, of so many processes.
fn sleeper_crosses(queues: &Queues, count: u16, policy: &Policy) -> bool
    requires { count ≡ length queues.now.sleepers }
    ensures { result ≡ is_any (sleeper_crossings policy.now queues.now) }
{
    'each: for p in 0..sleeper_limit(queues, count) {
        if process_crosses(queues, count, policy, p as u16) {
            return true;
        }
    }
    false
}

/// Whether this process does.
fn process_crosses(queues: &Queues, count: u16, policy: &Policy, p: u16) -> bool
    requires { count ≡ length queues.now.sleepers }
    ensures { result ≡ is_any (process_crossings policy.now queues.now p) }
{
    'each: for on in 0..count {
        if sleeper_on(queues, policy, p, on).is_some() {
            return true;
        }
    }
    false
}
