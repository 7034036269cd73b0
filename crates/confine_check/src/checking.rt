//! Whether a cut holds in a machine.
ghost use Rattle.std.specs.Prelude.{ℕ, ◌≡◌, ◌<◌, ◌≤◌, ◌+◌, ◌*◌, ◌↔◌, length};
ghost use Rattle.cap_format.specs.declared.kind.CapKind.TheVariants.{CapPage, Gpt, Process};
ghost use Rattle.object_store.specs.Store.{size_of};
ghost use Rattle.machine_state.specs.State.{state_of};
ghost use Rattle.confinement.specs.Cut.{Holds};
ghost use Rattle.confinement.specs.Acts.{system_of};
ghost use Rattle.confinement.specs.Separation.{Separated};
ghost use Rattle.confine_check.specs.declared.verdict.Verdict.TheVariants.{Yes};
ghost use Rattle.confine_check.specs.Sides.{cut_of};
ghost use Rattle.confine_check.specs.Breach.{broken_by, verdict_of};
ghost use Rattle.confine_check.specs.Found.{meant, reads_to, verdict_in};
ghost use Rattle.confine_check.specs.Full.{IsFull, AreFull};

use crate::breach::breach_of;
use crate::cut::Cut;
use crate::sleeping::sleeper_of;
use crate::verdict::{Breach, Verdict};
use machine_state::Machine;
use object_store::Objects;
use std::sync::ledger::Ledger;
use steps::Steps;
use walk_engine::Translator;

/// Whether the cut holds in a machine, or the first that breaks it: a capability, in the order in which objects are
/// printed and their places have their numbers, and where none does the least process that sleeps on one of the other
/// side. Each slot of a GPT is read at most once.
///
/// Where it holds, then whatever events follow, an event that a process of one side performs leaves every object of the
/// other side as it is, and the cut holds again.
pub fn confined<T: Translator, L: Ledger>(
    machine: &Machine<T>,
    cut: &Cut,
    fetches: &mut Steps<L>,
) -> Verdict
    ensures verdict { result ≡ verdict_of (cut_of cut.now) machine.now.objects machine.now.queues }
    ensures means { meant result ≡ verdict_in (cut_of cut.now) (state_of machine.now) }
    ensures exactly { (result ≡ Yes) ↔ Holds (cut_of cut.now) (system_of (state_of machine.now)) }
    ensures separated { result ≡ Yes → Separated (cut_of cut.now) (state_of machine.now) }
    ensures counted { fetches.new ≡
        fetches.old + reads_to result (size_of machine.now.objects.items Gpt) }
    ensures most { fetches.new ≤ fetches.old + 16 * size_of machine.now.objects.items Gpt }
{
    tell_full(machine.objects());
    verdict(machine, cut, fetches)
}

/// The first that breaks the cut, if anything does.
fn verdict<T: Translator, L: Ledger>(
    machine: &Machine<T>,
    cut: &Cut,
    fetches: &mut Steps<L>,
) -> Verdict
    ensures verdict { result ≡ verdict_of (cut_of cut.now) machine.now.objects machine.now.queues }
    ensures counted { fetches.new ≡
        fetches.old + reads_to result (size_of machine.now.objects.items Gpt) }
    ensures most { fetches.new ≤ fetches.old + 16 * size_of machine.now.objects.items Gpt }
{
    let objects = machine.objects();
    if let Some(found) = breach_of(objects, cut, fetches) {
        return broken(found);
    }
    let count = objects.sizes().processes;
    match sleeper_of(machine.queues(), count, cut) {
        Some(process) => Verdict::Sleeper { process },
        None => Verdict::Yes,
    }
}

/// A cut that this capability breaks.
fn broken(found: Breach) -> Verdict
    ensures { result ≡ broken_by found }
{
    let Breach {
        kind,
        number,
        place,
        cap,
    } = found;
    Verdict::Capability {
        kind,
        number,
        place,
        cap,
    }
}

/// Does nothing: its contract tells that all objects have all of their places.
pub fn tell_full(objects: &Objects)
    ensures { AreFull objects.now }
{
    objects.in_ranges();
    tell_full_cappages(objects, objects.sizes().cappages);
    tell_full_processes(objects, objects.sizes().processes);
}

/// The same of so many capability pages.
fn tell_full_cappages(objects: &Objects, count: u16)
    requires { count ≡ size_of objects.now.items CapPage }
    ensures { (n : ℕ) → n < count → IsFull objects.now CapPage n }
{
    'each: for n in 0..count {
        let _page = objects.cappage(n);
    }
}

/// The same of so many processes.
fn tell_full_processes(objects: &Objects, count: u16)
    requires { count ≡ size_of objects.now.items Process }
    ensures { (n : ℕ) → n < count → IsFull objects.now Process n }
{
    'each: for n in 0..count {
        let _process = objects.process(n);
    }
}
