//! Those who wait for a receiver, and those who listen.
ghost use Rattle.std.specs.Prelude.{◌≡◌, ◌<◌, [], ◌∷◌};
ghost use Rattle.cap_format.specs.declared.kind.CapKind.TheVariants.{Process};
ghost use Rattle.object_store.specs.Store.{size_of};
ghost use Rattle.machine_state.specs.State.{state_of, IsOnHart};
ghost use Rattle.machine_state.specs.Outcome.{process_name};
ghost use Rattle.machine_state.specs.Came.{Came, Leaves};
ghost use Rattle.messages.specs.Waiting.{wait_on, listening_from, listen};

use invocation::Invocation;
use machine_state::{Machine, Observer};
use std::sync::ledger::Ledger;
use steps::Steps;
use walk_engine::Translator;

/// A process waits for another, which is busy. It performs its call again once it is woken.
#[tactic(auto, unfolding(crate::specs::Waiting::wait_on))]
pub fn wait_on<T: Translator, O: Observer, L: Ledger>(
    machine: &mut Machine<T>,
    p: u16,
    _observer: &mut O,
    q: u16,
    _fetches: &mut Steps<L>,
)
    requires there { p < size_of machine.old.objects.items Process }
    requires on_hart { IsOnHart machine.old.queues p }
    requires on { q < size_of machine.old.objects.items Process }
    ensures came { let outcome = wait_on (state_of machine.old) p q in
        Came T.Translator O.Observer p outcome
        machine.old _observer.old _fetches.old machine.new _observer.new _fetches.new }
    ensures translator { machine.new.translator ≡ machine.old.translator }
    ensures leaves { let outcome = wait_on (state_of machine.old) p q in
        Leaves (process_name p ∷ outcome.changed) machine.old machine.new }
{
    machine.wait(p, q);
}

/// The receive phase of an invocation: behind a send phase, or at once where there is none.
#[tactic(auto, unfolding(crate::specs::Waiting::listen), using(crate::proofs::Joined::stays_first))]
pub fn listen<T: Translator, O: Observer, L: Ledger>(
    machine: &mut Machine<T>,
    p: u16,
    _observer: &mut O,
    inv: &Invocation,
    _fetches: &mut Steps<L>,
)
    requires there { p < size_of machine.old.objects.items Process }
    ensures came { let outcome = listen (state_of machine.old) p inv.now in
        Came T.Translator O.Observer p outcome
        machine.old _observer.old _fetches.old machine.new _observer.new _fetches.new }
    ensures translator { machine.new.translator ≡ machine.old.translator }
    ensures leaves { let outcome = listen (state_of machine.old) p inv.now in
        Leaves (process_name p ∷ outcome.changed) machine.old machine.new }
{
    advance_first(machine, p, inv);
    machine.listen(p, inv.accept());
}

/// Advances the pc where no send phase has done so.
#[tactic(auto, using(object_store::proofs::Stays::stays_same))]
fn advance_first<T: Translator>(machine: &mut Machine<T>, p: u16, inv: &Invocation)
    requires { p < size_of machine.old.objects.items Process }
    ensures state { state_of machine.new ≡ listening_from (state_of machine.old) p inv.now }
    ensures leaves { Leaves (process_name p ∷ []) machine.old machine.new }
    ensures queues { machine.new.queues ≡ machine.old.queues }
    ensures translator { machine.new.translator ≡ machine.old.translator }
{
    if !inv.send() {
        machine.advance(p);
    }
}
