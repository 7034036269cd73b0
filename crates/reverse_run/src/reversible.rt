//! A machine with its history.
ghost use Rattle.std.specs.Prelude.{◌≡◌, ◌+◌, ◌<◌, ◌≤◌, [], ◌∷◌, take, length, true, false, IfOk};
ghost use Rattle.machine_state.specs.State.{state_of};
ghost use Rattle.object_store.specs.Object.{IsEven};
ghost use Rattle.object_store.specs.Saved.{restored, AreThere};
ghost use Rattle.machine_state.specs.Machine.{hart_in, IsMachine};
ghost use Rattle.machine_state.specs.Outcome.{spent, kept_after};
ghost use Rattle.machine_state.specs.Past.{names_in, saved_in, slots_back, touches_back};
ghost use Rattle.kernel_core.specs.Event.{event_of};
ghost use Rattle.reverse_run.specs.Remembered.{queues_before, halted_before};
ghost use Rattle.reverse_run.specs.Moments.{moment_of, moment_before, moments_of, undo_touches};
ghost use Rattle.reverse_run.specs.History.{begun, remembered, after_event, after_undo, can_undo, history_of};
ghost use Rattle.reverse_run.specs.Reads.{FetchesWithin, a_memento, an_undo};

use crate::memento::Memento;
use crate::pasts::{make_pasts, take_past};
use crate::remembering::keep_event;
use cap_format::OutOfMemory;
use machine_state::{Event, Machine, Records};
use std::alloc::Global;
use std::collections::VecDeque;
use std::marker::Model;
use std::sync::ledger::Ledger;
use steps::Steps;
use walk_engine::Translator;

/// A machine of which the last events can be undone. All its memory is taken when it is made.
#[derive(Drop)]
pub struct Reversible<T: Translator> {
    machine: Machine<T>,
    /// Of the events that are remembered, the latest first.
    pasts: VecDeque<Memento>,
    /// Of no event.
    spare: Vec<Memento>,
}

impl<T: Translator> Model for Reversible<T> {
    ghost use Rattle.std.specs.Prelude.{◌+◌, length};
    ghost use Rattle.std.specs.Vec.{vec_capacity};
    ghost use Rattle.std.specs.VecDeque.{deque_capacity};
    ghost use Rattle.reverse_run.specs.Moments.{ReversibleValue, moment_of, AreKept};

    ghost Value = { ReversibleValue T };

    ghost view = { λ r. record { machine = r.machine; pasts = r.pasts.items; depth = length r.pasts.items + length r.spare.items } };

    ghost invariant = { λ r. AreKept (moment_of r.machine) r.pasts.items r.spare.items (deque_capacity r.pasts) (vec_capacity r.spare) };
}

impl<T: Translator> Reversible<T> {
    /// A machine of which no event is remembered yet, with room for 1 to 256 events. On a refusal the machine is given
    /// up.
    pub fn new(alloc: Global, machine: Machine<T>, depth: u16) -> Result<Reversible<T>, OutOfMemory>
        requires least { 1 ≤ depth }
        requires most { depth ≤ 256 }
        ensures machine { IfOk result (λ r. r.machine ≡ machine) }
        ensures history { IfOk result (λ r. history_of r ≡ begun (state_of machine)) }
        ensures depth { IfOk result (λ r. r.depth ≡ depth) }
    {
        let sizes = machine.objects().sizes();
        let pasts = VecDeque::with_capacity(alloc, depth as usize)?;
        let spare = make_pasts(alloc, sizes, depth)?;
        Ok(Reversible {
            machine,
            pasts,
            spare,
        })
    }

    pub fn machine(&self) -> &Machine<T>
        ensures { result.now ≡ self.now.machine }
    {
        &self.machine
    }

    /// How many events can be undone.
    pub fn remembered(&self) -> u16
        ensures value { result ≡ remembered (history_of self.now) }
        ensures bound { result ≤ self.now.depth }
    {
        self.pasts.len() as u16
    }

    /// Performs an event, which is remembered. Where as many are remembered as there is room for, the oldest is forgotten.
    pub fn event<L: Ledger>(&mut self, e: Event, fetches: &mut Steps<L>) -> Records
        requires { hart_in e < self.old.machine.objects.harts }
        ensures records { result ≡ (event_of (state_of self.old.machine) e).records }
        ensures history { history_of self.new ≡ after_event self.old.depth (history_of self.old) e }
        ensures moments { moments_of self.new ≡
            take self.old.depth (moment_of self.old.machine ∷ moments_of self.old) }
        ensures kept { let touches = (event_of (state_of self.old.machine) e).touches in
            let kept = T.kept self.old.machine.translator in
            T.kept self.new.machine.translator ≡ kept_after T.cost T.after T.without kept touches }
        ensures depth { self.new.depth ≡ self.old.depth }
        ensures harts { self.new.machine.objects.harts ≡ self.old.machine.objects.harts }

        // It fetches what it does without a history; what comes to that is read to remember it.
        ensures fetched { let touches = (event_of (state_of self.old.machine) e).touches in
            let kept = T.kept self.old.machine.translator in
            let own = spent T.cost T.after T.without kept touches in
            FetchesWithin own a_memento fetches.old fetches.new }
    {
        let mut records = Records::new();
        self.event_into(e, &mut records, fetches);
        records
    }

    /// Performs an event as `event` does, and leaves its records, and no others, in a list that is there already.
    pub fn event_into<L: Ledger>(&mut self, e: Event, records: &mut Records, fetches: &mut Steps<L>)
        requires { hart_in e < self.old.machine.objects.harts }
        ensures records { records.new ≡ (event_of (state_of self.old.machine) e).records }
        ensures history { history_of self.new ≡ after_event self.old.depth (history_of self.old) e }
        ensures moments { moments_of self.new ≡
            take self.old.depth (moment_of self.old.machine ∷ moments_of self.old) }
        ensures kept { let touches = (event_of (state_of self.old.machine) e).touches in
            let kept = T.kept self.old.machine.translator in
            T.kept self.new.machine.translator ≡ kept_after T.cost T.after T.without kept touches }
        ensures depth { self.new.depth ≡ self.old.depth }
        ensures harts { self.new.machine.objects.harts ≡ self.old.machine.objects.harts }

        // It fetches what it does without a history; what comes to that is read to remember it.
        ensures fetched { let touches = (event_of (state_of self.old.machine) e).touches in
            let kept = T.kept self.old.machine.translator in
            let own = spent T.cost T.after T.without kept touches in
            FetchesWithin own a_memento fetches.old fetches.new }
    {
        let mut kept = take_past(&mut self.pasts, &mut self.spare);
        tell_machine(&self.machine);
        keep_event(&mut self.machine, e, &mut kept, fetches);
        kernel_core::event_into(&mut self.machine, e, records, fetches);
        tell_machine(&self.machine);
        self.pasts.push_front_reserved(kept);
    }

    /// Undoes the last event that is remembered, and forgets it: all is stored as it was then. False where none is
    /// remembered, and nothing changes.
    pub fn undo<L: Ledger>(&mut self, fetches: &mut Steps<L>) -> bool
        ensures some { result ≡ can_undo (history_of self.old).before }
        ensures history { history_of self.new ≡ after_undo (history_of self.old) }
        ensures none { result ≡ false → self.new ≡ self.old }
        ensures undone { result ≡ true →
            moments_of self.old ≡ moment_of self.new.machine ∷ moments_of self.new }
        ensures kept { let touches = undo_touches self.old.pasts in
            let kept = T.kept self.old.machine.translator in
            T.kept self.new.machine.translator ≡ kept_after T.cost T.after T.without kept touches }
        ensures depth { self.new.depth ≡ self.old.depth }
        ensures harts { self.new.machine.objects.harts ≡ self.old.machine.objects.harts }
        ensures least { fetches.old ≤ fetches.new }
        ensures most { fetches.new ≤ fetches.old + an_undo }
    {
        match self.pasts.pop_front() {
            None => false,
            Some(kept) => {
                put_back(&mut self.machine, &kept, fetches);
                self.spare.push_reserved(kept);
                true
            }
        }
    }
}

/// Brings a machine back to the moment before the event of which this is remembered.
#[tactic(auto, using(object_store::proofs::Restored::sizes_restored))]
fn put_back<T: Translator, L: Ledger>(
    machine: &mut Machine<T>,
    kept: &Memento,
    fetches: &mut Steps<L>,
)
    requires there { AreThere machine.old.objects (names_in kept.now.past) }
    requires machine { let before = moment_before (moment_of machine.old) kept.now in
        IsMachine before.objects before.queues }
    ensures objects { machine.new.objects ≡
        restored (saved_in kept.now.past) machine.old.objects }
    ensures queues { machine.new.queues ≡ queues_before kept.now machine.old.queues }
    ensures harts { machine.new.objects.harts ≡ machine.old.objects.harts }
    ensures halted { machine.new.halted ≡ halted_before kept.now machine.old.halted }
    ensures counted { fetches.new ≡ fetches.old + slots_back kept.now.past.places }
    ensures kept { let touches = touches_back kept.now.past.places in
        T.kept machine.new.translator
        ≡ kept_after T.cost T.after T.without (T.kept machine.old.translator) touches }
{
    if kept.whole {
        machine.restore(&kept.past, fetches);
    } else {
        machine.restore_objects(&kept.past, fetches);
    }
}

/// Does nothing: its contract tells what every machine keeps.
fn tell_machine<T: Translator>(machine: &Machine<T>)
    ensures machine { IsMachine machine.now.objects machine.now.queues }
    ensures even { IsEven machine.now.objects }
{
    machine.tell_kept();
    let _queues = machine.queues();
    let _sizes = machine.objects().sizes();
}
