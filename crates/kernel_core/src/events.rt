//! Events: one step of a hart, or one tick of its timer.
ghost use Rattle.std.specs.Prelude.{◌≡◌, ◌≢◌, ℕ, ◌<◌, ◌≤◌, ◌+◌, ◌++◌, ◌∷◌, Some, Ok};
ghost use Rattle.cap_format.specs.declared.kind.CapKind.TheVariants.{Process};
ghost use Rattle.object_store.specs.Store.{size_of, sizes_of};
ghost use Rattle.schedules.specs.Queues.{hart_of};
ghost use Rattle.machine_state.specs.State.{state_of, IsOnHart};
ghost use Rattle.machine_state.specs.Outcome.{process_name, spent, kept_after, spared_by};
ghost use Rattle.machine_state.specs.Came.{Came, Leaves};
ghost use Rattle.machine_state.specs.Room.{HasRoom, event_room};
ghost use Rattle.machine_state.specs.Noted.{noted};
ghost use Rattle.machine_state.specs.Machine.{hart_in};
ghost use Rattle.kernel_core.specs.Event.{fetched_from, instruction, event_by, event_of};

use crate::instructions::perform_on;
use cap_format::{CapKind, FaultCode};
use machine_state::{Event, Machine, Observer, Records};
use messages::fault;
use std::sync::ledger::Ledger;
use steps::Steps;
use walk_engine::{Hit, Translator};
use walk_meaning::Kind;

/// Performs one event, and tells what happened. Nothing happens to a machine that is halted. No hart's cache holds more than
/// before but that of the hart that performs it.
#[tactic(auto, using(machine_state::proofs::Changed::sizes_left))]
pub fn event<T: Translator, L: Ledger>(
    machine: &mut Machine<T>,
    e: Event,
    fetches: &mut Steps<L>,
) -> Records
    requires { hart_in e < machine.old.objects.harts }
    ensures state { state_of machine.new ≡ (event_of (state_of machine.old) e).state }
    ensures records { result ≡ (event_of (state_of machine.old) e).records }
    ensures counted { let outcome = event_of (state_of machine.old) e in
        let kept = T.kept machine.old.translator in
        fetches.new ≡ fetches.old + spent T.cost T.after T.without kept outcome.touches }
    ensures kept { let outcome = event_of (state_of machine.old) e in
        let kept = T.kept machine.old.translator in
        T.kept machine.new.translator ≡ kept_after T.cost T.after T.without kept outcome.touches }
    ensures others { let outcome = event_of (state_of machine.old) e in
        let kept = T.kept machine.old.translator in
        (k : ℕ) → k ≢ hart_in e → T.cache machine.new.translator k
        ≡ spared_by T.after T.without T.spared T.purged kept outcome.touches (T.cache machine.old.translator k) }
    ensures less { (k : ℕ) → k ≢ hart_in e →
        T.less (T.cache machine.new.translator k) (T.cache machine.old.translator k) }
    ensures leaves { let outcome = event_of (state_of machine.old) e in
        Leaves outcome.changed machine.old machine.new }
    ensures sizes { sizes_of machine.new.objects ≡ sizes_of machine.old.objects }
    ensures harts { machine.new.objects.harts ≡ machine.old.objects.harts }
{
    let mut records = Records::new();
    event_into(machine, e, &mut records, fetches);
    records
}

/// Performs one event as `event` does, and leaves its records, and no others, in a list that is there already.
#[tactic(auto, using(machine_state::proofs::Changed::sizes_left))]
pub fn event_into<T: Translator, L: Ledger>(
    machine: &mut Machine<T>,
    e: Event,
    records: &mut Records,
    fetches: &mut Steps<L>,
)
    requires { hart_in e < machine.old.objects.harts }
    ensures state { state_of machine.new ≡ (event_of (state_of machine.old) e).state }
    ensures records { records.new ≡ (event_of (state_of machine.old) e).records }
    ensures counted { let outcome = event_of (state_of machine.old) e in
        let kept = T.kept machine.old.translator in
        fetches.new ≡ fetches.old + spent T.cost T.after T.without kept outcome.touches }
    ensures kept { let outcome = event_of (state_of machine.old) e in
        let kept = T.kept machine.old.translator in
        T.kept machine.new.translator ≡ kept_after T.cost T.after T.without kept outcome.touches }
    ensures others { let outcome = event_of (state_of machine.old) e in
        let kept = T.kept machine.old.translator in
        (k : ℕ) → k ≢ hart_in e → T.cache machine.new.translator k
        ≡ spared_by T.after T.without T.spared T.purged kept outcome.touches (T.cache machine.old.translator k) }
    ensures less { (k : ℕ) → k ≢ hart_in e →
        T.less (T.cache machine.new.translator k) (T.cache machine.old.translator k) }
    ensures leaves { let outcome = event_of (state_of machine.old) e in
        Leaves outcome.changed machine.old machine.new }
    ensures sizes { sizes_of machine.new.objects ≡ sizes_of machine.old.objects }
    ensures harts { machine.new.objects.harts ≡ machine.old.objects.harts }
{
    records.clear();
    event_for(machine, e, records, fetches);
}

/// Performs one event as `event` does, and tells an observer what happens.
#[tactic(auto, unfolding(crate::specs::Event::event_by), using(object_store::proofs::Stays::stays_same))]
pub fn event_for<T: Translator, O: Observer, L: Ledger>(
    machine: &mut Machine<T>,
    e: Event,
    observer: &mut O,
    fetches: &mut Steps<L>,
)
    requires hart { hart_in e < machine.old.objects.harts }
    requires room { HasRoom event_room (O.told observer.old) }
    ensures state { state_of machine.new ≡ (event_of (state_of machine.old) e).state }
    ensures told { let outcome = event_of (state_of machine.old) e in
        O.told observer.new ≡ O.told observer.old ++ noted O.notes outcome.records }
    ensures counted { let outcome = event_of (state_of machine.old) e in
        let kept = T.kept machine.old.translator in
        fetches.new ≡ fetches.old + spent T.cost T.after T.without kept outcome.touches }
    ensures kept { let outcome = event_of (state_of machine.old) e in
        let kept = T.kept machine.old.translator in
        T.kept machine.new.translator ≡ kept_after T.cost T.after T.without kept outcome.touches }
    ensures others { let outcome = event_of (state_of machine.old) e in
        let kept = T.kept machine.old.translator in
        (k : ℕ) → k ≢ hart_in e → T.cache machine.new.translator k
        ≡ spared_by T.after T.without T.spared T.purged kept outcome.touches (T.cache machine.old.translator k) }
    ensures less { (k : ℕ) → k ≢ hart_in e →
        T.less (T.cache machine.new.translator k) (T.cache machine.old.translator k) }
    ensures leaves { let outcome = event_of (state_of machine.old) e in
        Leaves outcome.changed machine.old machine.new }
{
    if machine.halted() {
        return;
    }
    match e {
        Event::Step(hart) => {
            if let Some(p) = machine.dispatch(hart) {
                machine.tell_alone(hart, p);
                instruction(machine, hart, p, observer, fetches);
            }
        }
        Event::Tick(hart) => machine.tick(hart),
    }
}

/// One instruction of a process: a fetch at its pc, then what the word says. A page that is kept is asked for first.
#[tactic(auto, unfolding(crate::specs::Event::instruction))]
fn instruction<T: Translator, O: Observer, L: Ledger>(
    machine: &mut Machine<T>,
    hart: u8,
    p: u16,
    observer: &mut O,
    fetches: &mut Steps<L>,
)
    requires there { p < size_of machine.old.objects.items Process }
    requires on_hart { IsOnHart machine.old.queues p }
    requires hart { hart < machine.old.objects.harts }
    requires here { hart_of machine.old.queues hart ≡ Some p }
    requires room { HasRoom event_room (O.told observer.old) }
    ensures came { let outcome = instruction (state_of machine.old) p in
        Came T.Translator O.Observer p outcome
        machine.old observer.old fetches.old machine.new observer.new fetches.new }
    ensures leaves { let outcome = instruction (state_of machine.old) p in
        Leaves outcome.changed machine.old machine.new }
{
    let pc = machine.pc(p);
    match machine.access_kept(hart, p, pc, Kind::Fetch) {
        Some(hit) => fetched(machine, hart, p, observer, hit, fetches),
        None => fetched_anew(machine, hart, p, observer, fetches),
    }
}

/// The same where the page of the pc is not kept, so that it is walked to. It is not inlined, so that an instruction whose
/// page is kept has no room for a fault's handler.
#[inline(never)]
#[tactic(auto, unfolding(crate::specs::Event::instruction))]
fn fetched_anew<T: Translator, O: Observer, L: Ledger>(
    machine: &mut Machine<T>,
    hart: u8,
    p: u16,
    observer: &mut O,
    fetches: &mut Steps<L>,
)
    requires there { p < size_of machine.old.objects.items Process }
    requires on_hart { IsOnHart machine.old.queues p }
    requires hart { hart < machine.old.objects.harts }
    requires here { hart_of machine.old.queues hart ≡ Some p }
    requires room { HasRoom event_room (O.told observer.old) }
    ensures came { let outcome = instruction (state_of machine.old) p in
        Came T.Translator O.Observer p outcome
        machine.old observer.old fetches.old machine.new observer.new fetches.new }
    ensures leaves { let outcome = instruction (state_of machine.old) p in
        Leaves outcome.changed machine.old machine.new }
{
    let pc = machine.pc(p);
    match machine.access_on(hart, p, pc, Kind::Fetch, fetches) {
        Ok(hit) => fetched(machine, hart, p, observer, hit, fetches),
        Err(why) => fault(machine, p, observer, why.code, pc, why.handler, fetches),
    }
}

/// The word at the end of a fetch is performed where it is an instruction.
fn fetched<T: Translator, O: Observer, L: Ledger>(
    machine: &mut Machine<T>,
    hart: u8,
    p: u16,
    observer: &mut O,
    hit: Hit,
    fetches: &mut Steps<L>,
)
    requires there { p < size_of machine.old.objects.items Process }
    requires on_hart { IsOnHart machine.old.queues p }
    requires hart { hart < machine.old.objects.harts }
    requires here { hart_of machine.old.queues hart ≡ Some p }
    requires page { hit.page < size_of machine.old.objects.items CapKind.Page }
    requires within { hit.offset + 4 ≤ 4096 }
    requires room { HasRoom event_room (O.told observer.old) }
    ensures came { let outcome = fetched_from (state_of machine.old) p (Ok hit) in
        Came T.Translator O.Observer p outcome
        machine.old observer.old fetches.old machine.new observer.new fetches.new }
    ensures leaves { let outcome = fetched_from (state_of machine.old) p (Ok hit) in
        Leaves (process_name p ∷ outcome.changed) machine.old machine.new }
{
    let pc = machine.pc(p);
    observer.access(p, Kind::Fetch, pc, hit.page);
    let word = machine.number_at(hit, 4);
    match machine.decode(word) {
        Ok(insn) => {
            observer.insn(p, pc, insn);
            perform_on(machine, hart, p, observer, insn, fetches);
        }
        Err(_) => fault(
            machine,
            p,
            observer,
            FaultCode::BadOpcode,
            pc,
            None,
            fetches,
        ),
    }
}
