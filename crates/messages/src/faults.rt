//! Faults of processes, heard or not.
ghost use Rattle.std.specs.Prelude.{◌≡◌, ◌<◌, ◌≤◌, ◌+◌, ◌++◌, ◌∷◌, length};
ghost use Rattle.cap_format.specs.declared.kind.CapKind.TheVariants.{Process};
ghost use Rattle.object_store.specs.Store.{size_of};
ghost use Rattle.object_store.specs.Meaning.{meaning};
ghost use Rattle.operations.specs.Meaning.{cap_map};
ghost use Rattle.machine_state.specs.State.{state_of, IsOnHart};
ghost use Rattle.machine_state.specs.Outcome.{process_name};
ghost use Rattle.machine_state.specs.Came.{Came, Leaves};
ghost use Rattle.machine_state.specs.Room.{HasRoom};
ghost use Rattle.machine_state.specs.Noted.{noted};
ghost use Rattle.messages.specs.Fault.{fault, fault_records, misaligned, malformed};

use cap_format::{Cap, FaultCode};
use fault_path::Outcome;
use machine_state::{Machine, Observer, Record};
use std::sync::ledger::Ledger;
use steps::Steps;
use walk_engine::Translator;

/// A fault of a process, with the handler that its walk gave, if there was a walk. Whoever hears it is told; where that
/// one is busy, the process waits for it, and nothing is recorded.
#[tactic(auto, unfolding(crate::specs::Fault::fault), using(object_store::proofs::Stays::stays_more))]
#[inline(never)]
pub fn fault<T: Translator, O: Observer, L: Ledger>(
    machine: &mut Machine<T>,
    p: u16,
    observer: &mut O,
    code: FaultCode,
    address: u32,
    handler: Option<Cap>,
    _fetches: &mut Steps<L>,
)
    requires there { p < size_of machine.old.objects.items Process }
    requires on_hart { IsOnHart machine.old.queues p }
    requires room { HasRoom 1 (O.told observer.old) }
    ensures came { let meant = cap_map (meaning machine.old.objects.items) handler in
        let outcome = fault (state_of machine.old) p code address meant in
        Came T.Translator O.Observer p outcome
        machine.old observer.old _fetches.old machine.new observer.new _fetches.new }
    ensures translator { machine.new.translator ≡ machine.old.translator }
    ensures leaves { let meant = cap_map (meaning machine.old.objects.items) handler in
        let outcome = fault (state_of machine.old) p code address meant in
        Leaves (process_name p ∷ outcome.changed) machine.old machine.new }
    ensures most { length (O.told observer.new) ≤ length (O.told observer.old) + 1 }
{
    let outcome = machine.settle_fault(p, code, address, handler);
    tell_fault(observer, p, code, address, outcome);
}

/// Records a fault, by what became of it.
fn tell_fault<O: Observer>(
    observer: &mut O,
    p: u16,
    code: FaultCode,
    address: u32,
    outcome: Outcome,
)
    requires { HasRoom 1 (O.told observer.old) }
    ensures records { O.told observer.new ≡
        O.told observer.old ++ noted O.notes (fault_records p code address outcome) }
    ensures most { length (O.told observer.new) ≤ length (O.told observer.old) + 1 }
{
    let to = match outcome {
        Outcome::Delivered(recipient) => Some(recipient),
        Outcome::Unheard => None,
        Outcome::MustWait(_) => return,
    };
    observer.tell(Record::Fault {
        process: p,
        code,
        address,
        to,
    });
}

/// An address of an instruction or of an access is no multiple of what it has to be.
#[inline(never)]
pub fn misaligned<T: Translator, O: Observer, L: Ledger>(
    machine: &mut Machine<T>,
    p: u16,
    observer: &mut O,
    address: u32,
    fetches: &mut Steps<L>,
)
    requires there { p < size_of machine.old.objects.items Process }
    requires on_hart { IsOnHart machine.old.queues p }
    requires room { HasRoom 1 (O.told observer.old) }
    ensures came { let outcome = misaligned (state_of machine.old) p address in
        Came T.Translator O.Observer p outcome
        machine.old observer.old fetches.old machine.new observer.new fetches.new }
    ensures translator { machine.new.translator ≡ machine.old.translator }
    ensures leaves { let outcome = misaligned (state_of machine.old) p address in
        Leaves (process_name p ∷ outcome.changed) machine.old machine.new }
{
    fault(
        machine,
        p,
        observer,
        FaultCode::BadAlign,
        address,
        None,
        fetches,
    );
}

/// The process calls the system as no call is made.
pub fn malformed<T: Translator, O: Observer, L: Ledger>(
    machine: &mut Machine<T>,
    p: u16,
    observer: &mut O,
    fetches: &mut Steps<L>,
)
    requires there { p < size_of machine.old.objects.items Process }
    requires on_hart { IsOnHart machine.old.queues p }
    requires room { HasRoom 1 (O.told observer.old) }
    ensures came { let outcome = malformed (state_of machine.old) p in
        Came T.Translator O.Observer p outcome
        machine.old observer.old fetches.old machine.new observer.new fetches.new }
    ensures translator { machine.new.translator ≡ machine.old.translator }
    ensures leaves { let outcome = malformed (state_of machine.old) p in
        Leaves (process_name p ∷ outcome.changed) machine.old machine.new }
{
    let pc = machine.pc(p);
    fault(
        machine,
        p,
        observer,
        FaultCode::MalformedSyscall,
        pc,
        None,
        fetches,
    );
}
