//! The six parts, each for a process that stands on a hart.
ghost use Rattle.std.specs.Prelude.{◌≡◌, ◌≢◌, ◌<◌, ◌∷◌, true, Ok};
ghost use Rattle.cap_format.specs.declared.kind.CapKind.TheVariants.{Process, Entry};
ghost use Rattle.cap_format.specs.Capability.{bare};
ghost use Rattle.object_store.specs.Store.{size_of};
ghost use Rattle.object_store.specs.Meaning.{is_live, meaning};
ghost use Rattle.operations.specs.Meaning.{cap_map};
ghost use Rattle.rv32_decode.specs.InRange.{InRange};
ghost use Rattle.invocation.specs.Invocation.{parsed};
ghost use Rattle.machine_state.specs.State.{state_of, process, IsOnHart};
ghost use Rattle.machine_state.specs.Outcome.{process_name};
ghost use Rattle.machine_state.specs.Came.{Leaves};
ghost use Rattle.machine_state.specs.Room.{HasRoom, call_room};
ghost use Rattle.messages.specs.Fault.{fault};
ghost use Rattle.messages.specs.Waiting.{listen};
ghost use Rattle.kernel_core.specs.Instruction.{perform};
ghost use Rattle.kernel_core.specs.KernelOperation.{kernel_op};
ghost use Rattle.kernel_core.specs.SystemCall.{move_cap, send};
ghost use Rattle.traced_parts.specs.Traced.{CameTraced};

use cap_format::{Cap, FaultCode};
use invocation::Invocation;
use kernel_core::{Machine, Records, parts};
use rv32_decode::Insn;
use std::sync::ledger::Ledger;
use steps::Steps;
use walk_engine::Translator;

/// An instruction, its fault included.
pub fn perform<T: Translator, L: Ledger>(
    machine: &mut Machine<T>,
    p: u16,
    records: &mut Records,
    insn: Insn,
    fetches: &mut Steps<L>,
)
    requires there { p < size_of machine.old.objects.items Process }
    requires on_hart { IsOnHart machine.old.queues p }
    requires insn { InRange insn }
    requires room { HasRoom call_room records.old }
    ensures came { let outcome = perform (state_of machine.old) p insn in
        CameTraced T.Translator p outcome
        machine.old records.old fetches.old machine.new records.new fetches.new }
    ensures leaves { let outcome = perform (state_of machine.old) p insn in
        Leaves (process_name p ∷ outcome.changed) machine.old machine.new }
{
    parts::perform(machine, p, records, insn, fetches);
}

/// A system call that moves a capability. Any other is malformed.
pub fn move_cap<T: Translator, L: Ledger>(
    machine: &mut Machine<T>,
    p: u16,
    records: &mut Records,
    fetches: &mut Steps<L>,
)
    requires there { p < size_of machine.old.objects.items Process }
    requires on_hart { IsOnHart machine.old.queues p }
    requires room { HasRoom call_room records.old }
    ensures came { let outcome = move_cap (state_of machine.old) p in
        CameTraced T.Translator p outcome
        machine.old records.old fetches.old machine.new records.new fetches.new }
    ensures leaves { let outcome = move_cap (state_of machine.old) p in
        Leaves (process_name p ∷ outcome.changed) machine.old machine.new }
{
    parts::move_cap(machine, p, records, fetches);
}

/// The send phase of an invocation. True where a message is delivered.
pub fn send<T: Translator, L: Ledger>(
    machine: &mut Machine<T>,
    p: u16,
    records: &mut Records,
    inv: &Invocation,
    fetches: &mut Steps<L>,
) -> bool
    requires there { p < size_of machine.old.objects.items Process }
    requires on_hart { IsOnHart machine.old.queues p }
    requires room { HasRoom call_room records.old }
    requires inv { parsed (process (state_of machine.old) p).regs ≡ Ok inv.now }
    ensures delivered { result ≡ (send (state_of machine.old) p inv.now).delivers }
    ensures on_hart { result ≡ true → IsOnHart machine.new.queues p }
    ensures came { let outcome = (send (state_of machine.old) p inv.now).outcome in
        CameTraced T.Translator p outcome
        machine.old records.old fetches.old machine.new records.new fetches.new }
    ensures leaves { let outcome = (send (state_of machine.old) p inv.now).outcome in
        Leaves (process_name p ∷ outcome.changed) machine.old machine.new }
{
    parts::send(machine, p, records, inv, fetches)
}

/// The receive phase of an invocation.
pub fn receive<T: Translator, L: Ledger>(
    machine: &mut Machine<T>,
    p: u16,
    records: &mut Records,
    inv: &Invocation,
    fetches: &mut Steps<L>,
)
    requires there { p < size_of machine.old.objects.items Process }
    ensures came { let outcome = listen (state_of machine.old) p inv.now in
        CameTraced T.Translator p outcome
        machine.old records.old fetches.old machine.new records.new fetches.new }
    ensures translator { machine.new.translator ≡ machine.old.translator }
    ensures leaves { let outcome = listen (state_of machine.old) p inv.now in
        Leaves (process_name p ∷ outcome.changed) machine.old machine.new }
{
    parts::receive(machine, p, records, inv, fetches);
}

/// An operation of the kernel on a capability that is no entry, with its reply.
pub fn kernel_op<T: Translator, L: Ledger>(
    machine: &mut Machine<T>,
    p: u16,
    records: &mut Records,
    cap: Cap,
    inv: &Invocation,
    fetches: &mut Steps<L>,
)
    requires there { p < size_of machine.old.objects.items Process }
    requires on_hart { IsOnHart machine.old.queues p }
    requires room { HasRoom call_room records.old }
    requires live { is_live machine.old.objects.items cap ≡ true }
    requires kind { cap.kind ≢ Entry }
    requires inv { parsed (process (state_of machine.old) p).regs ≡ Ok inv.now }
    ensures came { let outcome = kernel_op (state_of machine.old) p inv.now (bare cap) in
        CameTraced T.Translator p outcome
        machine.old records.old fetches.old machine.new records.new fetches.new }
    ensures leaves { let outcome = kernel_op (state_of machine.old) p inv.now (bare cap) in
        Leaves (process_name p ∷ outcome.changed) machine.old machine.new }
{
    parts::kernel_op(machine, p, records, cap, inv, fetches);
}

/// A fault, with the handler that its walk gave, if it gave one.
pub fn fault<T: Translator, L: Ledger>(
    machine: &mut Machine<T>,
    p: u16,
    records: &mut Records,
    code: FaultCode,
    address: u32,
    handler: Option<Cap>,
    fetches: &mut Steps<L>,
)
    requires there { p < size_of machine.old.objects.items Process }
    requires on_hart { IsOnHart machine.old.queues p }
    requires room { HasRoom 1 records.old }
    ensures came { let meant = cap_map (meaning machine.old.objects.items) handler in
        let outcome = fault (state_of machine.old) p code address meant in
        CameTraced T.Translator p outcome
        machine.old records.old fetches.old machine.new records.new fetches.new }
    ensures translator { machine.new.translator ≡ machine.old.translator }
    ensures leaves { let meant = cap_map (meaning machine.old.objects.items) handler in
        let outcome = fault (state_of machine.old) p code address meant in
        Leaves (process_name p ∷ outcome.changed) machine.old machine.new }
{
    parts::fault(machine, p, records, code, address, handler, fetches);
}
