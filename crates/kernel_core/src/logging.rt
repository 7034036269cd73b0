//! Requests to KernLog.
ghost use Rattle.std.specs.Prelude.{◌≡◌, ◌<◌, ◌≤◌, ◌∷◌, true, false, None};
ghost use Rattle.cap_format.specs.declared.kind.CapKind.TheVariants.{Process};
ghost use Rattle.cap_format.specs.Capability.{bare};
ghost use Rattle.object_store.specs.Store.{size_of};
ghost use Rattle.object_store.specs.Meaning.{meaning};
ghost use Rattle.string_move.specs.Move.{ArePieces, size_of_pieces};
ghost use Rattle.messages.specs.Strings.{string_fault_map};
ghost use Rattle.machine_state.specs.State.{state_of, IsOnHart};
ghost use Rattle.machine_state.specs.Outcome.{process_name};
ghost use Rattle.machine_state.specs.Came.{Came, CameUnasked, Leaves};
ghost use Rattle.machine_state.specs.Room.{HasRoom, told_room};
ghost use Rattle.kernel_core.specs.KernelOperation.{kernlog_op, is_no_log, log_string, logged};

use crate::answering::{answer_call, kind_reply};
use cap_format::{Cap, Code};
use invocation::Invocation;
use machine_state::{Machine, Observer, Record};
use messages::{Found, StringFault, access_string, fault};
use operations::{done, refuse};
use std::sync::ledger::Ledger;
use steps::Steps;
use string_move::Pieces;
use walk_engine::Translator;
use walk_meaning::Kind;

/// The request that writes to the log.
const LOG: u32 = 8;

/// The most bytes that are logged at once.
const LONGEST_LOG: u32 = 256;

/// A request to KernLog. Its string's length is looked at before the string.
#[tactic(auto, unfolding(crate::specs::KernelOperation::kernlog_op))]
pub(crate) fn kernlog_op<T: Translator, O: Observer, L: Ledger>(
    machine: &mut Machine<T>,
    p: u16,
    observer: &mut O,
    cap: Cap,
    inv: &Invocation,
    fetches: &mut Steps<L>,
)
    requires there { p < size_of machine.old.objects.items Process }
    requires on_hart { IsOnHart machine.old.queues p }
    requires room { HasRoom told_room (O.told observer.old) }
    ensures came { let outcome = kernlog_op (state_of machine.old) p inv.now (bare cap) in
        Came T.Translator O.Observer p outcome
        machine.old observer.old fetches.old machine.new observer.new fetches.new }
    ensures leaves { let outcome = kernlog_op (state_of machine.old) p inv.now (bare cap) in
        Leaves (process_name p ∷ outcome.changed) machine.old machine.new }
{
    if inv.words()[0] != LOG {
        answer_call(machine, p, inv, kind_reply(cap, inv.words()[0]));
    } else if is_no_log(inv.length()) {
        answer_call(machine, p, inv, refuse(Code::RequestError));
    } else {
        log_string(machine, p, observer, inv, fetches);
    }
}

/// Whether a string is no log: empty, or longer than one may be.
fn is_no_log(length: u32) -> bool
    ensures value { result ≡ is_no_log length }
    ensures within { result ≡ false → length ≤ 256 }
{
    length == 0 || length > LONGEST_LOG
}

/// Accesses the string of a process and logs it. A fault on it is the process's.
#[tactic(auto, unfolding(crate::specs::KernelOperation::log_string))]
fn log_string<T: Translator, O: Observer, L: Ledger>(
    machine: &mut Machine<T>,
    p: u16,
    observer: &mut O,
    inv: &Invocation,
    fetches: &mut Steps<L>,
)
    requires there { p < size_of machine.old.objects.items Process }
    requires on_hart { IsOnHart machine.old.queues p }
    requires length { inv.now.length ≤ 256 }
    requires room { HasRoom told_room (O.told observer.old) }
    ensures came { let outcome = log_string (state_of machine.old) p inv.now in
        Came T.Translator O.Observer p outcome
        machine.old observer.old fetches.old machine.new observer.new fetches.new }
    ensures leaves { let outcome = log_string (state_of machine.old) p inv.now in
        Leaves (process_name p ∷ outcome.changed) machine.old machine.new }
{
    let at = inv.at();
    let size = inv.length();
    let found = access_string(machine, p, p, Kind::Load, at, size, observer, fetches);
    log_found(machine, p, observer, inv, &found, fetches);
}

/// Logs a string whose accesses found this, or does its fault.
fn log_found<T: Translator, O: Observer, L: Ledger>(
    machine: &mut Machine<T>,
    p: u16,
    observer: &mut O,
    inv: &Invocation,
    found: &Found,
    fetches: &mut Steps<L>,
)
    requires there { p < size_of machine.old.objects.items Process }
    requires on_hart { IsOnHart machine.old.queues p }
    requires pieces { ArePieces machine.old.objects.items found.now.pieces }
    requires most { size_of_pieces found.now.pieces ≤ 256 }
    requires room { HasRoom 1 (O.told observer.old) }
    ensures came { let fault =
        string_fault_map (meaning machine.old.objects.items) found.now.fault in
        let outcome = logged (state_of machine.old) p inv.now found.now.pieces fault in
        Came T.Translator O.Observer p outcome
        machine.old observer.old fetches.old machine.new observer.new fetches.new }
    ensures leaves { let fault =
        string_fault_map (meaning machine.old.objects.items) found.now.fault in
        let outcome = logged (state_of machine.old) p inv.now found.now.pieces fault in
        Leaves (process_name p ∷ outcome.changed) machine.old machine.new }
{
    match found.fault {
        Some(StringFault { address, why }) => {
            fault(
                machine,
                p,
                observer,
                why.code,
                address,
                why.handler,
                fetches,
            );
        }
        None => log_pieces(machine, p, observer, inv, &found.pieces),
    }
}

/// Tells the bytes of these pieces.
fn log_pieces<T: Translator, O: Observer>(
    machine: &mut Machine<T>,
    p: u16,
    observer: &mut O,
    inv: &Invocation,
    pieces: &Pieces,
)
    requires there { p < size_of machine.old.objects.items Process }
    requires pieces { ArePieces machine.old.objects.items pieces.now }
    requires most { size_of_pieces pieces.now ≤ 256 }
    requires room { HasRoom 1 (O.told observer.old) }
    ensures came { let outcome = logged (state_of machine.old) p inv.now pieces.now None in
        CameUnasked O.Observer outcome machine.old observer.old machine.new observer.new }
    ensures leaves { let outcome = logged (state_of machine.old) p inv.now pieces.now None in
        Leaves (process_name p ∷ outcome.changed) machine.old machine.new }
{
    let bytes = machine.log_bytes(pieces);
    observer.tell(Record::Log { process: p, bytes });
    answer_call(machine, p, inv, done());
}
