//! Messages.
ghost use Rattle.std.specs.Prelude.{◌<◌, ◌≤◌, ◌+◌, ℕ, List};
ghost use Rattle.cap_format.specs.declared.kind.CapKind.TheVariants.{Process};
ghost use Rattle.object_store.specs.Store.{size_of};
ghost use Rattle.object_store.specs.Meaning.{meaning};
ghost use Rattle.schedules.specs.Queues.{QueuesValue};
ghost use Rattle.string_move.specs.declared.piece.Piece.{Piece};
ghost use Rattle.machine_state.specs.State.{state_of};
ghost use Rattle.machine_state.specs.Setters.{set_queues};
ghost use Rattle.messages.specs.Strings.{string_fault_map};
ghost use Rattle.messages.specs.Message.{sent_on, sent_by_fault, send_open};
ghost use Rattle.event_reach.specs.Reach.{names_of, Covers};
ghost use Rattle.event_reach.specs.Reads.{a_string, a_message};

use crate::faults::reach_of_fault;
use crate::reach::Reach;
use crate::strings::walk_string;
use invocation::Invocation;
use machine_state::Machine;
use messages::StringFault;
use std::sync::ledger::Ledger;
use steps::Steps;
use walk_engine::Translator;
use walk_meaning::Kind;

/// A message of process `p` through an endpoint to a process that receives there.
pub(crate) fn reach_of_message<T: Translator, L: Ledger>(
    machine: &Machine<T>,
    p: u16,
    inv: &Invocation,
    endpoint: u16,
    to: u16,
    fetches: &mut Steps<L>,
) -> Reach
    requires there { p < size_of machine.now.objects.items Process }
    requires to { to < size_of machine.now.objects.items Process }
    ensures covers { (q : QueuesValue) →
        Covers (names_of result) (send_open (set_queues (state_of machine.now) q) p endpoint to inv.now).changed }
    ensures least { fetches.old ≤ fetches.new }
    ensures most { fetches.new ≤ fetches.old + a_message }
{
    let sent = walk_string(machine, p, Kind::Load, inv.at(), inv.length(), fetches);
    reach_behind(machine, p, inv, endpoint, to, sent.fault, fetches)
}

/// The same behind the sender's string, by its fault.
fn reach_behind<T: Translator, L: Ledger>(
    machine: &Machine<T>,
    p: u16,
    inv: &Invocation,
    endpoint: u16,
    to: u16,
    fault: Option<StringFault>,
    fetches: &mut Steps<L>,
) -> Reach
    requires there { p < size_of machine.now.objects.items Process }
    requires to { to < size_of machine.now.objects.items Process }
    ensures covers { let meant = string_fault_map (meaning machine.now.objects.items) fault in
        (q : QueuesValue) (from : List Piece) → Covers (names_of result)
        (sent_by_fault (set_queues (state_of machine.now) q) p endpoint to inv.now from meant).changed }
    ensures least { fetches.old ≤ fetches.new }
    ensures most { fetches.new ≤ fetches.old + a_string }
{
    match fault {
        Some(fault) => reach_of_fault(machine, p, fault.why.handler),
        None => reach_of_delivery(machine, inv, endpoint, to, fetches),
    }
}

/// A message that is delivered: its endpoint, and the pages of the receiver's buffer.
fn reach_of_delivery<T: Translator, L: Ledger>(
    machine: &Machine<T>,
    inv: &Invocation,
    endpoint: u16,
    to: u16,
    fetches: &mut Steps<L>,
) -> Reach
    requires to { to < size_of machine.now.objects.items Process }
    ensures covers { (q : QueuesValue) (p : ℕ) (from : List Piece) → Covers (names_of result)
        (sent_on (set_queues (state_of machine.now) q) p endpoint to inv.now from).changed }
    ensures least { fetches.old ≤ fetches.new }
    ensures most { fetches.new ≤ fetches.old + a_string }
{
    let accept = machine.acceptance(to);
    let size = inv.length().min(accept.bound());
    let received = walk_string(machine, to, Kind::Store, accept.at(), size, fetches);
    Reach::Message {
        endpoint,
        into: received.pieces,
    }
}
