//! Messages to a process that receives.
ghost use Rattle.std.specs.Prelude.{◌≡◌, ◌<◌, ◌≤◌, ◌+◌, ◌∷◌, true, None, length};
ghost use Rattle.cap_format.specs.declared.kind.CapKind.TheVariants.{Process, Endpoint};
ghost use Rattle.object_store.specs.Store.{size_of, process_at};
ghost use Rattle.object_store.specs.Meaning.{meaning};
ghost use Rattle.invocation.specs.Target.{is_receiving};
ghost use Rattle.string_move.specs.Move.{ArePieces, size_of_pieces};
ghost use Rattle.machine_state.specs.State.{state_of, IsOnHart};
ghost use Rattle.machine_state.specs.Outcome.{process_name};
ghost use Rattle.machine_state.specs.Came.{Came, Leaves};
ghost use Rattle.machine_state.specs.Room.{HasRoom, string_room, told_room, call_room};
ghost use Rattle.messages.specs.Strings.{side_outcome, string_fault_map};
ghost use Rattle.messages.specs.Laws.{message_records};
ghost use Rattle.messages.specs.Message.{sent_side, sent_on, sent_by_fault, send_open, is_whole, is_delivered};

use crate::faults::fault;
use crate::string_fault::StringFault;
use crate::strings::{Found, access_string};
use crate::telling::deliver;
use invocation::Invocation;
use machine_state::{Machine, Observer};
use std::sync::ledger::Ledger;
use steps::Steps;
use string_move::Pieces;
use walk_engine::Translator;
use walk_meaning::Kind;

/// A message through an endpoint to a process that receives there, whether it is delivered. It is not where the sender's
/// string faults: then the sender has this fault, at the address of the first byte of the span that was accessed. The
/// receiver never faults: the string ends before what it can't take.
#[tactic(auto, unfolding(crate::specs::Message::send_open, crate::specs::Message::is_delivered))]
pub fn send_open<T: Translator, O: Observer, L: Ledger>(
    machine: &mut Machine<T>,
    p: u16,
    observer: &mut O,
    inv: &Invocation,
    endpoint: u16,
    to: u16,
    fetches: &mut Steps<L>,
) -> bool
    requires there { p < size_of machine.old.objects.items Process }
    requires on_hart { IsOnHart machine.old.queues p }
    requires endpoint { endpoint < size_of machine.old.objects.items Endpoint }
    requires to { to < size_of machine.old.objects.items Process }
    requires receives { is_receiving (process_at machine.old.objects to).state ≡ true }
    requires room { HasRoom call_room (O.told observer.old) }
    ensures delivered { result ≡ is_delivered (state_of machine.old) p inv.now }
    ensures came { let outcome = send_open (state_of machine.old) p endpoint to inv.now in
        Came T.Translator O.Observer p outcome
        machine.old observer.old fetches.old machine.new observer.new fetches.new }
    ensures leaves { let outcome = send_open (state_of machine.old) p endpoint to inv.now in
        Leaves (process_name p ∷ outcome.changed) machine.old machine.new }
    ensures on_hart { result ≡ true → IsOnHart machine.new.queues p }
    ensures most { length (O.told observer.new) ≤ length (O.told observer.old) + message_records }
{
    let found = access_sent(machine, p, observer, inv, fetches);
    send_found(machine, p, observer, inv, endpoint, to, &found, fetches)
}

/// Accesses the string that a process sends.
fn access_sent<T: Translator, O: Observer, L: Ledger>(
    machine: &mut Machine<T>,
    p: u16,
    observer: &mut O,
    inv: &Invocation,
    fetches: &mut Steps<L>,
) -> Found
    requires there { p < size_of machine.old.objects.items Process }
    requires on_hart { IsOnHart machine.old.queues p }
    requires room { HasRoom string_room (O.told observer.old) }
    ensures pieces { result.pieces ≡ (sent_side (state_of machine.old) p inv.now).pieces }
    ensures fault { let f = meaning machine.new.objects.items in
        string_fault_map f result.fault ≡ (sent_side (state_of machine.old) p inv.now).fault }
    ensures there { ArePieces machine.new.objects.items result.pieces }
    ensures whole { result.fault ≡ None → size_of_pieces result.pieces ≡ inv.now.length }
    ensures came { let s = state_of machine.old in
        let outcome = side_outcome s (sent_side s p inv.now) in
        Came T.Translator O.Observer p outcome
        machine.old observer.old fetches.old machine.new observer.new fetches.new }
    ensures objects { machine.new.objects ≡ machine.old.objects }
    ensures queues { machine.new.queues ≡ machine.old.queues }
    ensures most { length (O.told observer.new) ≤ length (O.told observer.old) + string_room }
{
    let at = inv.at();
    let size = inv.length();
    access_string(machine, p, p, Kind::Load, at, size, observer, fetches)
}

/// A message whose sender's string was accessed.
fn send_found<T: Translator, O: Observer, L: Ledger>(
    machine: &mut Machine<T>,
    p: u16,
    observer: &mut O,
    inv: &Invocation,
    endpoint: u16,
    to: u16,
    found: &Found,
    fetches: &mut Steps<L>,
) -> bool
    requires there { p < size_of machine.old.objects.items Process }
    requires on_hart { IsOnHart machine.old.queues p }
    requires endpoint { endpoint < size_of machine.old.objects.items Endpoint }
    requires to { to < size_of machine.old.objects.items Process }
    requires receives { is_receiving (process_at machine.old.objects to).state ≡ true }
    requires pieces { ArePieces machine.old.objects.items found.now.pieces }
    requires whole { found.now.fault ≡ None → size_of_pieces found.now.pieces ≡ inv.now.length }
    requires room { HasRoom told_room (O.told observer.old) }
    ensures delivered { let f = meaning machine.old.objects.items in
        result ≡ is_whole (string_fault_map f found.now.fault) }
    ensures came { let fault =
        string_fault_map (meaning machine.old.objects.items) found.now.fault in
        let outcome =
        sent_by_fault (state_of machine.old) p endpoint to inv.now found.now.pieces fault in
        Came T.Translator O.Observer p outcome
        machine.old observer.old fetches.old machine.new observer.new fetches.new }
    ensures leaves { let fault =
        string_fault_map (meaning machine.old.objects.items) found.now.fault in
        let outcome =
        sent_by_fault (state_of machine.old) p endpoint to inv.now found.now.pieces fault in
        Leaves (process_name p ∷ outcome.changed) machine.old machine.new }
    ensures on_hart { result ≡ true → IsOnHart machine.new.queues p }
    ensures most { length (O.told observer.new) ≤ length (O.told observer.old) + told_room }
{
    match found.fault {
        Some(StringFault { address, why }) => {
            fault(
                machine,
                p,
                observer,
                why.code,
                address,
                why.handler,
                fetches,
            );
            false
        }
        None => {
            send_on(
                machine,
                p,
                observer,
                inv,
                endpoint,
                to,
                &found.pieces,
                fetches,
            );
            true
        }
    }
}

/// The receiver's side of a message whose string is in these pieces.
fn send_on<T: Translator, O: Observer, L: Ledger>(
    machine: &mut Machine<T>,
    p: u16,
    observer: &mut O,
    inv: &Invocation,
    endpoint: u16,
    to: u16,
    from: &Pieces,
    fetches: &mut Steps<L>,
)
    requires there { p < size_of machine.old.objects.items Process }
    requires on_hart { IsOnHart machine.old.queues p }
    requires endpoint { endpoint < size_of machine.old.objects.items Endpoint }
    requires to { to < size_of machine.old.objects.items Process }
    requires receives { is_receiving (process_at machine.old.objects to).state ≡ true }
    requires from { ArePieces machine.old.objects.items from.now }
    requires whole { size_of_pieces from.now ≡ inv.now.length }
    requires room { HasRoom told_room (O.told observer.old) }
    ensures came { let outcome = sent_on (state_of machine.old) p endpoint to inv.now from.now in
        Came T.Translator O.Observer p outcome
        machine.old observer.old fetches.old machine.new observer.new fetches.new }
    ensures leaves { let outcome = sent_on (state_of machine.old) p endpoint to inv.now from.now in
        Leaves (process_name p ∷ outcome.changed) machine.old machine.new }
    ensures on_hart { IsOnHart machine.new.queues p }
    ensures most { length (O.told observer.new) ≤ length (O.told observer.old) + told_room }
{
    let accept = machine.acceptance(to);
    let at = accept.at();
    let size = inv.length().min(accept.bound());
    let found = access_string(machine, p, to, Kind::Store, at, size, observer, fetches);
    deliver(machine, p, observer, inv, endpoint, to, from, &found.pieces);
}
