//! What becomes of a message whose string was accessed on both sides.
ghost use Rattle.std.specs.Prelude.{◌≡◌, ◌<◌, ◌≤◌, ◌+◌, [], ◌∷◌, true, length};
ghost use Rattle.std.specs.List.{All};
ghost use Rattle.cap_format.specs.declared.kind.CapKind.TheVariants.{Process, Endpoint};
ghost use Rattle.object_store.specs.Store.{size_of, process_at};
ghost use Rattle.object_store.specs.Meaning.{meaning};
ghost use Rattle.object_store.specs.Ahead.{IsBehind};
ghost use Rattle.invocation.specs.Target.{is_receiving};
ghost use Rattle.invocation.specs.Delivery.{message_map};
ghost use Rattle.string_move.specs.Move.{ArePieces, size_of_pieces};
ghost use Rattle.machine_state.specs.State.{state_of, IsOnHart};
ghost use Rattle.machine_state.specs.Outcome.{process_name};
ghost use Rattle.machine_state.specs.Came.{CameUnasked, Leaves};
ghost use Rattle.machine_state.specs.Room.{HasRoom};
ghost use Rattle.messages.specs.Message.{payload_in, message_of, message_record, sent_off, message_told, delivered};

use invocation::{Invocation, Message};
use machine_state::{Machine, Observer, Record};
use string_move::Pieces;
use walk_engine::Translator;

/// Moves the bytes from the sender's pieces to the receiver's, and tells the receiver.
pub(crate) fn deliver<T: Translator, O: Observer>(
    machine: &mut Machine<T>,
    p: u16,
    observer: &mut O,
    inv: &Invocation,
    endpoint: u16,
    to: u16,
    from: &Pieces,
    into: &Pieces,
)
    requires there { p < size_of machine.old.objects.items Process }
    requires on_hart { IsOnHart machine.old.queues p }
    requires endpoint { endpoint < size_of machine.old.objects.items Endpoint }
    requires receives { is_receiving (process_at machine.old.objects to).state ≡ true }
    requires to { to < size_of machine.old.objects.items Process }
    requires from { ArePieces machine.old.objects.items from.now }
    requires into { ArePieces machine.old.objects.items into.now }
    requires enough { size_of_pieces into.now ≤ size_of_pieces from.now }
    requires longest { size_of_pieces into.now ≤ 65536 }
    requires room { HasRoom 1 (O.told observer.old) }
    ensures came { let outcome =
        delivered (state_of machine.old) p endpoint to inv.now from.now into.now in
        CameUnasked O.Observer outcome machine.old observer.old machine.new observer.new }
    ensures leaves { let outcome =
        delivered (state_of machine.old) p endpoint to inv.now from.now into.now in
        Leaves (process_name p ∷ outcome.changed) machine.old machine.new }
    ensures on_hart { IsOnHart machine.new.queues p }
    ensures most { length (O.told observer.new) ≤ length (O.told observer.old) + 1 }
{
    machine.move_string(from, into);
    tell(machine, p, observer, inv, endpoint, to, into.size());
}

/// Tells the receiver a message of which so many bytes are there, and records it. The sender goes on behind it.
fn tell<T: Translator, O: Observer>(
    machine: &mut Machine<T>,
    p: u16,
    observer: &mut O,
    inv: &Invocation,
    endpoint: u16,
    to: u16,
    size: u32,
)
    requires there { p < size_of machine.old.objects.items Process }
    requires on_hart { IsOnHart machine.old.queues p }
    requires endpoint { endpoint < size_of machine.old.objects.items Endpoint }
    requires to { to < size_of machine.old.objects.items Process }
    requires receives { is_receiving (process_at machine.old.objects to).state ≡ true }
    requires room { HasRoom 1 (O.told observer.old) }
    ensures came { let outcome = message_told (state_of machine.old) p endpoint to inv.now size in
        CameUnasked O.Observer outcome machine.old observer.old machine.new observer.new }
    ensures leaves { let outcome =
        message_told (state_of machine.old) p endpoint to inv.now size in
        Leaves (process_name p ∷ outcome.changed) machine.old machine.new }
    ensures on_hart { IsOnHart machine.new.queues p }
    ensures most { length (O.told observer.new) ≤ length (O.told observer.old) + 1 }
{
    let message = message_of(machine, p, inv, size);
    observer.tell(record_of(machine, p, endpoint, to, &message));
    machine.tell(endpoint, to, message);
    send_off(machine, p, inv.receive());
}

/// What a process says by an invocation, where so many bytes of its string are delivered.
#[tactic(auto, unfolding(crate::specs::Message::message_of))]
fn message_of<T: Translator>(machine: &Machine<T>, p: u16, inv: &Invocation, length: u32) -> Message
    requires there { p < size_of machine.now.objects.items Process }
    ensures means { let f = meaning machine.now.objects.items in
        message_map f result ≡ message_of (state_of machine.now) p inv.now length }
    ensures behind { All (IsBehind machine.now.objects.items) result.caps }
{
    Message {
        words: inv.words(),
        payload: payload_in(machine, p, inv),
        length,
        cut: length < inv.length(),
        caps: machine.capabilities(p, inv.sent()),
    }
}

/// The payload of the entry that a process invokes.
fn payload_in<T: Translator>(machine: &Machine<T>, p: u16, inv: &Invocation) -> u32
    requires { p < size_of machine.now.objects.items Process }
    ensures { result ≡ payload_in (state_of machine.now) p inv.now }
{
    let entry = machine.capability(p, inv.capreg());
    machine.objects().live(entry).payload()
}

/// The record of a message that is about to be told.
fn record_of<T: Translator>(
    machine: &Machine<T>,
    p: u16,
    endpoint: u16,
    to: u16,
    message: &Message,
) -> Record
    requires { to < size_of machine.now.objects.items Process }
    ensures { let meant = message_map (meaning machine.now.objects.items) message.now in
        result ≡ message_record (state_of machine.now) p endpoint to meant }
{
    let sent = message.caps.as_slice().len() as u8;
    let caps = sent.min(machine.acceptance(to).caps());
    Record::Message {
        from: p,
        to,
        endpoint,
        payload: message.payload,
        words: message.words,
        length: message.length,
        caps,
    }
}

/// The sender goes on behind its instruction. Without a receive phase its x10 becomes 0.
#[tactic(auto, using(object_store::proofs::Stays::stays_then))]
fn send_off<T: Translator>(machine: &mut Machine<T>, p: u16, receive: bool)
    requires { p < size_of machine.old.objects.items Process }
    ensures state { state_of machine.new ≡ sent_off (state_of machine.old) p receive }
    ensures leaves { Leaves (process_name p ∷ []) machine.old machine.new }
    ensures queues { machine.new.queues ≡ machine.old.queues }
    ensures translator { machine.new.translator ≡ machine.old.translator }
{
    machine.advance(p);
    if !receive {
        machine.set_register(p, 10, 0);
    }
}
