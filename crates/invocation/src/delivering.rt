//! What a message makes of its endpoint and of its receiver.
ghost use Rattle.std.specs.Prelude.{◌≡◌, ◌<◌, ◌≤◌, true, List};
ghost use Rattle.std.specs.List.{All};
ghost use Rattle.cap_format.specs.declared.kind.CapKind.TheVariants.{Endpoint, Process as ProcessKind};
ghost use Rattle.process_objects.specs.Accept.{IsAccept};
ghost use Rattle.object_store.specs.Store.{size_of, endpoint_at, process_at};
ghost use Rattle.object_store.specs.Meaning.{meaning, state_map};
ghost use Rattle.object_store.specs.Ahead.{IsBehind, NoneAhead};
ghost use Rattle.object_store.specs.Object.{Stays};
ghost use Rattle.invocation.specs.Target.{is_receiving};
ghost use Rattle.invocation.specs.Delivery.{accepted, accepting, number_given, given, told_process, received, passed_at, delivered, message_map, changed_by_message};

use crate::message::Message;
use cap_format::Cap;
use object_store::Objects;
use process_objects::{Accept, Process, State};

/// A message to a process that receives, through an endpoint. The bytes of its string are the caller's, as is making the
/// receiver ready.
pub fn deliver(objects: &mut Objects, endpoint: u16, process: u16, message: Message)
    requires endpoint { endpoint < size_of objects.old.items Endpoint }
    requires receiving { is_receiving (process_at objects.old process).state ≡ true }
    ensures after { objects.new ≡ delivered objects.old endpoint process message }
    ensures items { objects.new.items ≡ objects.old.items }
    ensures harts { objects.new.harts ≡ objects.old.harts }
    ensures stays { let names = changed_by_message endpoint process in
        Stays names objects.old objects.new }
    ensures means { let items = objects.old.items in state_map objects.new ≡
        delivered (state_map objects.old) endpoint process (message_map (meaning items) message) }
    ensures none_ahead { All (IsBehind objects.old.items) message.caps →
        NoneAhead objects.old → NoneAhead objects.new }
{
    objects.in_ranges();
    let id = pass(objects, endpoint);
    receive(objects.process_mut(process), id, &message);
}

/// What a process that receives accepts.
pub fn acceptance(process: &Process) -> Accept
    requires { is_receiving process.now.state ≡ true }
    ensures value { result ≡ accepted process.now.state }
    ensures range { IsAccept result }
{
    match process.state() {
        State::Receiving(accept) => {
            let _range = accept.caps();
            accept
        }
        _ => unreachable!(),
    }
}

/// A message goes through an endpoint, whose id it tells.
fn pass(objects: &mut Objects, endpoint: u16) -> u32
    requires { endpoint < size_of objects.old.items Endpoint }
    ensures after { objects.new ≡ passed_at objects.old endpoint }
    ensures id { result ≡ (endpoint_at objects.old endpoint).id }
{
    let to = objects.endpoint_mut(endpoint);
    if to.matching {
        to.raise();
    }
    to.id
}

/// A process that receives takes a message of an endpoint with this id.
fn receive(receiver: &mut Process, id: u32, message: &Message)
    requires { is_receiving receiver.old.state ≡ true }
    ensures { receiver.new ≡ received receiver.old id message.now }
{
    let accept = acceptance(receiver);
    let registers = accept.regs();
    let registers = &registers[..accept.caps() as usize];
    let caps = message.caps.as_slice();
    let number = caps.len().min(registers.len());
    tell(receiver, id, number as u8, message);
    give(receiver, registers, caps);
}

/// Writes the registers that tell a message.
#[tactic(auto, unfolding(crate::specs::Delivery::told_process))]
fn tell(receiver: &mut Process, id: u32, number: u8, message: &Message)
    requires { number ≤ 4 }
    ensures { receiver.new ≡ told_process receiver.old id number message.now }
{
    let cut = if message.cut { 256 } else { 0 };
    receiver.set_reg(10, 1 + cut + 65536 * u32::from(number));
    receiver.set_reg(11, message.words[0]);
    receiver.set_reg(12, message.words[1]);
    receiver.set_reg(13, message.words[2]);
    receiver.set_reg(14, message.words[3]);
    receiver.set_reg(15, message.payload);
    receiver.set_reg(16, message.length);
    receiver.set_reg(22, id);
}

/// Writes capabilities to registers, in their order, as far as there are both.
fn give(receiver: &mut Process, registers: &[u8], caps: &[Cap])
    requires { All (λ register. register ≤ 31) registers.now }
    ensures { receiver.new ≡ given receiver.old registers.now caps.now }
{
    for i in 0..registers.len().min(caps.len()) {
        receiver.set_capreg(registers[i], caps[i]);
    }
}
