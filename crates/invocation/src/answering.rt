//! Who answers an invocation.
ghost use Rattle.std.specs.Prelude.{◌≡◌, ◌<◌};
ghost use Rattle.cap_format.specs.declared.kind.CapKind.TheVariants.{Endpoint as EndpointKind, Process};
ghost use Rattle.object_store.specs.Store.{size_of, process_at};
ghost use Rattle.object_store.specs.Meaning.{live, meaning, state_map};
ghost use Rattle.invocation.specs.Answerer.{answerer, answered_by, entered, refuses, takes};
ghost use Rattle.invocation.specs.Target.{callee, called_by, bare_callee, answer_of, IsReached};

use crate::callee::Callee;
use cap_format::{Cap, CapKind};
use endpoint_objects::Endpoint;
use object_store::Objects;
use process_objects::{State, Wait};

/// Who answers an invocation of this capability. One that is not live reaches the kernel as Null.
pub fn target(objects: &Objects, cap: Cap) -> Callee
    ensures value { result ≡ callee (state_map objects.now) (live objects.now.items cap) }
    ensures means { bare_callee result ≡
        callee (state_map objects.now) (meaning objects.now.items cap) }
    ensures answer { answer_of result ≡
        answerer (state_map objects.now) (meaning objects.now.items cap) }
    ensures there { IsReached objects.now result }
{
    let cap = objects.live(cap);
    match cap.kind() {
        CapKind::Entry => entered(objects, cap.object() as u16, cap.payload()),
        _ => Callee::Kernel(cap),
    }
}

/// Who answers an entry to this endpoint with this payload.
fn entered(objects: &Objects, endpoint: u16, payload: u32) -> Callee
    requires { endpoint < size_of objects.now.items EndpointKind }
    ensures value { result ≡ called_by (entered (state_map objects.now) endpoint payload) }
    ensures there { IsReached objects.now result }
{
    let to = objects.endpoint(endpoint);
    if refuses(to, payload) {
        return Callee::Dead;
    }
    let recipient = objects.live(to.recipient);
    match recipient.kind() {
        CapKind::Process => answered_by(objects, endpoint, to.id, recipient.object() as u16),
        _ => Callee::Dead,
    }
}

/// Whether an endpoint matches payloads, and this one is another than its own.
fn refuses(to: &Endpoint, payload: u32) -> bool
    ensures { result ≡ refuses to.now payload }
{
    to.matching && payload != to.payload
}

/// Whether this process answers through this endpoint with this id, or is busy.
fn answered_by(objects: &Objects, endpoint: u16, id: u32, process: u16) -> Callee
    requires endpoint { endpoint < size_of objects.now.items EndpointKind }
    requires process { process < size_of objects.now.items Process }
    ensures value { let state = (process_at objects.now process).state in
        result ≡ called_by (answered_by state id endpoint process) }
    ensures there { IsReached objects.now result }
{
    match objects.process(process).state() {
        State::Receiving(accept) if takes(accept.wait(), id) => Callee::Open { endpoint, process },
        _ => Callee::Busy(process),
    }
}

/// Whether a wait takes the messages of an endpoint with this id.
fn takes(wait: Wait, id: u32) -> bool
    ensures { result ≡ takes wait id }
{
    match wait {
        Wait::Open => true,
        Wait::Closed(wanted) => wanted == id,
    }
}
