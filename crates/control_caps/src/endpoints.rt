//! Requests to an endpoint.
ghost use Rattle.std.specs.Prelude.{◌≡◌, [], true};
ghost use Rattle.cap_format.specs.declared.kind.CapKind.TheVariants.{Endpoint};
ghost use Rattle.object_store.specs.Meaning.{is_live};
ghost use Rattle.operations.specs.Row.{reply_of, settled, settled_in};
ghost use Rattle.operations.specs.Request.{w1};
ghost use Rattle.operations.specs.Control.{endpoint_table, setrecipient_row, getid_row, setid_row, setmatch_row, makeentry_row, setpayload_row};
ghost use Rattle.operations.specs.Fulfils.{Fulfils};

use cap_format::{Cap, CapKind, Code, Reply, Request};
use object_store::Objects;
use operations::{done, hand_over, refuse, tell};

/// A request that endpoints alone know.
#[tactic(auto, unfolding(operations::specs::Control::endpoint_table))]
pub(crate) fn endpoint(objects: &mut Objects, cap: Cap, request: Request) -> Reply
    requires kind { cap.kind ≡ Endpoint }
    requires live { is_live objects.old.items cap ≡ true }
    ensures fulfils { let settled =
        settled_in (endpoint_table objects.old cap request) (w1 request) in
        Fulfils settled objects.old result objects.new }
    ensures processes { objects.new.contents.processes ≡ objects.old.contents.processes }
{
    match request.words[0] {
        8 => set_recipient(objects, cap, request),
        9 => get_id(objects, cap),
        10 => set_id(objects, cap, request),
        11 => set_match(objects, cap, request),
        12 => make_entry(cap, request),
        13 => set_payload(objects, cap, request),
        _ => refuse(Code::UnknownRequest),
    }
}

/// The recipient becomes what was sent.
#[tactic(auto, using(object_store::proofs::Live::live_endpoint), unfolding(operations::specs::Control::setrecipient_row))]
fn set_recipient(objects: &mut Objects, cap: Cap, request: Request) -> Reply
    requires kind { cap.kind ≡ Endpoint }
    requires live { is_live objects.old.items cap ≡ true }
    ensures fulfils { let settled = settled (setrecipient_row objects.old cap request) in
        Fulfils settled objects.old result objects.new }
    ensures processes { objects.new.contents.processes ≡ objects.old.contents.processes }
{
    match request.sent.kind() {
        CapKind::Process | CapKind::Null => {
            objects.endpoint_mut(cap.object() as u16).recipient = request.sent;
            done()
        }
        _ => refuse(Code::RequestError),
    }
}

/// The id, whether payloads have to match, and the payload.
#[tactic(auto, using(object_store::proofs::Live::live_endpoint), unfolding(operations::specs::Control::getid_row))]
fn get_id(objects: &Objects, cap: Cap) -> Reply
    requires kind { cap.kind ≡ Endpoint }
    requires live { is_live objects.now.items cap ≡ true }
    ensures reply { result ≡ reply_of (settled (getid_row objects.now cap)) }
    ensures quiet { (settled (getid_row objects.now cap)).answer.changes ≡ [] }
{
    let endpoint = objects.endpoint(cap.object() as u16);
    tell(endpoint.id, u32::from(endpoint.matching), endpoint.payload)
}

/// The id becomes a word.
#[tactic(auto, using(object_store::proofs::Live::live_endpoint), unfolding(operations::specs::Control::setid_row))]
fn set_id(objects: &mut Objects, cap: Cap, request: Request) -> Reply
    requires kind { cap.kind ≡ Endpoint }
    requires live { is_live objects.old.items cap ≡ true }
    ensures fulfils { let settled = settled (setid_row objects.old cap request) in
        Fulfils settled objects.old result objects.new }
    ensures processes { objects.new.contents.processes ≡ objects.old.contents.processes }
{
    objects.endpoint_mut(cap.object() as u16).id = request.words[1];
    done()
}

/// Whether payloads have to match is set or cleared.
#[tactic(auto, using(object_store::proofs::Live::live_endpoint), unfolding(operations::specs::Control::setmatch_row))]
fn set_match(objects: &mut Objects, cap: Cap, request: Request) -> Reply
    requires kind { cap.kind ≡ Endpoint }
    requires live { is_live objects.old.items cap ≡ true }
    ensures fulfils { let settled = settled (setmatch_row objects.old cap request) in
        Fulfils settled objects.old result objects.new }
    ensures processes { objects.new.contents.processes ≡ objects.old.contents.processes }
{
    let flag = request.words[1];
    if 1 < flag {
        return refuse(Code::RequestError);
    }
    objects.endpoint_mut(cap.object() as u16).matching = flag == 1;
    done()
}

/// An entry to the endpoint.
#[tactic(auto, unfolding(operations::specs::Control::makeentry_row))]
fn make_entry(cap: Cap, request: Request) -> Reply
    requires { cap.kind ≡ Endpoint }
    ensures reply { result ≡ reply_of (settled (makeentry_row cap request)) }
    ensures quiet { (settled (makeentry_row cap request)).answer.changes ≡ [] }
{
    hand_over(Cap::entry(cap.object() as u16, cap.count(), request.words[1]))
}

/// The payload becomes a word.
#[tactic(auto, using(object_store::proofs::Live::live_endpoint), unfolding(operations::specs::Control::setpayload_row))]
fn set_payload(objects: &mut Objects, cap: Cap, request: Request) -> Reply
    requires kind { cap.kind ≡ Endpoint }
    requires live { is_live objects.old.items cap ≡ true }
    ensures fulfils { let settled = settled (setpayload_row objects.old cap request) in
        Fulfils settled objects.old result objects.new }
    ensures processes { objects.new.contents.processes ≡ objects.old.contents.processes }
{
    objects.endpoint_mut(cap.object() as u16).payload = request.words[1];
    done()
}
