//! Requests by the kind of the capability that is asked, and the one call.
ghost use Rattle.std.specs.Prelude.{◌≡◌, ◌≢◌, length, true, IfSome};
ghost use Rattle.cap_format.specs.Capability.{bare};
ghost use Rattle.cap_format.specs.declared.kind.CapKind.TheVariants.{Process};
ghost use Rattle.object_store.specs.Store.{size_of};
ghost use Rattle.object_store.specs.Meaning.{is_live, meaning, map_of, state_map};
ghost use Rattle.object_store.specs.Ahead.{IsBehind, NoneAhead};
ghost use Rattle.object_store.specs.Object.{Stays};
ghost use Rattle.schedules.specs.Ready.{Agrees, runs_of};
ghost use Rattle.operations.specs.System.{system, Stored, Meant};
ghost use Rattle.operations.specs.Change.{applied_all};
ghost use Rattle.operations.specs.Row.{reply_of, settled_in};
ghost use Rattle.operations.specs.Request.{w1, request_map};
ghost use Rattle.operations.specs.Meaning.{reply_map};
ghost use Rattle.operations.specs.Changed.{DifferBy, names_in};
ghost use Rattle.operations.specs.Control.{own_table, control_operation, is_null};
ghost use Rattle.operations.specs.Fulfils.{FulfilsAll};
ghost use Rattle.control_caps.specs.Kinds.{is_control, Keeps};

use crate::destruction::range;
use crate::endpoints::endpoint;
use crate::processes::process;
use crate::values::{discrim, schedule};
use cap_format::{Cap, CapKind, Code, Reply, Request};
use object_store::Objects;
use operations::{refuse, tell};
use schedules::Queues;

/// Does what is asked of a capability of one of these kinds, KernLog and SysCtl being none of them. The reply is the
/// table's, and the objects and queues are as its changes leave them. A process that is asked may be the one that
/// asks: it is changed as it is handed in.
///
/// A capability in the reply is as it was stored: it may be one that is not live, and then means Null.
pub fn invoke(objects: &mut Objects, queues: &mut Queues, cap: Cap, request: Request) -> Reply
    requires kind { is_control cap.kind ≡ true }
    requires live { is_live objects.old.items cap ≡ true }
    requires sent { is_live objects.old.items request.sent ≡ true }
    requires none_ahead { NoneAhead objects.old }
    requires sizes { length queues.old.sleepers ≡ size_of objects.old.items Process }
    requires agrees { Agrees (runs_of objects.old queues.old) }
    ensures reply { result ≡ reply_of (control_operation Stored objects.old cap request) }
    ensures after { let settled = control_operation Stored objects.old cap request in
        applied_all Stored (system objects.old queues.old) settled.answer.changes ≡
        system objects.new queues.new }

    // As it means: the same request to the model's map.
    ensures reply_means { let map = state_map objects.old in
        reply_map (meaning objects.old.items) result ≡
        reply_of (control_operation Meant map (bare cap) (request_map bare request)) }
    ensures means { let map = state_map objects.old in
        let settled = control_operation Meant map (bare cap) (request_map bare request) in
        applied_all Meant (system map queues.old) settled.answer.changes ≡
        system (state_map objects.new) queues.new }

    // What a refusal leaves, and what stays. A capability is given only where nothing changes.
    ensures refused { result.code ≢ Code.Ok →
        (objects.new ≡ objects.old) × (queues.new ≡ queues.old) }
    ensures given { IfSome result.cap
        (λ given. (objects.new ≡ objects.old) × IsBehind objects.old.items given) }
    ensures stays { let settled = control_operation Stored objects.old cap request in
        let names = names_in Stored (system objects.old queues.old) settled.answer.changes in
        Stays names objects.old objects.new }
    ensures differ { DifferBy result.changed (map_of objects.old.items) (map_of objects.new.items) }
    ensures kept { Keeps objects.old queues.old objects.new queues.new }
{
    answer(objects, queues, cap, request)
}

/// Does what is asked, as the objects are stored.
#[tactic(auto, unfolding(operations::specs::Control::control_operation, operations::specs::Control::control_table, operations::specs::Memory::kind_row))]
fn answer(objects: &mut Objects, queues: &mut Queues, cap: Cap, request: Request) -> Reply
    requires live { is_live objects.old.items cap ≡ true }
    requires sent { is_live objects.old.items request.sent ≡ true }
    requires none_ahead { NoneAhead objects.old }
    requires sizes { length queues.old.sleepers ≡ size_of objects.old.items Process }
    requires agrees { Agrees (runs_of objects.old queues.old) }
    ensures fulfils { let settled = control_operation Stored objects.old cap request in
        FulfilsAll settled objects.old queues.old result objects.new queues.new }
    ensures agrees { Agrees (runs_of objects.new queues.new) }
{
    if is_null(cap.kind()) {
        return refuse(Code::InvalidCap);
    }
    if request.words[0] == 0 {
        return tell(u32::from(cap.kind().number()), 0, 0);
    }
    own(objects, queues, cap, request)
}

/// Whether a kind is that of a capability to nothing.
fn is_null(kind: CapKind) -> bool
    ensures { result ≡ is_null kind }
{
    matches!(kind, CapKind::Null)
}

/// A request that the kind alone knows.
#[tactic(auto, unfolding(operations::specs::Control::own_table))]
fn own(objects: &mut Objects, queues: &mut Queues, cap: Cap, request: Request) -> Reply
    requires live { is_live objects.old.items cap ≡ true }
    requires sent { is_live objects.old.items request.sent ≡ true }
    requires none_ahead { NoneAhead objects.old }
    requires sizes { length queues.old.sleepers ≡ size_of objects.old.items Process }
    requires agrees { Agrees (runs_of objects.old queues.old) }
    ensures fulfils { let settled =
        settled_in (own_table Stored objects.old cap request cap.kind) (w1 request) in
        FulfilsAll settled objects.old queues.old result objects.new queues.new }
    ensures agrees { Agrees (runs_of objects.new queues.new) }
{
    match cap.kind() {
        CapKind::Endpoint => endpoint(objects, cap, request),
        CapKind::Process => process(objects, queues, cap, request),
        CapKind::Schedule => schedule(cap, request),
        CapKind::Range => range(objects, queues, request),
        CapKind::Discrim => discrim(request),
        _ => refuse(Code::UnknownRequest),
    }
}
