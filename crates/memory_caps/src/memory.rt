//! Requests that all memory kinds know, and the one call.
ghost use Rattle.std.specs.Prelude.{◌≡◌, ◌≢◌, ◌+◌, [], ◌∷◌, true, IfSome};
ghost use Rattle.cap_format.specs.Kind.{is_memory};
ghost use Rattle.cap_format.specs.Capability.{bare};
ghost use Rattle.object_store.specs.Meaning.{is_live, meaning, map_of, state_map};
ghost use Rattle.object_store.specs.Ahead.{IsBehind, NoneAhead};
ghost use Rattle.object_store.specs.Object.{Stays, object_name};
ghost use Rattle.schedules.specs.Queues.{QueuesValue};
ghost use Rattle.operations.specs.System.{system, Stored, Meant};
ghost use Rattle.operations.specs.Change.{applied_all};
ghost use Rattle.operations.specs.Row.{reply_of, settled, settled_in};
ghost use Rattle.operations.specs.Request.{w1, request_map};
ghost use Rattle.operations.specs.Meaning.{reply_map};
ghost use Rattle.operations.specs.Changed.{DifferBy};
ghost use Rattle.operations.specs.Memory.{own_table, reduce_row, setguard_row, memory_operation, reads};
ghost use Rattle.operations.specs.Fulfils.{Fulfils};

use crate::cap_pages::cap_page;
use crate::gpts::gpt;
use crate::pages::page;
use crate::windows::guarded;
use bitflags::Flags;
use cap_format::{Cap, CapKind, Code, Reply, Request, Restr, reduce};
use object_store::Objects;
use operations::{hand_over, refuse, tell};
use std::sync::ledger::Ledger;
use steps::Steps;

/// Does what is asked of a memory capability. The reply is the table's, and the objects are as its changes leave them.
///
/// A capability in the reply is as it was stored: it may be one that is not live, and then means Null.
pub fn invoke<L: Ledger>(
    objects: &mut Objects,
    cap: Cap,
    request: Request,
    fetches: &mut Steps<L>,
) -> Reply
    requires kind { is_memory cap.kind ≡ true }
    requires live { is_live objects.old.items cap ≡ true }
    requires sent { is_live objects.old.items request.sent ≡ true }
    ensures reply { result ≡ reply_of (memory_operation objects.old cap request) }
    ensures objects { let settled = memory_operation objects.old cap request in
        (q : QueuesValue) → applied_all Stored (system objects.old q) settled.answer.changes ≡ system objects.new q }
    ensures counted { fetches.new ≡ fetches.old + reads cap.kind (w1 request) result.code }

    // As it means: the same request to the model's map.
    ensures reply_means { reply_map (meaning objects.old.items) result ≡
        reply_of (memory_operation (state_map objects.old) (bare cap) (request_map bare request)) }
    ensures means { let map = state_map objects.old in
        let settled = memory_operation map (bare cap) (request_map bare request) in
        (q : QueuesValue) → applied_all Meant (system map q) settled.answer.changes ≡ system (state_map objects.new) q }

    // What stays, and what a refusal leaves.
    ensures refused { result.code ≢ Code.Ok → objects.new ≡ objects.old }
    ensures counts { objects.new.items.counts ≡ objects.old.items.counts }
    ensures stays { Stays (object_name cap.kind cap.object ∷ []) objects.old objects.new }
    ensures differ { DifferBy result.changed (map_of objects.old.items) (map_of objects.new.items) }
    ensures behind { NoneAhead objects.old →
        NoneAhead objects.new × IfSome result.cap (IsBehind objects.old.items) }
{
    answer(objects, cap, request, fetches)
}

/// Does what is asked, as the objects are stored.
#[tactic(auto, unfolding(operations::specs::Memory::memory_operation, operations::specs::Memory::memory_table, operations::specs::Memory::kind_row, operations::specs::Memory::getguard_row, operations::specs::Memory::getrestr_row))]
fn answer<L: Ledger>(
    objects: &mut Objects,
    cap: Cap,
    request: Request,
    fetches: &mut Steps<L>,
) -> Reply
    requires kind { is_memory cap.kind ≡ true }
    requires live { is_live objects.old.items cap ≡ true }
    requires sent { is_live objects.old.items request.sent ≡ true }
    ensures fulfils { let settled = memory_operation objects.old cap request in
        Fulfils settled objects.old result objects.new }
    ensures counted { fetches.new ≡ fetches.old + reads cap.kind (w1 request) result.code }
{
    match request.words[0] {
        0 => tell(u32::from(cap.kind().number()), 0, 0),
        1 => reduce_by(cap, request),
        2 => tell(u32::from(cap.guard().l2g()), cap.guard().matches(), 0),
        3 => set_guard(cap, request),
        4 => tell(u32::from(cap.restr().bits()), 0, 0),
        _ => own(objects, cap, request, fetches),
    }
}

/// A request that the kind alone knows.
#[tactic(auto, unfolding(operations::specs::Memory::own_table))]
fn own<L: Ledger>(
    objects: &mut Objects,
    cap: Cap,
    request: Request,
    fetches: &mut Steps<L>,
) -> Reply
    requires live { is_live objects.old.items cap ≡ true }
    requires sent { is_live objects.old.items request.sent ≡ true }
    ensures fulfils { let settled =
        settled_in (own_table objects.old cap request cap.kind) (w1 request) in
        Fulfils settled objects.old result objects.new }
    ensures counted { fetches.new ≡ fetches.old + reads cap.kind (w1 request) result.code }
{
    match cap.kind() {
        CapKind::Page => page(objects, cap, request),
        CapKind::CapPage => cap_page(objects, cap, request),
        CapKind::Gpt => gpt(objects, cap, request, fetches),
        _ => refuse(Code::UnknownRequest),
    }
}

/// The capability with more restrictions.
#[tactic(auto, unfolding(operations::specs::Memory::reduce_row))]
fn reduce_by(cap: Cap, request: Request) -> Reply
    requires { is_memory cap.kind ≡ true }
    ensures reply { result ≡ reply_of (settled (reduce_row cap request)) }
    ensures quiet { (settled (reduce_row cap request)).answer.changes ≡ [] }
{
    let more = request.words[1];
    if 31 < more {
        return refuse(Code::RequestError);
    }
    hand_over(reduce(cap, Restr::from_bits_retain(more as u8)))
}

/// The capability with another guard.
#[tactic(auto, unfolding(operations::specs::Memory::setguard_row))]
fn set_guard(cap: Cap, request: Request) -> Reply
    requires { is_memory cap.kind ≡ true }
    ensures reply { result ≡ reply_of (settled (setguard_row cap request)) }
    ensures quiet { (settled (setguard_row cap request)).answer.changes ≡ [] }
{
    if cap.restr().contains(Restr::OP) {
        return refuse(Code::NoAccess);
    }
    match guarded(cap, request.words[1], request.words[2]) {
        Some(other) => hand_over(other),
        None => refuse(Code::RequestError),
    }
}
