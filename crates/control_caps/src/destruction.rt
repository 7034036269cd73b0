//! What Range does: capabilities to any object, and its destruction.
ghost use Rattle.std.specs.Prelude.{◌≡◌, ◌≢◌, ◌<◌, length, true};
ghost use Rattle.cap_format.specs.declared.kind.CapKind.TheVariants.{Process};
ghost use Rattle.cap_format.specs.Kind.{is_object};
ghost use Rattle.object_store.specs.Store.{size_of, count_of, emptied};
ghost use Rattle.object_store.specs.Meaning.{is_live};
ghost use Rattle.object_store.specs.Ahead.{NoneAhead};
ghost use Rattle.schedules.specs.Ready.{Agrees, runs_of};
ghost use Rattle.operations.specs.System.{system, Stored};
ghost use Rattle.operations.specs.Change.{applied_all};
ghost use Rattle.operations.specs.Row.{settled, settled_in};
ghost use Rattle.operations.specs.Request.{w1};
ghost use Rattle.operations.specs.Control.{range_table, destroy_row, destruction_of, is_process};
ghost use Rattle.operations.specs.Fulfils.{FulfilsAll};

use crate::processes::put_away;
use crate::values::get_cap;
use cap_format::{Cap, CapKind, Code, Item, LAST_COUNT, Reply, Request};
use object_store::Objects;
use operations::{item_changed, refuse};
use schedules::Queues;

/// A request that Range alone knows.
#[tactic(auto, unfolding(operations::specs::Control::range_table))]
pub(crate) fn range(objects: &mut Objects, queues: &mut Queues, request: Request) -> Reply
    requires sent { is_live objects.old.items request.sent ≡ true }
    requires none_ahead { NoneAhead objects.old }
    requires sizes { length queues.old.sleepers ≡ size_of objects.old.items Process }
    requires agrees { Agrees (runs_of objects.old queues.old) }
    ensures fulfils { let settled =
        settled_in (range_table Stored objects.old request) (w1 request) in
        FulfilsAll settled objects.old queues.old result objects.new queues.new }
    ensures agrees { Agrees (runs_of objects.new queues.new) }
{
    match request.words[0] {
        8 => get_cap(objects, request),
        9 => destroy(objects, queues, request.sent),
        _ => refuse(Code::UnknownRequest),
    }
}

/// The object of what was sent is destroyed, unless its count is the last.
#[tactic(auto, using(object_store::proofs::Live::live_names), unfolding(operations::specs::Control::destroy_row))]
fn destroy(objects: &mut Objects, queues: &mut Queues, sent: Cap) -> Reply
    requires sent { is_live objects.old.items sent ≡ true }
    requires none_ahead { NoneAhead objects.old }
    requires sizes { length queues.old.sleepers ≡ size_of objects.old.items Process }
    requires agrees { Agrees (runs_of objects.old queues.old) }
    ensures fulfils { let settled = settled (destroy_row objects.old sent) in
        FulfilsAll settled objects.old queues.old result objects.new queues.new }
    ensures agrees { Agrees (runs_of objects.new queues.new) }
{
    let kind = sent.kind();
    if !kind.is_object() {
        return refuse(Code::RequestError);
    }
    let n = sent.object() as u16;
    if objects.count(kind, n) == LAST_COUNT {
        return refuse(Code::CountSpent);
    }
    item_changed(take_apart(objects, queues, kind, n))
}

/// An object whose count is not the last is destroyed. Gives its header, the item that changes.
#[tactic(auto, using(operations::proofs::Placed::agrees_emptied), unfolding(operations::specs::Control::destruction_of))]
fn take_apart(objects: &mut Objects, queues: &mut Queues, kind: CapKind, n: u16) -> Item
    requires kind { is_object kind ≡ true }
    requires there { n < size_of objects.old.items kind }
    requires more { count_of objects.old.items kind n ≢ 1048575 }
    requires none_ahead { NoneAhead objects.old }
    requires sizes { length queues.old.sleepers ≡ size_of objects.old.items Process }
    requires agrees { Agrees (runs_of objects.old queues.old) }
    ensures item { result ≡ Item.Header kind n }
    ensures after { let changes = destruction_of objects.old kind n in
        applied_all Stored (system objects.old queues.old) changes ≡ system objects.new queues.new }
    ensures agrees { Agrees (runs_of objects.new queues.new) }
{
    if is_process(kind) {
        return end_process(objects, queues, n);
    }
    renew(objects, kind, n)
}

/// Whether a kind is that of processes.
fn is_process(kind: CapKind) -> bool
    ensures value { result ≡ is_process kind }
    ensures kind { result ≡ true → kind ≡ Process }
{
    matches!(kind, CapKind::Process)
}

/// A process is stopped, its sleepers are woken, and it is destroyed.
#[tactic(auto, unfolding(operations::specs::Control::destruction_of))]
fn end_process(objects: &mut Objects, queues: &mut Queues, p: u16) -> Item
    requires there { p < size_of objects.old.items Process }
    requires more { count_of objects.old.items Process p ≢ 1048575 }
    requires none_ahead { NoneAhead objects.old }
    requires sizes { length queues.old.sleepers ≡ size_of objects.old.items Process }
    requires agrees { Agrees (runs_of objects.old queues.old) }
    ensures item { result ≡ Item.Header Process p }
    ensures after { let changes = destruction_of objects.old Process p in
        applied_all Stored (system objects.old queues.old) changes ≡ system objects.new queues.new }
    ensures agrees { Agrees (runs_of objects.new queues.new) }
{
    put_away(objects, queues, p);
    queues.wake(objects, p);
    renew(objects, CapKind::Process, p)
}

/// An object becomes empty, and its count one higher.
fn renew(objects: &mut Objects, kind: CapKind, n: u16) -> Item
    requires there { n < size_of objects.old.items kind }
    requires more { count_of objects.old.items kind n ≢ 1048575 }
    requires none_ahead { NoneAhead objects.old }
    ensures item { result ≡ Item.Header kind n }
    ensures after { objects.new ≡ emptied kind n objects.old }
{
    objects.destroy(kind, n).unwrap()
}
