//! Operations on the kinds that are no memory kinds: a destruction is told, and the reply is written last.
ghost use Rattle.std.specs.Prelude.{◌≡◌, ℕ, ◌<◌, ◌++◌, [], ◌∷◌, true, None, IfSome};
ghost use Rattle.cap_format.specs.declared.kind.CapKind.TheVariants.{Process};
ghost use Rattle.cap_format.specs.Capability.{bare};
ghost use Rattle.object_store.specs.Store.{size_of};
ghost use Rattle.object_store.specs.Meaning.{is_live, meaning};
ghost use Rattle.object_store.specs.Ahead.{IsBehind};
ghost use Rattle.operations.specs.System.{Meant};
ghost use Rattle.operations.specs.Change.{item_in};
ghost use Rattle.operations.specs.Row.{reply_of};
ghost use Rattle.operations.specs.Request.{request_map};
ghost use Rattle.operations.specs.Control.{control_operation};
ghost use Rattle.operations.specs.Meaning.{reply_map};
ghost use Rattle.control_caps.specs.Kinds.{is_control};
ghost use Rattle.machine_state.specs.State.{state_of};
ghost use Rattle.machine_state.specs.Setters.{advance};
ghost use Rattle.machine_state.specs.Operation.{changed_by, changed_names, change_touches};
ghost use Rattle.machine_state.specs.Outcome.{process_name, kept_after, spared_by};
ghost use Rattle.machine_state.specs.Came.{Came, Leaves};
ghost use Rattle.machine_state.specs.Room.{HasRoom};
ghost use Rattle.machine_state.specs.Noted.{noted};
ghost use Rattle.kernel_core.specs.KernelOperation.{control_op, header_name, destroy_records, replied_unless, is_end_of};

use cap_format::{Cap, CapKind, Item, Reply, Request};
use invocation::Invocation;
use machine_state::{Machine, Observer, Record};
use process_objects::Accept;
use std::sync::ledger::Ledger;
use steps::Steps;
use walk_engine::Translator;

/// A request to a capability of one of the other kinds that answer requests.
pub(crate) fn control_op<T: Translator, O: Observer, L: Ledger>(
    machine: &mut Machine<T>,
    p: u16,
    observer: &mut O,
    cap: Cap,
    inv: &Invocation,
    _fetches: &mut Steps<L>,
)
    requires there { p < size_of machine.old.objects.items Process }
    requires live { is_live machine.old.objects.items cap ≡ true }
    requires kind { is_control cap.kind ≡ true }
    requires room { HasRoom 1 (O.told observer.old) }
    ensures came { let outcome =
        control_op (advance (state_of machine.old) p) p inv.now (bare cap) in
        Came T.Translator O.Observer p outcome
        machine.old observer.old _fetches.old machine.new observer.new _fetches.new }
    ensures leaves { let outcome =
        control_op (advance (state_of machine.old) p) p inv.now (bare cap) in
        Leaves (process_name p ∷ outcome.changed) machine.old machine.new }
{
    machine.advance(p);
    let request = machine.request(p, inv);
    let changed = do_and_reply(machine, p, inv.accept(), cap, request);
    tell_destruction(observer, changed);
}

/// Does what is asked, and writes the reply last, over what this made of the process. Gives the item that changed.
fn do_and_reply<T: Translator>(
    machine: &mut Machine<T>,
    p: u16,
    accept: Accept,
    cap: Cap,
    request: Request,
) -> Option<Item>
    requires there { p < size_of machine.old.objects.items Process }
    requires kind { is_control cap.kind ≡ true }
    requires live { is_live machine.old.objects.items cap ≡ true }
    requires sent { is_live machine.old.objects.items request.sent ≡ true }
    ensures changed { let asked = request_map bare request in
        let settled = control_operation Meant (state_of machine.old).store (bare cap) asked in
        result ≡ item_in settled.answer.changes }
    ensures state { let asked = request_map bare request in
        let settled = control_operation Meant (state_of machine.old).store (bare cap) asked in
        let after = changed_by (state_of machine.old) settled.answer.changes in
        state_of machine.new ≡ replied_unless (header_name result) after p accept (reply_of settled) }
    ensures kept { let asked = request_map bare request in
        let settled = control_operation Meant (state_of machine.old).store (bare cap) asked in
        let touches = change_touches (item_in settled.answer.changes) in
        T.kept machine.new.translator ≡ kept_after T.cost T.after T.without (T.kept machine.old.translator) touches }
    ensures caches { let asked = request_map bare request in
        let settled = control_operation Meant (state_of machine.old).store (bare cap) asked in
        let touches = change_touches (item_in settled.answer.changes) in
        (k : ℕ) → T.cache machine.new.translator k
        ≡ spared_by T.after T.without T.spared T.purged (T.kept machine.old.translator) touches (T.cache machine.old.translator k) }
    ensures same { result ≡ None → machine.new.translator ≡ machine.old.translator }
    ensures leaves { let asked = request_map bare request in
        let settled = control_operation Meant (state_of machine.old).store (bare cap) asked in
        let names = changed_names (state_of machine.old) settled.answer.changes in
        Leaves (process_name p ∷ names) machine.old machine.new }
{
    let reply = machine.control(cap, request);
    let changed = reply.changed;
    reply_last(machine, p, accept, reply);
    changed
}

/// Records a destruction, where the header of an object changed.
fn tell_destruction<O: Observer>(observer: &mut O, changed: Option<Item>)
    requires { HasRoom 1 (O.told observer.old) }
    ensures told { O.told observer.new ≡
        O.told observer.old ++ noted O.notes (destroy_records (header_name changed)) }
{
    if let Some(Item::Header(kind, number)) = changed {
        observer.tell(Record::Destroy { kind, number });
    }
}

/// Writes a reply to the process that asked, over what its request made of it. A process that is destroyed gets none.
#[tactic(auto, using(object_store::proofs::Stays::stays_same))]
fn reply_last<T: Translator>(machine: &mut Machine<T>, p: u16, accept: Accept, reply: Reply)
    requires there { p < size_of machine.old.objects.items Process }
    requires behind { IfSome reply.cap (IsBehind machine.old.objects.items) }
    ensures state { let meant = reply_map (meaning machine.old.objects.items) reply in
        state_of machine.new ≡ replied_unless (header_name reply.changed) (state_of machine.old) p accept meant }
    ensures leaves { Leaves (process_name p ∷ []) machine.old machine.new }
    ensures translator { machine.new.translator ≡ machine.old.translator }
{
    if !is_end_of(p, reply.changed) {
        machine.reply(p, accept, reply);
    }
}

/// Whether the header that changed is that of a process, which is destroyed.
fn is_end_of(p: u16, changed: Option<Item>) -> bool
    ensures { result ≡ is_end_of p (header_name changed) }
{
    match changed {
        Some(Item::Header(CapKind::Process, number)) => number == p,
        _ => false,
    }
}
