//! Requests to a process.
ghost use Rattle.std.specs.Prelude.{◌≡◌, ◌<◌, length, true};
ghost use Rattle.cap_format.specs.declared.kind.CapKind.TheVariants.{Process};
ghost use Rattle.process_objects.specs.Process.{with_state, stopped};
ghost use Rattle.object_store.specs.Store.{size_of, process_at, with_process};
ghost use Rattle.object_store.specs.Meaning.{is_live};
ghost use Rattle.schedules.specs.Queues.{left};
ghost use Rattle.schedules.specs.Standing.{standing};
ghost use Rattle.schedules.specs.Ready.{Agrees, runs_of};
ghost use Rattle.operations.specs.Row.{settled, settled_in};
ghost use Rattle.operations.specs.Request.{w1};
ghost use Rattle.operations.specs.Control.{process_table, resume_row, stop_row, is_faulted};
ghost use Rattle.operations.specs.Fulfils.{FulfilsAll};

use crate::registers::{get_capreg, get_reg, get_slot, get_state, set_capreg, set_reg, set_slot};
use cap_format::{Cap, Code, FaultCode, Reply, Request};
use object_store::Objects;
use operations::{done, refuse};
use process_objects::State;
use schedules::Queues;

/// A request that processes alone know.
#[tactic(auto, unfolding(operations::specs::Control::process_table))]
pub(crate) fn process(
    objects: &mut Objects,
    queues: &mut Queues,
    cap: Cap,
    request: Request,
) -> Reply
    requires kind { cap.kind ≡ Process }
    requires live { is_live objects.old.items cap ≡ true }
    requires sizes { length queues.old.sleepers ≡ size_of objects.old.items Process }
    requires agrees { Agrees (runs_of objects.old queues.old) }
    ensures fulfils { let settled =
        settled_in (process_table objects.old cap request) (w1 request) in
        FulfilsAll settled objects.old queues.old result objects.new queues.new }
    ensures agrees { Agrees (runs_of objects.new queues.new) }
{
    match request.words[0] {
        8 => get_reg(objects, cap, request),
        9 => set_reg(objects, cap, request),
        10 => get_capreg(objects, cap, request),
        11 => set_capreg(objects, cap, request),
        12 => get_slot(objects, cap, request),
        13 => set_slot(objects, cap, request),
        14 => get_state(objects, cap),
        15 => resume(objects, queues, cap),
        16 => stop(objects, queues, cap),
        _ => refuse(Code::UnknownRequest),
    }
}

/// Whether a process in this state was faulted or stopped.
fn is_faulted(state: State) -> bool
    ensures { result ≡ is_faulted state }
{
    matches!(state, State::Faulted { .. })
}

/// A faulted process is made ready.
#[tactic(auto, using(object_store::proofs::Live::live_process, operations::proofs::Placed::nowhere_stopped), unfolding(operations::specs::Control::resume_row))]
fn resume(objects: &mut Objects, queues: &mut Queues, cap: Cap) -> Reply
    requires kind { cap.kind ≡ Process }
    requires live { is_live objects.old.items cap ≡ true }
    requires sizes { length queues.old.sleepers ≡ size_of objects.old.items Process }
    requires agrees { Agrees (runs_of objects.old queues.old) }
    ensures fulfils { let settled = settled (resume_row objects.old cap) in
        FulfilsAll settled objects.old queues.old result objects.new queues.new }
    ensures agrees { Agrees (runs_of objects.new queues.new) }
{
    let p = cap.object() as u16;
    if !is_faulted(objects.process(p).state()) {
        return refuse(Code::RequestError);
    }
    queues.make_ready(objects, p);
    done()
}

/// A process that was not faulted is stopped.
#[tactic(auto, using(object_store::proofs::Live::live_process), unfolding(operations::specs::Control::stop_row))]
fn stop(objects: &mut Objects, queues: &mut Queues, cap: Cap) -> Reply
    requires kind { cap.kind ≡ Process }
    requires live { is_live objects.old.items cap ≡ true }
    requires sizes { length queues.old.sleepers ≡ size_of objects.old.items Process }
    requires agrees { Agrees (runs_of objects.old queues.old) }
    ensures fulfils { let settled = settled (stop_row objects.old cap) in
        FulfilsAll settled objects.old queues.old result objects.new queues.new }
    ensures agrees { Agrees (runs_of objects.new queues.new) }
{
    let p = cap.object() as u16;
    if is_faulted(objects.process(p).state()) {
        return refuse(Code::RequestError);
    }
    put_away(objects, queues, p);
    done()
}

/// A process leaves its place and is stopped.
#[tactic(auto, using(operations::proofs::Placed::agrees_stopped))]
pub(crate) fn put_away(objects: &mut Objects, queues: &mut Queues, p: u16)
    requires there { p < size_of objects.old.items Process }
    requires sizes { length queues.old.sleepers ≡ size_of objects.old.items Process }
    requires agrees { Agrees (runs_of objects.old queues.old) }
    ensures objects { objects.new ≡
        with_process objects.old p (with_state (process_at objects.old p) stopped) }
    ensures queues { queues.new ≡ left queues.old p }
    ensures nowhere { standing queues.new p ≡ 0 }
    ensures sizes { length queues.new.sleepers ≡ length queues.old.sleepers }
    ensures agrees { Agrees (runs_of objects.new queues.new) }
{
    objects.in_ranges();
    queues.leave(p);
    objects.process_mut(p).set_state(State::Faulted {
        code: FaultCode::Stopped,
        address: 0,
    });
}
