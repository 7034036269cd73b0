//! What a process holds, as a capability to it reads and writes it.
ghost use Rattle.std.specs.Prelude.{◌≡◌, [], true};
ghost use Rattle.cap_format.specs.declared.kind.CapKind.TheVariants.{Process};
ghost use Rattle.object_store.specs.Meaning.{is_live};
ghost use Rattle.schedules.specs.Queues.{QueuesValue};
ghost use Rattle.schedules.specs.Ready.{Agrees, runs_of};
ghost use Rattle.operations.specs.Row.{reply_of, settled};
ghost use Rattle.operations.specs.Request.{w1};
ghost use Rattle.operations.specs.Control.{getreg_row, setreg_row, getcapreg_row, setcapreg_row, getslot_row, setslot_row, getstate_row};
ghost use Rattle.operations.specs.Fulfils.{Fulfils};

use cap_format::{Cap, Code, Reply, Request};
use object_store::Objects;
use operations::{done, hand_over, refuse, tell};
use process_objects::State;

/// What a register holds, where 0 is the pc.
#[tactic(auto, using(object_store::proofs::Live::live_process), unfolding(operations::specs::Control::getreg_row, operations::specs::Control::number_in))]
pub(crate) fn get_reg(objects: &Objects, cap: Cap, request: Request) -> Reply
    requires kind { cap.kind ≡ Process }
    requires live { is_live objects.now.items cap ≡ true }
    ensures reply { result ≡ reply_of (settled (getreg_row objects.now cap request)) }
    ensures quiet { (settled (getreg_row objects.now cap request)).answer.changes ≡ [] }
{
    let i = request.words[1];
    if 31 < i {
        return refuse(Code::RequestError);
    }
    let process = objects.process(cap.object() as u16);
    if i == 0 {
        tell(process.pc(), 0, 0)
    } else {
        tell(process.reg(i as u8), 0, 0)
    }
}

/// A register becomes a word, where 0 is the pc.
#[tactic(auto, using(object_store::proofs::Live::live_process, operations::proofs::Placed::agrees_written), unfolding(operations::specs::Control::setreg_row, operations::specs::Control::with_number))]
pub(crate) fn set_reg(objects: &mut Objects, cap: Cap, request: Request) -> Reply
    requires kind { cap.kind ≡ Process }
    requires live { is_live objects.old.items cap ≡ true }
    ensures fulfils { let settled = settled (setreg_row objects.old cap request) in
        Fulfils settled objects.old result objects.new }
    ensures agrees { (q : QueuesValue) →
        Agrees (runs_of objects.old q) → Agrees (runs_of objects.new q) }
{
    let i = request.words[1];
    let value = request.words[2];
    if 31 < i || (i == 0 && value % 4 != 0) {
        return refuse(Code::RequestError);
    }
    let process = objects.process_mut(cap.object() as u16);
    if i == 0 {
        process.set_pc(value);
    } else {
        process.set_reg(i as u8, value);
    }
    done()
}

/// What a capability register holds.
#[tactic(auto, using(object_store::proofs::Live::live_process), unfolding(operations::specs::Control::getcapreg_row))]
pub(crate) fn get_capreg(objects: &Objects, cap: Cap, request: Request) -> Reply
    requires kind { cap.kind ≡ Process }
    requires live { is_live objects.now.items cap ≡ true }
    ensures reply { result ≡ reply_of (settled (getcapreg_row objects.now cap request)) }
    ensures quiet { (settled (getcapreg_row objects.now cap request)).answer.changes ≡ [] }
{
    let i = request.words[1];
    if 31 < i {
        return refuse(Code::RequestError);
    }
    hand_over(objects.process(cap.object() as u16).capreg(i as u8))
}

/// A capability register other than c0 becomes what was sent.
#[tactic(auto, using(object_store::proofs::Live::live_process, operations::proofs::Placed::agrees_written), unfolding(operations::specs::Control::setcapreg_row))]
pub(crate) fn set_capreg(objects: &mut Objects, cap: Cap, request: Request) -> Reply
    requires kind { cap.kind ≡ Process }
    requires live { is_live objects.old.items cap ≡ true }
    ensures fulfils { let settled = settled (setcapreg_row objects.old cap request) in
        Fulfils settled objects.old result objects.new }
    ensures agrees { (q : QueuesValue) →
        Agrees (runs_of objects.old q) → Agrees (runs_of objects.new q) }
{
    let i = request.words[1];
    if i == 0 || 31 < i {
        return refuse(Code::RequestError);
    }
    objects
        .process_mut(cap.object() as u16)
        .set_capreg(i as u8, request.sent);
    done()
}

/// What a slot holds.
#[tactic(auto, using(object_store::proofs::Live::live_process), unfolding(operations::specs::Control::getslot_row))]
pub(crate) fn get_slot(objects: &Objects, cap: Cap, request: Request) -> Reply
    requires kind { cap.kind ≡ Process }
    requires live { is_live objects.now.items cap ≡ true }
    ensures reply { result ≡ reply_of (settled (getslot_row objects.now cap request)) }
    ensures quiet { (settled (getslot_row objects.now cap request)).answer.changes ≡ [] }
{
    let i = request.words[1];
    if 2 < i {
        return refuse(Code::RequestError);
    }
    hand_over(objects.process(cap.object() as u16).slot(i as u8))
}

/// A slot becomes what was sent.
#[tactic(auto, using(object_store::proofs::Live::live_process, operations::proofs::Placed::agrees_written), unfolding(operations::specs::Control::setslot_row))]
pub(crate) fn set_slot(objects: &mut Objects, cap: Cap, request: Request) -> Reply
    requires kind { cap.kind ≡ Process }
    requires live { is_live objects.old.items cap ≡ true }
    ensures fulfils { let settled = settled (setslot_row objects.old cap request) in
        Fulfils settled objects.old result objects.new }
    ensures agrees { (q : QueuesValue) →
        Agrees (runs_of objects.old q) → Agrees (runs_of objects.new q) }
{
    let i = request.words[1];
    if 2 < i {
        return refuse(Code::RequestError);
    }
    objects
        .process_mut(cap.object() as u16)
        .set_slot(i as u8, request.sent);
    done()
}

/// Whether it runs, receives or is faulted, and with what.
#[tactic(auto, using(object_store::proofs::Live::live_process), unfolding(operations::specs::Control::getstate_row))]
pub(crate) fn get_state(objects: &Objects, cap: Cap) -> Reply
    requires kind { cap.kind ≡ Process }
    requires live { is_live objects.now.items cap ≡ true }
    ensures reply { result ≡ reply_of (settled (getstate_row objects.now cap)) }
    ensures quiet { (settled (getstate_row objects.now cap)).answer.changes ≡ [] }
{
    match objects.process(cap.object() as u16).state() {
        State::Running => tell(0, 0, 0),
        State::Receiving(_) => tell(1, 0, 0),
        State::Faulted { code, address } => tell(2, code.number(), address),
    }
}
