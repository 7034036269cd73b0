//! The statement of a process.
ghost use Rattle.std.specs.Prelude.{◌≡◌, ◌≤◌, ◌<◌, ◌+◌, ◌++◌, ◌==◌, map, length};
ghost use Rattle.std.specs.List.{list_all};
ghost use Rattle.process_objects.specs.Process.{IsProcess, slot_of};
ghost use Rattle.object_store.specs.Meaning.{meaning, process_map};
ghost use Rattle.coy_text.specs.Spaced.{line_of};
ghost use Rattle.cap_words.specs.Text.{cap_text};
ghost use Rattle.object_lines.specs.Words.{process_front};
ghost use Rattle.run_text.specs.Objects.{is_null, is_stopped, is_still, wait_text, registers_text, accept_text, state_word, is_empty_process, process_text};

use crate::names::fault_name;
use crate::statements::is_null;
use cap_format::Cap;
use coy_text::LineBuf;
use object_lines::push_process_front;
use object_store::Objects;
use process_objects::{Accept, Process, State, Wait};

/// Appends a process of these objects, unless it is empty.
#[tactic(auto, unfolding(crate::specs::Objects::process_text))]
pub(crate) fn push_process(line: &mut LineBuf, objects: &Objects, n: u16, process: &Process)
    requires { length line.old ≤ 100 }
    ensures text { line.new ≡ line.old ++
        process_text n (process_map (meaning objects.now.items) process.now) }
    ensures len { length line.new ≤ length line.old + 500 }
{
    if is_empty(objects, process) {
        return;
    }
    push_front(line, objects, n, process);
    line.push_word(" ");
    push_state(line, process.state());
    line.push_word("\n");
}

/// Whether a process is as a new one: still, and with Nulls alone.
#[tactic(auto, unfolding(crate::specs::Objects::is_empty_process, crate::specs::Objects::is_still))]
fn is_empty(objects: &Objects, process: &Process) -> bool
    ensures { result ≡ is_empty_process (process_map (meaning objects.now.items) process.now) }
{
    if !is_still(process) {
        return false;
    }
    if !has_null_registers(objects, process) {
        return false;
    }
    has_null_slots(objects, process)
}

/// Whether a process is stopped at 0, with zeros in its registers.
#[tactic(auto, unfolding(crate::specs::Objects::is_still))]
fn is_still(process: &Process) -> bool
    ensures value { result ≡ is_still process.now }
    ensures range { IsProcess process.now }
{
    process.pc() == 0 && is_stopped(process.state()) && are_zero(&process.regs())
}

fn are_zero(values: &[u32]) -> bool
    ensures { result ≡ list_all (λ value. value == 0) values.now }
{
    values.iter().all(|value| *value == 0)
}

fn is_stopped(state: State) -> bool
    ensures { result ≡ is_stopped state }
{
    match state {
        State::Faulted { code, address } => code.number() == 0 && address == 0,
        _ => false,
    }
}

/// Whether each capability register holds a capability that means Null.
#[tactic(auto, using(crate::proofs::Meanings::null_more, crate::proofs::Meanings::null_fails, crate::proofs::Meanings::null_all))]
fn has_null_registers(objects: &Objects, process: &Process) -> bool
    requires { length process.now.capregs ≡ 32 }
    ensures { result ≡ list_all is_null (map (meaning objects.now.items) process.now.capregs) }
{
    'each: for i in 0..32u8 {
        if !is_null(objects.live(process.capreg(i)).kind()) {
            return false;
        }
    }
    true
}

/// Whether each slot holds a capability that means Null.
#[tactic(auto, using(crate::proofs::Meanings::null_more, crate::proofs::Meanings::null_fails, crate::proofs::Meanings::null_all))]
fn has_null_slots(objects: &Objects, process: &Process) -> bool
    requires { length process.now.slots ≡ 3 }
    ensures { result ≡ list_all is_null (map (meaning objects.now.items) process.now.slots) }
{
    'each: for i in 0..3u8 {
        if !is_null(objects.live(process.slot(i)).kind()) {
            return false;
        }
    }
    true
}

/// Appends a process but for what it does.
fn push_front(line: &mut LineBuf, objects: &Objects, n: u16, process: &Process)
    requires { length line.old ≤ 100 }
    ensures text { let p = process_map (meaning objects.now.items) process.now in
        line.new ≡ line.old ++
        line_of (process_front n p.pc (slot_of p 0) (slot_of p 1) (slot_of p 2)) }
    ensures len { length line.new ≤ length line.old + 290 }
{
    let space = held(objects, process, 0);
    let schedule = held(objects, process, 1);
    let handler = held(objects, process, 2);
    push_process_front(line, n, process.pc(), space, schedule, handler);
}

/// What a slot of a process means.
fn held(objects: &Objects, process: &Process, i: u8) -> Cap
    requires { i ≤ 2 }
    ensures { cap_text result ≡
        cap_text (slot_of (process_map (meaning objects.now.items) process.now) i) }
{
    objects.live(process.slot(i))
}

/// Appends what a process does.
#[tactic(auto, unfolding(crate::specs::Objects::state_word))]
fn push_state(line: &mut LineBuf, state: State)
    requires { length line.old ≤ 500 }
    ensures text { line.new ≡ line.old ++ state_word state }
    ensures len { length line.new ≤ length line.old + 100 }
{
    match state {
        State::Running => line.push_word("run"),
        State::Receiving(accept) => {
            line.push_word("waiting ");
            push_accept(line, accept);
        }
        State::Faulted { code, address } => {
            if code.number() == 0 {
                line.push_word("stop");
                return;
            }
            line.push_word("faulted ");
            line.push_word(fault_name(code));
            line.push_value(address);
        }
    }
}

/// Appends what a receiver waits for and takes.
fn push_accept(line: &mut LineBuf, accept: Accept)
    requires { length line.old ≤ 600 }
    ensures text { line.new ≡ line.old ++ accept_text accept }
    ensures len { length line.new ≤ length line.old + 92 }
{
    push_wait(line, accept.wait());
    line.push_numbered(" ", accept.caps() as u32);
    line.push_word(" ");
    push_registers(line, &accept.regs());
    line.push_value(accept.at());
    line.push_numbered(" ", accept.bound());
}

fn push_registers(line: &mut LineBuf, registers: &[u8; 4])
    requires { length line.old ≤ 800 }
    ensures text { line.new ≡ line.old ++ registers_text registers.now }
    ensures len { length line.new ≤ length line.old + 43 }
{
    line.push_number(registers[0] as u32);
    line.push_numbered(" ", registers[1] as u32);
    line.push_numbered(" ", registers[2] as u32);
    line.push_numbered(" ", registers[3] as u32);
}

fn push_wait(line: &mut LineBuf, wait: Wait)
    requires { length line.old ≤ 800 }
    ensures text { line.new ≡ line.old ++ wait_text wait }
    ensures len { length line.new ≤ length line.old + 8 }
{
    match wait {
        Wait::Open => line.push_word("open"),
        Wait::Closed(id) => line.push_eight(id),
    }
}
