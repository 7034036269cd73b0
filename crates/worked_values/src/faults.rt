//! Who hears a fault and what becomes of it, as one table, worked out by hand from the rules.
use crate::requests::given_at;
use crate::rows::{check, check_numbers, hex, short};
use crate::running::Running;
use cap_format::{Cap, CapKind, Code, Request};
use fault_path::Outcome;
use std::alloc::Global;
use std::process::Abort;

/// What is done before each row's fault, as `Running` reads it: process 0 has a hart, and its pc is 40 (hexadecimal).
const BEFORE: &str = "\
ask 8 0 0 c 0 0 | 9 0 40 0 | 0 0 | 0 0 0 0 | - - - - - - | - - - | the pc of process 0
ask 6 0 0 c 0 0 | 8 0 0 0 | 8 1 | 0 0 0 0 | - - - - - - | - - - | endpoint 0 leads to process 1
ask 6 0 0 c 0 0 | a a0 0 0 | 0 0 | 0 0 0 0 | - - - - - - | - - - | which knows it by this id
ask 6 1 0 c 0 0 | 8 0 0 0 | 8 2 | 0 0 0 0 | - - - - - - | - - - | endpoint 1 leads to process 2
ask 6 1 0 c 0 0 | a a1 0 0 | 0 0 | 0 0 0 0 | - - - - - - | - - - | which knows it by this id
ask 6 3 0 c 0 0 | 8 0 0 0 | 8 3 | 0 0 0 0 | - - - - - - | - - - | endpoint 3 leads to process 3
ask 6 3 0 c 0 0 | a a3 0 0 | 0 0 | 0 0 0 0 | - - - - - - | - - - | which knows it by this id
ask 6 4 0 c 0 0 | 8 0 0 0 | 8 4 | 0 0 0 0 | - - - - - - | - - - | endpoint 4 leads to process 4
ask 6 4 0 c 0 0 | a a4 0 0 | 0 0 | 0 0 0 0 | - - - - - - | - - - | which knows it by this id
ask 6 3 0 c 0 0 | b 1 0 0 | 0 0 | 0 0 0 0 | - - - - - - | - - - | endpoint 3 wants a payload
ask 6 3 0 c 0 0 | d 7 0 0 | 0 0 | 0 0 0 0 | - - - - - - | - - - | which is 7
ask 8 0 0 c 0 0 | d 1 0 0 | 9 3 | 0 0 0 0 | - - - - - - | - - - | process 0 gets a schedule
ask 8 0 0 c 0 0 | f 0 0 0 | 0 0 | 0 0 0 0 | - - - - - - | - - - | and is resumed
ask 8 1 0 c 0 0 | d 1 0 0 | 9 3 | 0 0 0 0 | - - - - - - | - - - | process 1 gets a schedule
ask 8 1 0 c 0 0 | f 0 0 0 | 0 0 | 0 0 0 0 | - - - - - - | - - - | and is resumed
ask 8 3 0 c 0 0 | d 1 0 0 | 9 3 | 0 0 0 0 | - - - - - - | - - - | process 3 gets a schedule
ask 8 3 0 c 0 0 | f 0 0 0 | 0 0 | 0 0 0 0 | - - - - - - | - - - | and is resumed
ask 8 4 0 c 0 0 | d 1 0 0 | 9 3 | 0 0 0 0 | - - - - - - | - - - | process 4 gets a schedule
ask 8 4 0 c 0 0 | f 0 0 0 | 0 0 | 0 0 0 0 | - - - - - - | - - - | and is resumed
listen 1
listen 3
hart 0";

/// The handler that the walk gave and the one of the process: an entry, with its payload as the fifth word, or none.
/// Then the process that is looked at, and what comes of the fault: d and the process that was told, or e and the one
/// that is waited for, or f0 where it is unheard; the state of the faulting process, 0 where it runs, 1 where it
/// receives, or f0 and its fault; 1 where it sleeps on the process that is looked at; and the state of that one. Last
/// what this one has in x10 to x16 and x22, and the type number of what c9 holds. All numbers are hexadecimal.
///
/// Endpoint 0 leads to process 1, which receives; endpoint 1 to process 2, which was stopped; endpoint 2 nowhere;
/// endpoint 3 to process 3, which receives, where the payload is 7; and endpoint 4 to process 4, which runs.
const ROWS: &str = "\
- - - - - - | - - - - - - | 1 f0 f5 0 1 | 0 0 0 0 0 0 0 0 | 0 none
7 0 0 c 5 0 | - - - - - - | 1 d1 f5 0 0 | 10001 5 1234 40 0 5 0 a0 | 8 the walk's
- - - - - - | 7 0 0 c 6 0 | 1 d1 f5 0 0 | 10001 5 1234 40 0 6 0 a0 | 8 the process's
7 2 0 c 5 0 | 7 0 0 c 6 0 | 1 d1 f5 0 0 | 10001 5 1234 40 0 6 0 a0 | 8 the walk's is dead, and the process's receives
7 3 0 c 6 0 | 7 0 0 c 9 0 | 1 d1 f5 0 0 | 10001 5 1234 40 0 9 0 a0 | 8 the walk's expects another payload
7 3 0 c 7 0 | 7 0 0 c 9 0 | 3 d3 f5 0 0 | 10001 5 1234 40 0 7 0 a3 | 8 both receive: the walk's is told
7 3 0 c 7 0 | 7 0 0 c 9 0 | 1 d3 f5 0 1 | 0 0 0 0 0 0 0 0 | 0 and the process's isn't
7 1 0 c 5 0 | 7 4 0 c 5 0 | 2 e2 0 1 f0 | 0 0 0 0 0 0 0 0 | 0 both are busy: it waits for the walk's
7 4 0 c 5 0 | 7 1 0 c 5 0 | 4 e4 0 1 0 | 0 0 0 0 0 0 0 0 | 0 the other way round
7 1 0 c 5 0 | 7 0 0 c 6 0 | 1 e2 0 0 1 | 0 0 0 0 0 0 0 0 | 0 one that is busy isn't passed over
7 2 0 c 5 0 | 7 4 0 c 6 0 | 4 e4 0 1 0 | 0 0 0 0 0 0 0 0 | 0 the walk's is dead, and the process's is busy
- - - - - - | 7 1 0 c 5 0 | 2 e2 0 1 f0 | 0 0 0 0 0 0 0 0 | 0 the process's is busy
7 2 0 c 5 0 | - - - - - - | 1 f0 f5 0 1 | 0 0 0 0 0 0 0 0 | 0 the walk's is dead, and there is no other
7 2 0 c 5 0 | 7 3 0 c 6 0 | 3 f0 f5 0 1 | 0 0 0 0 0 0 0 0 | 0 both are dead";

/// Process 0 faults with the row's handlers: what comes of it, as a number.
fn fault(rt: &impl Abort, machine: &mut Running, row: &str) -> u32 {
    if let Some(sent) = given_at(rt, row, 7) {
        let faulting = Cap::to_object(CapKind::Process, 0, 0);
        let words = [13, 2, 0, 0];
        let reply = machine.ask(rt, faulting, Request { words, sent });
        check(rt, reply.code == Code::Ok, row);
    }
    match machine.fault(rt, given_at(rt, row, 0)) {
        Outcome::Delivered(p) => 0xd0 + u32::from(p),
        Outcome::MustWait(p) => 0xe0 + u32::from(p),
        Outcome::Unheard => 0xf0,
    }
}

/// The processes are left as the row says.
fn check_left(rt: &impl Abort, machine: &Running, row: &str) {
    let p = short(rt, row, 14);
    let sleeps = machine.place(rt, 0) == 0xb0 + u32::from(p);
    let states = [
        machine.state(rt, 0),
        u32::from(sleeps),
        machine.state(rt, p),
    ];
    check_numbers(rt, &states, row, 16);
    let process = machine.process(rt, p);
    check_numbers(rt, &process.registers()[10..17], row, 20);
    let kind = u32::from(process.capreg(9).kind().number());
    check(rt, process.reg(22) == hex(rt, row, 27), row);
    check(rt, kind == hex(rt, row, 29), row);
}

/// What the row says comes of the row's fault.
fn check_fault(rt: &impl Abort, alloc: Global, row: &str) {
    let mut machine = Running::after(rt, alloc, BEFORE);
    check(rt, fault(rt, &mut machine, row) == hex(rt, row, 15), row);
    check(rt, machine.is_idle(), row);
    check_left(rt, &machine, row);
}

#[test]
fn a_fault_is_heard_by_the_first_handler_that_somebody_answers(rt: HostRuntime) {
    for row in ROWS.lines() {
        check_fault(&rt, rt.alloc(), row);
    }
}
