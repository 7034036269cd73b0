//! The atoms of a machine, worked out by hand.
ghost use Rattle.std.specs.Prelude.{◌≡◌};
ghost use Rattle.steps.specs.Permit.{permit_for};

use crate::starts::{barred, machine_of};
use kernel_core::{Event, Machine, event};
use question_lines::read_question;
use questions::{Question, first_holds, holds};
use separation_policy::{Closure, Policy};
use std::alloc::Global;
use std::marker::Brand;
use std::process::Abort;
use std::sync::ledger::Ledger;
use std::test::Fail;
use steps::{Permit, Steps};
use walk_engine::Plain;

/// Process 0 sends to process 1, which is stopped; process 2 receives; process 3 is at a breakpoint; process 4, of a lower
/// priority, makes a call that is malformed; process 5 receives what comes through endpoint 1 alone, with a capability.
const MACHINE: &str = "\
coyotos 1
machine 1 2 1 1 6 3
code 0 000 ecall
code 0 004 ebreak
page 1 008 78563412ffffffff00000080
count page 1 2
slot 0 0 page:0@12/0
cap 0 7 page:1@12/0+r
endpoint 0 process:1 00000000 00000000 plain
endpoint 1 process:5 00000007 fffffffe match
endpoint 2 process:1 00000007 00000000 plain
process 0 0 gpt:0@16/0 schedule:5 null run
reg 0 10 00000021
capreg 0 1 entry:0:00000000
process 2 0 gpt:0@16/0 schedule:5 null run
reg 2 10 00000040
process 3 4 gpt:0@16/0 schedule:5 null run
capreg 3 3 page:1@12/0
process 4 0 gpt:0@16/0 schedule:3 null run
process 5 0 gpt:0@16/0 schedule:5 null run
reg 5 10 00080140
reg 5 22 00000007
end
";

/// Whether all of these atoms, or one of the groups, hold, y or n, behind four steps.
const ATOMS: &str = "\
n |stuck|
y |not stuck|
n |halted|
y |running 0|
y |sleeps 0|
y |running 4 and not sleeps 4|
n |running 1|
n |running 2|
y |receiving 2|
n |receiving 0|
y |faulted 3|
n |faulted 1|
y |not running 1 and not receiving 1 and not faulted 1|
y |faulted 3 Breakpoint|
n |faulted 3 BadOpcode|
n |faulted 2 Breakpoint|
y |pc 3 4|
y |pc 3 0 4|
y |pc 3 4 ffffffff|
n |pc 3 0 3|
n |pc 3 5 8|
y |reg 0 10 21|
n |reg 0 10 22|
y |reg 0 0 0|
y |word 1 8 12345678|
n |word 1 8 78563412|
y |word 1 4 0 and word 0 0 73|
y |waits 2 0 and waits 2 1|
n |waits 5 0|
y |waits 5 1 and waits 5 2|
n |waits 0 0 or waits 1 0|
y |accepts 5 and not accepts 2 and not accepts 0|
y |asks 0 1|
n |asks 0 0 or asks 1 0 or asks 2 1|
n |stuck or halted|
y |stuck or running 0|
y |running 0 or stuck and halted|
n |running 0 and stuck or halted|
n |stuck and halted or halted|
y |stuck and halted or not halted and running 0|
y |same word 1 8 number 12345678|
y |same half 1 8 number 5678 and same half 1 a number 1234|
y |same byte 1 8 number 78 and same byte 1 b number 12|
n |same byte 1 8 word 1 8 or same half 1 8 word 1 8|
y |same word 1 c number ffffffff and same byte 1 c number ff|
y |same plus word 1 c number 1 number 0|
y |same plus word 1 c word 1 c number fffffffe|
y |same minus number 0 number 1 word 1 c|
y |same minus number 12 number 12 number 0|
y |same minus number 80000000 number 1 number 7fffffff|
y |same both word 1 8 number 0000ffff half 1 8|
y |same both number aaaaaaaa number 55555555 number 0|
y |same both word 1 c word 1 8 word 1 8|
y |below number 0 number ffffffff and below number 7fffffff number 80000000|
n |below number ffffffff number 0 or below number 5 number 5|
y |most number 0 number 0 and most number ffffffff number ffffffff|
n |most number ffffffff number 0|
y |less number ffffffff number 0 and less number 80000000 number 7fffffff|
n |less number 0 number ffffffff or less number 5 number 5|
y |less word 1 10 word 1 c|
y |same pc 3 number 4 and same reg 0 10 number 21 and same reg 0 0 number 0|
y |same age page 1 number 2 and same age page 0 number 0 and same age endpoint 2 number 0|
y |same payload 1 number fffffffe and same payload 0 number 0|
y |same minus plus payload 1 age page 1 number 0 number 0|
y |holds process 3 schedule and not holds process 1 schedule and not holds gpt 0 schedule|
n |holds process 3 range or holds process 3 sysctl or holds process 3 kernlog|
y |holds process 3 page 1 writable and holds process 3 page 1|
n |holds cappage 0 page 1 writable|
y |holds process 0 endpoint 0 writable|
n |holds process 3 page 0 writable|
y |holds process 0 endpoint 0|
y |holds process 0 gpt 0|
n |holds process 0 page 0|
y |holds endpoint 0 process 1|
n |holds endpoint 0 process 0|
y |holds gpt 0 page 0|
n |holds gpt 0 page 1|
y |holds cappage 0 page 1|
n |holds cappage 0 cappage 0|
n |holds page 0 page 0|
n |crossing|
y |not crossing and not stuck|
n |not crossing and stuck|";

/// The same, where process 0 is of a domain of its own.
const APART: &str = "\
y |crossing|
n |not crossing|";

/// The same, behind one step more.
const STUCK: &str = "\
y |stuck|
y |faulted 4 MalformedSyscall|";

/// Whether one of the groups in front of `must` holds of the first machine, whether one of those behind it does, and the line.
const SIDES: &str = "\
ny |must running 0|
nn |must stuck|
yn |after running 0 must stuck|
ny |after stuck must running 0|
yy |after stuck or running 0 and not stuck must halted or not crossing|
nn |after running 0 and stuck must halted or stuck|
ny |never running 0|";

/// Asks whether the atoms of each row hold.
fn check_rows<L: Ledger>(
    rt: &impl Abort,
    alloc: Global,
    machine: &Machine<Plain>,
    policy: &mut Policy,
    rows: &str,
    fetches: &mut Steps<L>,
) {
    for row in rows.lines() {
        check_row(rt, alloc, machine, policy, row, fetches);
    }
}

fn check_row<L: Ledger>(
    rt: &impl Abort,
    alloc: Global,
    machine: &Machine<Plain>,
    policy: &mut Policy,
    row: &str,
    fetches: &mut Steps<L>,
) {
    let (wanted, atoms) = barred(rt, row);
    let mut question = Question::new(alloc, machine.objects().sizes());
    let line = format!(in alloc; "count {atoms}").expect(rt, row);
    let read = read_question(alloc, line.as_bytes(), 1, &mut question, policy);
    assert!(rt; read.is_ok(), "{row}");
    assert!(rt; question.properties().len() == 1, "{row}");
    let closure = Closure::new(alloc, policy).expect(rt, row);
    let holds = holds(&question, policy, &closure, false, machine, 0, fetches);
    assert!(rt; holds == (wanted == "y"), "{row}");
}

/// Asks whether what stands on each side of a row's `must` holds.
fn check_sides<L: Ledger>(
    rt: &impl Abort,
    alloc: Global,
    machine: &Machine<Plain>,
    policy: &mut Policy,
    row: &str,
    fetches: &mut Steps<L>,
) {
    let (wanted, sides) = barred(rt, row);
    let mut question = Question::new(alloc, machine.objects().sizes());
    let line = format!(in alloc; "{sides}").expect(rt, row);
    let read = read_question(alloc, line.as_bytes(), 1, &mut question, policy);
    assert!(rt; read.is_ok(), "{row}");
    assert!(rt; question.properties().len() == 1, "{row}");
    let closure = Closure::new(alloc, policy).expect(rt, row);
    let goal = holds(&question, policy, &closure, false, machine, 0, fetches);
    let first = first_holds(&question, policy, &closure, false, machine, 0, fetches);
    let met = match (first, goal) {
        (false, false) => "nn",
        (false, true) => "ny",
        (true, false) => "yn",
        (true, true) => "yy",
    };
    assert!(rt; met == wanted, "{row}: {met}");
}

/// Lets the hart make so many steps.
fn step<L: Ledger>(machine: &mut Machine<Plain>, times: u8, fetches: &mut Steps<L>) {
    for _ in 0..times {
        if machine.objects().sizes().harts == 1 {
            let _records = event(machine, Event::Step(0), fetches);
        }
    }
}

fn check_all<L: Ledger>(rt: &impl Abort, alloc: Global, permit: Permit)
    requires { permit ≡ permit_for L.name L.parts }
{
    let mut fetches = Steps::<L>::new(permit);
    let mut machine = machine_of(rt, alloc, MACHINE);
    step(&mut machine, 4, &mut fetches);
    let mut policy = Policy::new(alloc, machine.objects().sizes()).expect(rt, MACHINE);
    check_rows(rt, alloc, &machine, &mut policy, ATOMS, &mut fetches);
    for row in SIDES.lines() {
        check_sides(rt, alloc, &machine, &mut policy, row, &mut fetches);
    }
    let mut question = Question::new(alloc, machine.objects().sizes());
    let apart = read_question(alloc, b"domain a process 0", 1, &mut question, &mut policy);
    assert!(rt; apart.is_ok(), "domain");
    check_rows(rt, alloc, &machine, &mut policy, APART, &mut fetches);
    step(&mut machine, 1, &mut fetches);
    check_rows(rt, alloc, &machine, &mut policy, STUCK, &mut fetches);
}

#[test]
fn atoms_hold_where_they_say(rt: HostRuntime) -> Result<(), Fail> {
    check_all::<Brand>(&rt, rt.alloc(), Permit::new(&rt));
    Ok(())
}
