//! Lines of a cut, what breaks one in each kind of place, who sleeps across one, and a run of two processes that one
//! keeps apart. Worked out by hand from the rules.
ghost use Rattle.std.specs.Prelude.{◌≡◌};
ghost use Rattle.steps.specs.Permit.{permit_for};

use crate::rows::{barred, check, has_line};
use crate::starts::{event_at, hart_of};
use crate::tasks::{Task, perform_task};
use cap_format::CapKind;
use cap_words::{kind_word, push_capability};
use confine_check::{Cut, CutSide, Verdict, confined, read_cut};
use coy_io::MemSink;
use coy_text::{LineBuf, read_dec, word};
use kernel_core::{Machine, event};
use object_store::Sizes;
use run_text::put_objects;
use std::alloc::Global;
use std::marker::Brand;
use std::process::Abort;
use std::sync::ledger::Ledger;
use std::test::Fail;
use steps::{Permit, Steps};
use walk_engine::Translator;

/// Three of each kind of object.
const SIZES: Sizes = Sizes {
    harts: 1,
    pages: 3,
    cappages: 3,
    gpts: 3,
    processes: 3,
    endpoints: 3,
};

/// The fault of a line or `-`, the sides of all objects behind it, and the line in bars. The sides are those of pages,
/// of capability pages, of GPTs, of endpoints and of processes, by their numbers. Each line is read over the cut that
/// the lines before it left. The last two have 512 bytes and one more.
const LINES: &str = "\
- lrr.rrr.rrr.rrr.rrr. |left page 0|
- lrr.rrr.rrr.rrr.lrr. |  left   process 0 0 |
- lrr.rll.rrr.rrr.lrr. |left cappage 1 2|
- lrr.rll.rrl.rrr.lrr. |left gpt 2|
- lrr.rll.rrl.lll.lrr. |left endpoint 0000000000 2|
- lrr.rll.rrl.lll.lrr. |left endpoint 1 1|
- lrr.rll.rrl.lll.lrr. ||
- lrr.rll.rrl.lll.lrr. |  # left page 2|
BadByte lrr.rll.rrl.lll.lrr. |left page\t2|
BadByte lrr.rll.rrl.lll.lrr. |# left page 2\x7f|
UnknownCut lrr.rll.rrl.lll.lrr. |right page 0|
UnknownCut lrr.rll.rrl.lll.lrr. |Left page 2|
WrongWords lrr.rll.rrl.lll.lrr. |left|
WrongWords lrr.rll.rrl.lll.lrr. |left thing|
WrongWords lrr.rll.rrl.lll.lrr. |left page 1 2 2|
BadValue lrr.rll.rrl.lll.lrr. |left thing x|
BadValue lrr.rll.rrl.lll.lrr. |left schedule 0|
BadValue lrr.rll.rrl.lll.lrr. |left entry 0|
BadNumber lrr.rll.rrl.lll.lrr. |left page x 9|
BadNumber lrr.rll.rrl.lll.lrr. |left page 2 0x2|
NoObject lrr.rll.rrl.lll.lrr. |left page 3 x|
NoObject lrr.rll.rrl.lll.lrr. |left page 2 3|
BadOrder lrr.rll.rrl.lll.lrr. |left page 2 1|
- lll.rll.rrl.lll.lrr. |left page 0 2|
- lll.rll.rrl.lll.lrr. |#xxxxxxxxxxxxxxxxxxxxxxxxxxxxxxxxxxxxxxxxxxxxxxxxxxxxxxxxxxxxxxxxxxxxxxxxxxxxxxxxxxxxxxxxxxxxxxxxxxx\
    xxxxxxxxxxxxxxxxxxxxxxxxxxxxxxxxxxxxxxxxxxxxxxxxxxxxxxxxxxxxxxxxxxxxxxxxxxxxxxxxxxxxxxxxxxxxxxxxxxxx\
    xxxxxxxxxxxxxxxxxxxxxxxxxxxxxxxxxxxxxxxxxxxxxxxxxxxxxxxxxxxxxxxxxxxxxxxxxxxxxxxxxxxxxxxxxxxxxxxxxxxx\
    xxxxxxxxxxxxxxxxxxxxxxxxxxxxxxxxxxxxxxxxxxxxxxxxxxxxxxxxxxxxxxxxxxxxxxxxxxxxxxxxxxxxxxxxxxxxxxxxxxxx\
    xxxxxxxxxxxxxxxxxxxxxxxxxxxxxxxxxxxxxxxxxxxxxxxxxxxxxxxxxxxxxxxxxxxxxxxxxxxxxxxxxxxxxxxxxxxxxxxxxxxx\
    xxxxxxxxxxxx|
LineTooLong lll.rll.rrl.lll.lrr. |#xxxxxxxxxxxxxxxxxxxxxxxxxxxxxxxxxxxxxxxxxxxxxxxxxxxxxxxxxxxxxxxxxxxxxxxxxxxxxxxxxxxxxxxxxxxxxxxxxxx\
    xxxxxxxxxxxxxxxxxxxxxxxxxxxxxxxxxxxxxxxxxxxxxxxxxxxxxxxxxxxxxxxxxxxxxxxxxxxxxxxxxxxxxxxxxxxxxxxxxxxx\
    xxxxxxxxxxxxxxxxxxxxxxxxxxxxxxxxxxxxxxxxxxxxxxxxxxxxxxxxxxxxxxxxxxxxxxxxxxxxxxxxxxxxxxxxxxxxxxxxxxxx\
    xxxxxxxxxxxxxxxxxxxxxxxxxxxxxxxxxxxxxxxxxxxxxxxxxxxxxxxxxxxxxxxxxxxxxxxxxxxxxxxxxxxxxxxxxxxxxxxxxxxx\
    xxxxxxxxxxxxxxxxxxxxxxxxxxxxxxxxxxxxxxxxxxxxxxxxxxxxxxxxxxxxxxxxxxxxxxxxxxxxxxxxxxxxxxxxxxxxxxxxxxxx\
    xxxxxxxxxxxxx|";

/// The first object of each kind is on the left.
const FIRST: &str = "left page 0\nleft cappage 0\nleft gpt 0\nleft endpoint 0\nleft process 0";

/// What is found in a machine with two of each kind of object, and its listing behind that, in blocks. `yes`, or the
/// object, the place and the capability there.
const BREACHES: &str = "\
yes
coyotos 1
machine 1 2 2 2 2 2
slot 0 15 page:0@12/0
end

gpt 0 15 page:1@12/00000
coyotos 1
machine 1 2 2 2 2 2
slot 0 15 page:1@12/0
end

gpt 1 3 gpt:0@16/00005
coyotos 1
machine 1 2 2 2 2 2
slot 1 3 gpt:0@16/5
end

cappage 0 255 cappage:1@12/00000
coyotos 1
machine 1 2 2 2 2 2
cap 0 255 cappage:1@12/0
end

yes
coyotos 1
machine 1 2 2 2 2 2
cap 1 255 cappage:1@12/0
end

endpoint 0 0 process:1
coyotos 1
machine 1 2 2 2 2 2
endpoint 0 process:1 0 0 plain
end

endpoint 1 0 process:0
coyotos 1
machine 1 2 2 2 2 2
endpoint 1 process:0 0 0 match
end

yes
coyotos 1
machine 1 2 2 2 2 2
endpoint 1 process:1 0 0 plain
end

process 0 0 gpt:1@16/00000
coyotos 1
machine 1 2 2 2 2 2
process 0 0 gpt:1@16/0 schedule:3 null run
end

process 1 1 endpoint:0
coyotos 1
machine 1 2 2 2 2 2
process 1 0 gpt:1@16/0 endpoint:0 null stop
end

process 0 2 entry:1:00000007
coyotos 1
machine 1 2 2 2 2 2
process 0 0 gpt:0@16/0 schedule:3 entry:1:7 run
end

yes
coyotos 1
machine 1 2 2 2 2 2
process 0 0 gpt:0@16/0 schedule:3 entry:0:7 run
end

process 0 4 process:1
coyotos 1
machine 1 2 2 2 2 2
capreg 0 1 process:1
end

process 1 34 page:0@32/00000+xwon
coyotos 1
machine 1 2 2 2 2 2
capreg 1 31 page:0@32/0+xwon
end

yes
coyotos 1
machine 1 2 2 2 2 2
capreg 1 31 process:1
end

gpt 1 0 range
coyotos 1
machine 1 2 2 2 2 2
slot 1 0 range
end

cappage 0 7 range
coyotos 1
machine 1 2 2 2 2 2
cap 0 7 range
end

process 1 2 range
coyotos 1
machine 1 2 2 2 2 2
process 1 0 null null range stop
end

process 0 33 range
coyotos 1
machine 1 2 2 2 2 2
capreg 0 30 range
end

yes
coyotos 1
machine 1 2 2 2 2 2
capreg 0 1 schedule:7
capreg 0 2 discrim
capreg 1 1 kernlog
capreg 1 2 sysctl
end

yes
coyotos 1
machine 1 2 2 2 2 2
capreg 0 1 window:0@12/0
slot 1 0 local:3:0@12/0
end

yes
coyotos 1
machine 1 2 2 2 2 2
slot 0 0 page:1@12/0+r
end

yes
coyotos 1
machine 1 2 2 2 2 2
slot 1 0 page:0@12/0+r
end

gpt 1 0 page:0@12/00000+x
coyotos 1
machine 1 2 2 2 2 2
slot 1 0 page:0@12/0+x
end

yes
coyotos 1
machine 1 2 2 2 2 2
cap 0 0 cappage:1@12/0+rw
end

gpt 1 0 cappage:0@12/00000+r
coyotos 1
machine 1 2 2 2 2 2
slot 1 0 cappage:0@12/0+r
end

gpt 0 0 cappage:1@12/00000+w
coyotos 1
machine 1 2 2 2 2 2
slot 0 0 cappage:1@12/0+w
end

yes
coyotos 1
machine 1 2 2 2 2 2
capreg 0 1 gpt:1@16/0+rwn
end

process 0 4 gpt:1@16/00000+wn
coyotos 1
machine 1 2 2 2 2 2
capreg 0 1 gpt:1@16/0+wn
end

process 1 4 gpt:0@16/00000+rn
coyotos 1
machine 1 2 2 2 2 2
capreg 1 1 gpt:0@16/0+rn
end

process 0 4 gpt:1@16/00000+rxwo
coyotos 1
machine 1 2 2 2 2 2
capreg 0 1 gpt:1@16/0+rxwo
end

cappage 1 9 page:0@12/00000
coyotos 1
machine 1 2 2 2 2 2
slot 0 0 range
cap 1 9 page:0@12/0
cap 1 10 range
end

gpt 1 2 page:0@12/00000
coyotos 1
machine 1 2 2 2 2 2
capreg 0 1 range
endpoint 0 process:1 0 0 plain
slot 1 2 page:0@12/0
end

endpoint 0 0 process:1
coyotos 1
machine 1 2 2 2 2 2
process 0 0 gpt:1@16/0 null null stop
endpoint 0 process:1 0 0 plain
end

process 0 5 page:1@12/00000
coyotos 1
machine 1 2 2 2 2 2
capreg 1 1 page:0@12/0
capreg 0 3 page:0@12/0
capreg 0 2 page:1@12/0
end";

/// Processes 1 and 3 send to process 0, which is stopped, through an endpoint whose recipient process 2 then takes
/// away.
const SLEEPERS: &str = "\
coyotos 1
machine 1 1 0 1 4 1
code 0 000 ecall
slot 0 0 page:0@12/0
endpoint 0 process:0 00000000 00000000 plain
process 0 0 null schedule:7 null stop
process 1 0 gpt:0@16/0 schedule:5 null run
reg 1 10 00000021
capreg 1 1 entry:0:00000000
process 2 0 gpt:0@16/0 schedule:3 null run
reg 2 10 00000021
reg 2 11 00000008
capreg 2 1 endpoint:0
process 3 0 gpt:0@16/0 schedule:6 null run
reg 3 10 00000021
capreg 3 1 entry:0:00000001
end
";

/// What is found, where process 0 alone is on the left, behind so many steps.
const FOUND_ASLEEP: &str = "\
endpoint 0 0 process:0
endpoint 0 0 process:0
endpoint 0 0 process:0
sleeper 1";

/// Process 0 writes page 2 and clears it, and process 1 reads it through a capability that is read-only. What it reads
/// it writes to page 3, and then it tries to write page 2.
const PAIR: &str = "\
coyotos 1
machine 2 4 0 2 2 0
code 0 000 addi x5 x5 21
code 0 004 sw x5 0(x6)
code 0 008 ecall
code 0 00c jal x0 -12
code 1 000 lw x5 0(x6)
code 1 004 sw x5 0(x7)
code 1 008 lw x8 0(x6)
code 1 00c sw x5 0(x6)
slot 0 0 page:0@12/0+r
slot 0 1 page:2@12/0
slot 1 0 page:1@12/0+r
slot 1 1 page:2@12/0+r
slot 1 2 page:3@12/0
process 0 0 gpt:0@16/0 schedule:3 null run
reg 0 6 00001000
reg 0 10 00000021
reg 0 11 00000008
capreg 0 1 page:2@12/0
process 1 0 gpt:1@16/0 schedule:3 null run
reg 1 6 00001000
reg 1 7 00002000
end
";

/// Objects with even numbers are on the left.
const EVEN: &str = "left process 0\nleft gpt 0\nleft page 0\nleft page 2";

/// Its events, on hart 0 those of process 0 and on hart 1 those of process 1.
const TURNS: &str = "\
step 0
step 0
step 1
step 1
tick 1
step 0
step 0
step 1
tick 0
step 0
step 1
step 0";

/// Lines of its objects at the end. Page 2 was cleared behind the first load and written again behind the second.
const ENDED: &str = "\
page 2 000 2a000000000000000000000000000000
page 3 000 15000000000000000000000000000000
process 0 00000008 gpt:0@16/00000 schedule:3 null run
process 1 0000000c gpt:1@16/00000 schedule:3 null faulted AccessViolation 00001000
reg 1 5 00000015";

/// The kind whose sides are the `n`th, from 0.
fn kind_at(n: usize) -> CapKind {
    match n {
        0 => CapKind::Page,
        1 => CapKind::CapPage,
        2 => CapKind::Gpt,
        3 => CapKind::Endpoint,
        _ => CapKind::Process,
    }
}

/// Each object is on the row's side.
fn check_sides(rt: &impl Abort, cut: &Cut, row: &str) {
    let sides = word(row.as_bytes(), 1);
    check(rt, sides.len() == 20, row);
    for (n, side) in sides.iter().enumerate() {
        let letter = if n % 4 == 3 {
            b'.'
        } else {
            match cut.side_of(kind_at(n / 4), (n % 4) as u32) {
                CutSide::Left => b'l',
                CutSide::Right => b'r',
            }
        };
        check(rt, *side == letter, row);
    }
}

/// The fault of a line, or `-` where it has none.
fn fault_of(alloc: Global, cut: &mut Cut, line: &str) -> Result<String, Fail> {
    match read_cut(line.as_bytes(), cut) {
        Ok(()) => Ok("-".to_string(alloc)?),
        Err(fault) => Ok(format!(in alloc; "{fault:?}")?),
    }
}

/// Reads the row's line over a cut.
fn read_row(rt: &impl Abort, alloc: Global, cut: &mut Cut, row: &str) -> Result<(), Fail> {
    let (wanted, line) = barred(rt, row);
    let fault = fault_of(alloc, cut, line)?;
    check(rt, fault.as_bytes() == word(wanted.as_bytes(), 0), row);
    check_sides(rt, cut, wanted);
    Ok(())
}

/// Reads the rows' lines, one after the other.
fn read_rows(rt: &impl Abort, alloc: Global, cut: &mut Cut) -> Result<(), Fail> {
    for row in LINES.lines() {
        read_row(rt, alloc, cut, row)?;
    }
    Ok(())
}

#[test]
fn a_line_puts_objects_on_the_left_or_has_its_first_fault(rt: HostRuntime) -> Result<(), Fail> {
    read_rows(&rt, rt.alloc(), &mut Cut::new(rt.alloc(), SIZES)?)
}

/// What was found, in words.
fn push_verdict(line: &mut LineBuf, verdict: Verdict) {
    line.clear();
    match verdict {
        Verdict::Yes => line.push_word("yes"),
        Verdict::Sleeper { process } => line.push_numbered("sleeper ", u32::from(process)),
        Verdict::Capability {
            kind,
            number,
            place,
            cap,
        } => {
            line.push_word(kind_word(kind));
            line.push_numbered(" ", u32::from(number));
            line.push_numbered(" ", u32::from(place));
            line.push_word(" ");
            push_capability(line, cap);
        }
    }
}

/// Reads lines of a cut.
fn read_lines(rt: &impl Abort, cut: &mut Cut, lines: &str) {
    for line in lines.lines() {
        check(rt, read_cut(line.as_bytes(), cut).is_ok(), line);
    }
}

/// Finds in a machine, over the cut of these lines, what is wanted.
pub fn find<T: Translator, L: Ledger>(
    rt: &impl Abort,
    alloc: Global,
    machine: &Machine<T>,
    (lines, wanted): (&str, &str),
    fetches: &mut Steps<L>,
) {
    let mut cut = Cut::new(alloc, machine.objects().sizes()).expect(rt, wanted);
    read_lines(rt, &mut cut, lines);
    let mut line = LineBuf::new();
    push_verdict(&mut line, confined(machine, &cut, fetches));
    check(rt, line.as_bytes() == wanted.as_bytes(), wanted);
}

/// Finds what each block says.
fn find_breaches<L: Ledger>(rt: &impl Abort, alloc: Global, permit: Permit)
    requires ledger { permit ≡ permit_for L.name L.parts }
{
    let mut fetches = Steps::<L>::new(permit);
    for block in BREACHES.split("\n\n") {
        let (wanted, listing) = block.split_once("\n").expect(rt, block);
        let task = Task::Find((FIRST, wanted));
        perform_task(rt, alloc, listing, task, &mut fetches);
    }
}

#[test]
fn the_first_capability_that_breaks_a_cut_is_found(rt: HostRuntime) {
    find_breaches::<Brand>(&rt, rt.alloc(), Permit::new(&rt));
}

/// Performs an event of a row.
fn perform<T: Translator, L: Ledger>(
    rt: &impl Abort,
    machine: &mut Machine<T>,
    row: &str,
    fetches: &mut Steps<L>,
) {
    let e = event_at(rt, row, 0);
    let harts = machine.objects().sizes().harts;
    assert!(rt; hart_of(e) < harts);
    event(machine, e, fetches);
}

/// Finds what each row says, a step after the other.
pub fn find_and_step<T: Translator, L: Ledger>(
    rt: &impl Abort,
    alloc: Global,
    machine: &mut Machine<T>,
    fetches: &mut Steps<L>,
) {
    for wanted in FOUND_ASLEEP.lines() {
        find(rt, alloc, machine, ("left process 0", wanted), fetches);
        perform(rt, machine, "step 0", fetches);
    }
}

/// The same of the machine of sleepers.
fn find_sleepers<L: Ledger>(rt: &impl Abort, alloc: Global, permit: Permit)
    requires ledger { permit ≡ permit_for L.name L.parts }
{
    let mut fetches = Steps::<L>::new(permit);
    perform_task(rt, alloc, SLEEPERS, Task::Sleep, &mut fetches);
}

#[test]
fn the_least_process_that_sleeps_across_a_cut_is_found(rt: HostRuntime) {
    find_sleepers::<Brand>(&rt, rt.alloc(), Permit::new(&rt));
}

/// The lines of a machine's objects.
fn objects_text<T: Translator, L: Ledger>(
    rt: &impl Abort,
    alloc: Global,
    machine: &Machine<T>,
    row: &str,
    fetches: &mut Steps<L>,
) -> Vec<u8> {
    let mut output = MemSink::new(alloc, 4096, Vec::new(alloc), 4096).expect(rt, row);
    let put = put_objects(machine.objects(), &mut LineBuf::new(), &mut output, fetches);
    put.expect(rt, row);
    output.bytes
}

/// Whether a line is about an object with an even number.
fn is_even(line: &str) -> bool {
    match read_dec(word(line.as_bytes(), 1)) {
        Ok(number) => number % 2 == 0,
        Err(_) => false,
    }
}

/// Whether a text has the lines of another that are about the objects of one side.
fn has_side(text: &[u8], other: &[u8], even: bool) -> bool {
    for line in str::from_utf8(other).unwrap_or("").lines() {
        if is_even(line) == even && !has_line(text, line) {
            return false;
        }
    }
    true
}

/// Whether two texts have the same lines about the objects of one side. No line stands in a text twice.
fn agree(one: &[u8], other: &[u8], even: bool) -> bool {
    has_side(one, other, even) && has_side(other, one, even)
}

/// An event leaves the objects of the other side, and a tick those of both. A step changes those of its own.
fn check_turn(rt: &impl Abort, before: &[u8], after: &[u8], row: &str) {
    let even = row.ends_with('0');
    check(rt, agree(before, after, !even), row);
    let same = agree(before, after, even);
    check(rt, same == row.starts_with("tick"), row);
}

/// Performs a row's event on a machine in which the cut holds.
fn take_turn<T: Translator, L: Ledger>(
    rt: &impl Abort,
    alloc: Global,
    machine: &mut Machine<T>,
    row: &str,
    fetches: &mut Steps<L>,
) {
    find(rt, alloc, machine, (EVEN, "yes"), fetches);
    let before = objects_text(rt, alloc, machine, row, fetches);
    perform(rt, machine, row, fetches);
    let after = objects_text(rt, alloc, machine, row, fetches);
    check_turn(rt, before.as_slice(), after.as_slice(), row);
}

/// Performs the rows, one after the other.
pub fn take_all<T: Translator, L: Ledger>(
    rt: &impl Abort,
    alloc: Global,
    machine: &mut Machine<T>,
    fetches: &mut Steps<L>,
) {
    for row in TURNS.lines() {
        take_turn(rt, alloc, machine, row, fetches);
    }
    let last = objects_text(rt, alloc, machine, ENDED, fetches);
    check_ended(rt, last.as_slice());
}

/// The same on the machine of the pair.
fn take_turns<L: Ledger>(rt: &impl Abort, alloc: Global, permit: Permit)
    requires ledger { permit ≡ permit_for L.name L.parts }
{
    let mut fetches = Steps::<L>::new(permit);
    perform_task(rt, alloc, PAIR, Task::Turn, &mut fetches);
}

/// The objects have the lines that they are to have at the end.
fn check_ended(rt: &impl Abort, text: &[u8]) {
    for wanted in ENDED.lines() {
        check(rt, has_line(text, wanted), wanted);
    }
}

#[test]
fn neither_side_of_a_cut_that_holds_touches_the_other(rt: HostRuntime) {
    take_turns::<Brand>(&rt, rt.alloc(), Permit::new(&rt));
}
