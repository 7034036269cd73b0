//! Worked walks as one table: what the rules give for small machines, with the reads worked out by hand.
ghost use Rattle.std.specs.Prelude.{◌≡◌};
ghost use Rattle.steps.specs.Permit.{permit_for};

use crate::rows::{barred, check, hex, letter, short};
use crate::tasks::{Task, perform_task};
use coy_text::LineBuf;
use kernel_core::Machine;
use run_text::walk_line;
use std::alloc::Global;
use std::marker::Brand;
use std::process::Abort;
use std::sync::ledger::Ledger;
use steps::{Permit, Steps};
use walk_engine::{Trail, Translator, walk};
use walk_meaning::{Kind, Noted};

/// Machines, and in rows behind the point of each what walks come to. A row has a process, through whose space it walks,
/// an address and the kind of the access: `load`, `store`, `fetch` or `capload`. In bars are the line of what it comes
/// to, which tells the object, the offset and the restrictions of the place, or the fault and its handler, and behind it
/// each read of the trail, where the place is reached: the item, the lowest address of its block and the logarithm of its
/// size, all in decimal but addresses.
///
/// The machines are a GPT of 2^28 bytes a slot; one of many kinds, with a local window on its own slot; one that names
/// itself; one with a background, where a window at offset 5000 in GPT 1 leads to GPT 2; and the same with a handler.
const WALKS: &str = "\
coyotos 1
machine 1 2 0 1 1 0
gpt 0 28
slot 0 0 page:0@12/0+r
slot 0 1 page:1@12/0
process 0 0 gpt:0@32/0 null null stop
end
.
0 ffc load the last word of page 0 |reach page 0 ffc r; Header(Gpt, 0) 0 32; \
    Slot(0, 0) 0 28; Header(Page, 0) 0 28|
0 ffffffff load the last slot is Null |fault InvalidDataReference none|

coyotos 1
machine 1 1 1 1 2 0
slot 0 0 page:0@12/0+r
slot 0 1 page:0@12/0+x
slot 0 2 cappage:0@12/0
slot 0 3 local:3:0@12/0
process 0 0 gpt:0@16/0 null null stop
process 1 0 gpt:0@16/0+r null null stop
end
.
0 0 store RO at the page |fault AccessViolation none|
0 1000 fetch NX at the page |fault AccessViolation none|
0 2000 load bytes of a capability page |fault DataAccessTypeError none|
0 0 capload a capability of a page |fault CapAccessTypeError none|
0 2010 capload a slot of a capability page |reach cappage 0 010 -; Header(Gpt, 0) 0 32; \
    Slot(0, 2) 2000 12; Header(CapPage, 0) 2000 12|
1 1000 load through RO |reach page 0 000 rx; Header(Gpt, 0) 0 32; \
    Slot(0, 1) 1000 12; Header(Page, 0) 1000 12|
1 1000 store through RO |fault AccessViolation none|
0 3000 load a local window on its own slot |fault MalformedSpace none|

coyotos 1
machine 1 0 0 1 1 0
slot 0 0 gpt:0@12/0
process 0 0 gpt:0@16/0 null null stop
end
.
0 0 load a GPT that names itself |fault MalformedSpace none|

coyotos 1
machine 1 4 0 3 1 0
gpt 0 16 bg
slot 0 1 gpt:1@16/0
slot 0 14 gpt:2@20/0
slot 1 2 window:5000@12/0
slot 2 5 page:3@12/0
process 0 0 gpt:0@32/0 null null stop
end
.
0 12034 load through the window |reach page 3 034 -; Header(Gpt, 0) 0 32; \
    Slot(0, 1) 10000 16; Header(Gpt, 1) 10000 16; Slot(1, 2) 12000 12; Slot(0, 14) 12000 12; Header(Gpt, 2) 12000 12; \
    Slot(2, 5) 12000 12; Header(Page, 3) 12000 12|
0 e0000 load the slot of the background |fault InvalidDataReference none|

coyotos 1
machine 1 4 0 3 2 0
gpt 0 16 ha bg
slot 0 1 gpt:1@16/0
slot 0 14 gpt:2@20/0
slot 0 15 range
slot 1 2 window:5000@12/0
slot 2 5 page:3@12/0
process 0 0 gpt:0@32/0 null null stop
process 1 0 gpt:0@32/0+n null null stop
end
.
0 e0000 load Range handles |fault InvalidDataReference range|
1 e0000 load NC holds it back |fault InvalidDataReference none|";

/// The row's kind of access.
fn kind(row: &str) -> Kind {
    match letter(row, 2) {
        b'l' => Kind::Load,
        b's' => Kind::Store,
        b'f' => Kind::Fetch,
        _ => Kind::CapLoad,
    }
}

/// The texts of reads, one behind the other.
fn reads_text(rt: &impl Abort, alloc: Global, reads: &[Noted], row: &str) -> String {
    let mut text = String::new(alloc);
    for noted in reads {
        let (base, l2) = (noted.block.base(), noted.block.l2());
        write!(text, "; {:?} {base:x} {l2}", noted.item).expect(rt, row);
    }
    text
}

/// What the row says of a walk is this line, which ends in a line feed, and behind it these reads.
fn check_told(rt: &impl Abort, alloc: Global, line: &[u8], reads: &[Noted], wanted: &str) {
    let line = str::from_utf8(line).expect(rt, wanted);
    let told = line.strip_suffix("\n").expect(rt, wanted);
    let wanted_reads = wanted.strip_prefix(told).expect(rt, wanted);
    let reads = reads_text(rt, alloc, reads, wanted);
    check(rt, reads.as_str() == wanted_reads, wanted);
}

/// Walks as the row says, and compares.
fn check_walk<T: Translator, L: Ledger>(
    rt: &impl Abort,
    alloc: Global,
    machine: &Machine<T>,
    row: &str,
    fetches: &mut Steps<L>,
) {
    let (front, wanted) = barred(rt, row);
    let p = short(rt, front, 0);
    assert!(rt; p < machine.objects().sizes().processes);
    let (space, address) = (machine.space(p), hex(rt, front, 1));
    let (mut trail, mut line) = (Trail::new(), LineBuf::new());
    let answer = walk(
        machine.objects(),
        space,
        address,
        kind(front),
        &mut trail,
        fetches,
    );
    walk_line(&answer, &mut line);
    check_told(rt, alloc, line.as_bytes(), trail.as_slice(), wanted);
}

/// Walks as each row says.
pub fn check_rows<T: Translator, L: Ledger>(
    rt: &impl Abort,
    alloc: Global,
    machine: &Machine<T>,
    rows: &str,
    fetches: &mut Steps<L>,
) {
    for row in rows.lines() {
        check_walk(rt, alloc, machine, row, fetches);
    }
}

/// Walks as each block says.
fn check_walks<L: Ledger>(rt: &impl Abort, alloc: Global, permit: Permit)
    requires ledger { permit ≡ permit_for L.name L.parts }
{
    let mut fetches = Steps::<L>::new(permit);
    for block in WALKS.split("\n\n") {
        let (listing, rows) = block.split_once(".\n").expect(rt, block);
        perform_task(rt, alloc, listing, Task::Walk(rows), &mut fetches);
    }
}

#[test]
fn worked_walks_give_their_place_or_fault_and_their_reads(rt: HostRuntime) {
    check_walks::<Brand>(&rt, rt.alloc(), Permit::new(&rt));
}
