//! Runs that are undone event by event, over the mapping cache, and then run once more.
ghost use Rattle.std.specs.Prelude.{◌≡◌, ◌≤◌};
ghost use Rattle.steps.specs.Permit.{permit_for};

use crate::rows::{check, has_line, letter, short};
use crate::starts::{event_at, hart_of, listing_of, state_text};
use image_builder::boot;
use map_cache::MapCache;
use reverse_run::Reversible;
use std::alloc::Global;
use std::marker::Brand;
use std::process::Abort;
use std::sync::ledger::Ledger;
use steps::{Permit, Steps};
use walk_engine::Translator;

/// A listing, its events a line each, and a line that the last state has and the first has not.
#[derive(Clone, Copy)]
struct Run {
    listing: &'static str,
    schedule: &'static str,
    shown: &'static str,
}

/// A page is destroyed, which two processes hold, and got again.
const DESTROYED: Run = Run {
    listing: "\
coyotos 1
machine 2 3 0 2 2 0
code 0 000 ecall
code 0 004 lui x10 0x80
code 0 008 addi x10 x10 0x21
code 0 00c addi x11 x0 8
code 0 010 addi x12 x0 1
code 0 014 addi x13 x0 2
code 0 018 ecall
code 0 01c lui x10 0x10
code 0 020 addi x10 x10 0x24
code 0 024 addi x11 x0 9
code 0 028 addi x12 x0 2
code 0 02c addi x18 x0 3
code 0 030 ecall
code 0 034 lui x5 2
code 0 038 sw x5 0(x5)
code 1 000 lw x6 0(x5)
code 1 004 lw x7 0(x5)
page 2 000 22222222
slot 0 0 page:0@12/0
slot 1 0 page:1@12/0
slot 1 1 page:2@12/0
process 0 0 gpt:0@16/0 schedule:3 null run
reg 0 10 00010021
reg 0 11 00000009
reg 0 18 00000002
reg 0 19 00000003
capreg 0 1 range
capreg 0 2 page:2@12/0
capreg 0 4 gpt:0@16/0
process 1 0 gpt:1@16/0 schedule:5 null run
reg 1 5 00001000
end
",
    schedule: "\
step 1
step 0
tick 0
step 0
step 0
step 0
step 0
step 0
step 0
step 0
step 0
step 0
step 0
step 0
step 0
step 0
step 0
step 1
tick 1",
    shown: "page 2 000 00200000000000000000000000000000",
};

/// A string is delivered that begins and ends within a page on both sides.
const DELIVERED: Run = Run {
    listing: "\
coyotos 1
machine 1 6 0 2 2 1
code 0 000 ecall
code 1 000 ecall
slot 0 0 page:0@12/0
slot 0 1 page:2@12/0
slot 0 2 page:3@12/0
slot 1 0 page:1@12/0
slot 1 1 page:4@12/0
slot 1 2 page:5@12/0
page 2 a00 22
page 3 600 33
page 5 000 55
endpoint 0 process:1 00000000 00000000 plain
process 0 0 gpt:0@16/0 schedule:3 null run
reg 0 10 00000021
reg 0 15 00001800
reg 0 16 00001000
capreg 0 1 entry:0:00000009
process 1 0 gpt:1@16/0 schedule:5 null run
reg 1 10 00000040
reg 1 20 00001a00
reg 1 21 00001000
end
",
    schedule: "step 0\ntick 0\nstep 0",
    shown: "page 5 800 33000000000000000000000000000000",
};

/// A process sleeps on one that does not wait, and is woken where that one waits.
const WOKEN: Run = Run {
    listing: "\
coyotos 1
machine 1 2 0 2 2 1
code 0 000 ecall
code 1 000 ecall
slot 0 0 page:0@12/0
slot 1 0 page:1@12/0
endpoint 0 process:0 00000000 00000005 match
process 0 0 gpt:0@16/0 schedule:1 null run
reg 0 10 00000040
process 1 0 gpt:1@16/0 schedule:3 null run
reg 1 10 00000021
reg 1 11 00000011
capreg 1 1 entry:0:00000005
end
",
    schedule: "step 0\nstep 0\nstep 0",
    shown: "endpoint 0 process:0 00000000 00000006 match",
};

/// A run by its first letter, for how many events there is room, and how many are then remembered.
const ROOMS: &str = "\
string 100 3
woken 100 3
destroyed 100 13
destroyed 1 1
destroyed 7 7
destroyed 13 13
destroyed 14 13";

/// The row's run.
fn run_of(row: &str) -> Run {
    match letter(row, 0) {
        b'd' => DESTROYED,
        b's' => DELIVERED,
        _ => WOKEN,
    }
}

/// Performs the event of a row.
fn perform<T: Translator, L: Ledger>(
    rt: &impl Abort,
    reversible: &mut Reversible<T>,
    row: &str,
    fetches: &mut Steps<L>,
) {
    let e = event_at(rt, row, 0);
    let harts = reversible.machine().objects().sizes().harts;
    assert!(rt; hart_of(e) < harts);
    reversible.event(e, fetches);
}

/// Puts the text of the state behind the others.
fn push_state<T: Translator, L: Ledger>(
    rt: &impl Abort,
    alloc: Global,
    reversible: &Reversible<T>,
    row: &str,
    texts: &mut Vec<Vec<u8>>,
    fetches: &mut Steps<L>,
) {
    let text = state_text(rt, alloc, reversible.machine(), row, fetches);
    texts.push(text).expect(rt, row);
}

/// Performs the events of a run, and puts the texts of all states behind the others, the first one first.
fn perform_all<T: Translator, L: Ledger>(
    rt: &impl Abort,
    alloc: Global,
    reversible: &mut Reversible<T>,
    row: &str,
    texts: &mut Vec<Vec<u8>>,
    fetches: &mut Steps<L>,
) {
    push_state(rt, alloc, reversible, row, texts, fetches);
    for line in run_of(row).schedule.lines() {
        perform(rt, reversible, line, fetches);
        push_state(rt, alloc, reversible, row, texts, fetches);
    }
}

/// The state has this text.
fn check_state<T: Translator, L: Ledger>(
    rt: &impl Abort,
    alloc: Global,
    reversible: &Reversible<T>,
    row: &str,
    wanted: &[u8],
    fetches: &mut Steps<L>,
) {
    let text = state_text(rt, alloc, reversible.machine(), row, fetches);
    check(rt, text.as_slice() == wanted, row);
}

/// Undoes an event for each text, which has to come back.
fn undo_all<T: Translator, L: Ledger>(
    rt: &impl Abort,
    alloc: Global,
    reversible: &mut Reversible<T>,
    row: &str,
    texts: &[Vec<u8>],
    fetches: &mut Steps<L>,
) {
    for text in texts.iter().rev() {
        check(rt, reversible.undo(fetches), row);
        check_state(rt, alloc, reversible, row, text.as_slice(), fetches);
    }
}

/// Performs the events once more, and the states have these texts.
fn perform_again<T: Translator, L: Ledger>(
    rt: &impl Abort,
    alloc: Global,
    reversible: &mut Reversible<T>,
    row: &str,
    texts: &[Vec<u8>],
    fetches: &mut Steps<L>,
) {
    let mut wanted = texts.iter().skip(1);
    for line in run_of(row).schedule.lines() {
        perform(rt, reversible, line, fetches);
        let text = wanted.next().expect(rt, row);
        check_state(rt, alloc, reversible, row, text.as_slice(), fetches);
    }
}

/// Undoes so many events, and then none is left to be undone, which changes nothing. The texts are those of all states,
/// and each that comes back has its own.
fn undo<T: Translator, L: Ledger>(
    rt: &impl Abort,
    alloc: Global,
    reversible: &mut Reversible<T>,
    row: &str,
    count: usize,
    texts: &[Vec<u8>],
    fetches: &mut Steps<L>,
) {
    assert!(rt; count < texts.len());
    let back = texts.split_at(texts.len() - 1 - count).1;
    undo_all(rt, alloc, reversible, row, back.split_at(count).0, fetches);
    check(rt, reversible.remembered() == 0, row);
    check(rt, !reversible.undo(fetches), row);
    let first = back.first().expect(rt, row);
    check_state(rt, alloc, reversible, row, first.as_slice(), fetches);
}

/// The last state has the run's line, and the first has not.
fn check_shown(rt: &impl Abort, texts: &[Vec<u8>], wanted: &str) {
    if let [first, .., last] = texts {
        check(rt, !has_line(first.as_slice(), wanted), wanted);
        check(rt, has_line(last.as_slice(), wanted), wanted);
    }
}

/// Undoes what is remembered of a run whose states have these texts. Where that is all of it, it goes from its start as
/// it went before.
fn undo_and_run<T: Translator, L: Ledger>(
    rt: &impl Abort,
    alloc: Global,
    reversible: &mut Reversible<T>,
    row: &str,
    texts: &[Vec<u8>],
    fetches: &mut Steps<L>,
) {
    check_shown(rt, texts, run_of(row).shown);
    check(rt, reversible.remembered() == short(rt, row, 2), row);
    let count = usize::from(reversible.remembered());
    undo(rt, alloc, reversible, row, count, texts, fetches);
    if count + 1 == texts.len() {
        perform_again(rt, alloc, reversible, row, texts, fetches);
    }
}

/// Performs the row's run, undoes what is remembered of it, and runs it again.
fn there_and_back<T: Translator, L: Ledger>(
    rt: &impl Abort,
    alloc: Global,
    mut reversible: Reversible<T>,
    row: &str,
    fetches: &mut Steps<L>,
) {
    let mut texts = Vec::new(alloc);
    perform_all(rt, alloc, &mut reversible, row, &mut texts, fetches);
    undo_and_run(rt, alloc, &mut reversible, row, texts.as_slice(), fetches);
}

/// A machine that remembers so many events, at the start of a listing.
fn start(rt: &impl Abort, alloc: Global, text: &str, depth: u16) -> Reversible<MapCache>
    requires least { 1 ≤ depth }
    requires most { depth ≤ 256 }
{
    let listing = listing_of(rt, alloc, text);
    let cache = MapCache::new(alloc, listing.sizes().harts).expect(rt, text);
    let machine = boot(alloc, &listing, cache).expect(rt, text);
    Reversible::new(alloc, machine, depth).expect(rt, text)
}

/// The row's run on its machine.
fn run_row<L: Ledger>(rt: &impl Abort, alloc: Global, row: &str, fetches: &mut Steps<L>) {
    let depth = short(rt, row, 1);
    assert!(rt; 1 <= depth && depth <= 256);
    let reversible = start(rt, alloc, run_of(row).listing, depth);
    there_and_back(rt, alloc, reversible, row, fetches);
}

/// The runs of all rows.
fn run_rows<L: Ledger>(rt: &impl Abort, alloc: Global, permit: Permit)
    requires ledger { permit ≡ permit_for L.name L.parts }
{
    let mut fetches = Steps::<L>::new(permit);
    for row in ROOMS.lines() {
        run_row(rt, alloc, row, &mut fetches);
    }
}

#[test]
fn a_run_is_undone_event_by_event_and_runs_again(rt: HostRuntime) {
    run_rows::<Brand>(&rt, rt.alloc(), Permit::new(&rt));
}
