//! Every request to the memory kinds as one table, whose replies were worked out by hand from the rules. The rows are
//! asked one after the other of one machine, so that a later row reads what an earlier one changed.
ghost use Rattle.std.specs.Prelude.{◌≡◌};
ghost use Rattle.steps.specs.Permit.{permit_for};

use crate::requests::{cap_at, check_reply, request_at};
use crate::rows::check;
use cap_format::Request;
use memory_caps::invoke;
use object_store::{Objects, Sizes};
use std::marker::Brand;
use std::process::Abort;
use std::sync::ledger::Ledger;
use steps::{Permit, Steps};

const SIZES: Sizes = Sizes {
    harts: 1,
    pages: 2,
    cappages: 1,
    gpts: 3,
    processes: 1,
    endpoints: 1,
};

/// The capability that is asked (its kind, object or offset, restrictions, l2g, match and slot), w1 to w4, the kind and
/// object of the capability sent, the reply's code and w2 to w4, the capability it gives or none, and the item that
/// changed: `h` the header of a GPT, `s` one of its slots, or none.
const ROWS: &str = "\
1 1 0 c 0 0 | 0 0 0 0 | 0 0 | 0 1 0 0 | - - - - - - | - - - | kind: a page
5 0 0 c 0 2 | 0 0 0 0 | 0 0 | 0 5 0 0 | - - - - - - | - - - | kind: a local window
1 1 4 c 0 0 | 1 3 0 0 | 0 0 | 0 0 0 0 | 1 1 7 c 0 0 | - - - | reduce adds restrictions
1 1 0 c 0 0 | 1 1f 0 0 | 0 0 | 0 0 0 0 | 1 1 1f c 0 0 | - - - | reduce: all five
1 1 0 c 0 0 | 1 20 0 0 | 0 0 | 4 0 0 0 | - - - - - - | - - - | reduce: over 31
1 1 0 d 5 0 | 2 0 0 0 | 0 0 | 0 d 5 0 | - - - - - - | - - - | getguard
1 1 0 c 0 0 | 3 10 ffff 0 | 0 0 | 0 0 0 0 | 1 1 0 10 ffff 0 | - - - | setguard
1 1 0 c 5 0 | 3 20 0 0 | 0 0 | 0 0 0 0 | 1 1 0 20 0 0 | - - - | setguard: the whole space
1 1 0 c 0 0 | 3 b 0 0 | 0 0 | 4 0 0 0 | - - - - - - | - - - | setguard: l2g below 12
1 1 0 c 0 0 | 3 21 0 0 | 0 0 | 4 0 0 0 | - - - - - - | - - - | setguard: l2g over 32
1 1 0 c 0 0 | 3 10 10000 0 | 0 0 | 4 0 0 0 | - - - - - - | - - - | setguard: the match has 17 bits
1 1 0 c 0 0 | 3 20 1 0 | 0 0 | 4 0 0 0 | - - - - - - | - - - | setguard: no match of no bits
1 1 0 c 0 0 | 3 10c 0 0 | 0 0 | 4 0 0 0 | - - - - - - | - - - | setguard: l2g 12 in its low byte alone
1 1 8 c 0 0 | 3 10 0 0 | 0 0 | 3 0 0 0 | - - - - - - | - - - | setguard: OP
1 1 8 c 0 0 | 3 b 0 0 | 0 0 | 3 0 0 0 | - - - - - - | - - - | setguard: OP comes before a bad guard
4 3000 0 c 0 0 | 3 c 7 0 | 0 0 | 0 0 0 0 | 4 3000 0 c 7 0 | - - - | setguard of a window
4 3000 0 c 0 0 | 3 d 0 0 | 0 0 | 4 0 0 0 | - - - - - - | - - - | setguard: the offset is no multiple
5 2000 0 c 0 4 | 3 d 0 0 | 0 0 | 0 0 0 0 | 5 2000 0 d 0 4 | - - - | setguard of a local window
1 1 15 c 0 0 | 4 0 0 0 | 0 0 | 0 15 0 0 | - - - - - - | - - - | getrestr
1 1 0 c 0 0 | 5 0 0 0 | 0 0 | 2 0 0 0 | - - - - - - | - - - | no request 5
1 1 1 c 0 0 | a 0 0 0 | 0 0 | 2 0 0 0 | - - - - - - | - - - | no request 10 of a page
2 0 1 c 0 0 | b 0 0 0 | 0 0 | 2 0 0 0 | - - - - - - | - - - | no request 11 of a capability page
3 0 9 c 0 0 | d 0 0 0 | 0 0 | 2 0 0 0 | - - - - - - | - - - | no request 13 of a GPT
4 0 0 c 0 0 | 8 0 0 0 | 0 0 | 2 0 0 0 | - - - - - - | - - - | no request 8 of a window
5 0 0 c 0 0 | 9 0 0 0 | 0 0 | 2 0 0 0 | - - - - - - | - - - | no request 9 of a local window
1 1 0 c 0 0 | 9 0 0 0 | 2 0 | 4 0 0 0 | - - - - - - | - - - | copy: of no page
1 1 1 c 0 0 | 9 0 0 0 | 2 0 | 3 0 0 0 | - - - - - - | - - - | copy: RO comes before that
1 1 1 c 0 0 | 9 0 0 0 | 1 0 | 3 0 0 0 | - - - - - - | - - - | copy: RO
1 1 0 c 0 0 | 9 0 0 0 | 1 0 | 0 0 0 0 | - - - - - - | - - - | copy
1 1 0 c 0 0 | 9 0 0 0 | 1 1 | 0 0 0 0 | - - - - - - | - - - | copy onto itself
1 0 1 c 0 0 | 8 0 0 0 | 0 0 | 3 0 0 0 | - - - - - - | - - - | clear: RO
1 0 0 c 0 0 | 8 0 0 0 | 0 0 | 0 0 0 0 | - - - - - - | - - - | clear
2 0 0 c 0 0 | 9 0 0 0 | 0 0 | 0 0 0 0 | 0 0 0 c 0 0 | - - - | get: an empty slot gives Null
2 0 0 c 0 0 | a 1 0 0 | 8 0 | 0 0 0 0 | - - - - - - | - - - | set
2 0 0 c 0 0 | a ff 0 0 | 1 1 | 0 0 0 0 | - - - - - - | - - - | set: the last slot
2 0 0 c 0 0 | 9 1 0 0 | 0 0 | 0 0 0 0 | 8 0 0 c 0 0 | - - - | get
2 0 0 c 0 0 | 9 ff 0 0 | 0 0 | 0 0 0 0 | 1 1 0 c 0 0 | - - - | get: the last slot
2 0 4 c 0 0 | 9 1 0 0 | 0 0 | 0 0 0 0 | 0 0 0 c 0 0 | - - - | get through WK: a process becomes Null
2 0 4 c 0 0 | 9 ff 0 0 | 0 0 | 0 0 0 0 | 1 1 15 c 0 0 | - - - | get through WK: a page is weakened
2 0 0 c 0 0 | 9 100 0 0 | 0 0 | 4 0 0 0 | - - - - - - | - - - | get: over 255
2 0 0 c 0 0 | a 100 0 0 | 0 0 | 4 0 0 0 | - - - - - - | - - - | set: over 255
2 0 1 c 0 0 | a 1 0 0 | 0 0 | 3 0 0 0 | - - - - - - | - - - | set: RO
2 0 1 c 0 0 | a 100 0 0 | 0 0 | 3 0 0 0 | - - - - - - | - - - | set: RO comes before the slot
2 0 1 c 0 0 | 8 0 0 0 | 0 0 | 3 0 0 0 | - - - - - - | - - - | clear of a capability page: RO
2 0 0 c 0 0 | 9 1 0 0 | 0 0 | 0 0 0 0 | 8 0 0 c 0 0 | - - - | get: the refusals changed nothing
2 0 0 c 0 0 | 8 0 0 0 | 0 0 | 0 0 0 0 | - - - - - - | - - - | clear of a capability page
2 0 0 c 0 0 | 9 ff 0 0 | 0 0 | 0 0 0 0 | 0 0 0 c 0 0 | - - - | get: all slots are Null
3 0 0 c 0 0 | 8 3 0 0 | 0 0 | 0 0 0 0 | 0 0 0 c 0 0 | - - - | getslot: an empty slot gives Null
3 0 0 c 0 0 | 9 3 0 0 | 1 1 | 0 0 0 0 | - - - - - - | s 0 3 | setslot
3 0 0 c 0 0 | 9 3 0 0 | 1 1 | 0 0 0 0 | - - - - - - | s 0 3 | setslot: the item is told for the same value too
3 0 0 c 0 0 | 8 3 0 0 | 0 0 | 0 0 0 0 | 1 1 0 c 0 0 | - - - | getslot
3 0 1 c 0 0 | 8 3 0 0 | 0 0 | 0 0 0 0 | 1 1 0 c 0 0 | - - - | getslot through RO
3 0 4 c 0 0 | 8 3 0 0 | 0 0 | 0 0 0 0 | 1 1 15 c 0 0 | - - - | getslot through WK
3 2 0 c 0 0 | 9 f 0 0 | c 0 | 0 0 0 0 | - - - - - - | s 2 f | setslot: the last slot of the last GPT
3 2 0 c 0 0 | 8 f 0 0 | 0 0 | 0 0 0 0 | c 0 0 c 0 0 | - - - | getslot: that slot
3 0 8 c 0 0 | 8 3 0 0 | 0 0 | 3 0 0 0 | - - - - - - | - - - | getslot: OP
3 0 8 c 0 0 | 8 10 0 0 | 0 0 | 3 0 0 0 | - - - - - - | - - - | getslot: OP comes before the slot
3 0 0 c 0 0 | 8 10 0 0 | 0 0 | 4 0 0 0 | - - - - - - | - - - | getslot: over 15
3 0 8 c 0 0 | 9 3 0 0 | 0 0 | 3 0 0 0 | - - - - - - | - - - | setslot: OP
3 0 1 c 0 0 | 9 3 0 0 | 0 0 | 3 0 0 0 | - - - - - - | - - - | setslot: RO
3 0 1 c 0 0 | 9 10 0 0 | 0 0 | 3 0 0 0 | - - - - - - | - - - | setslot: RO comes before the slot
3 0 0 c 0 0 | 9 10 0 0 | 0 0 | 4 0 0 0 | - - - - - - | - - - | setslot: over 15
3 0 0 c 0 0 | 8 3 0 0 | 0 0 | 0 0 0 0 | 1 1 0 c 0 0 | - - - | getslot: the refusals changed nothing
3 0 1 c 0 0 | a 0 0 0 | 0 0 | 0 c 0 0 | - - - - - - | - - - | getheader of an empty GPT
3 0 8 c 0 0 | a 0 0 0 | 0 0 | 3 0 0 0 | - - - - - - | - - - | getheader: OP
3 0 0 c 0 0 | b 1f 1 0 | 0 0 | 0 0 0 0 | - - - - - - | h 3 0 | setheader: the largest l2v, ha
3 0 0 c 0 0 | a 0 0 0 | 0 0 | 0 1f 1 0 | - - - - - - | - - - | getheader: ha
3 0 0 c 0 0 | b e 2 0 | 0 0 | 0 0 0 0 | - - - - - - | h 3 0 | setheader: bg
3 0 0 c 0 0 | a 0 0 0 | 0 0 | 0 e 2 0 | - - - - - - | - - - | getheader: bg
3 0 0 c 0 0 | b e 3 0 | 0 0 | 0 0 0 0 | - - - - - - | h 3 0 | setheader: both flags
3 0 0 c 0 0 | b e 3 0 | 0 0 | 0 0 0 0 | - - - - - - | h 3 0 | setheader: the item is told for the same value too
3 0 0 c 0 0 | b b 0 0 | 0 0 | 4 0 0 0 | - - - - - - | - - - | setheader: l2v below 12
3 0 0 c 0 0 | b 20 0 0 | 0 0 | 4 0 0 0 | - - - - - - | - - - | setheader: l2v over 31
3 0 0 c 0 0 | b c 4 0 | 0 0 | 4 0 0 0 | - - - - - - | - - - | setheader: flags over 3
3 0 8 c 0 0 | b c 4 0 | 0 0 | 3 0 0 0 | - - - - - - | - - - | setheader: OP comes before the flags
3 0 1 c 0 0 | b c 0 0 | 0 0 | 3 0 0 0 | - - - - - - | - - - | setheader: RO
3 0 0 c 0 0 | a 0 0 0 | 0 0 | 0 e 3 0 | - - - - - - | - - - | getheader: the refusals changed nothing
3 0 0 c 0 0 | c 9805 2 5000 | 0 0 | 0 0 0 0 | - - - - - - | s 0 5 | setwindow: slot 5, 2^12 bytes, RO
3 0 0 c 0 0 | 8 5 0 0 | 0 0 | 0 0 0 0 | 4 5000 1 c 2 0 | - - - | getslot: that window
3 0 0 c 0 0 | c f9876 0 1000 | 0 0 | 0 0 0 0 | - - - - - - | s 0 6 | setwindow: slot 6, local slot 3, all restrictions
3 0 0 c 0 0 | 8 6 0 0 | 0 0 | 0 0 0 0 | 5 1000 1f c 0 3 | - - - | getslot: that local window
3 0 0 c 0 0 | c 4007 0 0 | 0 0 | 0 0 0 0 | - - - - - - | s 0 7 | setwindow: the whole space at offset 0
3 0 0 c 0 0 | c 101805 2 5000 | 0 0 | 4 0 0 0 | - - - - - - | - - - | setwindow: bit 20
3 0 0 c 0 0 | c 80001805 2 5000 | 0 0 | 4 0 0 0 | - - - - - - | - - - | setwindow: bit 31
3 0 0 c 0 0 | c 1865 2 5000 | 0 0 | 4 0 0 0 | - - - - - - | - - - | setwindow: a local slot without the flag
3 0 0 c 0 0 | c 1605 0 0 | 0 0 | 4 0 0 0 | - - - - - - | - - - | setwindow: l2g below 12
3 0 0 c 0 0 | c 4205 0 0 | 0 0 | 4 0 0 0 | - - - - - - | - - - | setwindow: l2g over 32
3 0 0 c 0 0 | c 1805 100000 0 | 0 0 | 4 0 0 0 | - - - - - - | - - - | setwindow: the match has 21 bits
3 0 0 c 0 0 | c 1805 0 5800 | 0 0 | 4 0 0 0 | - - - - - - | - - - | setwindow: the offset is no multiple
3 0 0 c 0 0 | c 4005 0 1000 | 0 0 | 4 0 0 0 | - - - - - - | - - - | setwindow: the whole space at another offset
3 0 8 c 0 0 | c 1805 0 0 | 0 0 | 3 0 0 0 | - - - - - - | - - - | setwindow: OP
3 0 1 c 0 0 | c 101805 0 0 | 0 0 | 3 0 0 0 | - - - - - - | - - - | setwindow: RO comes before a bit that is set
3 0 0 c 0 0 | 8 5 0 0 | 0 0 | 0 0 0 0 | 4 5000 1 c 2 0 | - - - | getslot: the refusals changed nothing
";

/// Asks what the row asks, and compares.
fn perform<L: Ledger>(rt: &impl Abort, objects: &mut Objects, row: &str, fetches: &mut Steps<L>) {
    let asked = request_at(rt, row, 7);
    let sent = objects.live(asked.sent);
    let cap = objects.live(cap_at(rt, row, 0));
    assert!(rt; cap.kind().is_memory());
    let words = asked.words;
    let reply = invoke(objects, cap, Request { words, sent }, fetches);
    check_reply(rt, reply, row, 15);
}

/// Does the rows, one after the other, under a counter, which has no bytes.
fn perform_all<L: Ledger>(rt: &impl Abort, objects: &mut Objects, permit: Permit)
    requires ledger { permit ≡ permit_for L.name L.parts }
{
    check(rt, size_of::<Steps<L>>() == 0, "a counter");
    let mut fetches = Steps::<L>::new(permit);
    for row in ROWS.lines() {
        perform(rt, objects, row, &mut fetches);
    }
}

/// The first bytes of both pages.
fn first_bytes(rt: &impl Abort, objects: &Objects) -> [u8; 2] {
    assert!(rt; objects.sizes().pages == 2);
    let (mut low, mut high) = ([0], [0]);
    objects.page(0).read(0, &mut low);
    objects.page(1).read(0, &mut high);
    [low[0], high[0]]
}

/// Two pages with ab and cd as their first bytes, and some of each other object, empty. Page 0 is copied to page 1
/// before it is cleared.
#[test]
fn requests_to_the_memory_kinds_are_replied_as_their_rows_say(rt: HostRuntime) {
    let mut objects = Objects::new(rt.alloc(), SIZES).expect(&rt, "memory");
    objects.page_mut(0).write(0, &[0xab]);
    objects.page_mut(1).write(0, &[0xcd]);
    perform_all::<Brand>(&rt, &mut objects, Permit::new(&rt));
    check(&rt, first_bytes(&rt, &objects) == [0, 0xab], "pages");
}
