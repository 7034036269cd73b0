//! What shared leaf tables answer after each step, over five spaces and two harts, worked out by hand from the rules.
//! The rows are done one after the other.
ghost use Rattle.std.specs.Prelude.{◌≡◌, length};
ghost use Rattle.steps.specs.Permit.{permit_for};

use crate::kept::{Kept, SIZES, perform, space};
use crate::rows::{byte, check, hex, letter, number};
use object_store::Objects;
use shared_leaves::SharedLeaves;
use std::alloc::Global;
use std::marker::Brand;
use std::process::Abort;
use std::sync::ledger::Ledger;
use steps::{Permit, Steps};
use sv32_tables::Leaf;

/// What is answered, and what was done or asked. The verbs that do something are those of `perform`. How many frames are
/// `used`. The `root` of a space. The page that hardware would `walk` to from a space at an address, and the one that a
/// hart has `held`. None is answered where there is no such root or page, and where something was only done.
///
/// GPTs 0 and 1 hold GPT 2 in slot 0, behind a guard of 28. So the spaces `a` and `e` come to GPT 2 alike, `b` comes with
/// a restriction more, and what `f` and `g` pass is no whole region, which is too small to share.
const ROWS: &str = "\
- zone 0 1c
- zone 1 1c
- tie 0 0 0 3 2 0 1c 0 0
- tie 1 0 0 3 2 0 1c 0 0
- tie 2 0 0 1 0 0 c 0 0
0 used
- root a
0 load 0 a 0
2 used
0 store 1 e 4
3 used
0 root a
2 root e
0 walk a 0
0 walk e 0
- walk a 1000
f1 load 0 a 1000 behind the page
0 load 0 b 0
5 used
f5 store 0 b 0 it is denied, and nothing changes
0 held 0 b 0
- tie 2 0 0 1 1 0 c 0 0
- walk a 0
- walk e 0
- walk b 0
- held 0 b 0
1 load 1 a 0
1 load 0 e 0
1 held 1 a 0
5 used
1 load 0 f 0
1 load 1 g 10000
9 used
- destroy 1
- walk a 0
- walk g 10000
- held 1 g 10000
f1 load 0 a 0 a dead capability is none
9 used";

/// The page of a leaf.
fn page_of(leaf: Option<Leaf>) -> Option<u32> {
    let leaf = leaf?;
    Some(u32::from(leaf.page))
}

/// The page that hardware finds in the tables.
fn walked(rt: &impl Abort, leaves: &SharedLeaves, row: &str) -> Option<u32> {
    let root = leaves.root_of(space(rt, row, 2))?;
    page_of(leaves.pool().hw_walk(root, hex(rt, row, 3)).ok())
}

/// The page that a hart holds.
fn held(rt: &impl Abort, leaves: &SharedLeaves, row: &str) -> Option<u32>
    requires { length leaves.now.tlbs ≡ 2 }
{
    let hart = byte(rt, row, 2);
    assert!(rt; hart < 2);
    let root = leaves.root_of(space(rt, row, 3))?;
    page_of(leaves.tlb(hart).look(root, hex(rt, row, 4)))
}

/// What is answered to the row's question.
fn answer(rt: &impl Abort, leaves: &SharedLeaves, row: &str) -> Option<u32>
    requires { length leaves.now.tlbs ≡ 2 }
{
    match letter(row, 1) {
        b'u' => Some(leaves.frames()),
        b'r' => leaves.root_of(space(rt, row, 2)).map(u32::from),
        b'w' => walked(rt, leaves, row),
        b'h' => held(rt, leaves, row),
        _ => None,
    }
}

/// Does the rows, one after the other.
fn perform_rows<L: Ledger>(rt: &impl Abort, kept: &mut Kept<SharedLeaves>, fetches: &mut Steps<L>) {
    for row in ROWS.lines() {
        let came = perform(rt, kept, row, fetches);
        let answer = came.or(answer(rt, kept.translator(), row));
        check(rt, answer == number(rt, row, 0), row);
    }
}

/// The same, where at first all objects are empty and nothing is kept.
fn perform_all<L: Ledger>(rt: &impl Abort, alloc: Global, permit: Permit)
    requires ledger { permit ≡ permit_for L.name L.parts }
{
    let objects = Objects::new(alloc, SIZES).expect(rt, ROWS);
    let leaves = SharedLeaves::new(alloc, 2).expect(rt, ROWS);
    let mut kept = Kept::new(objects, leaves);
    perform_rows(rt, &mut kept, &mut Steps::<L>::new(permit));
}

#[test]
fn spaces_that_come_to_a_gpt_alike_share_a_leaf_table(rt: HostRuntime) {
    perform_all::<Brand>(&rt, rt.alloc(), Permit::new(&rt));
}
