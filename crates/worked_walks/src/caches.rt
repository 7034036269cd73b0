//! Words of the hardware's tables, worked out by hand from the formats of Sv32, and a record in the table of records.

use crate::rows::{check, hex, short};
use cap_format::{CapKind, Item};
use depend_table::Depends;
use guard_math::Block;
use std::process::Abort;
use sv32_tables::{Leaf, TablePool};
use tlb_model::Tlb;

/// The page, whether it may be written and executed, and the word of such a leaf.
const LEAVES: &str = "\
0 0 0 000000d3
0 0 1 000000db
0 1 0 000000d7
0 1 1 000000df
1 0 0 000004d3
1 0 1 000004db
1 1 0 000004d7
1 1 1 000004df
2 0 0 000008d3
2 0 1 000008db
2 1 0 000008d7
2 1 1 000008df
3ff 0 0 000ffcd3
3ff 0 1 000ffcdb
3ff 1 0 000ffcd7
3ff 1 1 000ffcdf
400 0 0 001000d3
400 0 1 001000db
400 1 0 001000d7
400 1 1 001000df
fff 0 0 003ffcd3
fff 0 1 003ffcdb
fff 1 0 003ffcd7
fff 1 1 003ffcdf";

/// The leaf of a row.
fn leaf_of(rt: &impl Abort, row: &str) -> Leaf {
    Leaf {
        page: short(rt, row, 0),
        write: hex(rt, row, 1) == 1,
        execute: hex(rt, row, 2) == 1,
    }
}

/// The row's leaf has the row's word at address 0. In front of it stands that of page 1, which is installed first, at the
/// second address, and may be written and executed, and a word leads from the new root to their table.
fn check_leaf(rt: &impl Abort, pool: &mut TablePool, row: &str) {
    let root = pool.make_root().expect(rt, row);
    pool.install(root, 0x1000, leaf_of(rt, "1 1 1"))
        .expect(rt, row);
    pool.install(root, 0, leaf_of(rt, row)).expect(rt, row);
    check(rt, pool.word(0, 0) == 0x0040_0401, row);
    check(rt, pool.word(1, 0) == hex(rt, row, 3), row);
    check(rt, pool.word(1, 1) == 0x0000_04df, row);
}

#[test]
fn leaves_have_the_words_that_are_written_down(rt: HostRuntime) {
    for row in LEAVES.lines() {
        let mut pool = TablePool::new(rt.alloc()).expect(&rt, row);
        check_leaf(&rt, &mut pool, row);
    }
}

/// A hart's cache has room for 64 leaves: the 65th takes the place of the oldest, the 66th that of the next.
#[test]
fn the_oldest_leaf_goes_first(rt: HostRuntime) {
    let mut tlb = Tlb::new();
    for page in 0..66_u16 {
        let leaf = Leaf {
            page,
            write: false,
            execute: false,
        };
        tlb.fill(7, u32::from(page) * 4096, leaf);
    }
    for page in 0..66_u16 {
        let held = tlb.look(7, u32::from(page) * 4096 + 5).is_some();
        check(&rt, held == (page > 1), "a page");
    }
}

/// Notes a record of each slot of 1,024 GPTs, which is 16,384.
fn note_all(rt: &impl Abort, records: &mut Depends, page: Block, what: &str) {
    for n in 0..16384_u16 {
        let noted = records.note(Item::Slot(n / 16, (n % 16) as u8), 7, page);
        check(rt, noted.is_ok(), what);
    }
}

/// There is room for those records, and for no other; one that is there is noted again. Where one is taken, another has
/// its room.
fn fill_records(rt: &impl Abort, records: &mut Depends, what: &str) {
    let page = Block::around(0x1234_5678, 12);
    note_all(rt, records, page, what);
    let (header, last) = (Item::Header(CapKind::Process, 255), Item::Slot(1023, 15));
    check(rt, records.note(header, 7, page).is_err(), what);
    check(rt, records.note(last, 7, page).is_ok(), what);
    take(rt, records, last, page, what);
    check(rt, records.note(header, 7, page).is_ok(), what);
    take(rt, records, header, page, what);
}

/// Takes the record of an item.
fn take(rt: &impl Abort, records: &mut Depends, item: Item, page: Block, what: &str) {
    let (root, block) = records.take_one(item).expect(rt, what);
    check(rt, root == 7, what);
    check(rt, block == page, what);
}

#[test]
fn a_record_more_than_16384_is_refused(rt: HostRuntime) {
    let what = "a record";
    let mut records = Depends::new(rt.alloc()).expect(&rt, what);
    fill_records(&rt, &mut records, what);
}
