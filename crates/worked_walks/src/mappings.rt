//! What a mapping cache answers after each step, over four spaces, two harts, and the two pools at their edges, worked
//! out by hand from the rules. The rows of a table are done one after the other.
ghost use Rattle.std.specs.Prelude.{◌≡◌, length};
ghost use Rattle.steps.specs.Permit.{permit_for};

use crate::kept::{Kept, SIZES, perform, space};
use crate::rows::{byte, check, hex, letter, number, short};
use map_cache::MapCache;
use object_store::Objects;
use std::alloc::Global;
use std::marker::Brand;
use std::process::Abort;
use std::sync::ledger::Ledger;
use steps::{Permit, Steps};

/// What is answered, and what was done or asked. The verbs that do something are those of `perform`. How many frames are
/// `used`. The `root` of a space. The `word` of a frame at an index. The page that a hart has `held` under a root at an
/// address. The `entry` of this number, which has to have this space and this address: its page in the first digit, and
/// whether it may be written and executed in the others. None is answered where there is no such root, page or entry,
/// and where something was only done.
///
/// Through GPTs 0 to 2 each region of 4 MB has its first page, which is page 0.
const FRAMES: &str = "\
- zone 0 1c
- zone 1 18
- zone 2 16
- tie 0 0 f 3 1 0 20 0 0
- tie 1 0 f 3 2 0 20 0 0
- tie 2 0 3 1 0 0 c 0 0
0 used
- root a
- entry 0 a 0
0 load 0 a 0
2 used
0 root a
400401 word 0 0
df word 1 0
0 held 0 0 0
- held 1 0 0
0 load 1 b 400123
4 used
2 root b
400c01 word 2 1
db word 3 0
0 held 1 2 400000
- held 0 2 400000
1 load 0 c ffc
6 used
4 root c
401401 word 4 0
4df word 5 0
11 entry 0 a 0
01 entry 1 b 400000
111 entry 2 c 0
- entry 3 a 0
f5 store 0 b 400000 it is denied, and nothing changes
0 store 1 a 10 the other hart finds it in the tables
0 held 1 0 0
f1 load 0 a 1000 behind the page
6 used
- entry 3 a 0
- cut 2 1 the walk of b read this slot, and that of a didn't
- held 1 2 400000
0 held 0 0 0
0 word 3 0
111 entry 1 c 0
- entry 2 a 0
6 used
f1 load 1 b 400000
- tie 2 1 1 1 2 0 c 0 0
2 load 1 b 400000
8db word 3 0
201 entry 1 b 400000
- destroy 1
- held 0 4 0
- entry 2 a 0
4 root c its frames stay
f1 load 0 c 0 it isn't live
1 load 0 d 0 it has another count, so it is another space
6 root d
8 used
111 entry 2 d 0
- fill 0 a 1 f8 16 248 regions more
100 used all frames are in use
43fc01 word 0 f8
df word ff 0
11 entry f8 a 3e000000
201 entry f9 b 400000
111 entry fa d 0
- entry fb a 0
0 held 0 0 3e000000
- held 0 0 0 a hart holds the last 64
2 load 0 b 400000 this needs no frame
0 load 1 a 3e000010 nor this
0 held 1 0 3e000000
100 used
111 entry fa d 0
2 load 1 a 3e400000 this needs one more, so everything is forgotten
2 used
0 root a
- root b
- root c
- root d
211 entry 0 a 3e400000
- entry 1 a 0
0 word 0 0
0 word 0 f8
400401 word 0 f9
8df word 1 0
2 held 1 0 3e400000
- held 1 0 3e000000
- held 0 0 3e000000
1 load 0 d 0
2 root d
4 used
- fill 1 a 0 fb 16 252 regions, of which one is there
ff used one frame is free
111 entry fc d 0
0 load 0 b 0 a new space needs two
2 used
- root a
0 root b
01 entry 0 b 0
- entry 1 a 0";

/// The same verbs on another machine: through GPTs 0 and 1 there are 256 pages, and behind GPT 1 come 29 GPTs in a
/// chain. A walk reads the header and a slot of each GPT, and the header of the page. Of its 63 reads 60 are for the page
/// alone, two for the 16 pages round it, and one for the space. So `a` has 15,393 records with all its pages, and `b`
/// 991 with one page in 14 of the sixteens and two in another.
const RECORDS: &str = "\
- zone 0 10
- tie 0 0 f 3 1 0 20 0 0
- tie 1 0 f 3 2 0 20 0 0
- tie 2 0 0 3 3 0 20 0 0
- tie 3 0 0 3 4 0 20 0 0
- tie 4 0 0 3 5 0 20 0 0
- tie 5 0 0 3 6 0 20 0 0
- tie 6 0 0 3 7 0 20 0 0
- tie 7 0 0 3 8 0 20 0 0
- tie 8 0 0 3 9 0 20 0 0
- tie 9 0 0 3 a 0 20 0 0
- tie a 0 0 3 b 0 20 0 0
- tie b 0 0 3 c 0 20 0 0
- tie c 0 0 3 d 0 20 0 0
- tie d 0 0 3 e 0 20 0 0
- tie e 0 0 3 f 0 20 0 0
- tie f 0 0 3 10 0 20 0 0
- tie 10 0 0 3 11 0 20 0 0
- tie 11 0 0 3 12 0 20 0 0
- tie 12 0 0 3 13 0 20 0 0
- tie 13 0 0 3 14 0 20 0 0
- tie 14 0 0 3 15 0 20 0 0
- tie 15 0 0 3 16 0 20 0 0
- tie 16 0 0 3 17 0 20 0 0
- tie 17 0 0 3 18 0 20 0 0
- tie 18 0 0 3 19 0 20 0 0
- tie 19 0 0 3 1a 0 20 0 0
- tie 1a 0 0 3 1b 0 20 0 0
- tie 1b 0 0 3 1c 0 20 0 0
- tie 1c 0 0 3 1d 0 20 0 0
- tie 1d 0 0 3 1e 0 20 0 0
- tie 1e 0 0 1 0 0 c 0 0
- fill 0 a 0 ff c 1 + 32 + 15360
- fill 1 b 0 e 10 1 + 30 + 900
11 entry ff a ff000
01 entry 10e b e0000
- entry 10f a 0
0 load 1 b 1000 60 more: all records are in use
4 used
0 root a
2 root b
01 entry 101 b 1000
01 entry 10f b e0000
- entry 110 a 0
0 load 1 a ff000 what is held needs none
0 held 1 0 ff000
- cut 0 e 16 pages of a and one of b go, but one record of each
11 entry ef a ff000
01 entry fe b d0000
- entry ff a 0
- tie 0 e e 3 1 0 20 0 0
- fill 0 a e0 ef c one record: the others are there
0 load 1 b e0000 one record
4 used
01 entry 10f b e0000
- entry 110 a 0
1 load 0 c 0 one record more, so everything is forgotten
2 used
- root a
- root b
0 root c
111 entry 0 c 0
- entry 1 a 0
- held 1 2 e0000
- held 0 0 ef000
1 held 0 0 0";

/// The row's entry.
fn entry(rt: &impl Abort, cache: &MapCache, row: &str) -> Option<u32> {
    let (space, address) = (space(rt, row, 3), hex(rt, row, 4));
    let mapping = cache.mapping(hex(rt, row, 2))?;
    check(rt, mapping.space == space && mapping.va == address, row);
    let write = u32::from(mapping.write) << 4;
    let execute = u32::from(mapping.execute);
    Some((u32::from(mapping.page) << 8) | write | execute)
}

/// The page that a hart holds.
fn held(rt: &impl Abort, cache: &MapCache, row: &str) -> Option<u32>
    requires { length cache.now.tlbs ≡ 2 }
{
    let hart = byte(rt, row, 2);
    assert!(rt; hart < 2);
    let leaf = cache.tlb(hart).look(short(rt, row, 3), hex(rt, row, 4))?;
    Some(u32::from(leaf.page))
}

/// The word of a frame.
fn word_of(rt: &impl Abort, cache: &MapCache, row: &str) -> u32 {
    let (frame, index) = (short(rt, row, 2), short(rt, row, 3));
    assert!(rt; frame < 256 && index < 1024);
    cache.pool().word(frame, index)
}

/// What is answered to the row's question.
fn answer(rt: &impl Abort, cache: &MapCache, row: &str) -> Option<u32>
    requires { length cache.now.tlbs ≡ 2 }
{
    match letter(row, 1) {
        b'u' => Some(u32::from(cache.pool().used())),
        b'r' => cache.root_of(space(rt, row, 2)).map(u32::from),
        b'w' => Some(word_of(rt, cache, row)),
        b'h' => held(rt, cache, row),
        b'e' => entry(rt, cache, row),
        _ => None,
    }
}

/// Does the rows of a table, one after the other.
fn perform_rows<L: Ledger>(
    rt: &impl Abort,
    kept: &mut Kept<MapCache>,
    rows: &str,
    fetches: &mut Steps<L>,
) {
    for row in rows.lines() {
        let came = perform(rt, kept, row, fetches);
        let answer = came.or(answer(rt, kept.translator(), row));
        check(rt, answer == number(rt, row, 0), row);
    }
}

/// The same of one of the two tables, where at first all objects are empty and nothing is kept.
fn perform_all<L: Ledger>(rt: &impl Abort, alloc: Global, of_records: bool, permit: Permit)
    requires ledger { permit ≡ permit_for L.name L.parts }
{
    let rows = if of_records { RECORDS } else { FRAMES };
    let objects = Objects::new(alloc, SIZES).expect(rt, rows);
    let cache = MapCache::new(alloc, 2).expect(rt, rows);
    let mut kept = Kept::new(objects, cache);
    perform_rows(rt, &mut kept, rows, &mut Steps::<L>::new(permit));
}

#[test]
fn frames_go_to_spaces_and_regions_until_there_is_none(rt: HostRuntime) {
    perform_all::<Brand>(&rt, rt.alloc(), false, Permit::new(&rt));
}

#[test]
fn records_go_to_items_and_blocks_until_there_is_none(rt: HostRuntime) {
    perform_all::<Brand>(&rt, rt.alloc(), true, Permit::new(&rt));
}
