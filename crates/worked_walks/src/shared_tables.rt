//! What walks find over roots that share leaf tables, and a pool of them at its edge, worked out by hand from the
//! rules. The rows of a table are done one after the other.
ghost use Rattle.std.specs.Prelude.{◌≡◌, ◌<◌};
ghost use Rattle.sv32_tables.specs.Shared.{IsLeafTable, IsSharedRoot};

use crate::rows::{byte, check, hex, letter, number, short};
use arrayvec::ArrayVec;
use guard_math::Block;
use std::alloc::Global;
use std::process::Abort;
use sv32_tables::{Leaf, SharedPool, SharedUse};

/// A root and an address in each row, at which each row of `LINKS` says what is found.
const PLACES: &str = "\
0 405000
0 7ffffc
1 c05000
1 400000
2 ffc05ffc
2 ffc00000";

/// What is then found at each of the places, and what was done: the page in front of a digit for writing and one for
/// executing. `link` and `unlink` with a root, an address and a leaf table. `set` with a leaf table, an address, a page
/// and the two digits. `drop` with a leaf table, an address and the logarithm of the size of the block round it.
///
/// Frames 0 to 2 are roots, 3 and 4 leaf tables. The region of an address is its part over 2^22, and the place of its
/// page there that over 2^12.
const LINKS: &str = "\
- - - - - - set 3 5000 7 11 no root is linked to this table
711 - - - - - link 0 400000 3
711 - 711 - - - link 1 fff000 3 another region of another root
711 fff00 711 - - - set 3 3ff000 fff 0 the last page of the region
711 fff00 711 - - - set 4 5000 9 10
711 fff00 711 - 910 - link 2 ffffffff 4
801 fff00 801 - 910 - set 3 80005abc 8 1 the place alone counts, and both roots find the new entry
801 fff00 801 - 910 a11 set 4 0 a 11
801 fff00 801 a11 910 a11 link 1 400000 4
801 fff00 910 a11 910 a11 link 1 c00000 4 the link to the first table is gone
801 fff00 - a11 910 a11 unlink 1 c003ff
801 fff00 - a11 910 a11 unlink 1 c00000 there was none
801 fff00 - a11 910 a11 drop 4 6000 d this and the next page, where nothing is
801 fff00 - a11 - a11 drop 4 4000 d
801 fff00 - a11 - a11 drop 3 400000 16 all of it lies behind the region
- - - a11 - a11 drop 3 80000000 20 the whole space
b01 - - a11 - a11 set 3 5000 b 1 the links stand
b01 - b01 a11 - a11 link 1 c00000 3
b01 - b01 - - - drop 4 0 c
b01 - b01 - b01 - link 2 ffc00000 3
- - b01 - b01 - unlink 0 400000";

/// What is answered, and what was done or asked. The verbs of `LINKS`, and the next frame as a `root` or as a leaf
/// `table`, or so many more to `fill` with tables; all is made `empty`. The `count` of frames in use, the `number` in a
/// frame at an index, and what a `walk` finds of a root and an address. None is answered where no frame is left, where
/// nothing is found, and where something was only done.
const EDGE: &str = "\
0 root
1 root
2 table
3 count
- link 0 0 2
- link 1 0 2
- set 2 0 1 11
400801 number 0 0
400801 number 1 0
4df number 2 0
- fill fd
100 count
- root all frames are in use
- table
100 count
111 walk 0 fff nothing has changed
111 walk 1 0
- set ff 1000 2 0 the last frame is a table as any other
8d3 number ff 1
- link 1 0 ff
43fc01 number 1 0
- walk 1 0
200 walk 1 1000
111 walk 0 0
- empty
0 count
0 number 0 0
0 number 2 0
0 number ff 1
0 table the first frame is a table now
1 root
2 count
- walk 1 0
- link 1 0 0
- walk 1 0 it has no entry from before
400001 number 1 0";

/// A pool, and what each of its frames is for.
#[derive(Drop)]
struct Shared {
    pool: SharedPool,
    uses: ArrayVec<SharedUse, 256>,
    ghost known: { pool.uses ≡ uses.items },
}

impl Shared {
    fn new(rt: &impl Abort, alloc: Global, rows: &str) -> Shared {
        Shared {
            pool: SharedPool::new(alloc).expect(rt, rows),
            uses: ArrayVec::new(),
        }
    }

    /// The root at word `n`.
    fn root(&self, rt: &impl Abort, row: &str, n: usize) -> u16
        ensures { IsSharedRoot self.now.pool result }
    {
        let frame = short(rt, row, n);
        let found = self.uses.get(frame as usize).copied();
        assert!(rt; matches!(found, Some(SharedUse::Root)));
        frame
    }

    /// The leaf table at word `n`.
    fn table(&self, rt: &impl Abort, row: &str, n: usize) -> u16
        ensures { IsLeafTable self.now.pool result }
    {
        let frame = short(rt, row, n);
        let found = self.uses.get(frame as usize).copied();
        assert!(rt; matches!(found, Some(SharedUse::Leaf)));
        frame
    }

    /// The next frame is a root, if one is left.
    fn make_root(&mut self) -> Option<u32> {
        let _used = self.pool.used();
        match self.pool.make_root() {
            Ok(frame) => {
                self.uses.push(SharedUse::Root);
                Some(u32::from(frame))
            }
            Err(_) => None,
        }
    }

    /// The next frame is a leaf table, if one is left.
    fn make_table(&mut self) -> Option<u32> {
        let _used = self.pool.used();
        match self.pool.make_leaf() {
            Ok(frame) => {
                self.uses.push(SharedUse::Leaf);
                Some(u32::from(frame))
            }
            Err(_) => None,
        }
    }

    /// So many leaf tables more.
    fn fill(&mut self, rt: &impl Abort, count: u16, row: &str) {
        for _ in 0..count {
            check(rt, self.make_table().is_some(), row);
        }
    }

    fn link(&mut self, rt: &impl Abort, row: &str, n: usize)
        requires { n < 100 }
    {
        let root = self.root(rt, row, n);
        let table = self.table(rt, row, n + 2);
        self.pool.link(root, hex(rt, row, n + 1), table);
    }

    fn unlink(&mut self, rt: &impl Abort, row: &str, n: usize)
        requires { n < 100 }
    {
        let root = self.root(rt, row, n);
        self.pool.unlink(root, hex(rt, row, n + 1));
    }

    fn set(&mut self, rt: &impl Abort, row: &str, n: usize)
        requires { n < 100 }
    {
        let table = self.table(rt, row, n);
        let rights = byte(rt, row, n + 3);
        let entry = Leaf {
            page: short(rt, row, n + 2),
            write: rights >> 4 == 1,
            execute: rights & 1 == 1,
        };
        self.pool.set(table, hex(rt, row, n + 1), entry);
    }

    fn clear(&mut self, rt: &impl Abort, row: &str, n: usize)
        requires { n < 100 }
    {
        let table = self.table(rt, row, n);
        let l2 = byte(rt, row, n + 2);
        assert!(rt; 12 <= l2 && l2 <= 32);
        self.pool
            .clear(table, Block::around(hex(rt, row, n + 1), l2));
    }

    /// What a walk finds of the root and the address at word `n`: its page, and whether it may be written and executed.
    fn found(&self, rt: &impl Abort, row: &str, n: usize) -> Option<u32>
        requires { n < 100 }
    {
        let root = self.root(rt, row, n);
        let leaf = self.pool.hw_walk(root, hex(rt, row, n + 1)).ok()?;
        let write = u32::from(leaf.write) << 4;
        let execute = u32::from(leaf.execute);
        Some((u32::from(leaf.page) << 8) | write | execute)
    }

    /// The number in the frame at word `n`.
    fn number(&self, rt: &impl Abort, row: &str, n: usize) -> u32
        requires { n < 100 }
    {
        let (frame, index) = (short(rt, row, n), short(rt, row, n + 1));
        assert!(rt; frame < 256 && index < 1024);
        self.pool.word(frame, index)
    }

    /// Changes what the row says, whose verb is word `n`.
    fn change(&mut self, rt: &impl Abort, row: &str, n: usize)
        requires { n < 99 }
    {
        match letter(row, n) {
            b'l' => self.link(rt, row, n + 1),
            b'u' => self.unlink(rt, row, n + 1),
            b's' => self.set(rt, row, n + 1),
            b'd' => self.clear(rt, row, n + 1),
            b'f' => self.fill(rt, short(rt, row, n + 1), row),
            _ => {
                self.pool.clear_all();
                self.uses.clear();
            }
        }
    }

    /// Does what the row says, or asks it.
    fn perform(&mut self, rt: &impl Abort, row: &str) -> Option<u32> {
        match letter(row, 1) {
            b'r' => self.make_root(),
            b't' => self.make_table(),
            b'c' => Some(self.pool.used()),
            b'n' => Some(self.number(rt, row, 2)),
            b'w' => self.found(rt, row, 2),
            _ => {
                self.change(rt, row, 1);
                None
            }
        }
    }
}

/// At each place is found what the row says.
fn find_all(rt: &impl Abort, shared: &Shared, row: &str) {
    for (n, place) in PLACES.lines().enumerate() {
        let found = shared.found(rt, place, 0);
        check(rt, found == number(rt, row, n), row);
    }
}

/// Does each row of `LINKS`, and finds behind each what it says.
fn link_all(rt: &impl Abort, shared: &mut Shared) {
    shared.make_root();
    shared.make_root();
    shared.make_root();
    shared.fill(rt, 2, LINKS);
    for row in LINKS.lines() {
        shared.change(rt, row, 6);
        find_all(rt, shared, row);
    }
}

#[test]
fn roots_that_are_linked_to_a_table_find_its_entries(rt: HostRuntime) {
    let mut shared = Shared::new(&rt, rt.alloc(), LINKS);
    link_all(&rt, &mut shared);
}

/// Does each row of `EDGE`, and compares the answers.
fn perform_all(rt: &impl Abort, shared: &mut Shared) {
    for row in EDGE.lines() {
        let answer = shared.perform(rt, row);
        check(rt, answer == number(rt, row, 0), row);
    }
}

#[test]
fn a_pool_of_shared_tables_has_256_frames(rt: HostRuntime) {
    let mut shared = Shared::new(&rt, rt.alloc(), EDGE);
    perform_all(&rt, &mut shared);
}
