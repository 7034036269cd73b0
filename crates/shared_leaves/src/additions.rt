//! What a walk adds: the reads on which its link depends, and those on which its entry depends.

ghost use Rattle.std.specs.Prelude.{◌≡◌, ◌≤◌, ◌<◌, ◌+◌, ◌/◌, ◌%◌, ◌++◌, length, map, take, None, Some, IfSome};
ghost use Rattle.std.specs.List.{AllByRecursion as Each};
ghost use Rattle.cap_format.specs.Item.{IsItem};
ghost use Rattle.walk_meaning.specs.Bounds.{Below};
ghost use Rattle.producers.specs.Producer.{background_number, cut};
ghost use Rattle.shared_leaves.specs.Kept.{background_reads};
ghost use Rattle.shared_leaves.specs.Effects.{Agrees, IsKept, Remembers, addition_for, value_of};

use crate::key::Key;
use crate::leaves::LeafTables;
use arrayvec::ArrayVec;
use cap_format::{Cap, CapKind, Item};
use guard_math::Block;
use producers::{Background, Produced};
use sv32_tables::Leaf;
use walk_meaning::Noted;

/// The reads on which an entry depends: those of a trail, and one of a background GPT.
type EntryReads = ArrayVec<Noted, 67>;

impl LeafTables {
    /// Adds where a walk ended, by its producer and its reads; these have the producer's header.
    pub fn remember_walk(
        &mut self,
        hart: u8,
        space: Cap,
        va: u32,
        leaf: Leaf,
        produced: Option<Produced>,
        reads: &[Noted],
    )
        requires kept { IsKept self.old }
        requires hart { hart < length self.old.tlbs.items }
        requires agrees { let add = addition_for space (va / 4096) produced reads.now in
            Agrees (value_of self.old) add.key (va / 4096 % 1024) leaf }
        requires items { Each (λ n. IsItem n.item) reads.now }
        requires few { length reads.now ≤ 66 }
        requires within { IfSome produced (λ p. p.before < length reads.now) }
        requires background { IfSome produced
            (λ p. Below 1024 (background_number p.producer.background)) }
        ensures done { Remembers (value_of self.old) (value_of self.new) hart space (va / 4096) leaf
            (addition_for space (va / 4096) produced reads.now) }
        ensures kept { IsKept self.new }
    {
        match produced {
            Some(joined) => self.remember_joined(hart, space, va, leaf, joined, reads),
            None => self.remember_own(hart, space, va, leaf, reads),
        }
    }

    /// Adds where a walk without a producer ended, to the space's own leaf table of the region.
    fn remember_own(&mut self, hart: u8, space: Cap, va: u32, leaf: Leaf, reads: &[Noted])
        requires kept { IsKept self.old }
        requires hart { hart < length self.old.tlbs.items }
        requires agrees { let add = addition_for space (va / 4096) None reads.now in
            Agrees (value_of self.old) add.key (va / 4096 % 1024) leaf }
        requires items { Each (λ n. IsItem n.item) reads.now }
        requires few { length reads.now ≤ 66 }
        ensures done { Remembers (value_of self.old) (value_of self.new) hart space (va / 4096) leaf
            (addition_for space (va / 4096) None reads.now) }
        ensures kept { IsKept self.new }
    {
        let key = Key::own(space, (va / 4096 / 1024) as u16);
        let entry_reads = entry_reads(None, reads);
        self.remember(
            hart,
            space,
            va,
            leaf,
            &key,
            &reads[..0],
            entry_reads.as_slice(),
        );
    }

    /// Adds where a walk with a producer ended, to the producer's leaf table.
    fn remember_joined(
        &mut self,
        hart: u8,
        space: Cap,
        va: u32,
        leaf: Leaf,
        joined: Produced,
        reads: &[Noted],
    )
        requires kept { IsKept self.old }
        requires hart { hart < length self.old.tlbs.items }
        requires agrees { let add = addition_for space (va / 4096) (Some joined) reads.now in
            Agrees (value_of self.old) add.key (va / 4096 % 1024) leaf }
        requires items { Each (λ n. IsItem n.item) reads.now }
        requires few { length reads.now ≤ 66 }
        requires within { joined.before < length reads.now }
        requires background { Below 1024 (background_number joined.producer.background) }
        ensures done { Remembers (value_of self.old) (value_of self.new) hart space (va / 4096) leaf
            (addition_for space (va / 4096) (Some joined) reads.now) }
        ensures kept { IsKept self.new }
    {
        let key = Key::producer(joined.producer);
        let link_reads = link_reads(joined.before, reads);
        let entry_reads = entry_reads(joined.producer.background, &reads[joined.before..]);
        self.remember(
            hart,
            space,
            va,
            leaf,
            &key,
            link_reads,
            entry_reads.as_slice(),
        );
    }
}

/// What a link depends on: the reads up to the producer's header.
fn link_reads(before: usize, reads: &[Noted]) -> &[Noted]
    requires { before < length reads.now }
    ensures { result.now ≡ take (before + 1) reads.now }
{
    &reads[..before + 1]
}

/// What an entry depends on: the header of a background GPT, and reads, cut to the region.
fn entry_reads(background: Option<Background>, reads: &[Noted]) -> EntryReads
    requires { length reads.now ≤ 66 }
    ensures value { result.items ≡ background_reads background ++ map cut reads.now }
    ensures few { length result.items ≤ 67 }
{
    let mut entry_reads = background_reads(background);
    'reads: for read in reads {
        entry_reads.push(cut(*read));
    }
    entry_reads
}

/// The read of the header of a background GPT, for its whole region.
fn background_reads(background: Option<Background>) -> EntryReads
    ensures value { result.items ≡ background_reads background }
    ensures few { length result.items ≤ 1 }
{
    let mut reads = ArrayVec::new();
    if let Some(background) = background {
        reads.push(Noted {
            item: Item::Header(CapKind::Gpt, background.gpt),
            block: Block::around(0, 22),
        });
    }
    reads
}

/// A read cut to its region, with addresses counted from the region's first one.
fn cut(read: Noted) -> Noted
    ensures { result ≡ cut read }
{
    Noted {
        item: read.item,
        block: Block::around(read.block.base() % 4_194_304, read.block.l2().min(22)),
    }
}
