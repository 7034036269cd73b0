//! Keeping where a walk ended, and forgetting everything where a frame or a record is wanting.

ghost use Rattle.std.specs.Prelude.{◌≡◌, ◌≤◌, ◌<◌, ◌+◌, ◌/◌, ◌%◌, ◌↔◌, IsErr, [], ◌∷◌, length, slice_get, false, true, IfOk, OnOk, OnErr, Some};
ghost use Rattle.std.specs.List.{AllByRecursion as Each};
ghost use Rattle.std.specs.FinSet.{len};
ghost use Rattle.cap_format.specs.Item.{IsItem};
ghost use Rattle.sv32_tables.specs.Shared.{IsLeafTable, IsSharedRoot, entry_at};
ghost use Rattle.sv32_tables.specs.declared.leaf.Leaf.{Leaf as AnyLeaf};
ghost use Rattle.shared_leaves.specs.Key.{is_leaf, root_key, with_key};
ghost use Rattle.shared_leaves.specs.Kept.{added, addition, fits, noted_all};
ghost use Rattle.shared_leaves.specs.Cache.{key_at, kept_of, notes_of};
ghost use Rattle.shared_leaves.specs.Effects.{Agrees, Connects, HasFrame, IsBlank, IsKept, Keeps, NotesReads, Remembers, SetsPlace, use_in, value_of};
ghost use Rattle.sv32_tables.specs.SharedHistory.{MakesFrame};

use crate::key::{Key, Table};
use crate::leaves::{LeafTables, Wanting, frame_of};
use cap_format::Cap;
use map_cache::{drop_all, hold};
use sv32_tables::{Leaf, PoolFull, SharedPool};
use tlb_model::fill_law;
use walk_meaning::Noted;

impl LeafTables {
    /// Adds the page of an address, with what its link and its entry depend on. Where a frame or a record
    /// is wanting it forgets everything first.
    pub fn remember(
        &mut self,
        hart: u8,
        space: Cap,
        va: u32,
        leaf: Leaf,
        key: &Key,
        link_reads: &[Noted],
        entry_reads: &[Noted],
    )
        requires kept { IsKept self.old }
        requires hart { hart < length self.old.tlbs.items }
        requires leaf { is_leaf key.now ≡ true }
        requires agrees { Agrees (value_of self.old) key.now (va / 4096 % 1024) leaf }
        requires link_items { Each (λ n. IsItem n.item) link_reads.now }
        requires entry_items { Each (λ n. IsItem n.item) entry_reads.now }
        requires few { length link_reads.now + length entry_reads.now ≤ 1024 }
        ensures done { Remembers (value_of self.old) (value_of self.new) hart space (va / 4096) leaf
            (addition key.now link_reads.now entry_reads.now) }
        ensures kept { IsKept self.new }
    {
        let Err(Wanting) = self.keep(hart, space, va, leaf, key, link_reads, entry_reads) else {
            return;
        };
        self.forget();
        let Ok(()) = self.keep(hart, space, va, leaf, key, link_reads, entry_reads) else {
            unreachable!();
        };
    }

    /// Adds the page of an address. Where it is refused some parts of it may be there.
    fn keep(
        &mut self,
        hart: u8,
        space: Cap,
        va: u32,
        leaf: Leaf,
        key: &Key,
        link_reads: &[Noted],
        entry_reads: &[Noted],
    ) -> Result<(), Wanting>
        requires kept { IsKept self.old }
        requires hart { hart < length self.old.tlbs.items }
        requires leaf { is_leaf key.now ≡ true }
        requires agrees { Agrees (value_of self.old) key.now (va / 4096 % 1024) leaf }
        requires link_items { Each (λ n. IsItem n.item) link_reads.now }
        requires entry_items { Each (λ n. IsItem n.item) entry_reads.now }
        ensures ok { OnOk result
            (Keeps (value_of self.old) (value_of self.new) hart space (va / 4096) leaf
            (addition key.now link_reads.now entry_reads.now)) }
        ensures kept { OnOk result (IsKept self.new) }
        ensures wanting { OnErr result (fits (added (kept_of (value_of self.old)) space (va / 4096)
            (addition key.now link_reads.now entry_reads.now)) ≡ false) }
        ensures harts { length self.new.tlbs.items ≡ length self.old.tlbs.items }
    {
        fill_law();
        let root = self.frame_for(&Key::root(space))?;
        let table = self.frame_for(key)?;
        self.note_all(root, link_reads)?;
        self.note_all(table, entry_reads)?;
        self.connect(root, va, table);
        self.set(table, va, leaf);
        hold(&mut self.tlbs, hart, root, va, leaf);
        Ok(())
    }

    /// The frame of a key; a new one where it has none.
    fn frame_for(&mut self, key: &Key) -> Result<u16, Wanting>
        requires { IsKept self.old }
        ensures ok { IfOk result
            (λ frame. HasFrame (value_of self.old) (value_of self.new) key.now frame) }
        ensures kept { OnOk result (IsKept self.new) }
        ensures wanting { OnErr result (256 < length (with_key self.old.keys.items key.now)) }
        ensures harts { length self.new.tlbs.items ≡ length self.old.tlbs.items }
    {
        if let Some(frame) = frame_of(&self.keys, key) {
            return Ok(frame);
        }
        let Ok(frame) = make_frame(&mut self.tables, key.table) else {
            return Err(Wanting);
        };
        self.keys.push(*key);
        Ok(frame)
    }

    /// Records the reads behind a frame.
    fn note_all(&mut self, frame: u16, reads: &[Noted]) -> Result<(), Wanting>
        requires kept { IsKept self.old }
        requires there { frame < length self.old.keys.items }
        requires items { Each (λ n. IsItem n.item) reads.now }
        ensures ok { OnOk result
            (NotesReads (value_of self.old) (value_of self.new) (key_at self.old.keys.items frame) frame reads.now) }
        ensures kept { OnOk result (IsKept self.new) }
        ensures wanting { OnErr result (16384 < len
            (noted_all (notes_of self.old.keys.items self.old.records) (key_at self.old.keys.items frame) reads.now)) }
        ensures harts { length self.new.tlbs.items ≡ length self.old.tlbs.items }
    {
        'reads: for read in reads {
            let Ok(()) = self.note_one(frame, *read) else {
                return Err(Wanting);
            };
        }
        Ok(())
    }

    /// Records one read.
    fn note_one(&mut self, frame: u16, read: Noted) -> Result<(), Wanting>
        requires kept { IsKept self.old }
        requires there { frame < length self.old.keys.items }
        requires item { IsItem read.item }
        ensures ok { OnOk result
            (NotesReads (value_of self.old) (value_of self.new) (key_at self.old.keys.items frame) frame (read ∷ [])) }
        ensures kept { OnOk result (IsKept self.new) }
        ensures wanting { OnErr result (16384 < len
            (noted_all (notes_of self.old.keys.items self.old.records) (key_at self.old.keys.items frame) (read ∷ []))) }
        ensures harts { length self.new.tlbs.items ≡ length self.old.tlbs.items }
    {
        let Ok(()) = self.records.note(read.item, frame, read.block) else {
            return Err(Wanting);
        };
        Ok(())
    }

    /// Links the region of an address to a leaf table. Where it had another link, no hart holds anything
    /// afterwards.
    fn connect(&mut self, root: u16, va: u32, table: u16)
        requires kept { IsKept self.old }
        requires root { IsSharedRoot self.old.tables root }
        requires leaf { IsLeafTable self.old.tables table }
        ensures done { let keys = self.old.keys.items in
            Connects (value_of self.old) (value_of self.new) (key_at keys root).space root (va / 4096 / 1024) (key_at keys table) table }
        ensures kept { IsKept self.new }
    {
        let Some(linked) = self.tables.link_of(root, va) else {
            self.tables.link(root, va, table);
            return;
        };
        if linked == table {
            return;
        }
        drop_all(&mut self.tlbs);
        self.tables.link(root, va, table);
    }

    /// The entry of an address's page in a leaf table becomes this one, if it is not.
    fn set(&mut self, table: u16, va: u32, entry: Leaf)
        requires kept { IsKept self.old }
        requires leaf { IsLeafTable self.old.tables table }
        requires agrees { (e : AnyLeaf) →
            entry_at self.old.tables table (va / 4096 % 1024) ≡ Some e → e ≡ entry }
        ensures done { SetsPlace (value_of self.old) (value_of self.new)
            (key_at self.old.keys.items table) table (va / 4096 % 1024) entry }
        ensures kept { IsKept self.new }
    {
        self.tables.set(table, va, entry);
    }

    /// Forgets everything.
    pub fn forget(&mut self)
        ensures blank { IsBlank (value_of self.new) }
        ensures harts { length self.new.tlbs.items ≡ length self.old.tlbs.items }
    {
        self.tables.clear_all();
        self.keys.clear();
        self.records.clear_all();
        drop_all(&mut self.tlbs);
    }
}

/// A new frame for a use.
fn make_frame(tables: &mut SharedPool, table: Table) -> Result<u16, PoolFull>
    ensures full { IsErr result ↔ (length tables.old.uses ≡ 256) }
    ensures frame { IfOk result (λ frame. MakesFrame tables.old tables.new (use_in table) frame) }
{
    match table {
        Table::Root => tables.make_root(),
        Table::Region(_) => tables.make_leaf(),
        Table::Producer(_) => tables.make_leaf(),
    }
}
