//! Keeping where a walk ended, and forgetting everything where a frame or a record is wanting.

ghost use Rattle.std.specs.Prelude.{◌≡◌, ◌≤◌, ◌<◌, ◌/◌, ◌++◌, [], ◌∷◌, length, slice_get, false, nat_lt, if◌then◌else◌, IfOk, OnOk, OnErr, None, Some};
ghost use Rattle.std.specs.List.{AllByRecursion as Each};
ghost use Rattle.std.specs.FinSet.{len};
ghost use Rattle.cap_format.specs.Item.{IsItem};
ghost use Rattle.sv32_tables.specs.Pool.{IsRoot, leaf_at};
ghost use Rattle.map_cache.specs.Key.{region_key, root_key, with_key};
ghost use Rattle.map_cache.specs.Kept.{added, fits, noted_all};
ghost use Rattle.map_cache.specs.Cache.{kept_of, leaf_for, notes_of, space_at};
ghost use Rattle.map_cache.specs.Effects.{IsBlank, IsKept, Keeps, NotesReads, Remembers, RootsSpace, SetsPage, value_of};

use crate::key::Key;
use crate::mappings::{Mappings, Wanting, find_root};
use crate::tlbs::{drop_all, hold};
use arrayvec::ArrayVec;
use cap_format::Cap;
use sv32_tables::Leaf;
use tlb_model::fill_law;
use walk_meaning::Noted;

impl Mappings {
    /// Adds the page of an address, with the reads of its walk. Where a frame or a record is wanting
    /// it forgets everything first.
    pub fn remember(&mut self, hart: u8, space: Cap, va: u32, leaf: Leaf, reads: &[Noted])
        requires kept { IsKept self.old }
        requires hart { hart < length self.old.tlbs.items }
        requires bare { leaf_for (value_of self.old) space (va / 4096) ≡ None }
        requires items { Each (λ n. IsItem n.item) reads.now }
        requires few { length reads.now ≤ 66 }
        ensures done { Remembers (value_of self.old)
            (value_of self.new) hart space (va / 4096) leaf reads.now }
        ensures kept { IsKept self.new }
    {
        let Err(Wanting) = self.keep(hart, space, va, leaf, reads) else {
            return;
        };
        self.forget();
        let Ok(()) = self.keep(hart, space, va, leaf, reads) else {
            unreachable!();
        };
    }

    /// Adds the page of an address, with the reads of its walk. Where it is refused some parts of it
    /// may be there.
    fn keep(
        &mut self,
        hart: u8,
        space: Cap,
        va: u32,
        leaf: Leaf,
        reads: &[Noted],
    ) -> Result<(), Wanting>
        requires kept { IsKept self.old }
        requires hart { hart < length self.old.tlbs.items }
        requires bare { leaf_for (value_of self.old) space (va / 4096) ≡ None }
        requires items { Each (λ n. IsItem n.item) reads.now }
        ensures ok { OnOk result
            (Keeps (value_of self.old) (value_of self.new) hart space (va / 4096) leaf reads.now) }
        ensures kept { OnOk result (IsKept self.new) }
        ensures wanting { OnErr result
            (fits (added (kept_of (value_of self.old)) space (va / 4096) reads.now) ≡ false) }
        ensures harts { length self.new.tlbs.items ≡ length self.old.tlbs.items }
    {
        fill_law();
        let root = self.root_for(space)?;
        self.note_all(root, reads)?;
        self.install(root, space, va, leaf)?;
        hold(&mut self.tlbs, hart, root, va, leaf);
        Ok(())
    }

    /// The root of a space; a new one where it has none.
    fn root_for(&mut self, space: Cap) -> Result<u16, Wanting>
        requires { IsKept self.old }
        ensures ok { IfOk result
            (λ root. RootsSpace (value_of self.old) (value_of self.new) space root) }
        ensures kept { OnOk result (IsKept self.new) }
        ensures wanting { OnErr result
            (256 < length (with_key self.old.keys.items (root_key space))) }
        ensures harts { length self.new.tlbs.items ≡ length self.old.tlbs.items }
    {
        if let Some(root) = find_root(&self.keys, &mut self.guesses, space) {
            return Ok(root);
        }
        let Ok(root) = self.tables.make_root() else {
            return Err(Wanting);
        };
        self.keys.push(Key {
            space,
            region: None,
        });
        Ok(root)
    }

    /// Records the reads of a walk from the space of a root.
    fn note_all(&mut self, root: u16, reads: &[Noted]) -> Result<(), Wanting>
        requires kept { IsKept self.old }
        requires made { IsRoot self.old.tables root }
        requires items { Each (λ n. IsItem n.item) reads.now }
        ensures ok { OnOk result
            (NotesReads (value_of self.old) (value_of self.new) (space_at self.old.keys.items root) root reads.now) }
        ensures kept { OnOk result (IsKept self.new) }
        ensures wanting { OnErr result (16384 < len
            (noted_all (notes_of self.old.keys.items self.old.records) (space_at self.old.keys.items root) reads.now)) }
        ensures harts { length self.new.tlbs.items ≡ length self.old.tlbs.items }
    {
        'reads: for read in reads {
            let Ok(()) = self.note_one(root, *read) else {
                return Err(Wanting);
            };
        }
        Ok(())
    }

    /// Records one read.
    fn note_one(&mut self, root: u16, read: Noted) -> Result<(), Wanting>
        requires kept { IsKept self.old }
        requires made { IsRoot self.old.tables root }
        requires item { IsItem read.item }
        ensures ok { OnOk result
            (NotesReads (value_of self.old) (value_of self.new) (space_at self.old.keys.items root) root (read ∷ [])) }
        ensures kept { OnOk result (IsKept self.new) }
        ensures wanting { OnErr result (16384 < len
            (noted_all (notes_of self.old.keys.items self.old.records) (space_at self.old.keys.items root) (read ∷ []))) }
        ensures harts { length self.new.tlbs.items ≡ length self.old.tlbs.items }
    {
        let Ok(()) = self.records.note(read.item, root, read.block) else {
            return Err(Wanting);
        };
        Ok(())
    }

    /// Installs the leaf of a page that has none.
    fn install(&mut self, root: u16, space: Cap, va: u32, leaf: Leaf) -> Result<(), Wanting>
        requires kept { IsKept self.old }
        requires here { slice_get self.old.keys.items root ≡ Some (root_key space) }
        requires bare { leaf_at self.old.tables root (va / 4096) ≡ None }
        ensures ok { OnOk result
            (SetsPage (value_of self.old) (value_of self.new) space root (va / 4096) leaf) }
        ensures kept { OnOk result (IsKept self.new) }
        ensures wanting { OnErr result
            (256 < length (with_key self.old.keys.items (region_key space (va / 4096 / 1024)))) }
        ensures harts { length self.new.tlbs.items ≡ length self.old.tlbs.items }
    {
        let Ok(()) = self.tables.install(root, va, leaf) else {
            return Err(Wanting);
        };
        let region = (va / 4096 / 1024) as u16;
        grow(
            &mut self.keys,
            self.tables.used(),
            Key {
                space,
                region: Some(region),
            },
        );
        Ok(())
    }

    /// Forgets everything.
    pub fn forget(&mut self)
        ensures blank { IsBlank (value_of self.new) }
        ensures harts { length self.new.tlbs.items ≡ length self.old.tlbs.items }
    {
        self.tables.clear_all();
        self.keys.clear();
        self.records.clear_all();
        drop_all(&mut self.tlbs);
    }
}

/// Gives a frame its key, where there is one frame more than keys.
fn grow(keys: &mut ArrayVec<Key, 256>, frames: u16, key: Key)
    requires { frames ≤ 256 }
    ensures { keys.new.items
        ≡ (if nat_lt (length keys.old.items) frames then keys.old.items ++ key ∷ [] else keys.old.items) }
{
    if keys.len() < frames as usize {
        keys.push(key);
    }
}
