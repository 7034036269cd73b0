//! Tables in which each value stands once, and is known by its number.
ghost use Rattle.std.specs.Prelude.{◌≡◌, ◌<◌, [], map, length, slice_get, Some, IfOk, IfSome, IsTrue};
ghost use Rattle.object_parts.specs.Table.{Grows, AreApart};

use cap_format::OutOfMemory;
use indexmap::{Equivalent, IndexSet};
use std::alloc::Global;
use std::hash::Hash;
use std::marker::Model;

/// What a table can keep: two are equal exactly where they stand for the same.
pub trait Kept: Eq + Hash + Drop {
    ghost use Rattle.std.specs.Prelude.{◌≡◌};
    ghost use Rattle.std.specs.Bool.{Decides};

    /// What it stands for.
    ghost Content: { Type 0 };

    ghost content: { Self → Content };

    ghost decides: { (a b : Self) → Decides (Self.PartialEq.eq a b) (content a ≡ content b) };
}

/// Values, each with its number, which it keeps.
#[derive(Drop)]
pub struct Table<K: Kept> {
    set: IndexSet<K>,
}

impl<K: Kept> Model for Table<K> {
    ghost use Rattle.std.specs.Prelude.{List, map};
    ghost use Rattle.object_parts.specs.Table.{AreApart};

    ghost Value = { List K };

    ghost view = { λ t. t.set.keys };

    ghost invariant = { λ t. AreApart (map K.content t.set.keys) };
}

impl<K: Kept> Table<K> {
    /// An empty table.
    pub fn new(alloc: Global) -> Table<K>
        ensures { result ≡ [] }
    {
        Table {
            set: IndexSet::new(alloc),
        }
    }

    /// The number of what this stands for. It is a new one where that isn't in the table yet; a number is below 2^32.
    pub fn number(&mut self, kept: K) -> Result<u32, OutOfMemory>
        ensures grows { Grows (map K.content self.old) (map K.content self.new) }
        ensures value { IfOk result (λ i. slice_get (map K.content self.new) i
            ≡ Some (K.content kept)) }
    {
        if self.set.len() >= u32::MAX as usize {
            return Err(OutOfMemory);
        }
        let (index, _) = self.set.insert_full(kept)?;
        Ok(index as u32)
    }

    /// What a query stands for, with its number, if it is in the table.
    pub fn find<Q: Equivalent<K>>(&self, query: Q) -> Option<(u32, &K)>
        ensures value { IfSome result (λ r. slice_get (map K.content self.now) r.0
            ≡ Some (K.content r.1.now)) }
        ensures equal { IfSome result (λ r. IsTrue (Q.equivalent query r.1.now)) }
    {
        let (index, kept) = self.set.get_full(query)?;
        if index > u32::MAX as usize {
            return None;
        }
        Some((index as u32, kept))
    }

    /// Does nothing: its contract tells what every table keeps.
    pub fn tell_apart(&self)
        ensures { AreApart (map K.content self.now) }
    {
        let _len = self.set.len();
    }

    /// What has this number.
    pub fn get(&self, i: u32) -> &K
        requires { i < length self.now }
        ensures value { slice_get (map K.content self.now) i ≡ Some (K.content result.now) }
        ensures apart { AreApart (map K.content self.now) }
    {
        &self.set[i as usize]
    }
}
