//! The parts of the cache, and finding a page in them.

ghost use Rattle.std.specs.Prelude.{◌≡◌, ◌≢◌, ◌<◌, ◌/◌, ℕ, length, slice_get, IfOk, IfSome, IsTrue, Some};
ghost use Rattle.std.specs.List.{position};
ghost use Rattle.map_cache.specs.Key.{root_key, same_key};
ghost use Rattle.map_cache.specs.Kept.{nothing};
ghost use Rattle.depend_table.specs.Keyed.{AreApart};
ghost use Rattle.map_cache.specs.Cache.{kept_of, leaf_for, root_at, tlb_at};
ghost use Rattle.map_cache.specs.Effects.{ChangesHart, IsBlank, IsHeld, IsKept, value_of};

use crate::key::Key;
use crate::tlbs::{empty_tlbs, hold, seek};
use arrayvec::ArrayVec;
use cap_format::{Cap, OutOfMemory};
use depend_table::Depends;
use std::alloc::Global;
use sv32_tables::{Leaf, TablePool};
use tlb_model::{Tlb, fill_law};

/// A frame or a record is wanting.
#[derive(Clone, Copy)]
pub struct Wanting;

/// The tables with what each frame is for, the caches of the harts, and the records of what walks read.
#[derive(Drop)]
pub struct Mappings {
    pub tables: TablePool,
    /// What each frame in use is for, by its number.
    pub keys: ArrayVec<Key, 256>,
    pub tlbs: Vec<Tlb>,
    pub records: Depends,
    /// Where the root of a space may be, by its object's number modulo 64: a guess, which is tested
    /// against the keys when it is used.
    pub guesses: [u16; 64],
}

impl Mappings {
    /// Nothing kept, for so many harts. No other call takes memory.
    pub fn new(alloc: Global, harts: u8) -> Result<Mappings, OutOfMemory>
        ensures blank { IfOk result (λ m. IsBlank (value_of m)) }
        ensures nothing { IfOk result (λ m. kept_of (value_of m) ≡ nothing) }
        ensures kept { IfOk result (λ m. IsKept m) }
        ensures harts { IfOk result (λ m. length m.tlbs.items ≡ harts) }
    {
        Ok(Mappings {
            tables: TablePool::new(alloc)?,
            keys: ArrayVec::new(),
            tlbs: empty_tlbs(alloc, harts)?,
            records: Depends::new(alloc)?,
            guesses: [0; 64],
        })
    }

    /// The leaf of the page of an address, which the hart holds afterwards.
    #[inline(always)]
    pub fn find(&mut self, hart: u8, space: Cap, va: u32) -> Option<Leaf>
        requires kept { IsKept self.old }
        requires hart { hart < length self.old.tlbs.items }
        ensures leaf { result ≡ leaf_for (value_of self.old) space (va / 4096) }
        ensures held { IfSome result
            (λ leaf. IsHeld (value_of self.new) hart space (va / 4096) leaf) }

        ensures kept { IsKept self.new }
        ensures changes { ChangesHart (value_of self.old) (value_of self.new) hart }
    {
        fill_law();
        let root = find_root(&self.keys, &mut self.guesses, space)?;
        if let Some(leaf) = seek(&mut self.tlbs, hart, root, va) {
            return Some(leaf);
        }
        let leaf = self.tables.hw_walk(root, va).ok()?;
        hold(&mut self.tlbs, hart, root, va, leaf);
        Some(leaf)
    }
}

/// The root of a space among the keys. It tries the guess of the space's object first.
#[inline(always)]
pub fn find_root(keys: &ArrayVec<Key, 256>, guesses: &mut [u16; 64], space: Cap) -> Option<u16>
    requires { AreApart keys.now.items }
    ensures { result ≡ root_at keys.now.items space }
{
    let place = (space.object() % 64) as usize;
    let guess = guesses[place];
    if is_root(keys, guess, space) {
        return Some(guess);
    }
    let root = root_of(keys, space)?;
    guesses[place] = root;
    Some(root)
}

/// The root of a space among the keys.
pub fn root_of(keys: &ArrayVec<Key, 256>, space: Cap) -> Option<u16>
    ensures { result ≡ root_at keys.now.items space }
{
    let place = place_of(keys, space)?;
    Some(place as u16)
}

fn place_of(keys: &ArrayVec<Key, 256>, space: Cap) -> Option<usize>
    ensures place { result ≡ root_at keys.now.items space }
    ensures there { IfSome result (λ place. place < 256) }
{
    keys.as_slice().iter().position(|key| key.is_root_of(space))
}

/// Whether a frame is the root of a space.
fn is_root(keys: &ArrayVec<Key, 256>, frame: u16, space: Cap) -> bool
    ensures { IsTrue result → slice_get keys.now.items frame ≡ Some (root_key space) }
{
    if frame as usize >= keys.len() {
        return false;
    }
    keys[frame as usize].is_root_of(space)
}
