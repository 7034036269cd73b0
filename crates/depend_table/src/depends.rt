//! The table of records.

ghost use Rattle.std.specs.Prelude.{◌≡◌, ◌≤◌, ◌<◌, ◌↔◌, [], filter, length, not, ℕ, true, false, IsTrue, IsNone, IsErr, IfSome, IfOk, OnOk, OnErr};
ghost use Rattle.cap_format.specs.Item.{IsItem};
ghost use Rattle.guard_math.specs.Block.{BlockValue};
ghost use Rattle.depend_table.specs.Depend.{Adds, Takes, depend, has, is_within};

use crate::chain::{Chain, Node, chain_at, clear_chains, empty_chains, set_chain};
use crate::linking::{drop_nodes, link};
use crate::place::{PLACES, is_item, place_of};
use cap_format::{Item, OutOfMemory};
use guard_math::Block;
use slab::Slab;
use std::alloc::Global;
use std::marker::Model;

/// How many records there may be.
pub const RECORDS: usize = 16_384;

/// A record more was to be noted where all places are taken.
#[derive(Clone, Copy, Debug)]
pub struct Full;

/// Records of an item, a root and a block of addresses: on the way to a page of the block under the
/// root the item was read.
///
/// Clauses see a list, whose order says nothing. The records of one item are linked with each other,
/// and an item finds the first of them by its place among all items.
#[derive(Drop)]
pub struct Depends {
    nodes: Slab<Node>,
    chains: Vec<Chain>,
}

impl Model for Depends {
    ghost use Rattle.std.specs.Prelude.{List};
    ghost use Rattle.depend_table.specs.Depend.{Depend};
    ghost use Rattle.depend_table.specs.Chain.{IsTable, records_of};

    ghost Value = { List Depend };

    ghost view = { λ d. records_of d.nodes.slots };

    ghost invariant = { λ d. IsTable d.nodes d.chains.items };
}

impl Depends {
    /// A table of no record, with room for all of them. No other call takes memory.
    pub fn new(alloc: Global) -> Result<Depends, OutOfMemory>
        ensures { IfOk result (λ records. records ≡ []) }
    {
        let nodes = Slab::with_capacity(alloc, RECORDS)?;
        let chains = empty_chains(alloc, PLACES)?;
        Ok(Depends { nodes, chains })
    }

    /// Notes a record, unless it is there. It reads the records of the item that are there, and no
    /// other.
    pub fn note(&mut self, item: Item, root: u16, block: Block) -> Result<(), Full>
        requires { IsItem item }
        ensures ok { OnOk result (Adds self.old self.new (depend item root block)) }

        // Full is for a record that is not there.
        ensures full { IsErr result
            ↔ ((has self.old (depend item root block) ≡ false) × (length self.old ≡ RECORDS)) }
        ensures err { OnErr result (self.new ≡ self.old) }
    {
        if self.contains(item, root, block) {
            return Ok(());
        }
        if self.is_full() {
            return Err(Full);
        }
        self.push(item, root, block);
        Ok(())
    }

    /// Takes a record of the item out. It reads no other record.
    pub fn take_one(&mut self, item: Item) -> Option<(u16, Block)>
        ensures taken { IfSome result
            (λ taken. Takes self.old self.new (depend item taken.0 taken.1)) }
        ensures none { IsNone result
            ↔ ((root : ℕ) (block : BlockValue) → has self.old (depend item root block) ≡ false) }
        ensures same { IsNone result → self.new ≡ self.old }
    {
        let chains = &self.chains;
        if !is_item(item) {
            return None;
        }
        let place = place_of(item);
        let key = chain_at(chains, place).first?;
        let node = self.nodes.remove(key);
        set_chain(&mut self.chains, place, node.rest);
        Some((node.root, node.block))
    }

    /// Takes the records of a root out whose block lies in the given one, and no others. It goes through
    /// all records.
    pub fn drop_within(&mut self, root: u16, block: Block)
        ensures { self.new ≡ filter (λ d. not (is_within root block d)) self.old }
    {
        drop_nodes(&mut self.nodes, &mut self.chains, root, block);
    }

    /// Takes all records out, in time that goes by how many items there may be.
    pub fn clear_all(&mut self)
        ensures { self.new ≡ [] }
    {
        self.nodes.clear();
        clear_chains(&mut self.chains);
    }

    fn contains(&self, item: Item, root: u16, block: Block) -> bool
        requires { IsItem item }
        ensures { result ≡ has self.now (depend item root block) }
    {
        let mut chain = chain_at(&self.chains, place_of(item));
        'records: while let Some(key) = chain.first {
            let node = self.nodes[key];
            if node.root == root && node.block == block {
                return true;
            }
            chain = node.rest;
        }
        false
    }

    fn is_full(&self) -> bool
        ensures value { IsTrue result ↔ (length self.now ≡ RECORDS) }
        ensures most { length self.now ≤ RECORDS }
    {
        self.len() == RECORDS
    }

    /// How many records there are.
    fn len(&self) -> usize
        ensures value { result ≡ length self.now }
        ensures most { result ≤ RECORDS }
    {
        self.nodes.len()
    }

    // Notes a record that is not there.
    fn push(&mut self, item: Item, root: u16, block: Block)
        requires item { IsItem item }
        requires new { has self.old (depend item root block) ≡ false }
        requires room { length self.old < RECORDS }
        ensures { Adds self.old self.new (depend item root block) }
    {
        link(&mut self.nodes, &mut self.chains, item, root, block);
    }
}
