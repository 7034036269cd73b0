//! The records of one item, linked.

ghost use Rattle.std.specs.Prelude.{◌≡◌, ◌<◌, length, replicate, slice_set, IfOk};
ghost use Rattle.depend_table.specs.Depend.{depend};
ghost use Rattle.depend_table.specs.Chain.{chain_at, no_chain, node_of};

use cap_format::Item;
use guard_math::Block;
use std::alloc::{AllocError, Global};

/// Records of one item, from the one under the key `first` on.
#[derive(Clone, Copy)]
pub struct Chain {
    pub first: Option<usize>,
    /// How many there are.
    pub length: usize,
}

/// A record, with those of its item that were there when it was noted.
#[derive(Clone, Copy)]
pub struct Node {
    pub item: Item,
    pub root: u16,
    pub block: Block,
    pub rest: Chain,
}

/// The node of a record, in front of those of its item that are there.
pub fn node_of(item: Item, root: u16, block: Block, rest: Chain) -> Node
    ensures { result ≡ node_of (depend item root block) rest }
{
    Node {
        item,
        root,
        block,
        rest,
    }
}

const NO_CHAIN: Chain = Chain {
    first: None,
    length: 0,
};

/// So many chains of no record.
pub fn empty_chains(alloc: Global, count: usize) -> Result<Vec<Chain>, AllocError>
    ensures { IfOk result (λ chains. chains.items ≡ replicate count no_chain) }
{
    let mut chains = Vec::with_capacity(alloc, count)?;
    'chains: for index in 0..count {
        chains.push(NO_CHAIN)?;
    }
    Ok(chains)
}

/// Takes all records out of their chains.
pub fn clear_chains(chains: &mut Vec<Chain>)
    ensures { chains.new.items ≡ replicate (length chains.old.items) no_chain }
{
    'chains: for place in 0..chains.len() {
        chains[place] = NO_CHAIN;
    }
}

/// The chain at a place.
pub fn chain_at(chains: &Vec<Chain>, place: usize) -> Chain
    requires { place < length chains.now.items }
    ensures { result ≡ chain_at chains.now.items place }
{
    chains[place]
}

/// Writes the chain at a place.
pub fn set_chain(chains: &mut Vec<Chain>, place: usize, chain: Chain)
    requires { place < length chains.old.items }
    ensures { chains.new.items ≡ slice_set chains.old.items place chain }
{
    chains[place] = chain;
}
