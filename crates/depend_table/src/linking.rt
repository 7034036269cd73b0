//! Linking the nodes of records with the chains of their items.

ghost use Rattle.std.specs.Prelude.{◌≡◌, ◌≤◌, ◌+◌, Some, None, filter, length, not, slice_set};
ghost use Rattle.slab.specs.Slab.{HasRoomFor, Updates, get, slab_len};
ghost use Rattle.cap_format.specs.Item.{IsItem};
ghost use Rattle.depend_table.specs.Depend.{depend, is_within, lies_in};
ghost use Rattle.depend_table.specs.Place.{place_of};
ghost use Rattle.depend_table.specs.Chain.{DropsAt, IsLinkedTo, IsTable, chain_at, linked_chain, node_of, record_of, records_of};

use crate::chain::{Chain, Node, chain_at, clear_chains, node_of, set_chain};
use crate::place::place_of;
use cap_format::Item;
use guard_math::Block;
use slab::Slab;

/// Puts a record's node in front of its item's chain, under the key that is next.
pub fn link(
    nodes: &mut Slab<Node>,
    chains: &mut Vec<Chain>,
    item: Item,
    root: u16,
    block: Block,
) -> usize
    requires item { IsItem item }
    requires places { length chains.old.items ≡ 23040 }
    requires room { HasRoomFor nodes.old 1 }
    requires short { (chain_at chains.old.items (place_of item)).length ≤ 16384 }
    ensures key { result ≡ nodes.old.vacant_key }
    ensures vacant { get nodes.old result ≡ None }
    ensures updates { Updates nodes.old nodes.new result
        (Some (node_of (depend item root block) (chain_at chains.old.items (place_of item)))) }
    ensures len { slab_len nodes.new ≡ slab_len nodes.old + 1 }
    ensures capacity { nodes.new.capacity ≡ nodes.old.capacity }
    ensures chains { chains.new.items ≡ slice_set chains.old.items (place_of item)
        (linked_chain result (chain_at chains.old.items (place_of item))) }
{
    let place = place_of(item);
    let rest = chain_at(chains, place);
    let key = nodes.insert_reserved(node_of(item, root, block, rest));
    let chain = Chain {
        first: Some(key),
        length: rest.length + 1,
    };
    set_chain(chains, place, chain);
    key
}

/// Takes the nodes out whose record is of a root and lies in a block, and links the others anew.
pub fn drop_nodes(nodes: &mut Slab<Node>, chains: &mut Vec<Chain>, root: u16, block: Block)
    requires { IsTable nodes.old chains.old.items }
    ensures table { IsTable nodes.new chains.new.items }
    ensures records { records_of nodes.new.slots
        ≡ filter (λ d. not (is_within root block d)) (records_of nodes.old.slots) }
{
    clear_chains(chains);
    'keys: for key in 0..nodes.capacity() {
        drop_or_link(nodes, chains, key, root, block);
    }
}

/// Takes the node of a key out where its record is of a root and lies in a block, and links it else.
fn drop_or_link(
    nodes: &mut Slab<Node>,
    chains: &mut Vec<Chain>,
    key: usize,
    root: u16,
    block: Block,
)
    requires { IsLinkedTo nodes.old chains.old.items key }
    ensures linked { IsLinkedTo nodes.new chains.new.items (key + 1) }
    ensures drops { DropsAt nodes.old nodes.new key root block }
{
    let Some(node) = nodes.try_remove(key) else {
        return;
    };
    if is_within(&node, root, block) {
        return;
    }
    link(nodes, chains, node.item, node.root, node.block);
}

/// Whether a node's record is of a root and its block lies in another.
fn is_within(node: &Node, root: u16, block: Block) -> bool
    ensures { result ≡ is_within root block (record_of node.now) }
{
    node.root == root && lies_in(node.block, block)
}

/// Whether every page of a block is one of another's.
fn lies_in(inner: Block, outer: Block) -> bool
    ensures { result ≡ lies_in inner outer }
{
    let first = outer.first_page();
    let from = inner.first_page();
    first <= from && from + inner.page_count() <= first + outer.page_count()
}
