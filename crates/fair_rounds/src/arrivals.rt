//! Edges by the nodes at which they end.

ghost use Rattle.std.specs.Prelude.{◌≡◌, ◌<◌, true, length, OnOk};
ghost use Rattle.fair_rounds.specs.Table.{IsTable, is_marked};
ghost use Rattle.fair_rounds.specs.Loops.{AllReach, AreMarkedNodes, KeepsMarks};

use std::alloc::{AllocError, Global};

/// The last edge that ends at each node, and before each edge the next one that ends at the same node,
/// counted from 1. Nothing of it is proved: whoever follows these edges looks where they end.
#[derive(Drop)]
pub(crate) struct Arrivals {
    lasts: Vec<u32>,
    befores: Vec<u32>,
}

impl Arrivals {
    /// The edges of a table.
    pub(crate) fn new(alloc: Global, ends: &[u32], nodes: usize) -> Result<Arrivals, AllocError> {
        let mut lasts = vec![in alloc; 0; nodes]?;
        let mut befores = Vec::new(alloc);
        for (edge, end) in ends.iter().enumerate() {
            if let Some(last) = lasts.get_mut(*end as usize) {
                befores.push(*last)?;
                *last = edge.min(u32::MAX as usize - 1) as u32 + 1;
            }
        }
        Ok(Arrivals { lasts, befores })
    }

    /// The last edge that ends at a node.
    fn last(&self, node: usize) -> u32 {
        match self.lasts.get(node) {
            Some(edge) => *edge,
            None => 0,
        }
    }

    /// The edge before one that ends at the same node.
    fn before(&self, edge: usize) -> u32 {
        match self.befores.get(edge) {
            Some(before) => *before,
            None => 0,
        }
    }
}

/// Marks and lists the nodes that aren't marked and have an edge to a marked one.
fn add_arrivals(
    width: usize,
    ends: &[u32],
    arrivals: &Arrivals,
    node: u32,
    marks: &mut [bool],
    list: &mut Vec<u32>,
) -> Result<(), AllocError>
    requires table { IsTable width ends.now (length marks.old) }
    requires wide { 0 < width }
    requires node { is_marked marks.old node ≡ true }
    requires list { AreMarkedNodes marks.old list.old.items }
    ensures sound { OnOk result (AllReach width ends.now marks.old marks.new) }
    ensures kept { OnOk result (KeepsMarks marks.old marks.new) }
    ensures list { OnOk result (AreMarkedNodes marks.new list.new.items) }
{
    let mut edge = arrivals.last(node as usize) as usize;
    for _ in 0..ends.len() {
        if edge == 0 || edge > ends.len() {
            break;
        }
        let from = (edge - 1) / width;
        if from < marks.len() && !marks[from] && ends[edge - 1] == node {
            marks[from] = true;
            list.push(from as u32)?;
        }
        edge = arrivals.before(edge - 1) as usize;
    }
    Ok(())
}

/// Marks and lists the nodes that aren't marked and from which edges lead to one that is listed.
pub(crate) fn flood(
    width: usize,
    ends: &[u32],
    arrivals: &Arrivals,
    marks: &mut [bool],
    list: &mut Vec<u32>,
) -> Result<(), AllocError>
    requires table { IsTable width ends.now (length marks.old) }
    requires wide { 0 < width }
    requires list { AreMarkedNodes marks.old list.old.items }
    ensures sound { OnOk result (AllReach width ends.now marks.old marks.new) }
    ensures kept { OnOk result (KeepsMarks marks.old marks.new) }
    ensures list { OnOk result (AreMarkedNodes marks.new list.new.items) }
{
    for at in 0..marks.len() {
        if at >= list.len() {
            break;
        }
        let node = list[at];
        add_arrivals(width, ends, arrivals, node, marks, list)?;
    }
    Ok(())
}
