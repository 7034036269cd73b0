//! Rounds that lead from a node back to it.

ghost use Rattle.std.specs.Prelude.{◌≡◌, ◌<◌, ℕ, ◌↔◌, true, false, length, replicate, IfOk, OnOk, IsTrue, Some, MatchOption, slice_set};
ghost use Rattle.std.specs.List.{Contains};
ghost use Rattle.reaches_back.specs.Edges.{AreEdges, CanReach};
ghost use Rattle.fair_rounds.specs.Table.{IsTable, is_marked, ComesTo, IsLoop};
ghost use Rattle.fair_rounds.specs.Loops.{AllReach, AreLeading, HaveEdge, GoesOn, Returns, IsLoopless, KeepsMarks};

use crate::arrivals::{Arrivals, flood};
use crate::ways::way_to;
use reaches_back::reach_back;
use std::alloc::{AllocError, Global};

/// One mark among so many.
fn one_mark(alloc: Global, nodes: usize, at: usize) -> Result<Vec<bool>, AllocError>
    requires { at < nodes }
    ensures { IfOk result (λ marks. marks.items ≡ slice_set (replicate nodes false) at true) }
{
    let mut marks = vec![in alloc; false; nodes]?;
    marks[at] = true;
    Ok(marks)
}

/// Marks nodes from which edges lead to a marked one. It is meant to find all of them, but only that
/// those marked are such is proved.
fn mark_most(
    alloc: Global,
    width: usize,
    ends: &[u32],
    at: usize,
    marks: &mut [bool],
) -> Result<(), AllocError>
    requires table { IsTable width ends.now (length marks.old) }
    requires at { is_marked marks.old at ≡ true }
    requires within { at < length marks.old }
    ensures sound { OnOk result (AllReach width ends.now marks.old marks.new) }
    ensures kept { OnOk result (KeepsMarks marks.old marks.new) }
{
    if width == 0 {
        return Ok(());
    }
    let arrivals = Arrivals::new(alloc, ends, marks.len())?;
    let mut list = vec![in alloc; at as u32]?;
    flood(width, ends, &arrivals, marks, &mut list)
}

/// Marks the nodes from which edges lead to a marked one.
fn mark_leading(
    alloc: Global,
    width: usize,
    ends: &[u32],
    at: usize,
    marks: &mut [bool],
) -> Result<(), AllocError>
    requires table { IsTable width ends.now (length marks.old) }
    requires at { is_marked marks.old at ≡ true }
    requires within { at < length marks.old }
    ensures { OnOk result ((i : ℕ) → i < length marks.old
        → (is_marked marks.new i ≡ true) ↔ CanReach width ends.now marks.old i) }
{
    mark_most(alloc, width, ends, at, marks)?;
    reach_back(width, ends, marks);
    Ok(())
}

/// From which nodes edges lead to one.
fn leading_to(
    alloc: Global,
    width: usize,
    ends: &[u32],
    nodes: usize,
    at: usize,
) -> Result<Vec<bool>, AllocError>
    requires table { IsTable width ends.now nodes }
    requires at { at < nodes }
    ensures { IfOk result (λ marks. AreLeading width ends.now nodes at marks.items) }
{
    let mut marks = one_mark(alloc, nodes, at)?;
    mark_leading(alloc, width, ends, at, &mut marks)?;
    Ok(marks)
}

/// Which nodes have the edge of a choice to one that is marked.
fn with_edge(
    alloc: Global,
    width: usize,
    ends: &[u32],
    marks: &[bool],
    choice: usize,
) -> Result<Vec<bool>, AllocError>
    requires edges { AreEdges width ends.now (length marks.now) }
    requires choice { choice < width }
    ensures { IfOk result (λ edges. HaveEdge width ends.now marks.now choice edges.items) }
{
    let mut edges = Vec::new(alloc);
    for at in 0..marks.len() {
        edges.push(marks[ends[at * width + choice] as usize])?;
    }
    Ok(edges)
}

/// Whether a choice is among some.
fn has(choices: &[u32], choice: u32) -> bool
    ensures { IsTrue result ↔ Contains choices.now choice }
{
    for other in choices {
        if *other == choice {
            return true;
        }
    }
    false
}

/// Goes on to a node with an edge of one choice to a marked node, takes the edge, and answers where it
/// ends, or that no such node is behind this one. If the choice was taken before, it stays here.
fn go_on(
    alloc: Global,
    width: usize,
    ends: &[u32],
    marks: &[bool],
    choice: usize,
    from: usize,
    taken: &mut Vec<u32>,
) -> Result<Option<usize>, AllocError>
    requires table { IsTable width ends.now (length marks.now) }
    requires choice { choice < width }
    requires from { from < length marks.now }
    requires marked { is_marked marks.now from ≡ true }
    ensures goes_on { IfOk result (GoesOn width ends.now marks.now choice
        from taken.old.items taken.new.items) }
    ensures stays { Contains taken.old.items choice
        → IfOk result (λ to. (to ≡ Some from) × (taken.new.items ≡ taken.old.items)) }
{
    if has(taken, choice as u32) {
        return Ok(Some(from));
    }
    let edges = with_edge(alloc, width, ends, marks, choice)?;
    let Some(way) = way_to(alloc, width, ends, from, &edges)? else {
        return Ok(None);
    };
    taken.extend_from_slice(&way.choices)?;
    taken.push(choice as u32)?;
    Ok(Some(ends[way.end * width + choice] as usize))
}

/// Goes on to one node.
fn go_back(
    alloc: Global,
    width: usize,
    ends: &[u32],
    nodes: usize,
    from: usize,
    to: usize,
    mut taken: Vec<u32>,
) -> Result<Option<Vec<u32>>, AllocError>
    requires table { IsTable width ends.now nodes }
    requires from { from < nodes }
    requires to { to < nodes }
    ensures { IfOk result (λ back. MatchOption back (ComesTo width ends.now from to → ⊥)
        (λ b. Returns width ends.now from to taken.items b.items)) }
{
    let marks = one_mark(alloc, nodes, to)?;
    let Some(way) = way_to(alloc, width, ends, from, &marks)? else {
        return Ok(None);
    };
    taken.extend_from_slice(&way.choices)?;
    Ok(Some(taken))
}

/// A round that leads from a node back to it, if there is one.
pub(crate) fn fair_loop(
    alloc: Global,
    width: usize,
    ends: &[u32],
    nodes: usize,
    at: usize,
) -> Result<Option<Vec<u32>>, AllocError>
    requires table { IsTable width ends.now nodes }
    requires at { at < nodes }
    ensures { IfOk result (λ cycle. MatchOption cycle (IsLoopless width ends.now at)
        (λ c. IsLoop width ends.now at c.items)) }
{
    let marks = leading_to(alloc, width, ends, nodes, at)?;
    let mut taken = Vec::new(alloc);
    let mut here = at;
    for choice in 0..width {
        let Some(next) = go_on(alloc, width, ends, &marks, choice, here, &mut taken)? else {
            return Ok(None);
        };
        here = next;
    }
    go_back(alloc, width, ends, nodes, here, at, taken)
}
