//! The tables that are searched: with goals as walls, and with doubles of the nodes.

ghost use Rattle.std.specs.Prelude.{◌≡◌, ◌<◌, ◌+◌, ◌++◌, ◌^◌, true, false, length, map, All, IfOk, OnOk};
ghost use Rattle.reaches_back.specs.Edges.{AreEdges};
ghost use Rattle.fair_rounds.specs.Table.{walled_end, walled, wanting_end, wanting};

use std::alloc::{AllocError, Global};

/// Where an edge ends if goals are walls.
fn wall_end(goals: &[bool], end: u32) -> u32
    requires end { end < length goals.now }
    requires few { length goals.now < 2 ^ 32 }
    ensures { result ≡ walled_end goals.now end }
{
    if goals[end as usize] {
        goals.len() as u32
    } else {
        end
    }
}

/// The table with goals as walls: it has one node more, behind the last.
pub(crate) fn wall(
    alloc: Global,
    width: usize,
    ends: &[u32],
    goals: &[bool],
) -> Result<Vec<u32>, AllocError>
    requires edges { AreEdges width ends.now (length goals.now) }
    requires few { length goals.now < 2 ^ 32 }
    ensures { IfOk result (λ walls. walls.items ≡ walled width ends.now goals.now) }
{
    let mut walls = Vec::new(alloc);
    for end in ends {
        walls.push(wall_end(goals, *end))?;
    }
    let behind = vec![in alloc; goals.len() as u32; width]?;
    walls.extend_from_slice(&behind)?;
    Ok(walls)
}

/// Where an edge ends among the nodes and their doubles.
fn want_end(goals: &[bool], firsts: &[bool], before: bool, end: u32) -> u32
    requires end { end < length goals.now }
    requires firsts { length firsts.now ≡ length goals.now }
    requires few { length goals.now + length goals.now < 2 ^ 32 }
    ensures { result ≡ wanting_end goals.now firsts.now before end }
{
    if !goals[end as usize] && (before || firsts[end as usize]) {
        goals.len() as u32 + end
    } else {
        end
    }
}

/// Adds where the edges of all nodes end, or of their doubles.
fn want_half(
    ends: &[u32],
    goals: &[bool],
    firsts: &[bool],
    before: bool,
    table: &mut Vec<u32>,
) -> Result<(), AllocError>
    requires ends { All (λ end. end < length goals.now) ends.now }
    requires firsts { length firsts.now ≡ length goals.now }
    requires few { length goals.now + length goals.now < 2 ^ 32 }
    ensures { OnOk result (table.new.items
        ≡ table.old.items ++ map (wanting_end goals.now firsts.now before) ends.now) }
{
    for end in ends {
        table.push(want_end(goals, firsts, before, *end))?;
    }
    Ok(())
}

/// The table of the nodes and their doubles. An edge leads to a double if a goal is wanted behind it.
pub(crate) fn want(
    alloc: Global,
    ends: &[u32],
    goals: &[bool],
    firsts: &[bool],
) -> Result<Vec<u32>, AllocError>
    requires ends { All (λ end. end < length goals.now) ends.now }
    requires firsts { length firsts.now ≡ length goals.now }
    requires few { length goals.now + length goals.now < 2 ^ 32 }
    ensures { IfOk result (λ table. table.items ≡ wanting ends.now goals.now firsts.now) }
{
    let mut table = Vec::new(alloc);
    want_half(ends, goals, firsts, false, &mut table)?;
    want_half(ends, goals, firsts, true, &mut table)?;
    Ok(table)
}

/// Where a search of that table begins.
pub(crate) fn first_node(goals: &[bool], firsts: &[bool], start: usize) -> usize
    requires start { start < length goals.now }
    requires firsts { length firsts.now ≡ length goals.now }
    requires few { length goals.now + length goals.now < 2 ^ 32 }
    ensures { result ≡ wanting_end goals.now firsts.now false start }
{
    want_end(goals, firsts, false, start as u32) as usize
}
