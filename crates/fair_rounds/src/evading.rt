//! What evades the goals for ever, if anything does.

ghost use Rattle.std.specs.Prelude.{◌≡◌, ◌<◌, ◌≤◌, ℕ, ◌+◌, ◌^◌, length, IfOk, MatchOption, Some, slice_get};
ghost use Rattle.reaches_back.specs.Edges.{AreEdges};
ghost use Rattle.fair_rounds.specs.declared.breadth.Found.{Found};
ghost use Rattle.fair_rounds.specs.Table.{IsTable};
ghost use Rattle.fair_rounds.specs.Loops.{AreLoopless, NoneFrom, OneFrom};
ghost use Rattle.fair_rounds.specs.Told.{IsCaught, IsAnswer};

use crate::breadth::{Found, search};
use crate::classes::loopless;
use crate::loops::fair_loop;
use crate::tables::{first_node, wall, want};
use crate::ways::path_to;
use std::alloc::{AllocError, Global};

/// A path and a cycle behind it that pass no goal from some node on behind which one has to come.
#[derive(Drop)]
pub struct Evasion {
    /// The choices from the start to a node of the cycle, the first first.
    pub path: Vec<u32>,
    /// The choices that lead from this node back to it. Each choice is among them.
    pub cycle: Vec<u32>,
}

/// A node that was found, and a round that leads from it back to it.
#[derive(Drop)]
pub(crate) struct Caught {
    /// The place of its double among those found.
    pub(crate) place: usize,
    pub(crate) cycle: Vec<u32>,
}

/// If this is the double of a node: a round that leads from the node back to it, if there is one.
fn caught_from(
    alloc: Global,
    width: usize,
    walls: &[u32],
    nodes: usize,
    marks: &[bool],
    double: usize,
) -> Result<Option<Vec<u32>>, AllocError>
    requires table { IsTable width walls.now (nodes + 1) }
    requires marks { AreLoopless width walls.now (nodes + 1) marks.now }
    requires double { double < nodes + nodes }
    ensures { IfOk result (λ cycle. MatchOption cycle (NoneFrom width walls.now nodes double)
        (λ c. OneFrom width walls.now nodes double c.items)) }
{
    if double < nodes || marks[double - nodes] {
        return Ok(None);
    }
    fair_loop(alloc, width, walls, nodes + 1, double - nodes)
}

/// The first of those found from whose node a round leads back to it.
fn first_caught(
    alloc: Global,
    width: usize,
    walls: &[u32],
    nodes: usize,
    found: &[Found],
) -> Result<Option<Caught>, AllocError>
    requires table { IsTable width walls.now (nodes + 1) }
    requires found { (i : ℕ) (f : Found)
        → slice_get found.now i ≡ Some f → f.node < nodes + nodes }
    ensures { IfOk result (IsCaught width walls.now nodes found.now) }
{
    let marks = loopless(alloc, width, walls, nodes + 1)?;
    for place in 0..found.len() {
        let double = found[place].node as usize;
        if let Some(cycle) = caught_from(alloc, width, walls, nodes, &marks, double)? {
            return Ok(Some(Caught { place, cycle }));
        }
    }
    Ok(None)
}

/// The first among the shortest ways to evade the goals on a fair schedule. If there is none, as many rounds as there are
/// nodes always pass a goal.
///
/// Each node has `width` edges, one for each choice, and `ends` lists where they lead, those of the
/// first node first. A goal has to come behind each node of `firsts` to which choices lead from the
/// start; a node that is a goal itself counts as well. A round is a list of choices in which each
/// choice occurs at least once. An error is want of memory.
pub fn find_evasion(
    alloc: Global,
    width: usize,
    ends: &[u32],
    goals: &[bool],
    firsts: &[bool],
    start: usize,
) -> Result<Option<Evasion>, AllocError>
    requires edges { AreEdges width ends.now (length goals.now) }
    requires firsts { length firsts.now ≡ length goals.now }
    requires start { start < length goals.now }
    requires few { length goals.now + length goals.now < 2 ^ 32 }
    requires wide { width < 2 ^ 32 }
    ensures { IfOk result (IsAnswer width ends.now goals.now firsts.now start) }
{
    let nodes = goals.len();
    let table = want(alloc, ends, goals, firsts)?;
    let found = search(
        alloc,
        width,
        &table,
        nodes + nodes,
        first_node(goals, firsts, start),
    )?;
    let walls = wall(alloc, width, ends, goals)?;
    let Some(caught) = first_caught(alloc, width, &walls, nodes, &found)? else {
        return Ok(None);
    };
    let Caught { place, cycle } = caught;
    let path = path_to(alloc, &found, place)?;
    Ok(Some(Evasion { path, cycle }))
}
