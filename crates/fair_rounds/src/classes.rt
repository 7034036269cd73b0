//! Nodes from which no round leads back, by classes of nodes that edges only lead down.

ghost use Rattle.std.specs.Prelude.{◌≡◌, ◌<◌, ◌≤◌, ◌+◌, ◌*◌, ℕ, ◌↔◌, length, IfOk, IsTrue};
ghost use Rattle.reaches_back.specs.Edges.{AreEdges, end_of};
ghost use Rattle.fair_rounds.specs.Table.{IsTable, is_marked};
ghost use Rattle.fair_rounds.specs.Loops.{AreLoopless, KeepsMarks};
ghost use Rattle.fair_rounds.specs.Classes.{AreInner, FallsFrom, IsFalling, IsInnerFrom, Lacks};

use crate::hints::classes_of;
use std::alloc::{AllocError, Global};

/// Whether the edges of a node lead to classes that are no higher than its own.
fn falls_from(width: usize, ends: &[u32], classes: &[u32], at: usize) -> bool
    requires edges { AreEdges width ends.now (length classes.now) }
    requires at { at < length classes.now }
    ensures { IsTrue result ↔ FallsFrom width ends.now classes.now at }
{
    for choice in 0..width {
        if classes[ends[at * width + choice] as usize] > classes[at] {
            return false;
        }
    }
    true
}

/// Whether each class is one of as many as there are nodes, and no edge leads to a higher class.
fn are_falling(width: usize, ends: &[u32], classes: &[u32]) -> bool
    requires { AreEdges width ends.now (length classes.now) }
    ensures { IsTrue result ↔ IsFalling width ends.now classes.now }
{
    for at in 0..classes.len() {
        if classes[at] as usize >= classes.len() || !falls_from(width, ends, classes, at) {
            return false;
        }
    }
    true
}

/// Marks for the class of a node the choices by which edges of the node lead to its own class.
fn mark_inner(width: usize, ends: &[u32], classes: &[u32], at: usize, inner: &mut [bool])
    requires edges { AreEdges width ends.now (length classes.now) }
    requires falling { IsFalling width ends.now classes.now }
    requires at { at < length classes.now }
    requires inner { length inner.old ≡ length classes.now * width }
    ensures kept { KeepsMarks inner.old inner.new }
    ensures inner { IsInnerFrom width ends.now classes.now at inner.new }
{
    let class = classes[at] as usize;
    for choice in 0..width {
        if classes[ends[at * width + choice] as usize] as usize == class {
            inner[class * width + choice] = true;
        }
    }
}

/// For each class and choice, whether edges of this choice lead from one of the class to another.
fn inner_choices(
    alloc: Global,
    width: usize,
    ends: &[u32],
    classes: &[u32],
) -> Result<Vec<bool>, AllocError>
    requires edges { AreEdges width ends.now (length classes.now) }
    requires falling { IsFalling width ends.now classes.now }
    ensures { IfOk result (λ inner. AreInner width ends.now classes.now inner.items) }
{
    let mut inner = vec![in alloc; false; ends.len()]?;
    for at in 0..classes.len() {
        mark_inner(width, ends, classes, at, &mut inner);
    }
    Ok(inner)
}

/// Whether some choice isn't marked for a class.
fn lacks(width: usize, inner: &[bool], class: usize) -> bool
    requires { class * width + width ≤ length inner.now }
    ensures { IsTrue result ↔ Lacks width inner.now class }
{
    for choice in 0..width {
        if !inner[class * width + choice] {
            return true;
        }
    }
    false
}

/// Marks nodes from which no round leads back to them. If the classes are those that nodes make that
/// lead to each other, all such nodes are marked; what is proved is that each marked node is such.
pub(crate) fn loopless(
    alloc: Global,
    width: usize,
    ends: &[u32],
    nodes: usize,
) -> Result<Vec<bool>, AllocError>
    requires { IsTable width ends.now nodes }
    ensures { IfOk result (λ marks. AreLoopless width ends.now nodes marks.items) }
{
    let classes = classes_of(alloc, width, ends, nodes)?;
    let mut marks = vec![in alloc; false; nodes]?;
    if !are_falling(width, ends, &classes) {
        return Ok(marks);
    }
    let inner = inner_choices(alloc, width, ends, &classes)?;
    for at in 0..nodes {
        marks[at] = lacks(width, &inner, classes[at] as usize);
    }
    Ok(marks)
}
