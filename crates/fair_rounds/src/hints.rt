//! Classes of nodes: the nodes of one class lead to each other, and edges to other classes lead to
//! lower ones. Nothing of this is proved: whoever takes the classes tests them.

ghost use Rattle.std.specs.Prelude.{◌≡◌, ◌<◌, length, IfOk};
ghost use Rattle.fair_rounds.specs.Table.{IsTable};

use crate::arrivals::{Arrivals, flood};
use std::alloc::{AllocError, Global};

/// A node, and its next edge that wasn't followed.
#[derive(Clone, Copy)]
struct Open {
    node: u32,
    choice: usize,
}

/// Adds the nodes that a walk comes to from one, those behind a node before it.
fn visit(
    width: usize,
    ends: &[u32],
    root: u32,
    seen: &mut [bool],
    open: &mut Vec<Open>,
    left: &mut Vec<u32>,
) -> Result<(), AllocError>
    requires table { IsTable width ends.now (length seen.old) }
    requires root { root < length seen.old }
{
    if seen[root as usize] {
        return Ok(());
    }
    seen[root as usize] = true;
    open.push(Open {
        node: root,
        choice: 0,
    })?;
    for _ in 0..u64::MAX {
        let Some(last) = open.pop() else {
            break;
        };
        if last.choice < width && (last.node as usize) < seen.len() {
            let end = ends[last.node as usize * width + last.choice];
            open.push(Open {
                node: last.node,
                choice: last.choice + 1,
            })?;
            if !seen[end as usize] {
                seen[end as usize] = true;
                open.push(Open {
                    node: end,
                    choice: 0,
                })?;
            }
        } else {
            left.push(last.node)?;
        }
    }
    Ok(())
}

/// Adds all nodes that weren't seen, in the order in which walks from them leave them.
fn visit_all(
    width: usize,
    ends: &[u32],
    seen: &mut [bool],
    open: &mut Vec<Open>,
    left: &mut Vec<u32>,
) -> Result<(), AllocError>
    requires { IsTable width ends.now (length seen.old) }
{
    for root in 0..seen.len() {
        visit(width, ends, root as u32, seen, open, left)?;
    }
    Ok(())
}

/// All nodes in the order in which walks by depth leave them.
fn leaving_order(
    alloc: Global,
    width: usize,
    ends: &[u32],
    nodes: usize,
) -> Result<Vec<u32>, AllocError>
    requires { IsTable width ends.now nodes }
{
    let mut seen = vec![in alloc; false; nodes]?;
    let mut open = Vec::new(alloc);
    let mut left = Vec::new(alloc);
    visit_all(width, ends, &mut seen, &mut open, &mut left)?;
    Ok(left)
}

/// Gives a class to the nodes that are listed.
fn number(classes: &mut [u32], list: &[u32], class: u32) {
    for node in list {
        if let Some(place) = classes.get_mut(*node as usize) {
            *place = class;
        }
    }
}

/// Gives a class to the nodes without one from which edges lead to a node, if that has none.
fn gather(
    width: usize,
    ends: &[u32],
    arrivals: &Arrivals,
    root: u32,
    class: u32,
    marks: &mut [bool],
    classes: &mut [u32],
    list: &mut Vec<u32>,
) -> Result<(), AllocError>
    requires table { IsTable width ends.now (length marks.old) }
    requires wide { 0 < width }
{
    if root as usize >= marks.len() || marks[root as usize] {
        return Ok(());
    }
    list.clear();
    list.push(root)?;
    marks[root as usize] = true;
    flood(width, ends, arrivals, marks, list)?;
    number(classes, list, class);
    Ok(())
}

/// Gives classes to the nodes, from the last of an order to the first. Those of the last are highest.
fn gather_all(
    alloc: Global,
    width: usize,
    ends: &[u32],
    order: &[u32],
    marks: &mut [bool],
    classes: &mut [u32],
) -> Result<(), AllocError>
    requires table { IsTable width ends.now (length marks.old) }
    requires wide { 0 < width }
{
    let arrivals = Arrivals::new(alloc, ends, marks.len())?;
    let mut list = Vec::new(alloc);
    let mut class = marks.len() as u32;
    for place in 0..order.len() {
        let root = order[order.len() - 1 - place];
        class = class.saturating_sub(1);
        gather(
            width, ends, &arrivals, root, class, marks, classes, &mut list,
        )?;
    }
    Ok(())
}

/// A class for each node.
pub(crate) fn classes_of(
    alloc: Global,
    width: usize,
    ends: &[u32],
    nodes: usize,
) -> Result<Vec<u32>, AllocError>
    requires { IsTable width ends.now nodes }
    ensures { IfOk result (λ classes. length classes.items ≡ nodes) }
{
    let mut classes = vec![in alloc; 0; nodes]?;
    if width == 0 {
        return Ok(classes);
    }
    let order = leaving_order(alloc, width, ends, nodes)?;
    let mut marks = vec![in alloc; false; nodes]?;
    gather_all(alloc, width, ends, &order, &mut marks, &mut classes)?;
    Ok(classes)
}
