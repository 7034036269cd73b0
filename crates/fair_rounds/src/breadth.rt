//! Breadth-first search over a table of edges.

ghost use Rattle.std.specs.Prelude.{◌≡◌, ◌<◌, ◌+◌, ◌^◌, ◌*◌, length, IfOk, OnOk, slice_get};
ghost use Rattle.fair_rounds.specs.Table.{IsTable};
ghost use Rattle.fair_rounds.specs.Search.{IsSearched, IsSpread};

use std::alloc::{AllocError, Global};

/// A node that was found: by which edge of which earlier one, and how many edges behind the first.
#[derive(Clone, Copy)]
pub(crate) struct Found {
    pub(crate) node: u32,
    /// The place of the earlier one among those found; of the first, anything.
    pub(crate) parent: u32,
    pub(crate) choice: u32,
    pub(crate) depth: u32,
}

/// Finds the nodes to which the edges of the one at a place lead, if they weren't found.
fn spread_from(
    width: usize,
    ends: &[u32],
    seen: &mut [bool],
    found: &mut Vec<Found>,
    at: usize,
) -> Result<(), AllocError>
    requires table { IsTable width ends.now (length seen.old) }
    requires at { at < length found.old.items }
    requires spread { IsSpread width ends.now seen.old found.old.items at }
    ensures spread { OnOk result (IsSpread width ends.now seen.new found.new.items (at + 1)) }
    ensures first { OnOk result (slice_get found.new.items 0 ≡ slice_get found.old.items 0) }
{
    let from = found[at];
    for choice in 0..width {
        let end = ends[from.node as usize * width + choice];
        if !seen[end as usize] {
            seen[end as usize] = true;
            found.push(Found {
                node: end,
                parent: at as u32,
                choice: choice as u32,
                depth: from.depth + 1,
            })?;
        }
    }
    Ok(())
}

/// The nodes that edges lead to from one, in breadth-first order.
pub(crate) fn search(
    alloc: Global,
    width: usize,
    ends: &[u32],
    nodes: usize,
    start: usize,
) -> Result<Vec<Found>, AllocError>
    requires table { IsTable width ends.now nodes }
    requires start { start < nodes }
    ensures { IfOk result (λ found. IsSearched width ends.now nodes start found.items) }
{
    let mut seen = vec![in alloc; false; nodes]?;
    seen[start] = true;
    let mut found = vec![in alloc;
        Found {
            node: start as u32,
            parent: 0,
            choice: 0,
            depth: 0
        },
    ]?;
    let mut at = 0;
    while at < found.len() {
        spread_from(width, ends, &mut seen, &mut found, at)?;
        at += 1;
    }
    Ok(found)
}
