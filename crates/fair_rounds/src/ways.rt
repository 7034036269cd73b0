//! Ways from one node to others.

ghost use Rattle.std.specs.Prelude.{◌≡◌, ◌<◌, ◌≤◌, ℕ, List, length, Some, slice_get, IfOk};
ghost use Rattle.fair_rounds.specs.declared.breadth.Found.{Found};
ghost use Rattle.fair_rounds.specs.Table.{IsTable};
ghost use Rattle.fair_rounds.specs.Search.{AreEarlier, IsTree, IsWay, IsFirstMarked, IsWayTo};

use crate::breadth::{Found, search};
use std::alloc::{AllocError, Global};

/// Choices, and the node to which they lead.
#[derive(Drop)]
pub(crate) struct Way {
    pub(crate) choices: Vec<u32>,
    pub(crate) end: usize,
}

/// The choices by which the node at a place was found, the first first.
pub(crate) fn path_to(alloc: Global, found: &[Found], place: usize) -> Result<Vec<u32>, AllocError>
    requires earlier { AreEarlier found.now }
    requires place { place < length found.now }
    ensures { IfOk result (λ path. (width : ℕ) (ends : List ℕ)
        → IsTree width ends found.now → IsWay width ends found.now 0 place path.items) }
{
    let mut path = Vec::new(alloc);
    let mut at = place;
    while at > 0 {
        let entry = found[at];
        path.push(entry.choice)?;
        at = entry.parent as usize;
    }
    path.reverse();
    Ok(path)
}

/// The place of the first of those found whose node is marked.
fn first_marked(found: &[Found], marks: &[bool]) -> Option<usize>
    requires { (i : ℕ) (f : Found) → slice_get found.now i ≡ Some f → f.node < length marks.now }
    ensures { IsFirstMarked found.now marks.now result }
{
    for (place, entry) in found.iter().enumerate() {
        if marks[entry.node as usize] {
            return Some(place);
        }
    }
    None
}

/// A shortest way from a node to one that is marked.
pub(crate) fn way_to(
    alloc: Global,
    width: usize,
    ends: &[u32],
    from: usize,
    marks: &[bool],
) -> Result<Option<Way>, AllocError>
    requires table { IsTable width ends.now (length marks.now) }
    requires from { from < length marks.now }
    ensures { IfOk result (IsWayTo width ends.now from marks.now) }
{
    let found = search(alloc, width, ends, marks.len(), from)?;
    let Some(place) = first_marked(&found, marks) else {
        return Ok(None);
    };
    let choices = path_to(alloc, &found, place)?;
    let end = found[place].node as usize;
    Ok(Some(Way { choices, end }))
}
