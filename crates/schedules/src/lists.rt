//! Lists of processes, as the ready queues and the sleepers of each process are: changes of one list or of all, and
//! looking through them.
ghost use Rattle.std.specs.Prelude.{◌≡◌, ◌↔◌, ◌==◌, ◌++◌, ◌∷◌, not, ◌<◌, ◌≤◌, [], length, map, replicate, true, false, slice_index_or, slice_set, IfSome, IfOk, IsNone, IsTrue};
ghost use Rattle.std.specs.List.{sum_by};
ghost use Rattle.schedules.specs.Queues.{without, stands_in, highest_below, first_of, rest_of};
ghost use Rattle.schedules.specs.Standing.{times_in};

use crate::process_list::ProcessList;
use std::alloc::{AllocError, Global};
use std::mem;

/// This many lists with no process.
pub(crate) fn empty_lists(alloc: Global, count: u16) -> Result<Vec<ProcessList>, AllocError>
    ensures { IfOk result (λ lists. lists.items ≡ replicate count []) }
{
    let mut lists = Vec::new(alloc);
    for _ in 0..count {
        lists.push(ProcessList::new())?;
    }
    Ok(lists)
}

/// Whether a process stands in the list at place `i`.
pub(crate) fn has_any(lists: &[ProcessList], i: usize) -> bool
    requires { i < length lists.now }
    ensures { (length (slice_index_or lists.now i []) == 0) ≡ not result }
{
    !lists[i].is_empty()
}

/// Takes the list at place `i`, and leaves an empty one there.
pub(crate) fn empty_at(lists: &mut Vec<ProcessList>, i: usize) -> ProcessList
    requires { i < length lists.old.items }
    ensures list { result ≡ slice_index_or lists.old.items i [] }
    ensures after { lists.new.items ≡ slice_set lists.old.items i [] }
{
    mem::replace(&mut lists[i], ProcessList::new())
}

/// The process becomes the last of the list at place `i`.
pub(crate) fn push_at(lists: &mut Vec<ProcessList>, i: usize, p: u16)
    requires there { i < length lists.old.items }
    requires room { length (slice_index_or lists.old.items i []) < 256 }
    ensures { let list = slice_index_or lists.old.items i [] in
        lists.new.items ≡ slice_set lists.old.items i (list ++ p ∷ []) }
{
    lists[i].push_last(p);
}

/// Takes the first process, if any, out of the list at place `i`.
pub(crate) fn pop_at(lists: &mut Vec<ProcessList>, i: usize) -> Option<u16>
    requires { i < length lists.old.items }
    ensures first { result ≡ first_of (slice_index_or lists.old.items i []) }
    ensures rest { let list = slice_index_or lists.old.items i [] in
        lists.new.items ≡ slice_set lists.old.items i (rest_of list) }
{
    lists[i].pop_first()
}

/// The first process, if any, of the list at place `i`.
pub(crate) fn first_at(lists: &[ProcessList], i: usize) -> Option<u16>
    requires { i < length lists.now }
    ensures { result ≡ first_of (slice_index_or lists.now i []) }
{
    lists[i].first()
}

/// Takes the process out of the list at place `i`, where it stands there.
fn remove_at(lists: &mut Vec<ProcessList>, i: usize, p: u16)
    requires { i < length lists.old.items }
    ensures { let list = slice_index_or lists.old.items i [] in
        lists.new.items ≡ slice_set lists.old.items i (without p list) }
{
    lists[i].remove(p);
}

/// The list at place `i` becomes a copy of that at the same place of others.
fn copy_at(lists: &mut Vec<ProcessList>, from: &[ProcessList], i: usize)
    requires within { i < length lists.old.items }
    requires there { i < length from.now }
    ensures { lists.new.items ≡ slice_set lists.old.items i (slice_index_or from.now i []) }
{
    lists[i].copy_from(&from[i]);
}

/// The lists become copies of as many others.
pub(crate) fn copy_lists(lists: &mut Vec<ProcessList>, from: &[ProcessList])
    requires { length lists.old.items ≡ length from.now }
    ensures { lists.new.items ≡ from.now }
{
    for i in 0..from.len() {
        copy_at(lists, from, i);
    }
}

/// Takes the process out of the lists, in which it stands once at most, and says whether it stood there.
#[tactic(auto, using(crate::proofs::Nowhere::without_one, crate::proofs::OnHart::in_lists))]
pub(crate) fn take_out(lists: &mut Vec<ProcessList>, p: u16) -> bool
    requires { sum_by (times_in p) lists.old.items ≤ 1 }
    ensures lists { lists.new.items ≡ map (without p) lists.old.items }
    ensures there { IsTrue result ↔ (1 ≤ sum_by (times_in p) lists.old.items) }
{
    let Some(i) = list_with(lists, p) else {
        return false;
    };
    remove_at(lists, i, p);
    true
}

/// The first of these lists in which the process stands.
pub(crate) fn list_with(lists: &[ProcessList], p: u16) -> Option<usize>
    ensures there { IfSome result (λ i. i < length lists.now) }
    ensures stands { IfSome result (λ i. stands_in (slice_index_or lists.now i []) p ≡ true) }
    ensures none { IsNone result → sum_by (times_in p) lists.now ≡ 0 }
{
    for i in 0..lists.len() {
        if stands(&lists[i], p) {
            return Some(i);
        }
    }
    None
}

/// Whether the process stands in this list.
#[tactic(auto, using(crate::proofs::Standing::times_in_absent))]
fn stands(list: &ProcessList, p: u16) -> bool
    ensures value { result ≡ stands_in list.now p }
    ensures absent { result ≡ false → times_in p list.now ≡ 0 }
{
    list.contains(p)
}

/// The highest priority below `count` whose ready queue is not empty.
#[tactic(auto, using(crate::proofs::Highest::highest_here, crate::proofs::Highest::highest_next, crate::proofs::Highest::highest_none))]
pub(crate) fn highest(ready: &[ProcessList], count: u8) -> Option<u8>
    requires { count ≤ length ready.now }
    ensures value { result ≡ highest_below ready.now count }
    ensures within { IfSome result (λ priority. priority < count) }
{
    if count == 0 {
        return None;
    }
    let priority = count - 1;
    if has_any(ready, priority as usize) {
        return Some(priority);
    }
    highest(ready, priority)
}
