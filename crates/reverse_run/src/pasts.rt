//! Room for what is remembered.
ghost use Rattle.std.specs.Prelude.{◌≡◌, ◌+◌, ◌-◌, ◌<◌, ◌≤◌, take, length, IfOk};
ghost use Rattle.std.specs.List.{All};
ghost use Rattle.std.specs.Vec.{vec_len, vec_capacity};
ghost use Rattle.std.specs.VecDeque.{deque_len, deque_capacity};
ghost use Rattle.object_store.specs.declared.sizes.Sizes.{Sizes};
ghost use Rattle.object_store.specs.Ranges.{IsWithinLimits};
ghost use Rattle.machine_state.specs.Past.{IsFor};

use crate::memento::Memento;
use cap_format::OutOfMemory;
use machine_state::Past;
use object_store::Sizes;
use std::alloc::Global;
use std::collections::VecDeque;

/// So many pasts of machines of these sizes.
pub(crate) fn make_pasts(
    alloc: Global,
    sizes: Sizes,
    depth: u16,
) -> Result<Vec<Memento>, OutOfMemory>
    requires { IsWithinLimits sizes }
    ensures number { IfOk result (λ pasts. vec_len pasts ≡ depth) }
    ensures room { IfOk result (λ pasts. vec_capacity pasts ≡ depth) }
    ensures sizes { IfOk result (λ pasts. All (λ kept. IsFor kept.past sizes) pasts.items) }
{
    let mut pasts = Vec::with_capacity(alloc, depth as usize)?;
    'each: for n in 0..depth {
        pasts.push_reserved(make_memento(alloc, sizes)?);
    }
    Ok(pasts)
}

/// Room for what is remembered of one event of a machine of these sizes.
fn make_memento(alloc: Global, sizes: Sizes) -> Result<Memento, OutOfMemory>
    requires { IsWithinLimits sizes }
    ensures sizes { IfOk result (λ kept. IsFor kept.past sizes) }
{
    let past = Box::new(alloc, Past::new(alloc, sizes)?)?;
    Ok(Memento { past, whole: true })
}

/// Takes a past that is not in use, or the oldest where all are.
pub(crate) fn take_past(pasts: &mut VecDeque<Memento>, spare: &mut Vec<Memento>) -> Memento
    requires { 1 ≤ length pasts.old.items + length spare.old.items }
    ensures sizes { (z : Sizes) → All (λ kept. IsFor kept.past z) pasts.old.items →
        All (λ kept. IsFor kept.past z) spare.old.items → IsFor result.past z }
    ensures in_use { let depth = length pasts.old.items + length spare.old.items in
        pasts.new.items ≡ take (depth - 1) pasts.old.items }
    ensures not_in_use { spare.new.items ≡ take (length spare.old.items - 1) spare.old.items }
    ensures one_less { length pasts.new.items + length spare.new.items + 1
        ≡ length pasts.old.items + length spare.old.items }
    ensures room { deque_capacity pasts.new ≡ deque_capacity pasts.old }
    ensures spare_room { vec_capacity spare.new ≡ vec_capacity spare.old }
{
    match spare.pop() {
        Some(kept) => kept,
        None => pasts.pop_back().unwrap(),
    }
}
