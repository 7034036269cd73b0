//! Harts, each with its process or none: changes of one hart or of all, and looking through them.
ghost use Rattle.std.specs.Prelude.{◌≡◌, ◌↔◌, ◌≤◌, ◌<◌, length, map, replicate, false, slice_index_or, Some, None, IfSome, IfOk, IsNone, IsTrue};
ghost use Rattle.std.specs.List.{sum_by};
ghost use Rattle.schedules.specs.Queues.{hart_without};
ghost use Rattle.schedules.specs.Standing.{times_on};
ghost use Rattle.schedules.specs.Home.{own_hart, own_harts};

use std::alloc::{AllocError, Global};

/// This many harts with no process.
pub(crate) fn empty_harts(alloc: Global, count: u8) -> Result<Vec<Option<u16>>, AllocError>
    ensures { IfOk result (λ harts. harts.items ≡ replicate count None) }
{
    let mut harts = Vec::new(alloc);
    for _ in 0..count {
        harts.push(None)?;
    }
    Ok(harts)
}

/// The process on this hart.
pub(crate) fn process_on(harts: &Vec<Option<u16>>, i: usize) -> Option<u16>
    requires { i < length harts.now.items }
    ensures { result ≡ slice_index_or harts.now.items i None }
{
    harts[i]
}

/// Takes the process off the harts, of which it is on one at most, and says whether it was on one.
pub(crate) fn take_off(harts: &mut Vec<Option<u16>>, p: u16) -> bool
    requires { sum_by (times_on p) harts.old.items ≤ 1 }
    ensures harts { harts.new.items ≡ map (hart_without p) harts.old.items }
    ensures there { IsTrue result ↔ (1 ≤ sum_by (times_on p) harts.old.items) }
{
    let Some(i) = hart_with(harts, p) else {
        return false;
    };
    harts[i] = None;
    true
}

/// The harts get the processes of as many others.
pub(crate) fn copy_harts(harts: &mut Vec<Option<u16>>, from: &[Option<u16>])
    requires { length harts.old.items ≡ length from.now }
    ensures { harts.new.items ≡ from.now }
{
    harts.copy_from_slice(from);
}

/// The hart that has this process.
pub(crate) fn hart_with(harts: &[Option<u16>], p: u16) -> Option<usize>
    ensures there { IfSome result (λ i. i < length harts.now) }
    ensures stands { IfSome result (λ i. slice_index_or harts.now i None ≡ Some p) }
    ensures none { IsNone result → sum_by (times_on p) harts.now ≡ 0 }
{
    for i in 0..harts.len() {
        if has_process(harts[i], p) {
            return Some(i);
        }
    }
    None
}

/// Whether this is what a hart with the process has.
pub(crate) fn has_process(hart: Option<u16>, p: u16) -> bool
    ensures is_there { IsTrue result ↔ (hart ≡ Some p) }
    ensures absent { result ≡ false → times_on p hart ≡ 0 }
{
    match hart {
        Some(other) => other == p,
        None => false,
    }
}

/// So many harts, each with the process of its own number where that is on one of these.
#[tactic(auto, using(crate::proofs::Home::own_more))]
pub(crate) fn own_harts(
    alloc: Global,
    harts: &[Option<u16>],
    many: u8,
) -> Result<Vec<Option<u16>>, AllocError>
    ensures { IfOk result (λ own. own.items ≡ own_harts harts.now many) }
{
    let mut own = Vec::new(alloc);
    for hart in 0..many {
        own.push(own_hart(harts, u16::from(hart)))?;
    }
    Ok(own)
}

/// The process of this number, where it is on one of these harts.
#[tactic(auto, using(crate::proofs::Home::own_some, crate::proofs::Home::own_none))]
fn own_hart(harts: &[Option<u16>], p: u16) -> Option<u16>
    ensures { result ≡ own_hart harts.now p }
{
    match hart_with(harts, p) {
        Some(_) => Some(p),
        None => None,
    }
}
