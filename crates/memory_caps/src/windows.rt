//! Guards as two words of a request hold them, and windows as three do.
ghost use Rattle.std.specs.Prelude.{◌≡◌, ◌<◌, false, true, if◌then◌else◌, Some, None};
ghost use Rattle.cap_format.specs.Kind.{is_memory};
ghost use Rattle.cap_format.specs.Capability.{with_guard};
ghost use Rattle.cap_format.specs.Guard.{guard_of};
ghost use Rattle.operations.specs.Memory.{is_guard, is_multiple, may_have, window_error, window_of};

use bitflags::Flags;
use cap_format::{Cap, Guard, Request, Restr};

/// The guard of two numbers, where they are one's.
#[tactic(auto, using(operations::proofs::Tests::is_guard_true, operations::proofs::Tests::is_guard_false))]
fn guard_from(l2g: u32, matches: u32) -> Option<Guard>
    ensures { result ≡ (if is_guard l2g matches then Some (guard_of l2g matches) else None) }
{
    if 32 < l2g {
        return None;
    }
    Guard::new(l2g as u8, matches).ok()
}

/// The capability with the guard of two numbers, where they are one that it may have.
#[tactic(auto, using(operations::proofs::Tests::is_multiple_true, operations::proofs::Tests::is_multiple_false), unfolding(operations::specs::Memory::may_have))]
pub(crate) fn guarded(cap: Cap, l2g: u32, matches: u32) -> Option<Cap>
    requires { is_memory cap.kind ≡ true }
    ensures { result ≡
        (if may_have cap l2g matches then Some (with_guard cap (guard_of l2g matches)) else None) }
{
    let guard = guard_from(l2g, matches)?;
    cap.with_guard(guard).ok()
}

/// The window that the words hold, where they hold one.
#[tactic(auto, using(operations::proofs::Tests::is_multiple_true, operations::proofs::Tests::is_multiple_false), unfolding(operations::specs::Memory::window_error, operations::specs::Memory::window_of))]
pub(crate) fn window_in(request: Request) -> Option<Cap>
    ensures { result ≡ (if window_error request then None else Some (window_of request)) }
{
    let held = request.words[1];
    let is_local = held / 16 % 2 == 1;
    let local_slot = (held / 32 % 16) as u8;
    if 0x10_0000 <= held || (!is_local && local_slot != 0) {
        return None;
    }
    let guard = guard_from(held / 512 % 64, request.words[2])?;
    let restr = Restr::from_bits_retain((held / 32768 % 32) as u8);
    let offset = request.words[3];
    if is_local {
        Cap::local_window(local_slot, restr, guard, offset).ok()
    } else {
        Cap::window(restr, guard, offset).ok()
    }
}
