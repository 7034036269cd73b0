//! Passing an address through a guard.

ghost use Rattle.std.specs.Prelude.{◌≡◌, ◌↔◌, IsTrue, IsOk, IfOk};
ghost use Rattle.cap_format.specs.Guard.{IsGuard};
ghost use Rattle.guard_math.specs.Pass.{passes, remainder};

use crate::size::size;
use cap_format::Guard;

/// An address that does not pass a guard.
#[derive(Clone, Copy, Debug)]
pub struct Miss;

/// What of an address goes on behind a guard.
pub fn pass(guard: Guard, address: u32) -> Result<u32, Miss>
    ensures exactly { IsOk result ↔ IsTrue (passes guard address) }
    ensures rest { IfOk result (λ rest. rest ≡ remainder guard address) }
    ensures range { IsGuard guard }
{
    let size = size(guard.l2g());
    if u64::from(address) / size != u64::from(guard.matches()) {
        return Err(Miss);
    }
    Ok((u64::from(address) % size) as u32)
}
