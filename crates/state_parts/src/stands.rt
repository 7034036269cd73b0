//! The number of who stands where in a machine.
ghost use Rattle.std.specs.Prelude.{◌≡◌, ℕ, Some, map, slice_get, IfOk, IfSome};
ghost use Rattle.object_parts.specs.Table.{Grows};
ghost use Rattle.state_parts.specs.Standing.{standing_at};
ghost use Rattle.state_parts.specs.StandingLaws.{standing_in};

use crate::standing::Standing;
use cap_format::OutOfMemory;
use machine_state::Machine;
use map_cache::MapCache;
use object_parts::Table;
use std::alloc::Global;

/// The number of who stands where in a machine: the one that is known, or that of a copy. A copy that isn't kept in the table
/// is kept aside, and written again the next time.
pub(crate) fn standing_number(
    alloc: Global,
    standings: &mut Table<Standing>,
    spare: &mut Option<Standing>,
    machine: &Machine<MapCache>,
    known: Option<u32>,
) -> Result<u32, OutOfMemory>
    requires { (n : ℕ) → known ≡ Some n →
        slice_get (map standing_in standings.old) n ≡ Some (standing_at machine.now) }
    ensures grows { Grows (map standing_in standings.old) (map standing_in standings.new) }
    ensures value { IfOk result
        (λ n. slice_get (map standing_in standings.new) n ≡ Some (standing_at machine.now)) }
{
    if let Some(n) = known {
        return Ok(n);
    }
    let standing = standing_now(alloc, spare.take(), machine)?;
    match seen(standings, &standing) {
        Some(n) => {
            *spare = Some(standing);
            Ok(n)
        }
        None => standings.number(standing),
    }
}

/// Who stands where in a machine: this one, written again, or a new copy.
fn standing_now(
    alloc: Global,
    spare: Option<Standing>,
    machine: &Machine<MapCache>,
) -> Result<Standing, OutOfMemory>
    ensures { IfOk result (λ standing. standing_in standing ≡ standing_at machine.now) }
{
    let sizes = machine.objects().sizes();
    if let Some(mut standing) = spare {
        if standing.is_for(sizes) {
            standing.write(machine.queues(), machine.halted());
            return Ok(standing);
        }
    }
    Standing::of(alloc, sizes, machine.queues(), machine.halted())
}

/// The number of a standing that is in the table.
fn seen(standings: &Table<Standing>, standing: &Standing) -> Option<u32>
    ensures { IfSome result
        (λ n. slice_get (map standing_in standings.now) n ≡ Some (standing_in standing.now)) }
{
    let (n, _kept) = standings.find(standing)?;
    Some(n)
}
