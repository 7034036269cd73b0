//! Who stands where, as it is kept.
ghost use Rattle.std.specs.Prelude.{◌≡◌, ◌<◌, ◌≤◌, ◌↔◌, IsTrue, IfOk, length, fold};
ghost use Rattle.std.specs.List.{flat_map};
ghost use Rattle.object_store.specs.declared.sizes.Sizes.{Sizes};
ghost use Rattle.object_store.specs.Ranges.{IsWithinLimits};
ghost use Rattle.schedules.specs.Queues.{QueuesValue};
ghost use Rattle.state_parts.specs.Same.{same_lists, same_harts};
ghost use Rattle.state_parts.specs.Standing.{hashed_hart};

use crate::lists::{same_ready, sleepers_same};
use cap_format::OutOfMemory;
use object_parts::Kept;
use object_store::Sizes;
use schedules::Queues;
use std::alloc::Global;
use std::hash::{Hash, Hasher};

/// The queues with the harts, and whether a process halted the machine.
#[derive(Drop)]
pub struct Standing {
    pub queues: Queues,
    pub halted: bool,
    /// How many processes there are.
    processes: u16,
    /// How many harts there are.
    harts: u8,
    ghost all_processes: { length queues.sleepers ≡ processes },
    ghost all_harts: { length queues.harts ≡ harts },
}

impl Standing {
    ghost use Rattle.state_parts.specs.Standing.{StandingValue};
    ghost use Rattle.state_parts.specs.StandingLaws.{standing_in};

    /// A copy of these queues of a machine of these sizes.
    pub(crate) fn of(
        alloc: Global,
        sizes: Sizes,
        queues: &Queues,
        halted: bool,
    ) -> Result<Standing, OutOfMemory>
        requires limits { IsWithinLimits sizes }
        requires processes { length queues.now.sleepers ≡ sizes.processes }
        requires harts { length queues.now.harts ≡ sizes.harts }
        ensures { IfOk result
            (λ standing. standing_in standing ≡ record { queues = queues.now; halted = halted }) }
    {
        let mut copy = Queues::new(alloc, sizes)?;
        copy.copy_from(queues);
        Ok(Standing {
            queues: copy,
            halted,
            processes: sizes.processes,
            harts: sizes.harts,
        })
    }

    /// Whether it is of a machine of these sizes.
    pub(crate) fn is_for(&self, sizes: Sizes) -> bool
        ensures processes { IsTrue result → length self.now.queues.sleepers ≡ sizes.processes }
        ensures harts { IsTrue result → length self.now.queues.harts ≡ sizes.harts }
    {
        self.processes == sizes.processes && self.harts == sizes.harts
    }

    /// Becomes a copy of other queues, for as many processes and harts.
    pub(crate) fn write(&mut self, queues: &Queues, halted: bool)
        requires processes { length self.old.queues.sleepers ≡ length queues.now.sleepers }
        requires harts { length self.old.queues.harts ≡ length queues.now.harts }
        ensures { standing_in self.new ≡ record { queues = queues.now; halted = halted } }
    {
        self.queues.copy_from(queues);
        self.halted = halted;
    }

    /// Whether the harts have the same processes.
    fn harts_same(&self, other: &Standing) -> bool
        ensures { IsTrue result ↔ (self.now.queues.harts ≡ other.now.queues.harts) }
    {
        if self.harts != other.harts {
            return false;
        }
        for i in 0..self.harts {
            if self.queues.on_hart(i) != other.queues.on_hart(i) {
                return false;
            }
        }
        true
    }

    /// Whether the same processes sleep on each process, in the same order.
    fn sleepers_same(&self, other: &Standing) -> bool
        ensures { IsTrue result ↔ (self.now.queues.sleepers ≡ other.now.queues.sleepers) }
    {
        if self.processes != other.processes {
            return false;
        }
        for on in 0..self.processes {
            if !sleepers_same(&self.queues, &other.queues, on) {
                return false;
            }
        }
        true
    }

    fn same_harts(&self, other: &Standing) -> bool
        ensures { result ≡ same_harts self.now.queues.harts other.now.queues.harts }
    {
        self.harts_same(other)
    }

    fn same_sleepers(&self, other: &Standing) -> bool
        ensures { result ≡ same_lists self.now.queues.sleepers other.now.queues.sleepers }
    {
        self.sleepers_same(other)
    }

    /// Feeds the harts.
    fn feed_harts<H: Hasher>(&self, state: &mut H)
        ensures { state.new ≡ fold H.write state.old (flat_map hashed_hart self.now.queues.harts) }
    {
        for i in 0..self.harts {
            feed_hart(self.queues.on_hart(i), state);
        }
    }
}

impl PartialEq for Standing {
    ghost use Rattle.std.specs.Ordering.{on};
    ghost use Rattle.std.specs.Cmp.{decided, on_equiv, partial_equiv_from_equiv};
    ghost use Rattle.state_parts.specs.Standing.{same_standing};
    ghost use Rattle.state_parts.specs.StandingLaws.{standing_in, standing_decides};

    ghost eq = { on standing_in same_standing };

    ghost laws = { partial_equiv_from_equiv (on_equiv standing_in (decided same_standing standing_decides)) };

    fn eq(&self, other: &Standing) -> bool {
        self.halted == other.halted
            && same_ready(&self.queues, &other.queues)
            && self.same_sleepers(other)
            && self.same_harts(other)
    }
}

impl Eq for Standing {
    ghost use Rattle.std.specs.Cmp.{decided, on_equiv};
    ghost use Rattle.state_parts.specs.Standing.{same_standing};
    ghost use Rattle.state_parts.specs.StandingLaws.{standing_in, standing_decides};

    ghost laws = { on_equiv standing_in (decided same_standing standing_decides) };
}

impl Hash for Standing {
    ghost use Rattle.std.specs.Hash.{on_Alike, same_Alike};
    ghost use Rattle.state_parts.specs.Standing.{hashed_standing};
    ghost use Rattle.state_parts.specs.StandingLaws.{standing_in, standing_decides};

    ghost hash_input = { λ s. hashed_standing (standing_in s) };

    ghost respects_eq = { (on_Alike standing_in (same_Alike hashed_standing standing_decides)).fed };

    fn hash<H: Hasher>(&self, state: &mut H) {
        self.halted.hash(state);
        self.feed_harts(state);
    }
}

impl Kept for Standing {
    ghost use Rattle.state_parts.specs.Standing.{StandingValue};
    ghost use Rattle.state_parts.specs.StandingLaws.{standing_in, standing_decides};

    ghost Content = { StandingValue };

    ghost content = { standing_in };

    ghost decides = { λ a b. standing_decides (standing_in a) (standing_in b) };
}

/// Feeds the process of a hart.
fn feed_hart<H: Hasher>(on: Option<u16>, state: &mut H)
    ensures { state.new ≡ fold H.write state.old (hashed_hart on) }
{
    match on {
        Some(p) => state.write_u16(p),
        None => state.write_u16(65535),
    }
}
