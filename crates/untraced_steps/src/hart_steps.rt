//! Steps of one hart, or of all in rounds.
ghost use Rattle.std.specs.Prelude.{◌≡◌, ◌≤◌, ◌*◌, ◌^◌, ◌<◌, replicate};
ghost use Rattle.machine_state.specs.declared.event.Event.TheVariants.{Step};
ghost use Rattle.untraced_steps.specs.HartSteps.{IsFirst, hart_behind, rounds, steps_left};

/// The steps that are left, one hart behind the other: up to the last, and then from the first again.
#[derive(Clone, Copy)]
pub struct HartSteps {
    first: u8,
    last: u8,
    /// The hart of the next step.
    hart: u8,
    times: u32,
}

impl HartSteps {
    /// So many steps of one hart.
    #[tactic(auto, using(crate::proofs::Cycle::in_cycle_alone))]
    pub fn of_hart(hart: u8, times: u32) -> HartSteps
        ensures { steps_left result ≡ replicate times (Step hart) }
    {
        HartSteps {
            first: hart,
            last: hart,
            hart,
            times,
        }
    }

    /// So many rounds of so many harts.
    pub fn of_rounds(harts: u8, times: u32) -> HartSteps
        requires { times * harts < 2 ^ 32 }
        ensures { steps_left result ≡ rounds harts times }
    {
        HartSteps {
            first: 0,
            last: harts.saturating_sub(1),
            hart: 0,
            times: times * harts as u32,
        }
    }

    /// The hart of the first step that is left, which then is left no more.
    #[tactic(auto, using(crate::proofs::Cycle::in_cycle_more))]
    pub fn take(&mut self) -> Option<u8>
        ensures { IsFirst result (steps_left self.old) (steps_left self.new) }
    {
        if self.times == 0 {
            return None;
        }
        let hart = self.hart;
        self.hart = self.hart_behind();
        self.times -= 1;
        Some(hart)
    }

    /// How many steps are left, where all are of this hart, and otherwise 0.
    #[tactic(auto, using(crate::proofs::Cycle::in_cycle_alone))]
    pub fn alone(&self, hart: u8) -> u32
        ensures { 1 ≤ result → steps_left self.now ≡ replicate result (Step hart) }
    {
        if self.hart == hart && self.first == self.last && self.first == hart {
            self.times
        } else {
            0
        }
    }

    /// The hart that steps behind the next one.
    fn hart_behind(&self) -> u8
        ensures { result ≡ hart_behind self.now.first self.now.last self.now.hart }
    {
        if self.hart < self.last {
            self.hart + 1
        } else {
            self.first
        }
    }
}
