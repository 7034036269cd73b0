//! Steps of harts, one after the other.
ghost use Rattle.std.specs.Prelude.{◌≡◌, ◌≢◌, ◌<◌, ◌≤◌, ◌-◌, ◌^◌, ◌∷◌, ℕ, [], length, take, drop};
ghost use Rattle.machine_state.specs.declared.event.Event.TheVariants.{Step};
ghost use Rattle.machine_state.specs.State.{state_of};
ghost use Rattle.machine_state.specs.Outcome.{spared_by};
ghost use Rattle.kernel_core.specs.Event.{event_of};
ghost use Rattle.untraced_steps.specs.HartSteps.{OfHarts, steps_left};
ghost use Rattle.untraced_steps.specs.Spared.{SparesOthers, GainsNothing};
ghost use Rattle.untraced_steps.specs.Untraced.{CameUntraced, RanUntraced, TellsNothing};

use crate::code::run_kept;
use crate::hart_steps::HartSteps;
use kept_pages::PageTranslator;
use kernel_core::{Event, Machine, Notable, event_for};
use std::sync::ledger::Ledger;
use steps::Steps;

/// Performs a step of a hart, and then the steps that are left. It stops early behind a step that is told of, and answers
/// how many it performed. What the last of them told is left in the list. The caches of the harts
/// that perform none of these steps hold no more than before; where no item changes, accesses alone change them.
///
/// It is not inlined, so that its loop has the registers of the processor to itself.
#[inline(never)]
pub fn run_untraced<T: PageTranslator, L: Ledger>(
    machine: &mut Machine<T>,
    hart: u8,
    left: &mut HartSteps,
    observer: &mut Notable,
    fetches: &mut Steps<L>,
) -> u32
    requires harts { OfHarts machine.old.objects.harts (Step hart ∷ steps_left left.old) }
    requires few { length (steps_left left.old) < 2 ^ 32 - 1 }
    ensures some { 1 ≤ result }
    ensures most { let all = Step hart ∷ steps_left left.old in result ≤ length all }
    ensures ran { let all = Step hart ∷ steps_left left.old in
        RanUntraced T.kept T.cost T.after T.without (take result all)
        machine.old fetches.old machine.new observer.new.records fetches.new }
    ensures before { let all = Step hart ∷ steps_left left.old in
        TellsNothing (state_of machine.old) (take (result - 1) all) }
    ensures others { let all = Step hart ∷ steps_left left.old in
        SparesOthers T.cache T.spared (take result all) machine.old machine.new }
    ensures less { let all = Step hart ∷ steps_left left.old in
        GainsNothing T.cache T.less (take result all) machine.old machine.new }
    ensures behind { let all = Step hart ∷ steps_left left.old in
        steps_left left.new ≡ drop result all }
{
    observer.records.clear();
    let mut next = hart;
    let mut done = 0;
    'steps: loop {
        done += run_ahead(machine, next, left);
        step_untraced(machine, next, observer, fetches);
        done += 1;
        let plain = observer.records.is_empty();
        if !plain {
            return done;
        }
        match left.take() {
            Some(hart) => next = hart,
            None => return done,
        }
    }
}

/// Performs steps of a hart whose accesses are all kept, where all that are left are of it, but not the last. It answers how
/// many.
fn run_ahead<T: PageTranslator>(machine: &mut Machine<T>, hart: u8, left: &mut HartSteps) -> u32
    requires hart { hart < machine.old.objects.harts }
    ensures most { result ≤ length (steps_left left.old) }
    ensures ran { let all = Step hart ∷ steps_left left.old in
        (fetches : ℕ) → RanUntraced T.kept T.cost T.after T.without (take result all)
        machine.old fetches machine.new [] fetches }
    ensures behind { let all = Step hart ∷ steps_left left.old in
        Step hart ∷ steps_left left.new ≡ drop result all }
    ensures caches { (k : ℕ) → k ≢ hart →
        T.cache machine.new.translator k ≡ T.cache machine.old.translator k }
{
    let times = left.alone(hart);
    if times == 0 {
        return 0;
    }
    let done = run_kept(machine, hart, times);
    *left = HartSteps::of_hart(hart, times - done);
    done
}

/// One step of a hart, of which nothing was told before.
fn step_untraced<T: PageTranslator, L: Ledger>(
    machine: &mut Machine<T>,
    hart: u8,
    observer: &mut Notable,
    fetches: &mut Steps<L>,
)
    requires hart { hart < machine.old.objects.harts }
    requires none { observer.old.records ≡ [] }
    ensures came { let outcome = event_of (state_of machine.old) (Step hart) in
        CameUntraced T.kept T.cost T.after T.without outcome
        machine.old fetches.old machine.new observer.new.records fetches.new }
    ensures others { let outcome = event_of (state_of machine.old) (Step hart) in
        let kept = T.kept machine.old.translator in
        (k : ℕ) → k ≢ hart → T.cache machine.new.translator k
        ≡ spared_by T.after T.without T.spared T.purged kept outcome.touches (T.cache machine.old.translator k) }
    ensures less { (k : ℕ) → k ≢ hart →
        T.less (T.cache machine.new.translator k) (T.cache machine.old.translator k) }
{
    event_for(machine, Event::Step(hart), observer, fetches);
}
