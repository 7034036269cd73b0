//! Making processes ready, which changes their states as well.
ghost use Rattle.std.specs.Prelude.{◌≡◌, ◌<◌, ◌+◌, ◌==◌, cond, ℕ, [], ◌∷◌, length, IfOk};
ghost use Rattle.object_store.specs.Store.{size_of, process_at};
ghost use Rattle.object_store.specs.Meaning.{state_map};
ghost use Rattle.object_store.specs.Ahead.{NoneAhead};
ghost use Rattle.object_store.specs.Object.{Stays};
ghost use Rattle.object_store.specs.Ranges.{IsWithinLimits};
ghost use Rattle.schedules.specs.Standing.{standing, empty_queues};
ghost use Rattle.schedules.specs.Queues.{sleepers_of};
ghost use Rattle.schedules.specs.Ready.{Agrees, AgreesBut, process_names, runs_of, with_processes, schedule_of, schedule_in, readied, woken, places_due};

use super::Queues;
use cap_format::{CapKind, FaultCode, OutOfMemory};
use object_store::{Objects, Sizes};
use process_objects::State;
use std::alloc::Global;

impl Queues {
    /// Queues for a machine of these sizes, with no process anywhere. All room is taken here.
    pub fn new(alloc: Global, sizes: Sizes) -> Result<Queues, OutOfMemory>
        requires { IsWithinLimits sizes }
        ensures { IfOk result (λ queues. queues ≡ empty_queues sizes.processes sizes.harts) }
    {
        Ok(Queues::empty(alloc, sizes.processes, sizes.harts)?)
    }

    /// Sets the process Running and puts it last in the queue of its schedule's priority. Where its schedule slot
    /// means no Schedule it becomes Faulted with NoSchedule and its pc as address, and stands nowhere. Takes constant
    /// time.
    pub fn make_ready(&mut self, objects: &mut Objects, p: u16)
        requires sizes { length self.old.sleepers ≡ size_of objects.old.items CapKind.Process }
        requires there { p < length self.old.sleepers }
        requires nowhere { standing self.old p ≡ 0 }
        ensures objects { let before = runs_of objects.old self.old in
            let after = readied (schedule_of objects.old p) p before in
            objects.new ≡ with_processes objects.old after.processes }
        ensures queues { let before = runs_of objects.old self.old in
            let after = readied (schedule_of objects.old p) p before in
            self.new ≡ after.queues }
        ensures items { objects.new.items ≡ objects.old.items }
        ensures object_harts { objects.new.harts ≡ objects.old.harts }
        ensures processes { length self.new.sleepers ≡ length self.old.sleepers }
        ensures harts { length self.new.harts ≡ length self.old.harts }
        ensures places { let due = places_due (process_at objects.new p).state in
            (x : ℕ) → standing self.new x ≡ standing self.old x + cond (p == x) due 0 }
        ensures agrees { AgreesBut p (runs_of objects.old self.old) →
            Agrees (runs_of objects.new self.new) }

        // What it makes of the objects as they mean, and what of them stays.
        ensures means { let before = runs_of (state_map objects.old) self.old in
            let after = readied (schedule_in (state_map objects.old) p) p before in
            state_map objects.new ≡ with_processes (state_map objects.old) after.processes }
        ensures queues_mean { let before = runs_of (state_map objects.old) self.old in
            self.new ≡ (readied (schedule_in (state_map objects.old) p) p before).queues }
        ensures stays { Stays (process_names (p ∷ [])) objects.old objects.new }
        ensures behind { NoneAhead objects.old → NoneAhead objects.new }
    {
        objects.in_ranges();
        let process = objects.process(p);
        let pc = process.pc();
        let schedule = objects.live(process.slot(1));
        if schedule.kind() == CapKind::Schedule {
            objects.process_mut(p).set_state(State::Running);
            self.enqueue(p, schedule.object() as u8);
        } else {
            objects.process_mut(p).set_state(State::Faulted {
                code: FaultCode::NoSchedule,
                address: pc,
            });
        }
    }

    /// Makes all that sleep on `on` ready, in their order; nobody sleeps on it then. Not in constant time: it takes a
    /// step for each of them.
    pub fn wake(&mut self, objects: &mut Objects, on: u16)
        requires sizes { length self.old.sleepers ≡ size_of objects.old.items CapKind.Process }
        requires there { on < length self.old.sleepers }
        ensures objects { let before = runs_of objects.old self.old in
            let after = woken (schedule_of objects.old) on before in
            objects.new ≡ with_processes objects.old after.processes }
        ensures queues { let before = runs_of objects.old self.old in
            let after = woken (schedule_of objects.old) on before in
            self.new ≡ after.queues }
        ensures agrees { Agrees (runs_of objects.old self.old) →
            Agrees (runs_of objects.new self.new) }

        // What it makes of the objects as they mean, and what of them stays.
        ensures means { let before = runs_of (state_map objects.old) self.old in
            let after = woken (schedule_in (state_map objects.old)) on before in
            state_map objects.new ≡ with_processes (state_map objects.old) after.processes }
        ensures queues_mean { let before = runs_of (state_map objects.old) self.old in
            self.new ≡ (woken (schedule_in (state_map objects.old)) on before).queues }
        ensures items { objects.new.items ≡ objects.old.items }
        ensures object_harts { objects.new.harts ≡ objects.old.harts }
        ensures processes { length self.new.sleepers ≡ length self.old.sleepers }
        ensures harts { length self.new.harts ≡ length self.old.harts }
        ensures stays { let names = process_names (sleepers_of self.old on) in
            Stays names objects.old objects.new }
        ensures behind { NoneAhead objects.old → NoneAhead objects.new }
    {
        let sleepers = self.take_sleepers(on);
        'waking: for i in 0..sleepers.len() {
            let p = sleepers.at(i);
            objects.in_ranges();
            self.make_ready(objects, p);
        }
    }
}
