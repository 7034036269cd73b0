ghost use Rattle.std.specs.Prelude.{◌≡◌, ◌↔◌, ◌+◌, ◌==◌, ◌<◌, ◌≤◌, ℕ, List, cond, length, map, slice_index_or, slice_get, Some, None, IfSome, IfOk, IsTrue, OnOk, OnErr};
ghost use Rattle.std.specs.List.{sum_by};
ghost use Rattle.schedules.specs.Queues.{priorities, without, hart_without, enqueued, asleep, left, dispatched, hart_of, ready_queue, sleepers_of};
ghost use Rattle.schedules.specs.Standing.{IsQueues, IsSpot, standing, times_in, times_on, empty_queues};
ghost use Rattle.schedules.specs.Home.{on_harts, own_harts};
ghost use Rattle.schedules.specs.Ready.{unslept, runs, places_due, Agrees, AgreesBut};
ghost use Rattle.process_objects.specs.Process.{ProcessValue, empty_process};

mod ready;

use crate::harts::{
    copy_harts, empty_harts, hart_with, has_process, own_harts, process_on, take_off,
};
use crate::lists::{
    copy_lists, empty_at, empty_lists, first_at, highest, list_with, pop_at, push_at, take_out,
};
use crate::process_list::ProcessList;
use crate::spot::Spot;
use cap_format::PRIORITIES;
use std::alloc::{AllocError, Global};
use std::marker::Model;

/// The ready queues, the lists of sleepers, and the process on each hart. All room is taken when it is made.
#[derive(Drop)]
pub struct Queues {
    ready: Vec<ProcessList>,
    sleepers: Vec<ProcessList>,
    harts: Vec<Option<u16>>,
    /// The hart that was dispatched last, on which a process is looked for first.
    last: u8,
}

impl Model for Queues {
    ghost use Rattle.schedules.specs.Queues.{QueuesValue};
    ghost use Rattle.schedules.specs.Standing.{IsQueues};

    ghost Value = { QueuesValue };

    ghost view = { λ q. record { ready = q.ready.items; sleepers = q.sleepers.items; harts = q.harts.items } };

    ghost invariant = { λ q. IsQueues (record { ready = q.ready.items; sleepers = q.sleepers.items; harts = q.harts.items }) };
}

impl Queues {
    /// Queues for this many processes and harts, with no process anywhere.
    fn empty(alloc: Global, processes: u16, harts: u8) -> Result<Queues, AllocError>
        requires processes { processes ≤ 256 }
        requires harts { harts ≤ 8 }
        ensures { IfOk result (λ q. q ≡ empty_queues processes harts) }
    {
        let ready = empty_lists(alloc, u16::from(PRIORITIES))?;
        let sleepers = empty_lists(alloc, processes)?;
        let harts = empty_harts(alloc, harts)?;
        Ok(Queues {
            ready,
            sleepers,
            harts,
            last: 0,
        })
    }

    /// Does nothing: its contract tells callers what all queues keep.
    pub fn tell_kept(&self)
        ensures { IsQueues self.now }
    {
        let _last = self.last;
    }

    /// The process on this hart.
    pub fn on_hart(&self, hart: u8) -> Option<u16>
        requires { hart < length self.now.harts }
        ensures value { result ≡ hart_of self.now hart }
        ensures there { IfSome result (λ p. p < length self.now.sleepers) }
    {
        process_on(&self.harts, hart as usize)
    }

    /// The process at place `n`, counted from 0, of the ready queue of this priority.
    pub fn ready_at(&self, priority: u8, n: u16) -> Option<u16>
        requires { priority < priorities }
        ensures value { result ≡ slice_get (ready_queue self.now priority) n }
        ensures bound { length (ready_queue self.now priority) ≤ 256 }
    {
        self.ready[priority as usize].get(n)
    }

    /// The process at place `n`, counted from 0, of those that sleep on `on`.
    pub fn sleeper_at(&self, on: u16, n: u16) -> Option<u16>
        requires { on < length self.now.sleepers }
        ensures value { result ≡ slice_get (sleepers_of self.now on) n }
        ensures bound { length (sleepers_of self.now on) ≤ 256 }
    {
        self.sleepers[on as usize].get(n)
    }

    /// Where the process stands. Not in constant time: no list of places is kept beside the queues, so it looks
    /// through them, first at the harts, where a process that is asked for mostly stands.
    #[tactic(auto, using(crate::proofs::OnHart::not_ready, crate::proofs::OnHart::not_sleeping, crate::proofs::OnHart::not_nowhere))]
    pub fn place(&self, p: u16) -> Spot
        requires { p < length self.now.sleepers }
        ensures there { IsSpot self.now p result }
        ensures on_hart { (hart : ℕ) → hart_of self.now hart ≡ Some p → result ≡ Spot.Hart hart }
    {
        if is_on(&self.harts, self.last, p) {
            return Spot::Hart(self.last);
        }
        if let Some(hart) = hart_with(&self.harts, p) {
            return Spot::Hart(hart as u8);
        }
        if let Some(priority) = list_with(&self.ready, p) {
            return Spot::Ready(priority as u8);
        }
        if let Some(on) = list_with(&self.sleepers, p) {
            return Spot::Sleeper(on as u16);
        }
        Spot::Nowhere
    }

    /// The process leaves the place where it stands, if any. It is looked for on the harts first, and then in the lists.
    pub fn leave(&mut self, p: u16)
        requires { p < length self.old.sleepers }
        ensures after { self.new ≡ left self.old p }
        ensures nowhere { standing self.new p ≡ 0 }
        ensures processes { length self.new.sleepers ≡ length self.old.sleepers }
        ensures harts { length self.new.harts ≡ length self.old.harts }
        ensures agrees { (processes : List ProcessValue) →
            Agrees (runs processes self.old) → AgreesBut p (runs processes self.new) }
    {
        take_away(&mut self.ready, &mut self.sleepers, &mut self.harts, p);
    }

    /// The process becomes the last sleeper of `on`, in constant time.
    pub fn sleep(&mut self, p: u16, on: u16)
        requires there { p < length self.old.sleepers }
        requires on { on < length self.old.sleepers }
        requires nowhere { standing self.old p ≡ 0 }
        ensures after { self.new ≡ asleep self.old p on }
        ensures processes { length self.new.sleepers ≡ length self.old.sleepers }
        ensures harts { length self.new.harts ≡ length self.old.harts }
        ensures agrees { (processes : List ProcessValue) → AgreesBut p (runs processes self.old) →
            places_due (slice_index_or processes p empty_process).state ≡ 1 →
            Agrees (runs processes self.new) }
    {
        push_at(&mut self.sleepers, on as usize, p);
    }

    /// A hart that has no process takes the first of the highest ready queue that is not empty. `None` where there
    /// is none to take. Not in constant time: the queue closes up behind the process that leaves it.
    #[inline(always)]
    pub fn dispatch(&mut self, hart: u8) -> Option<u16>
        requires { hart < length self.old.harts }
        ensures process { result ≡ hart_of self.new hart }
        ensures after { self.new ≡ dispatched self.old hart }
        ensures processes { length self.new.sleepers ≡ length self.old.sleepers }
        ensures harts { length self.new.harts ≡ length self.old.harts }
        ensures agrees { (processes : List ProcessValue) →
            Agrees (runs processes self.old) → Agrees (runs processes self.new) }
    {
        self.last = hart;
        match self.harts[hart as usize] {
            Some(p) => Some(p),
            None => self.take_next(hart),
        }
    }

    /// The same of a hart that has no process. It is not inlined, so that one that has a process saves no registers for it.
    #[inline(never)]
    fn take_next(&mut self, hart: u8) -> Option<u16>
        requires there { hart < length self.old.harts }
        requires free { hart_of self.old hart ≡ None }
        ensures process { result ≡ hart_of self.new hart }
        ensures after { self.new ≡ dispatched self.old hart }
        ensures processes { length self.new.sleepers ≡ length self.old.sleepers }
        ensures harts { length self.new.harts ≡ length self.old.harts }
        ensures agrees { (processes : List ProcessValue) →
            Agrees (runs processes self.old) → Agrees (runs processes self.new) }
    {
        let Some(priority) = highest(&self.ready, PRIORITIES) else {
            return None;
        };
        let next = pop_at(&mut self.ready, priority as usize);
        self.harts[hart as usize] = next;
        next
    }

    /// The process that `dispatch` would answer for this hart: the one that it has, or would take.
    pub fn next_on(&self, hart: u8) -> Option<u16>
        requires { hart < length self.now.harts }
        ensures value { result ≡ hart_of (dispatched self.now hart) hart }
        ensures there { IfSome result (λ p. p < length self.now.sleepers) }
    {
        let _ready = &self.ready;
        self.next_of(hart)
    }

    /// The same, by the lists alone.
    fn next_of(&self, hart: u8) -> Option<u16>
        requires { hart < length self.now.harts }
        ensures value { result ≡ hart_of (dispatched self.now hart) hart }
    {
        match process_on(&self.harts, hart as usize) {
            Some(p) => Some(p),
            None => match highest(&self.ready, PRIORITIES) {
                Some(priority) => first_at(&self.ready, priority as usize),
                None => None,
            },
        }
    }

    /// There are so many harts from now on, and each process that is on one is on that of its own number, which has to be one of
    /// them. Where memory is wanting, all stays as it is.
    pub fn move_home(&mut self, alloc: Global, many: u8) -> Result<(), AllocError>
        requires most { many ≤ 8 }
        requires each { (hart p : ℕ) → hart_of self.old hart ≡ Some p → p < many }
        ensures after { OnOk result (self.new ≡ on_harts self.old (own_harts self.old.harts many)) }
        ensures before { OnErr result (self.new ≡ self.old) }
        ensures harts { OnOk result (length self.new.harts ≡ many) }
        ensures agrees { OnOk result ((processes : List ProcessValue) →
            Agrees (runs processes self.old) → Agrees (runs processes self.new)) }
    {
        let harts = own_harts(alloc, &self.harts, many)?;
        self.harts = harts;
        Ok(())
    }

    /// Becomes a copy of other queues for as many processes and harts. It takes no memory.
    pub fn copy_from(&mut self, from: &Queues)
        requires processes { length self.old.sleepers ≡ length from.now.sleepers }
        requires harts { length self.old.harts ≡ length from.now.harts }
        ensures copy { self.new ≡ from.now }
    {
        copy_lists(&mut self.ready, &from.ready);
        copy_lists(&mut self.sleepers, &from.sleepers);
        copy_harts(&mut self.harts, &from.harts);
    }

    /// Takes the list of those that sleep on `on`; nobody sleeps on it then.
    fn take_sleepers(&mut self, on: u16) -> ProcessList
        requires { on < length self.old.sleepers }
        ensures list { result ≡ sleepers_of self.old on }
        ensures after { self.new ≡ unslept self.old on }
        ensures apart { (x : ℕ) → standing self.new x + times_in x result ≤ 1 }
        ensures known { (x : ℕ) → length self.new.sleepers ≤ x → times_in x result ≡ 0 }
    {
        empty_at(&mut self.sleepers, on as usize)
    }

    /// The process becomes the last of the ready queue of this priority, in constant time.
    pub(crate) fn enqueue(&mut self, p: u16, priority: u8)
        requires there { p < length self.old.sleepers }
        requires priority { priority < priorities }
        requires nowhere { standing self.old p ≡ 0 }
        ensures queues { self.new ≡ enqueued self.old priority p }
        ensures standing { (x : ℕ) → standing self.new x ≡ standing self.old x + cond (p == x) 1 0 }
    {
        push_at(&mut self.ready, priority as usize, p);
    }
}

/// Whether this is a hart that has the process.
fn is_on(harts: &[Option<u16>], hart: u8, p: u16) -> bool
    ensures { IsTrue result ↔ (slice_index_or harts.now hart None ≡ Some p) }
{
    (hart as usize) < harts.len() && has_process(harts[hart as usize], p)
}

/// Takes the process out of the place where it stands, which is one at most.
#[tactic(auto, using(crate::proofs::Nowhere::without_absent_all))]
fn take_away(
    ready: &mut Vec<ProcessList>,
    sleepers: &mut Vec<ProcessList>,
    harts: &mut Vec<Option<u16>>,
    p: u16,
)
    requires { let lists =
        sum_by (times_in p) ready.old.items + sum_by (times_in p) sleepers.old.items in
        lists + sum_by (times_on p) harts.old.items ≤ 1 }
    ensures ready { ready.new.items ≡ map (without p) ready.old.items }
    ensures sleepers { sleepers.new.items ≡ map (without p) sleepers.old.items }
    ensures harts { harts.new.items ≡ map (hart_without p) harts.old.items }
{
    if take_off(harts, p) {
        return;
    }
    if take_out(ready, p) {
        return;
    }
    take_out(sleepers, p);
}
