//! Comparing the lists of queues.
ghost use Rattle.std.specs.Prelude.{◌≡◌, ◌<◌, ◌↔◌, IsTrue, length};
ghost use Rattle.state_parts.specs.Same.{same_lists};
ghost use Rattle.schedules.specs.Queues.{priorities, ready_queue, sleepers_of};

use cap_format::PRIORITIES;
use schedules::Queues;

/// Whether the same processes are in each ready queue, in the same order.
pub(crate) fn same_ready(a: &Queues, b: &Queues) -> bool
    ensures { result ≡ same_lists a.now.ready b.now.ready }
{
    ready_same(a, b)
}

fn ready_same(a: &Queues, b: &Queues) -> bool
    ensures { IsTrue result ↔ (a.now.ready ≡ b.now.ready) }
{
    a.tell_kept();
    b.tell_kept();
    for priority in 0..PRIORITIES {
        if !ready_queue_same(a, b, priority) {
            return false;
        }
    }
    true
}

fn ready_queue_same(a: &Queues, b: &Queues, priority: u8) -> bool
    requires { priority < priorities }
    ensures { IsTrue result ↔ (ready_queue a.now priority ≡ ready_queue b.now priority) }
{
    // A place that is read tells how long a queue is at most.
    let _here = a.ready_at(priority, 0);
    let _there = b.ready_at(priority, 0);
    for n in 0..256u16 {
        let next = a.ready_at(priority, n);
        if next != b.ready_at(priority, n) {
            return false;
        }
        if next.is_none() {
            return true;
        }
    }
    true
}

/// Whether the same processes sleep on a process, in the same order.
pub(crate) fn sleepers_same(a: &Queues, b: &Queues, on: u16) -> bool
    requires here { on < length a.now.sleepers }
    requires there { on < length b.now.sleepers }
    ensures { IsTrue result ↔ (sleepers_of a.now on ≡ sleepers_of b.now on) }
{
    // A place that is read tells how long a list is at most.
    let _here = a.sleeper_at(on, 0);
    let _there = b.sleeper_at(on, 0);
    for n in 0..256u16 {
        let next = a.sleeper_at(on, n);
        if next != b.sleeper_at(on, n) {
            return false;
        }
        if next.is_none() {
            return true;
        }
    }
    true
}
