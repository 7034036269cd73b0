//! Processes that sleep on one of another domain.
ghost use Rattle.std.specs.Prelude.{◌≡◌, ◌<◌, ◌≤◌, ◌+◌, ◌++◌, length, max};
ghost use Rattle.std.specs.Vec.{vec_len, vec_capacity};
ghost use Rattle.schedules.specs.Queues.{sleepers_of, stands_in};
ghost use Rattle.separation_check.specs.Crossings.{sleeper_by, sleeper_on, process_crossings, limit_on, sleeper_limit, sleeper_crossings};

use crate::capabilities::push;
use crate::crossing::Crossing;
use cap_format::CapKind;
use schedules::Queues;
use separation_policy::Policy;

/// Whether process `p` sleeps on process `on`.
pub fn sleeps_on(queues: &Queues, p: u16, on: u16) -> bool
    requires { on < length queues.now.sleepers }
    ensures { result ≡ stands_in (sleepers_of queues.now on) p }
{
    'each: for n in 0..256 {
        match queues.sleeper_at(on, n) {
            Some(sleeper) => {
                if sleeper == p {
                    return true;
                }
            }
            None => return false,
        }
    }
    false
}

/// A process that sleeps on another, where that is of another domain.
fn sleeper_by(policy: &Policy, p: u16, on: u16) -> Option<Crossing>
    ensures { result ≡ sleeper_by policy.now p on }
{
    let from = policy.domain_of(CapKind::Process, p as u32);
    let to = policy.domain_of(CapKind::Process, on as u32);
    if from == to {
        return None;
    }
    Some(Crossing::Sleeper {
        process: p,
        from,
        to,
    })
}

/// Process `p`, where it sleeps on process `on` of another domain.
pub fn sleeper_on(queues: &Queues, policy: &Policy, p: u16, on: u16) -> Option<Crossing>
    requires { on < length queues.now.sleepers }
    ensures { result ≡ sleeper_on policy.now queues.now p on }
{
    if sleeps_on(queues, p, on) {
        return sleeper_by(policy, p, on);
    }
    None
}

/// Puts down the crossings of a process that sleeps, of so many processes. There is room for them.
fn push_process(queues: &Queues, count: u16, policy: &Policy, p: u16, found: &mut Vec<Crossing>)
    requires processes { count ≡ length queues.now.sleepers }
    requires room { vec_len found.old + length (process_crossings policy.now queues.now p)
        ≤ vec_capacity found.old }
    ensures value { found.new.items ≡ found.old.items ++ process_crossings policy.now queues.now p }
    ensures capacity { vec_capacity found.new ≡ vec_capacity found.old }
{
    'each: for on in 0..count {
        push(found, sleeper_on(queues, policy, p, on));
    }
}

/// One more than the greatest process that sleeps on `on`, 0 where none does.
fn limit_on(queues: &Queues, on: u16) -> u32
    requires { on < length queues.now.sleepers }
    ensures value { result ≡ limit_on queues.now on }
    ensures most { result ≤ 65536 }
{
    let mut limit = 0;
    'each: for n in 0..256 {
        match queues.sleeper_at(on, n) {
            Some(p) => limit = greater(limit, u32::from(p) + 1),
            None => return limit,
        }
    }
    limit
}

/// The greater of two numbers.
fn greater(one: u32, other: u32) -> u32
    ensures { result ≡ max one other }
{
    one.max(other)
}

/// One more than the greatest process that sleeps on any of so many, 0 where none does.
pub fn sleeper_limit(queues: &Queues, count: u16) -> u32
    requires { count ≡ length queues.now.sleepers }
    ensures value { result ≡ sleeper_limit queues.now }
    ensures most { result ≤ 65536 }
{
    let mut limit = 0;
    'each: for on in 0..count {
        limit = greater(limit, limit_on(queues, on));
    }
    limit
}

/// Puts down the crossings of all processes that sleep on any of so many, by their numbers. There is room for them.
pub(crate) fn push_sleepers(queues: &Queues, count: u16, policy: &Policy, found: &mut Vec<Crossing>)
    requires processes { count ≡ length queues.now.sleepers }
    requires room { vec_len found.old + length (sleeper_crossings policy.now queues.now)
        ≤ vec_capacity found.old }
    ensures value { found.new.items ≡ found.old.items ++ sleeper_crossings policy.now queues.now }
    ensures capacity { vec_capacity found.new ≡ vec_capacity found.old }
{
    'each: for p in 0..sleeper_limit(queues, count) {
        push_process(queues, count, policy, p as u16, found);
    }
}
