//! Processes that sleep on one of the other side.
ghost use Rattle.std.specs.Prelude.{◌≡◌, ◌<◌, length};
ghost use Rattle.confine_check.specs.Sides.{cut_of};
ghost use Rattle.confine_check.specs.Breach.{lesser, across, least_on, sleeper_of};

use crate::cut::Cut;
use cap_format::CapKind;
use schedules::Queues;

/// The lesser of two numbers, where there are two.
fn lesser(one: Option<u16>, other: Option<u16>) -> Option<u16>
    ensures { result ≡ lesser one other }
{
    match one {
        None => other,
        Some(first) => match other {
            None => Some(first),
            Some(second) => Some(if second < first { second } else { first }),
        },
    }
}

/// A process that sleeps on another, where that is of the other side.
fn across(cut: &Cut, on: u16, p: u16) -> Option<u16>
    ensures { result ≡ across (cut_of cut.now) on p }
{
    if cut.side_of(CapKind::Process, p as u32) == cut.side_of(CapKind::Process, on as u32) {
        return None;
    }
    Some(p)
}

/// The least sleeper of a process that is of the other side.
fn least_on(queues: &Queues, cut: &Cut, on: u16) -> Option<u16>
    requires { on < length queues.now.sleepers }
    ensures { result ≡ least_on (cut_of cut.now) queues.now on }
{
    let mut least = None;
    'each: for n in 0..256 {
        match queues.sleeper_at(on, n) {
            Some(p) => least = lesser(least, across(cut, on, p)),
            None => return least,
        }
    }
    least
}

/// The least of all sleepers, on so many processes, that is of the other side than the process on which it sleeps.
pub(crate) fn sleeper_of(queues: &Queues, count: u16, cut: &Cut) -> Option<u16>
    requires { count ≡ length queues.now.sleepers }
    ensures { result ≡ sleeper_of (cut_of cut.now) queues.now }
{
    let mut least = None;
    'each: for on in 0..count {
        least = lesser(least, least_on(queues, cut, on));
    }
    least
}
