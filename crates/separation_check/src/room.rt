//! How much room all crossings take, which is found before any of them is put down.
ghost use Rattle.std.specs.Prelude.{◌≡◌, ◌≤◌, ◌+◌, ◌*◌, length};
ghost use Rattle.cap_format.specs.declared.kind.CapKind.TheVariants.{CapPage, Gpt, Endpoint, Process};
ghost use Rattle.object_store.specs.Store.{size_of};
ghost use Rattle.object_store.specs.Places.{places_in};
ghost use Rattle.separation_check.specs.Crossings.{listed, process_crossings, sleeper_crossings, crossings_of};

use crate::crossing::Crossing;
use crate::sleeping::{sleeper_limit, sleeper_on};
use cap_format::CapKind;
use object_store::{Objects, places, size};
use schedules::Queues;
use separation_policy::Policy;

/// Room for all crossings of objects and of processes that sleep: for one in each place for a capability, since what stands
/// there crosses once at most, and for those of sleepers as many as there are. No more is asked for.
pub(crate) fn room_for(objects: &Objects, queues: &Queues, policy: &Policy) -> usize
    requires { length queues.now.sleepers ≡ size_of objects.now.items Process }
    ensures value { let s = objects.now.items in result ≡ places_in CapPage * size_of s CapPage
        + places_in Gpt * size_of s Gpt + places_in Endpoint * size_of s Endpoint
        + places_in Process * size_of s Process + length (sleeper_crossings policy.now queues.now) }
    ensures enough { length (crossings_of policy.now objects.now queues.now) ≤ result }
{
    places_of(objects, CapKind::CapPage) as usize
        + places_of(objects, CapKind::Gpt) as usize
        + places_of(objects, CapKind::Endpoint) as usize
        + places_of(objects, CapKind::Process) as usize
        + count_sleepers(queues, size(objects, CapKind::Process), policy) as usize
}

/// How many places for capabilities the objects of a kind have.
fn places_of(objects: &Objects, kind: CapKind) -> u32
    ensures { result ≡ places_in kind * size_of objects.now.items kind }
{
    u32::from(places(kind)) * u32::from(size(objects, kind))
}

/// How many crossings there are of processes that sleep on any of so many.
fn count_sleepers(queues: &Queues, count: u16, policy: &Policy) -> u32
    requires { count ≡ length queues.now.sleepers }
    ensures { result ≡ length (sleeper_crossings policy.now queues.now) }
{
    let mut crossings = 0;
    'each: for p in 0..sleeper_limit(queues, count) {
        crossings += u32::from(count_process(queues, count, policy, p as u16));
    }
    crossings
}

/// How many of one process.
fn count_process(queues: &Queues, count: u16, policy: &Policy, p: u16) -> u16
    requires { count ≡ length queues.now.sleepers }
    ensures { result ≡ length (process_crossings policy.now queues.now p) }
{
    let mut crossings = 0;
    'each: for on in 0..count {
        crossings += count_of(sleeper_on(queues, policy, p, on));
    }
    crossings
}

/// 1 of a crossing, 0 of none.
fn count_of(crossing: Option<Crossing>) -> u16
    ensures value { result ≡ length (listed crossing) }
    ensures most { result ≤ 1 }
{
    u16::from(crossing.is_some())
}
