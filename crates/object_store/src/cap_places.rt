//! The places for capabilities: how many objects there are, and what stands in each of their places.
ghost use Rattle.std.specs.Prelude.{◌≡◌, ◌<◌, ◌+◌, ◌-◌, nat_lt, if◌then◌else◌};
ghost use Rattle.process_objects.specs.Process.{slot_of, capreg_of};
ghost use Rattle.object_store.specs.Store.{size_of};
ghost use Rattle.object_store.specs.Places.{places_in, cap_in, reads_in};

use crate::objects::Objects;
use cap_format::{Cap, CapKind};
use process_objects::Process;
use std::sync::ledger::Ledger;
use steps::Steps;

/// How many objects of a kind there are, none where it is no kind of objects.
pub fn size(objects: &Objects, kind: CapKind) -> u16
    ensures { result ≡ size_of objects.now.items kind }
{
    let sizes = objects.sizes();
    match kind {
        CapKind::Page => sizes.pages,
        CapKind::CapPage => sizes.cappages,
        CapKind::Gpt => sizes.gpts,
        CapKind::Endpoint => sizes.endpoints,
        CapKind::Process => sizes.processes,
        _ => 0,
    }
}

/// How many places for capabilities an object of a kind has, none where it is no kind of objects that hold any.
pub fn places(kind: CapKind) -> u16
    ensures { result ≡ places_in kind }
{
    match kind {
        CapKind::CapPage => 256,
        CapKind::Gpt => 16,
        CapKind::Endpoint => 1,
        CapKind::Process => 35,
        _ => 0,
    }
}

/// The capability in a place of a process: its slots stand before its registers.
fn held_by(process: &Process, i: u8) -> Cap
    requires { i < 35 }
    ensures { result ≡
        (if nat_lt i 3 then slot_of process.now i else capreg_of process.now (i - 3)) }
{
    if i < 3 {
        process.slot(i)
    } else {
        process.capreg(i - 3)
    }
}

/// The capability in a place of an object, as it is stored. Of a process its slots stand before its registers; a slot of
/// a GPT is read, and so counted.
pub fn cap_in<L: Ledger>(
    objects: &Objects,
    kind: CapKind,
    n: u16,
    i: u16,
    fetches: &mut Steps<L>,
) -> Cap
    requires there { n < size_of objects.now.items kind }
    requires place { i < places_in kind }
    ensures value { result ≡ cap_in objects.now kind n i }
    ensures counted { fetches.new ≡ fetches.old + reads_in kind }
{
    match kind {
        CapKind::CapPage => objects.cappage(n).get(i as u8),
        CapKind::Gpt => objects.gpt_slot(n, i as u8, fetches),
        CapKind::Endpoint => objects.endpoint(n).recipient,
        CapKind::Process => held_by(objects.process(n), i as u8),
        _ => Cap::null(),
    }
}
