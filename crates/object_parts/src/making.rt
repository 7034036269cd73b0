//! Making parts of objects.
ghost use Rattle.std.specs.Prelude.{◌≡◌, ◌+◌, ◌<◌, ◌≤◌, map, length, IfOk};
ghost use Rattle.cap_format.specs.declared.kind.CapKind.{CapKind};
ghost use Rattle.page_store.specs.CapPage.{IsCapPage};
ghost use Rattle.process_objects.specs.Process.{IsProcess, process_of};
ghost use Rattle.object_store.specs.Store.{size_of, count_of, gpt_at, page_at, cappage_at, process_at, endpoint_at};
ghost use Rattle.object_store.specs.Object.{object_at};
ghost use Rattle.object_store.specs.Object.ObjectValue.{OfPage, OfCapPage, OfGpt, OfProcess, OfEndpoint};
ghost use Rattle.object_store.specs.Meaning.{live, process_map, endpoint_map, gpt_map};
ghost use Rattle.object_store.specs.Saved.{slots_copied};
ghost use Rattle.object_parts.specs.Live.{live_store, IsInRanges};
ghost use Rattle.object_parts.specs.Objects.{object_in};

use crate::count::Count;
use crate::part::Part;
use crate::slots::Slots;
use cap_format::{CapKind, OutOfMemory};
use object_store::Objects;
use page_store::{CapPage, Page};
use process_objects::Process;
use std::alloc::Global;
use std::sync::ledger::Ledger;
use steps::Steps;

/// A copy of an object with its count, and with Null in place of each dead capability. It reads each slot of a GPT once, and of
/// any other object none.
pub fn part_of<L: Ledger>(
    alloc: Global,
    objects: &Objects,
    kind: CapKind,
    number: u16,
    fetches: &mut Steps<L>,
) -> Result<Part, OutOfMemory>
    requires { number < size_of objects.now.items kind }
    ensures object { IfOk result
        (λ part. object_in part ≡ object_at (live_store objects.now) kind number) }
    ensures ranged { IfOk result (λ part. IsInRanges (object_in part)) }
    ensures counted { fetches.new ≡ fetches.old + slots_copied kind }
{
    match kind {
        CapKind::Page => page_part(alloc, objects, number),
        CapKind::CapPage => cap_page_part(alloc, objects, number),
        CapKind::Gpt => Ok(gpt_part(objects, number, fetches)),
        CapKind::Process => process_part(alloc, objects, number),
        CapKind::Endpoint => Ok(endpoint_part(objects, number)),
        _ => unreachable!(),
    }
}

fn page_part(alloc: Global, objects: &Objects, n: u16) -> Result<Part, OutOfMemory>
    requires { n < size_of objects.now.items CapKind.Page }
    ensures object { IfOk result
        (λ part. object_in part ≡ OfPage (count_of objects.now.items CapKind.Page n)
        (page_at objects.now n)) }
    ensures ranged { IfOk result (λ part. IsInRanges (object_in part)) }
{
    let mut page = Box::new(alloc, Page::new())?;
    page.copy_from(objects.page(n));
    Ok(Part::Page {
        count: count_of(objects, CapKind::Page, n),
        page,
    })
}

fn cap_page_part(alloc: Global, objects: &Objects, n: u16) -> Result<Part, OutOfMemory>
    requires { n < size_of objects.now.items CapKind.CapPage }
    ensures object { let o = objects.now.items in IfOk result
        (λ part. object_in part ≡
        OfCapPage (count_of o CapKind.CapPage n) (map (live o) (cappage_at objects.now n))) }
    ensures ranged { IfOk result (λ part. IsInRanges (object_in part)) }
{
    let mut page = Box::new(alloc, CapPage::new())?;
    page.copy_from(objects.cappage(n));
    bury_in_page(&mut page, objects);
    page.tell_range();
    Ok(Part::CapPage {
        count: count_of(objects, CapKind::CapPage, n),
        page,
    })
}

/// Puts Null in place of each dead capability.
fn bury_in_page(page: &mut CapPage, objects: &Objects)
    ensures { page.new ≡ map (live objects.now.items) page.old }
{
    page.tell_range();
    for i in 0..256u16 {
        let slot = i as u8;
        page.set(slot, objects.live(page.get(slot)));
    }
}

fn process_part(alloc: Global, objects: &Objects, n: u16) -> Result<Part, OutOfMemory>
    requires { n < size_of objects.now.items CapKind.Process }
    ensures object { let o = objects.now.items in IfOk result
        (λ part. object_in part ≡
        OfProcess (count_of o CapKind.Process n) (process_map (live o) (process_at objects.now n))) }
    ensures ranged { IfOk result (λ part. IsInRanges (object_in part)) }
{
    let mut process = Box::new(alloc, Process::new())?;
    process.copy_from(objects.process(n));
    bury_in_registers(&mut process, objects);
    bury_in_slots(&mut process, objects);
    process.tell_range();
    Ok(Part::Process {
        count: count_of(objects, CapKind::Process, n),
        process,
    })
}

/// Puts Null in place of each dead capability of the capability registers.
fn bury_in_registers(process: &mut Process, objects: &Objects)
    ensures { let old = process.old in process.new ≡
        process_of old.pc old.regs (map (live objects.now.items) old.capregs) old.slots old.state }
{
    process.tell_range();
    for i in 0..32 {
        process.set_capreg(i, objects.live(process.capreg(i)));
    }
}

/// Puts Null in place of each dead capability of the slots.
fn bury_in_slots(process: &mut Process, objects: &Objects)
    ensures { let old = process.old in process.new ≡
        process_of old.pc old.regs old.capregs (map (live objects.now.items) old.slots) old.state }
{
    process.tell_range();
    for i in 0..3 {
        process.set_slot(i, objects.live(process.slot(i)));
    }
}

fn gpt_part<L: Ledger>(objects: &Objects, n: u16, fetches: &mut Steps<L>) -> Part
    requires { n < size_of objects.now.items CapKind.Gpt }
    ensures object { let o = objects.now.items in object_in result ≡
        OfGpt (count_of o CapKind.Gpt n) (gpt_map (live o) (gpt_at o n)) }
    ensures ranged { IsInRanges (object_in result) }
    ensures counted { fetches.new ≡ fetches.old + slots_copied CapKind.Gpt }
{
    let gpt = Slots::of(objects, n, fetches);
    gpt.tell_range();
    Part::Gpt {
        count: count_of(objects, CapKind::Gpt, n),
        gpt,
    }
}

fn endpoint_part(objects: &Objects, n: u16) -> Part
    requires { n < size_of objects.now.items CapKind.Endpoint }
    ensures object { let o = objects.now.items in object_in result ≡
        OfEndpoint (count_of o CapKind.Endpoint n) (endpoint_map (live o) (endpoint_at objects.now n)) }
    ensures ranged { IsInRanges (object_in result) }
{
    let mut endpoint = *objects.endpoint(n);
    endpoint.recipient = objects.live(endpoint.recipient);
    // A capability that is read tells its ranges.
    let _kind = endpoint.recipient.kind();
    Part::Endpoint {
        count: count_of(objects, CapKind::Endpoint, n),
        endpoint,
    }
}

fn count_of(objects: &Objects, kind: CapKind, n: u16) -> Count
    requires { n < size_of objects.now.items kind }
    ensures { result.value ≡ count_of objects.now.items kind n }
{
    Count {
        value: objects.count(kind, n),
    }
}
