//! What one statement assigns.
ghost use Rattle.std.specs.Prelude.{◌≡◌, ◌+◌, ◌<◌, ◌≤◌, ◌%◌, length};
ghost use Rattle.cap_format.specs.declared.kind.CapKind.TheVariants.{Page, CapPage, Gpt, Endpoint as EndpointKind, Process};
ghost use Rattle.rv32_decode.specs.InRange.{InRange};
ghost use Rattle.object_store.specs.Store.{sizes_of, size_of, process_at, with_process};
ghost use Rattle.listing_read.specs.Statement.{IsStatement};
ghost use Rattle.image_builder.specs.Given.{with_object_count, region_cap};
ghost use Rattle.image_builder.specs.Assigned.{process_with, with_count_of, with_region, assigned, flagged, NamesProcess};

use cap_format::{Cap, CapKind, Restr, reduce};
use endpoint_objects::Endpoint;
use listing_read::Statement;
use object_store::Objects;
use rv32_decode::{Insn, encode};

/// Assigns a count. Any other statement assigns nothing here.
pub(crate) fn assign_count(objects: &mut Objects, statement: &Statement)
    requires { IsStatement (sizes_of objects.old) statement.now }
    ensures { objects.new ≡ with_count_of objects.old statement.now }
{
    if let Statement::Count {
        kind,
        number,
        count,
    } = statement
    {
        objects.set_count(*kind, *number, *count);
    }
}

/// Notes whether the process of a `process` statement runs. Any other statement says nothing of it.
pub(crate) fn note_running(running: &mut Vec<bool>, statement: &Statement)
    requires { NamesProcess (length running.old.items) statement.now }
    ensures { running.new.items ≡ flagged running.old.items statement.now }
{
    if let Statement::Process { number, runs, .. } = statement {
        running[*number as usize] = *runs;
    }
}

/// The capability with its object's count, and 0 where there is no such object.
fn with_object_count(objects: &Objects, cap: Cap) -> Cap
    ensures { result ≡ with_object_count objects.now.items.counts cap }
{
    let kind = cap.kind();
    if !kind.is_counted() {
        return cap;
    }
    match objects.cap_to(kind.object_kind(), cap.object()) {
        Ok(whole) => cap.with_count(whole.count()),
        Err(_) => cap.with_count(0),
    }
}

/// Assigns all but counts and whether a process runs. Counts are the final ones.
pub(crate) fn assign(objects: &mut Objects, statement: &Statement)
    requires { IsStatement (sizes_of objects.old) statement.now }
    ensures { objects.new ≡ assigned objects.old statement.now }
{
    match statement {
        Statement::Page { number, at, bytes } => {
            assign_bytes(objects, *number, *at, bytes.as_slice())
        }
        Statement::Code { number, at, insn } => assign_code(objects, *number, *at, *insn),
        Statement::CapSlot { number, slot, cap } => assign_cap(objects, *number, *slot, *cap),
        Statement::Gpt { number, header } => {
            let _item = objects.set_gpt_header(*number, *header);
        }
        Statement::GptSlot { number, slot, cap } => assign_slot(objects, *number, *slot, *cap),
        Statement::Endpoint {
            number,
            recipient,
            id,
            payload,
            matching,
        } => assign_endpoint(objects, *number, *recipient, *id, *payload, *matching),
        Statement::Process {
            number,
            pc,
            space,
            schedule,
            handler,
            runs: _,
        } => assign_process(objects, *number, *pc, *space, *schedule, *handler),
        Statement::Reg {
            number,
            index,
            value,
        } => objects.process_mut(*number).set_reg(*index, *value),
        Statement::CapReg { number, index, cap } => {
            assign_capreg(objects, *number, *index, *cap)
        }
        Statement::Region {
            gpt,
            slot,
            count,
            page,
            restr,
        } => assign_region(objects, *gpt, *slot, *count, *page, *restr),
        Statement::Count { .. } => {}
    }
}

fn assign_bytes(objects: &mut Objects, number: u16, at: u16, bytes: &[u8])
    requires there { number < size_of objects.old.items Page }
    requires within { at + length bytes.now ≤ 4096 }
    ensures { objects.new ≡ assigned objects.old (Statement.Page number at bytes.now) }
{
    objects.page_mut(number).write(at, bytes);
}

fn assign_code(objects: &mut Objects, number: u16, at: u16, insn: Insn)
    requires there { number < size_of objects.old.items Page }
    requires within { at + 4 ≤ 4096 }
    requires insn { InRange insn }
    ensures { objects.new ≡ assigned objects.old (Statement.Code number at insn) }
{
    let word = encode(insn).to_le_bytes();
    assign_bytes(objects, number, at, word.as_slice());
}

fn assign_cap(objects: &mut Objects, number: u16, slot: u8, cap: Cap)
    requires { number < size_of objects.old.items CapPage }
    ensures { objects.new ≡ assigned objects.old (Statement.CapSlot number slot cap) }
{
    let cap = with_object_count(objects, cap);
    objects.cappage_mut(number).set(slot, cap);
}

fn assign_slot(objects: &mut Objects, number: u16, slot: u8, cap: Cap)
    requires there { number < size_of objects.old.items Gpt }
    requires slot { slot < 16 }
    ensures { objects.new ≡ assigned objects.old (Statement.GptSlot number slot cap) }
{
    let cap = with_object_count(objects, cap);
    let _item = objects.set_gpt_slot(number, slot, cap);
}

/// Assigns the slots of a region one after the other, as statements of their own would.
fn assign_region(objects: &mut Objects, gpt: u16, slot: u8, count: u8, page: u16, restr: Restr)
    requires there { gpt < size_of objects.old.items Gpt }
    requires slots { slot + count ≤ 16 }
    requires pages { page + count ≤ size_of objects.old.items Page }
    requires restr { restr.0 < 32 }
    ensures { objects.new ≡ with_region objects.old gpt slot page restr.0 count }
{
    let _sizes = objects.sizes();
    'each: for i in 0..count {
        assign_slot(objects, gpt, slot + i, region_cap(page + i as u16, restr));
    }
}

/// The capability that a region assigns for a page.
fn region_cap(page: u16, restr: Restr) -> Cap
    requires page { page < 4096 }
    requires restr { restr.0 < 32 }
    ensures { result ≡ region_cap page restr.0 }
{
    reduce(Cap::to_object(CapKind::Page, page, 0), restr)
}

fn assign_endpoint(
    objects: &mut Objects,
    number: u16,
    recipient: Cap,
    id: u32,
    payload: u32,
    matching: bool,
)
    requires { number < size_of objects.old.items EndpointKind }
    ensures { let statement = Statement.Endpoint number recipient id payload matching in
        objects.new ≡ assigned objects.old statement }
{
    let recipient = with_object_count(objects, recipient);
    *objects.endpoint_mut(number) = Endpoint {
        recipient,
        id,
        payload,
        matching,
    };
}

fn assign_process(
    objects: &mut Objects,
    number: u16,
    pc: u32,
    space: Cap,
    schedule: Cap,
    handler: Cap,
)
    requires there { number < size_of objects.old.items Process }
    requires aligned { pc % 4 ≡ 0 }
    ensures { let whole = with_object_count objects.old.items.counts in
        let old = process_at objects.old number in
        let new = process_with old pc (whole space) (whole schedule) (whole handler) in
        objects.new ≡ with_process objects.old number new }
{
    let space = with_object_count(objects, space);
    let schedule = with_object_count(objects, schedule);
    let handler = with_object_count(objects, handler);
    let process = objects.process_mut(number);
    process.set_pc(pc);
    process.set_slot(0, space);
    process.set_slot(1, schedule);
    process.set_slot(2, handler);
}

fn assign_capreg(objects: &mut Objects, number: u16, index: u8, cap: Cap)
    requires there { number < size_of objects.old.items Process }
    requires index { index < 32 }
    ensures { objects.new ≡ assigned objects.old (Statement.CapReg number index cap) }
{
    let cap = with_object_count(objects, cap);
    objects.process_mut(number).set_capreg(index, cap);
}
