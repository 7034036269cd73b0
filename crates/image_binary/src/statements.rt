//! The statements of an image, one function for the fields of each form.
ghost use Rattle.std.specs.Prelude.{◌≡◌, ◌≤◌, ◌<◌, length, IfOk};
ghost use Rattle.image_binary.specs.declared.form.Form.TheVariants as forms;
ghost use Rattle.listing_read.specs.Statement.{IsStatement};
ghost use Rattle.image_binary.specs.Fields.{Gives, block, counted};
ghost use Rattle.image_binary.specs.Statements.{fields_of, statement_of};

use crate::form::{Form, form_of_statement};
use crate::front::front;
use crate::numbers::{
    any_word, byte_between, byte_count, count_number, first_page_number, object_number,
    offset_of_word, page_offset, pc,
};
use crate::stop::Stop;
use crate::values::{
    behind_capability, capability, flags, instruction, kind_of_object, mark, recipient,
};
use bitflags::Flags;
use cap_format::{CapKind, Restr};
use gpt_objects::GptHeader;
use listing_read::{PageBytes, Statement};
use object_store::Sizes;

/// The statement that the bytes begin with.
#[tactic(auto, unfolding(crate::specs::Statements::statement_of))]
pub(crate) fn statement(sizes: Sizes, bytes: &[u8]) -> Result<(Statement, usize), Stop>
    ensures value { result ≡ counted (statement_of sizes bytes.now) }
    ensures range { IfOk result (λ x. IsStatement sizes x.0) }
{
    let (form, rest) = form_of_statement(bytes)?;
    match form {
        Form::Page => page(sizes, rest),
        Form::Code => code(sizes, rest),
        Form::CapSlot => cap_slot(sizes, rest),
        Form::Gpt => gpt(sizes, rest),
        Form::GptSlot => gpt_slot(sizes, rest),
        Form::Endpoint => endpoint(sizes, rest),
        Form::Process => process(sizes, rest),
        Form::Reg => register(sizes, rest),
        Form::CapReg => cap_register(sizes, rest),
        Form::Count => count(sizes, rest),
        Form::Region => region(sizes, rest),
    }
}

#[tactic(auto, unfolding(crate::specs::Statements::fields_of))]
fn page(sizes: Sizes, bytes: &[u8]) -> Result<(Statement, usize), Stop>
    ensures value { result ≡ counted (fields_of sizes forms.Page bytes.now) }
    ensures range { IfOk result (λ x. IsStatement sizes x.0) }
{
    let (number, rest) = object_number(sizes, CapKind::Page, bytes)?;
    let (at, rest) = page_offset(rest)?;
    let (count, rest) = byte_count(at, rest)?;
    let (bytes, rest) = page_bytes(count, rest)?;
    Ok((Statement::Page { number, at, bytes }, rest.len()))
}

/// So many bytes of a page.
#[tactic(auto, unfolding(crate::specs::Fields::field_of))]
fn page_bytes(count: u8, bytes: &[u8]) -> Result<(PageBytes, &[u8]), Stop>
    requires { count ≤ 64 }
    ensures value { Gives result ((block count).read bytes.now) }
    ensures length { IfOk result (λ x. length x.0 ≡ count) }
{
    let (front, rest) = front(usize::from(count), bytes)?;
    Ok((bytes_of(front), rest))
}

/// At most 64 bytes, copied.
fn bytes_of(front: &[u8]) -> PageBytes
    requires { length front.now ≤ 64 }
    ensures { result ≡ front.now }
{
    let mut bytes = PageBytes::new();
    'bytes: for byte in front {
        bytes.push(*byte);
    }
    bytes
}

#[tactic(auto, unfolding(crate::specs::Statements::fields_of))]
fn code(sizes: Sizes, bytes: &[u8]) -> Result<(Statement, usize), Stop>
    ensures value { result ≡ counted (fields_of sizes forms.Code bytes.now) }
    ensures range { IfOk result (λ x. IsStatement sizes x.0) }
{
    let (number, rest) = object_number(sizes, CapKind::Page, bytes)?;
    let (at, rest) = offset_of_word(rest)?;
    let (insn, rest) = instruction(rest)?;
    Ok((Statement::Code { number, at, insn }, rest.len()))
}

#[tactic(auto, unfolding(crate::specs::Statements::fields_of))]
fn cap_slot(sizes: Sizes, bytes: &[u8]) -> Result<(Statement, usize), Stop>
    ensures value { result ≡ counted (fields_of sizes forms.CapSlot bytes.now) }
    ensures range { IfOk result (λ x. IsStatement sizes x.0) }
{
    let (number, rest) = object_number(sizes, CapKind::CapPage, bytes)?;
    let (slot, rest) = byte_between(0, 255, rest)?;
    let cap = capability(sizes, rest)?;
    let rest = behind_capability(rest);
    Ok((Statement::CapSlot { number, slot, cap }, rest.len()))
}

#[tactic(auto, unfolding(crate::specs::Statements::fields_of))]
fn gpt(sizes: Sizes, bytes: &[u8]) -> Result<(Statement, usize), Stop>
    ensures value { result ≡ counted (fields_of sizes forms.Gpt bytes.now) }
    ensures range { IfOk result (λ x. IsStatement sizes x.0) }
{
    let (number, rest) = object_number(sizes, CapKind::Gpt, bytes)?;
    let (l2v, rest) = byte_between(12, 31, rest)?;
    let ((ha, bg), rest) = flags(rest)?;
    let header = GptHeader::new(l2v, ha, bg);
    Ok((Statement::Gpt { number, header }, rest.len()))
}

#[tactic(auto, unfolding(crate::specs::Statements::fields_of))]
fn gpt_slot(sizes: Sizes, bytes: &[u8]) -> Result<(Statement, usize), Stop>
    ensures value { result ≡ counted (fields_of sizes forms.GptSlot bytes.now) }
    ensures range { IfOk result (λ x. IsStatement sizes x.0) }
{
    let (number, rest) = object_number(sizes, CapKind::Gpt, bytes)?;
    let (slot, rest) = byte_between(0, 15, rest)?;
    let cap = capability(sizes, rest)?;
    let rest = behind_capability(rest);
    Ok((Statement::GptSlot { number, slot, cap }, rest.len()))
}

#[tactic(auto, unfolding(crate::specs::Statements::fields_of))]
fn endpoint(sizes: Sizes, bytes: &[u8]) -> Result<(Statement, usize), Stop>
    ensures value { result ≡ counted (fields_of sizes forms.Endpoint bytes.now) }
    ensures range { IfOk result (λ x. IsStatement sizes x.0) }
{
    let (number, rest) = object_number(sizes, CapKind::Endpoint, bytes)?;
    let recipient = recipient(sizes, rest)?;
    let rest = behind_capability(rest);
    let (id, rest) = any_word(rest)?;
    let (payload, rest) = any_word(rest)?;
    let (matching, rest) = mark(rest)?;
    let statement = Statement::Endpoint {
        number,
        recipient,
        id,
        payload,
        matching,
    };
    Ok((statement, rest.len()))
}

#[tactic(auto, unfolding(crate::specs::Statements::fields_of))]
fn process(sizes: Sizes, bytes: &[u8]) -> Result<(Statement, usize), Stop>
    ensures value { result ≡ counted (fields_of sizes forms.Process bytes.now) }
    ensures range { IfOk result (λ x. IsStatement sizes x.0) }
{
    let (number, rest) = object_number(sizes, CapKind::Process, bytes)?;
    let (pc, rest) = pc(rest)?;
    let space = capability(sizes, rest)?;
    let rest = behind_capability(rest);
    let schedule = capability(sizes, rest)?;
    let rest = behind_capability(rest);
    let handler = capability(sizes, rest)?;
    let rest = behind_capability(rest);
    let (runs, rest) = mark(rest)?;
    let statement = Statement::Process {
        number,
        pc,
        space,
        schedule,
        handler,
        runs,
    };
    Ok((statement, rest.len()))
}

#[tactic(auto, unfolding(crate::specs::Statements::fields_of))]
fn register(sizes: Sizes, bytes: &[u8]) -> Result<(Statement, usize), Stop>
    ensures value { result ≡ counted (fields_of sizes forms.Reg bytes.now) }
    ensures range { IfOk result (λ x. IsStatement sizes x.0) }
{
    let (number, rest) = object_number(sizes, CapKind::Process, bytes)?;
    let (index, rest) = byte_between(1, 31, rest)?;
    let (value, rest) = any_word(rest)?;
    let statement = Statement::Reg {
        number,
        index,
        value,
    };
    Ok((statement, rest.len()))
}

#[tactic(auto, unfolding(crate::specs::Statements::fields_of))]
fn cap_register(sizes: Sizes, bytes: &[u8]) -> Result<(Statement, usize), Stop>
    ensures value { result ≡ counted (fields_of sizes forms.CapReg bytes.now) }
    ensures range { IfOk result (λ x. IsStatement sizes x.0) }
{
    let (number, rest) = object_number(sizes, CapKind::Process, bytes)?;
    let (index, rest) = byte_between(1, 31, rest)?;
    let cap = capability(sizes, rest)?;
    let rest = behind_capability(rest);
    Ok((Statement::CapReg { number, index, cap }, rest.len()))
}

#[tactic(auto, unfolding(crate::specs::Statements::fields_of))]
fn count(sizes: Sizes, bytes: &[u8]) -> Result<(Statement, usize), Stop>
    ensures value { result ≡ counted (fields_of sizes forms.Count bytes.now) }
    ensures range { IfOk result (λ x. IsStatement sizes x.0) }
{
    let (kind, rest) = kind_of_object(bytes)?;
    let (number, rest) = object_number(sizes, kind, rest)?;
    let (count, rest) = count_number(rest)?;
    let statement = Statement::Count {
        kind,
        number,
        count,
    };
    Ok((statement, rest.len()))
}

#[tactic(auto, unfolding(crate::specs::Statements::fields_of))]
fn region(sizes: Sizes, bytes: &[u8]) -> Result<(Statement, usize), Stop>
    ensures value { result ≡ counted (fields_of sizes forms.Region bytes.now) }
    ensures range { IfOk result (λ x. IsStatement sizes x.0) }
{
    let (gpt, rest) = object_number(sizes, CapKind::Gpt, bytes)?;
    let (slot, rest) = byte_between(0, 15, rest)?;
    let (count, rest) = byte_between(1, 16 - slot, rest)?;
    let (page, rest) = first_page_number(sizes, count, rest)?;
    let (restr, rest) = byte_between(0, 31, rest)?;
    let statement = Statement::Region {
        gpt,
        slot,
        count,
        page,
        restr: Restr::from_bits_retain(restr),
    };
    Ok((statement, rest.len()))
}
