//! The fields of a statement, one function for each form.
ghost use Rattle.std.specs.Prelude.{◌≡◌, ℕ, ◌+◌, ◌*◌, ◌≤◌, ◌++◌, length, codes};
ghost use Rattle.cap_format.specs.Spelling.{spelling};
ghost use Rattle.object_store.specs.declared.sizes.Sizes.{Sizes};
ghost use Rattle.rv32_decode.specs.InRange.{InRange};
ghost use Rattle.rv32_decode.specs.Word.{word_of};
ghost use Rattle.byteorder.specs.Endian.{little_bytes};
ghost use Rattle.image_binary.specs.Added.{Adds};
ghost use Rattle.image_binary.specs.Values.{mark_number};
ghost use Rattle.listing_read.specs.declared.statement.Statement.TheVariants as says;
ghost use Rattle.image_binary.specs.Statements.{fields_bytes, form, form_of};

use crate::form::Form;
use crate::image_bytes::ImageBytes;
use bitflags::Flags;
use cap_format::{Cap, CapKind, Restr, encode};
use gpt_objects::GptHeader;
use listing_read::Statement;
use rv32_decode::Insn;

/// Appends the letters at the start of an image.
pub(crate) fn push_magic(bytes: &mut ImageBytes)
    requires { length bytes.old ≤ 1 }
    ensures bytes { Adds bytes.old bytes.new (codes "COYIMG02") }
    ensures len { length bytes.new ≡ length bytes.old + 8 }
{
    bytes.push(b"COYIMG02".as_slice());
}

/// Appends the form of a statement.
pub(crate) fn push_form(bytes: &mut ImageBytes, statement: &Statement)
    requires { length bytes.old ≤ 1 }
    ensures bytes { Adds bytes.old bytes.new (form.bytes (form_of statement.now)) }
    ensures len { length bytes.new ≡ length bytes.old + 1 }
{
    bytes.push_u8(Form::of(statement).number());
}

/// Appends those of bytes of a page, of which there are at most 64.
pub(crate) fn push_page(bytes: &mut ImageBytes, number: u16, at: u16, page: &[u8])
    requires room { length bytes.old ≤ 1 }
    requires few { length page.now ≤ 64 }
    ensures { (sizes : Sizes) →
        Adds bytes.old bytes.new (fields_bytes sizes (says.Page number at page.now)) }
{
    bytes.push_u16(number);
    bytes.push_u16(at);
    bytes.push_u8(page.len() as u8);
    bytes.push(page);
}

/// Appends those of an instruction.
pub(crate) fn push_code(bytes: &mut ImageBytes, number: u16, at: u16, insn: Insn)
    requires room { length bytes.old ≤ 1 }
    requires insn { InRange insn }
    ensures { (sizes : Sizes) →
        Adds bytes.old bytes.new (fields_bytes sizes (says.Code number at insn)) }
{
    bytes.push_u16(number);
    bytes.push_u16(at);
    push_word(bytes, insn);
}

/// Appends the word of an instruction.
fn push_word(bytes: &mut ImageBytes, insn: Insn)
    requires room { length bytes.old ≤ 60 }
    requires insn { InRange insn }
    ensures { Adds bytes.old bytes.new (little_bytes 4 (word_of insn)) }
{
    bytes.push_u32(rv32_decode::encode(insn));
}

/// Appends which object and place it is, and what it holds.
pub(crate) fn push_held(bytes: &mut ImageBytes, number: u16, place: u8, cap: Cap)
    requires { length bytes.old ≤ 1 }
    ensures { let held = little_bytes 2 number ++ (little_bytes 1 place ++ spelling cap) in
        Adds bytes.old bytes.new held }
{
    bytes.push_u16(number);
    bytes.push_u8(place);
    push_cap(bytes, cap);
}

/// Appends a capability.
fn push_cap(bytes: &mut ImageBytes, cap: Cap)
    requires { length bytes.old ≤ 60 }
    ensures bytes { Adds bytes.old bytes.new (spelling cap) }
    ensures len { length bytes.new ≡ length bytes.old + 16 }
{
    bytes.push(&encode(cap));
}

/// Appends those of a GPT.
pub(crate) fn push_gpt(bytes: &mut ImageBytes, number: u16, header: GptHeader)
    requires { length bytes.old ≤ 1 }
    ensures { (sizes : Sizes) →
        Adds bytes.old bytes.new (fields_bytes sizes (says.Gpt number header)) }
{
    bytes.push_u16(number);
    bytes.push_u8(header.l2v());
    push_flags(bytes, header);
}

/// Appends the flags of a GPT.
fn push_flags(bytes: &mut ImageBytes, header: GptHeader)
    requires { length bytes.old ≤ 60 }
    ensures { let h = header in
        Adds bytes.old bytes.new (little_bytes 1 (mark_number h.ha + 2 * mark_number h.bg)) }
{
    bytes.push_u8(mark_number(header.ha()) + 2 * mark_number(header.bg()));
}

/// 1 where something is so, and 0 otherwise.
fn mark_number(mark: bool) -> u8
    ensures value { result ≡ mark_number mark }
    ensures most { result ≤ 1 }
{
    u8::from(mark)
}

/// Appends whether something is so.
fn push_mark(bytes: &mut ImageBytes, mark: bool)
    requires { length bytes.old ≤ 70 }
    ensures { Adds bytes.old bytes.new (little_bytes 1 (mark_number mark)) }
{
    bytes.push_u8(mark_number(mark));
}

/// Appends those of an endpoint.
pub(crate) fn push_endpoint(
    bytes: &mut ImageBytes,
    number: u16,
    recipient: Cap,
    id: u32,
    payload: u32,
    matching: bool,
)
    requires { length bytes.old ≤ 1 }
    ensures { (sizes : Sizes) →
        let statement = says.Endpoint number recipient id payload matching in
        Adds bytes.old bytes.new (fields_bytes sizes statement) }
{
    bytes.push_u16(number);
    push_cap(bytes, recipient);
    bytes.push_u32(id);
    bytes.push_u32(payload);
    push_mark(bytes, matching);
}

/// Appends those of a process.
pub(crate) fn push_process(
    bytes: &mut ImageBytes,
    number: u16,
    pc: u32,
    space: Cap,
    schedule: Cap,
    handler: Cap,
    runs: bool,
)
    requires { length bytes.old ≤ 1 }
    ensures { (sizes : Sizes) →
        let statement = says.Process number pc space schedule handler runs in
        Adds bytes.old bytes.new (fields_bytes sizes statement) }
{
    bytes.push_u16(number);
    bytes.push_u32(pc);
    push_cap(bytes, space);
    push_cap(bytes, schedule);
    push_cap(bytes, handler);
    push_mark(bytes, runs);
}

/// Appends those of a register.
pub(crate) fn push_register(bytes: &mut ImageBytes, number: u16, index: u8, value: u32)
    requires { length bytes.old ≤ 1 }
    ensures { (sizes : Sizes) →
        Adds bytes.old bytes.new (fields_bytes sizes (says.Reg number index value)) }
{
    bytes.push_u16(number);
    bytes.push_u8(index);
    bytes.push_u32(value);
}

/// Appends those of an allocation count.
pub(crate) fn push_count(bytes: &mut ImageBytes, kind: CapKind, number: u16, count: u32)
    requires { length bytes.old ≤ 1 }
    ensures { (sizes : Sizes) →
        Adds bytes.old bytes.new (fields_bytes sizes (says.Count kind number count)) }
{
    bytes.push_u8(kind.number());
    bytes.push_u16(number);
    bytes.push_u32(count);
}

/// Appends those of a region.
pub(crate) fn push_region(
    bytes: &mut ImageBytes,
    gpt: u16,
    slot: u8,
    count: u8,
    page: u16,
    restr: Restr,
)
    requires { length bytes.old ≤ 1 }
    ensures { (sizes : Sizes) →
        let statement = says.Region gpt slot count page restr in
        Adds bytes.old bytes.new (fields_bytes sizes statement) }
{
    bytes.push_u16(gpt);
    bytes.push_u8(slot);
    bytes.push_u8(count);
    bytes.push_u16(page);
    bytes.push_u8(restr.bits());
}
