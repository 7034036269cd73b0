//! The image of a listing.
ghost use Rattle.std.specs.Prelude.{◌≡◌, ℕ, ◌+◌, ◌≤◌, ◌++◌, [], length, flat_map};
ghost use Rattle.coy_io.specs.Written.{WroteTo};
ghost use Rattle.image_binary.specs.Added.{Adds};
ghost use Rattle.image_binary.specs.Statements.{HasWord, statement_bytes, fields_bytes};
ghost use Rattle.image_binary.specs.Image.{head_bytes, image_of};

use crate::image_bytes::ImageBytes;
use crate::pushing::{
    push_code, push_count, push_endpoint, push_form, push_gpt, push_held, push_magic, push_page,
    push_process, push_region, push_register,
};
use coy_io::{Sink, WriteFault, put_bytes};
use listing_read::{Listing, Statement};
use object_store::Sizes;

/// Writes the image of a listing. After a fault the sink has taken a front of it.
pub fn pack<K: Sink>(listing: &Listing, output: &mut K) -> Result<(), WriteFault>
    ensures { WroteTo K.taken K.faults output.old output.new result (image_of listing.now) }
{
    let mut bytes = ImageBytes::new();
    put_head(listing, &mut bytes, output)?;
    put_statements(listing, &mut bytes, output)
}

/// Writes the start of an image, which is made in `bytes` first.
fn put_head<K: Sink>(
    listing: &Listing,
    bytes: &mut ImageBytes,
    output: &mut K,
) -> Result<(), WriteFault>
    ensures { let listing = listing.now in
        let head = head_bytes listing.sizes (length listing.statements) in
        WroteTo K.taken K.faults output.old output.new result head }
{
    make_head(bytes, listing.sizes(), listing.statements().len() as u32);
    put_bytes(bytes.as_slice(), output)
}

/// Leaves the start of an image in the buffer.
fn make_head(bytes: &mut ImageBytes, sizes: Sizes, count: u32)
    ensures { bytes.new ≡ head_bytes sizes count }
{
    bytes.clear();
    push_magic(bytes);
    bytes.push_u16(u16::from(sizes.harts));
    bytes.push_u16(sizes.pages);
    bytes.push_u16(sizes.cappages);
    bytes.push_u16(sizes.gpts);
    bytes.push_u16(sizes.processes);
    bytes.push_u16(sizes.endpoints);
    bytes.push_u32(count);
}

/// Writes all statements, each of which is made in `bytes` first.
fn put_statements<K: Sink>(
    listing: &Listing,
    bytes: &mut ImageBytes,
    output: &mut K,
) -> Result<(), WriteFault>
    ensures { let listing = listing.now in
        let all = flat_map (statement_bytes listing.sizes) listing.statements in
        WroteTo K.taken K.faults output.old output.new result all }
{
    'each: for statement in listing.statements() {
        put_statement(statement, bytes, output)?;
    }
    Ok(())
}

/// Writes a statement, which is made in `bytes` first.
fn put_statement<K: Sink>(
    statement: &Statement,
    bytes: &mut ImageBytes,
    output: &mut K,
) -> Result<(), WriteFault>
    requires { HasWord statement.now }
    ensures { (sizes : Sizes) → let all = statement_bytes sizes statement.now in
        WroteTo K.taken K.faults output.old output.new result all }
{
    make_statement(statement, bytes);
    put_bytes(bytes.as_slice(), output)
}

/// Leaves a statement in the buffer.
fn make_statement(statement: &Statement, bytes: &mut ImageBytes)
    requires { HasWord statement.now }
    ensures { (sizes : Sizes) → bytes.new ≡ statement_bytes sizes statement.now }
{
    bytes.clear();
    push_form(bytes, statement);
    push_fields(statement, bytes);
}

/// Appends the fields of a statement.
fn push_fields(statement: &Statement, bytes: &mut ImageBytes)
    requires room { length bytes.old ≤ 1 }
    requires word { HasWord statement.now }
    ensures { (sizes : Sizes) → Adds bytes.old bytes.new (fields_bytes sizes statement.now) }
{
    match statement {
        Statement::Page {
            number,
            at,
            bytes: page,
        } => push_page(bytes, *number, *at, page.as_slice()),
        Statement::Code { number, at, insn } => push_code(bytes, *number, *at, *insn),
        Statement::CapSlot { number, slot, cap } => push_held(bytes, *number, *slot, *cap),
        Statement::Gpt { number, header } => push_gpt(bytes, *number, *header),
        Statement::GptSlot { number, slot, cap } => push_held(bytes, *number, *slot, *cap),
        Statement::Endpoint {
            number,
            recipient,
            id,
            payload,
            matching,
        } => push_endpoint(bytes, *number, *recipient, *id, *payload, *matching),
        Statement::Process {
            number,
            pc,
            space,
            schedule,
            handler,
            runs,
        } => push_process(bytes, *number, *pc, *space, *schedule, *handler, *runs),
        Statement::Reg {
            number,
            index,
            value,
        } => push_register(bytes, *number, *index, *value),
        Statement::CapReg { number, index, cap } => push_held(bytes, *number, *index, *cap),
        Statement::Count {
            kind,
            number,
            count,
        } => push_count(bytes, *kind, *number, *count),
        Statement::Region {
            gpt,
            slot,
            count,
            page,
            restr,
        } => push_region(bytes, *gpt, *slot, *count, *page, *restr),
    }
}
