//! A listing from its image.
ghost use Rattle.std.specs.Prelude.{◌≡◌, ◌≢◌, ◌≤◌, ◌<◌, length, Some, Err, IfOk, IfSome, OnOk};
ghost use Rattle.std.specs.Io.KnownBytes.{IsAtEnd};
ghost use Rattle.coy_io.specs.Limits.{input_limit};
ghost use Rattle.coy_io.specs.Causes.{Rose};
ghost use Rattle.listing_read.specs.Statement.{ListingValue, IsStatement};
ghost use Rattle.object_store.specs.Ranges.{IsWithinLimits};
ghost use Rattle.coy_io.specs.declared.window.TheConstants.{WINDOW};
ghost use Rattle.image_binary.specs.Image.{image_of, head_of};
ghost use Rattle.image_binary.specs.Statements.{statement_of};
ghost use Rattle.image_binary.specs.Laws.{IsPacked};
ghost use Rattle.image_binary.specs.Unpacked.{Answers, StandsAtStatement, Takes, Finds, Unpacks};
ghost use Rattle.image_binary.specs.Reader.{Supplies, Steps, IsEnding};

use crate::fault::{ImageFault, ImageWord};
use crate::head::{Head, head_of};
use crate::reader::{ImageReader, Supply};
use crate::statements::statement;
use crate::stop::Stop;
use coy_io::{Failed, Source};
use listing_read::{Listing, Statement};
use object_store::Sizes;
use std::alloc::Global;

/// Reads an image up to the end of the source. Of its bytes at most 16,777,216 are read, and one more is taken. A refusal
/// leaves nothing but that the source gave what was taken from it.
///
/// # Errors
///
/// `Refused` at the first fault from the left, with the offset of its field. `TooLong` where a byte stands behind the last
/// that is read, and a field or the end would have to. `ReadFault` where the source failed and what came before has no
/// fault. `OutOfMemory` where there was no memory for a statement.
pub fn unpack<S: Source>(alloc: Global, input: &mut S) -> Result<Listing, ImageFault>
    // What the bytes of the source give, where they are known.
    ensures answer { Answers result (S.held input.old) (S.held input.new) }

    // So the bytes are the image of the listing, and the image of a listing gives that one.
    ensures image { IfOk result (λ l. IfSome (S.held input.old) (λ bytes. bytes ≡ image_of l)) }
    ensures listing { (l : ListingValue) → IsPacked l → length (image_of l) ≤ input_limit →
        S.held input.old ≡ Some (image_of l) → Finds result l }

    // Memory was wanting for a statement, and nowhere else.
    ensures memory { result ≡ Err ImageFault.OutOfMemory →
        StandsAtStatement (S.held input.old) (S.held input.new) }

    // What happens to the source.
    ensures taken { Takes (S.held input.old) (S.held input.new) }
    ensures end { OnOk result (IsAtEnd (S.held input.new)) }
    ensures read { result ≡ Err ImageFault.ReadFault →
        Rose (S.faults input.old) (S.faults input.new) }
    ensures quiet { result ≢ Err ImageFault.ReadFault →
        S.faults input.new ≡ S.faults input.old }
{
    read_image(alloc, input)
}

/// The same, by the bytes that were taken.
fn read_image<S: Source>(alloc: Global, input: &mut S) -> Result<Listing, ImageFault>
    ensures unpacks { Unpacks result (S.held input.old) (S.held input.new) }
    ensures memory { result ≡ Err ImageFault.OutOfMemory →
        StandsAtStatement (S.held input.old) (S.held input.new) }
    ensures end { OnOk result (IsAtEnd (S.held input.new)) }
    ensures read { result ≡ Err ImageFault.ReadFault →
        Rose (S.faults input.old) (S.faults input.new) }
    ensures quiet { result ≢ Err ImageFault.ReadFault →
        S.faults input.new ≡ S.faults input.old }
{
    let mut reader = ImageReader::new();
    let head = read_head(&mut reader, input)?;
    let mut listing = Listing::new(alloc, head.sizes);
    'statements: for _ in 0..head.count {
        let statement = read_statement(head.sizes, &mut reader, input)?;
        listing.push(statement)?;
    }
    read_end(&mut reader, input)?;
    Ok(listing)
}

/// Reads the start of an image.
fn read_head<S: Source>(reader: &mut ImageReader, input: &mut S) -> Result<Head, ImageFault>
    ensures steps { Steps head_of reader.old reader.new (S.held input.old)
        (S.held input.new) result }
    ensures range { IfOk result (λ head. IsWithinLimits head.sizes) }
    ensures read { result ≡ Err ImageFault.ReadFault →
        Rose (S.faults input.old) (S.faults input.new) }
    ensures quiet { result ≢ Err ImageFault.ReadFault →
        S.faults input.new ≡ S.faults input.old }
{
    'reading: loop {
        let held = reader.held();
        match head_of(held) {
            Ok((head, left)) => {
                reader.keep(left);
                return Ok(head);
            }
            Err(Stop::Wrong { left, fault }) => return Err(reader.refused(left, fault)),
            Err(Stop::Short { left }) => supply(left, reader, input)?,
        }
    }
}

/// Reads a statement.
fn read_statement<S: Source>(
    sizes: Sizes,
    reader: &mut ImageReader,
    input: &mut S,
) -> Result<Statement, ImageFault>
    ensures steps { let before = S.held input.old in let after = S.held input.new in
        Steps (statement_of sizes) reader.old reader.new before after result }
    ensures range { IfOk result (IsStatement sizes) }
    ensures read { result ≡ Err ImageFault.ReadFault →
        Rose (S.faults input.old) (S.faults input.new) }
    ensures quiet { result ≢ Err ImageFault.ReadFault →
        S.faults input.new ≡ S.faults input.old }
{
    'reading: loop {
        let held = reader.held();
        match statement(sizes, held) {
            Ok((statement, left)) => {
                reader.keep(left);
                return Ok(statement);
            }
            Err(Stop::Wrong { left, fault }) => return Err(reader.refused(left, fault)),
            Err(Stop::Short { left }) => supply(left, reader, input)?,
        }
    }
}

/// Takes more bytes for the field from which so many of those stand that are held.
fn supply<S: Source>(left: usize, reader: &mut ImageReader, input: &mut S) -> Result<(), ImageFault>
    requires room { length reader.old.held < WINDOW }
    requires field { left ≤ length reader.old.held }
    ensures supplies { let before = S.held input.old in let after = S.held input.new in
        Supplies result left reader.old reader.new before after }
    ensures read { result ≡ Err ImageFault.ReadFault →
        Rose (S.faults input.old) (S.faults input.new) }
    ensures quiet { result ≢ Err ImageFault.ReadFault →
        S.faults input.new ≡ S.faults input.old }
{
    let cut = reader.refused(left, ImageWord::Cut);
    match reader.ask(input) {
        Ok(Supply::Bytes) => Ok(()),
        Ok(Supply::End) => Err(cut),
        Ok(Supply::Past) => Err(ImageFault::TooLong),
        Err(Failed) => Err(ImageFault::ReadFault),
    }
}

/// Looks for the end behind the last statement.
fn read_end<S: Source>(reader: &mut ImageReader, input: &mut S) -> Result<(), ImageFault>
    ensures ending { IsEnding result reader.old (S.held input.old) (S.held input.new) }
    ensures read { result ≡ Err ImageFault.ReadFault →
        Rose (S.faults input.old) (S.faults input.new) }
    ensures quiet { result ≢ Err ImageFault.ReadFault →
        S.faults input.new ≡ S.faults input.old }
{
    let left = reader.held().len();
    let trailing = reader.refused(left, ImageWord::Trailing);
    if left > 0 {
        return Err(trailing);
    }
    match reader.ask(input) {
        Ok(Supply::Bytes) => Err(trailing),
        Ok(Supply::End) => Ok(()),
        Ok(Supply::Past) => Err(ImageFault::TooLong),
        Err(Failed) => Err(ImageFault::ReadFault),
    }
}
