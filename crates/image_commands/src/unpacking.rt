//! The command `unpack`.
ghost use Rattle.std.specs.Prelude.{◌≡◌, ℕ};
ghost use Rattle.statement_text.specs.Text.{listing_text};
ghost use Rattle.courses.specs.Course.{cached};
ghost use Rattle.courses.specs.Ending.{EndsIn};
ghost use Rattle.courses.specs.Taken.{TakesInput};
ghost use Rattle.image_binary.specs.Unpacked.{StandsAtStatement};
ghost use Rattle.image_commands.specs.Unpacked.{image_course, image_exit, read_course};

use courses::{Exit, conclude};
use coy_io::{Sink, Source};
use image_binary::{ImageFault, unpack};
use listing_read::Listing;
use statement_text::write_listing;
use std::alloc::Global;

/// Reads an image to the end of the source, and writes the text of its listing: one of version 2 without names. No slot
/// is fetched.
pub fn answer_unpack<S: Source, K: Sink>(alloc: Global, input: &mut S, output: &mut K) -> Exit
    ensures course { (fetches : ℕ) → TakesInput S.held S.faults K.taken K.faults
        input.old input.new output.old output.new fetches fetches result cached
        image_course read_course }

    // Memory was wanting for a statement, and nowhere else.
    ensures wanting { result ≡ Exit.OutOfMemory →
        StandsAtStatement (S.held input.old) (S.held input.new) }
{
    match unpack(alloc, input) {
        Ok(listing) => write_text(&listing, output),
        Err(fault) => conclude(image_exit(fault), output),
    }
}

/// The exit where there is no listing.
fn image_exit(fault: ImageFault) -> Exit
    ensures { result ≡ image_exit fault }
{
    match fault {
        ImageFault::Refused { offset, fault } => Exit::ImageRefused { offset, fault },
        ImageFault::TooLong => Exit::TooLong,
        ImageFault::ReadFault => Exit::ReadFault,
        ImageFault::OutOfMemory => Exit::OutOfMemory,
    }
}

/// Writes the text of a listing.
fn write_text<K: Sink>(listing: &Listing, output: &mut K) -> Exit
    ensures { EndsIn K.taken K.faults output.old output.new result
        (record { text = listing_text listing.now; exit = Exit.Done }) }
{
    match write_listing(listing, output) {
        Ok(()) => Exit::Done,
        Err(_) => Exit::WriteFault,
    }
}
