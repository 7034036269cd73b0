//! The command `pack`.
ghost use Rattle.std.specs.Prelude.{ℕ, ◌≡◌, ◌≢◌, false, IfSome};
ghost use Rattle.coy_io.specs.Lines.{parts_of};
ghost use Rattle.coy_io.specs.Reader.{TellsEnd};
ghost use Rattle.image_binary.specs.Image.{image_of};
ghost use Rattle.courses.specs.Course.{cached, course_output};
ghost use Rattle.courses.specs.Ending.{EndsIn};
ghost use Rattle.courses.specs.Listed.{lines_course};
ghost use Rattle.courses.specs.Taken.{TakesLines, TakesListing};
ghost use Rattle.courses.specs.Wanting.{StandsAtListing};
ghost use Rattle.image_commands.specs.Packed.{pack_course};
ghost use Rattle.image_commands.specs.Same.{IsImageOf};

use crate::lines::pass_lines;
use courses::{Exit, conclude, read_head, schedule_exit};
use coy_io::{LineReader, Sink, Source};
use image_binary::{images_are_read, listing_is_packed, pack};
use listing_read::Listing;
use std::alloc::Global;

/// Reads a listing, behind which no event may stand, to the end of the source, and writes its image. No slot is
/// fetched.
pub fn answer_pack<S: Source, K: Sink>(alloc: Global, input: &mut S, output: &mut K) -> Exit
    ensures course { (fetches : ℕ) → TakesListing S.held S.faults K.taken K.faults
        input.old input.new output.old output.new fetches fetches result cached pack_course }

    // What was written is an image for which `unpack` writes what `migrate` writes for the input.
    ensures packed { result ≡ Exit.Done → IfSome (S.held input.old) (λ bytes.
        IsImageOf bytes (course_output (lines_course pack_course (parts_of bytes))).text) }

    // Where memory is wanting, no more was taken than a listing and what came with its last line.
    ensures wanting { result ≡ Exit.OutOfMemory →
        StandsAtListing (S.held input.old) (S.held input.new) }
{
    let mut lines = LineReader::new();
    let listing = match read_head(alloc, &mut lines, input, output) {
        Ok(listing) => listing,
        Err(exit) => return exit,
    };
    listing_is_packed(&listing);
    images_are_read();
    pack_all(&listing, &mut lines, input, output)
}

/// Reads the lines behind a listing, and writes its image where all of them were passed over, or why they were not.
fn pack_all<S: Source, K: Sink>(
    listing: &Listing,
    lines: &mut LineReader,
    input: &mut S,
    output: &mut K,
) -> Exit
    requires reader { lines.old.failed ≡ false }
    requires told { TellsEnd lines.old (S.held input.old) }
    ensures course { (fetches : ℕ) → TakesLines S.held S.faults K.taken K.faults lines.old lines.new
        input.old input.new output.old output.new fetches fetches result cached
        (pack_course listing.now lines.old.number) }
    ensures memory { result ≢ Exit.OutOfMemory }
{
    let stop = pass_lines(lines, input);
    match schedule_exit(stop) {
        None => write_image(listing, output),
        Some(exit) => conclude(exit, output),
    }
}

/// Writes the image of a listing.
fn write_image<K: Sink>(listing: &Listing, output: &mut K) -> Exit
    ensures { EndsIn K.taken K.faults output.old output.new result
        (record { text = image_of listing.now; exit = Exit.Done }) }
{
    match pack(listing, output) {
        Ok(()) => Exit::Done,
        Err(_) => Exit::WriteFault,
    }
}
