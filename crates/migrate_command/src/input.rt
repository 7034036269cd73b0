//! A listing and its schedule, from the first line to the last.
ghost use Rattle.std.specs.Prelude.{ℕ, ◌≡◌, ◌≢◌, false, IfSome};
ghost use Rattle.coy_io.specs.Lines.{parts_of};
ghost use Rattle.coy_io.specs.Reader.{TellsEnd, ahead};
ghost use Rattle.schedule_replay.specs.Scheduled.{OnParts};
ghost use Rattle.courses.specs.Course.{cached, course_output};
ghost use Rattle.courses.specs.Listed.{lines_course};
ghost use Rattle.courses.specs.Taken.{TakesLines, TakesListing};
ghost use Rattle.courses.specs.Migrated.{migrate_course};
ghost use Rattle.courses.specs.Wanting.{StandsAtListing};
ghost use Rattle.migrate_command.specs.Migrate.{lines_exit};
ghost use Rattle.migrate_command.specs.Same.{IsMigrated, ReadsAgain};

use crate::lines::put_lines;
use courses::{Exit, conclude, read_head};
use coy_io::{LineReader, Sink, Source, WriteFault};
use listing_read::Listing;
use schedule_replay::Stop;
use statement_text::{migrated_is_read, tell_listing, write_listing};
use std::alloc::Global;

/// Reads a listing and its schedule, and writes their text: a listing of version 2 without names that says the same, once
/// the listing is accepted, and then a line for each line of the schedule that is not skipped. No slot is fetched.
pub fn migrate<S: Source, K: Sink>(alloc: Global, input: &mut S, output: &mut K) -> Exit
    ensures course { (fetches : ℕ) → TakesListing S.held S.faults K.taken K.faults
        input.old input.new output.old output.new fetches fetches result cached migrate_course }

    // What was written is, read again, the same statements and events.
    ensures migrated { result ≡ Exit.Done → IfSome (S.held input.old) (λ bytes.
        IsMigrated bytes (course_output (lines_course migrate_course (parts_of bytes))).text) }

    // Where memory is wanting, no more was taken than a listing and what came with its last line.
    ensures wanting { result ≡ Exit.OutOfMemory →
        StandsAtListing (S.held input.old) (S.held input.new) }
{
    let mut lines = LineReader::new();
    let listing = match read_head(alloc, &mut lines, input, output) {
        Ok(listing) => listing,
        Err(exit) => return exit,
    };
    write_all(&listing, &mut lines, input, output)
}

/// Writes a listing and the lines behind it.
fn write_all<S: Source, K: Sink>(
    listing: &Listing,
    lines: &mut LineReader,
    input: &mut S,
    output: &mut K,
) -> Exit
    requires reader { lines.old.failed ≡ false }
    requires told { TellsEnd lines.old (S.held input.old) }
    ensures course { (fetches : ℕ) → TakesLines S.held S.faults K.taken K.faults lines.old lines.new
        input.old input.new output.old output.new fetches fetches result cached
        (migrate_course listing.now lines.old.number) }
    ensures again { result ≡ Exit.Done → OnParts (ahead lines.old (S.held input.old)) (λ parts.
        ReadsAgain listing.now lines.old.number parts) }
    ensures memory { result ≢ Exit.OutOfMemory }
{
    match write_listing(listing, output) {
        Ok(()) => {}
        Err(_) => return Exit::WriteFault,
    }
    migrated_is_read();
    tell_listing(listing);
    let harts = listing.sizes().harts;
    let exit = lines_exit(put_lines(harts, lines, input, output));
    conclude(exit, output)
}

/// The exit that lines give which were written as they were read.
fn lines_exit(answer: Result<Stop, WriteFault>) -> Exit
    ensures { result ≡ lines_exit answer }
{
    match answer {
        Ok(Stop::End) => Exit::Done,
        Ok(Stop::Refused { line, fault }) => Exit::ScheduleRefused { line, fault },
        Ok(Stop::TooLong) => Exit::TooLong,
        Ok(Stop::ReadFault) => Exit::ReadFault,
        Err(_) => Exit::WriteFault,
    }
}
