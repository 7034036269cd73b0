//! The command `check`: the lines behind a listing with their events counted. No machine is made.
ghost use Rattle.std.specs.Prelude.{ℕ, ◌≡◌, ◌≢◌, false};
ghost use Rattle.coy_io.specs.Reader.{TellsEnd};
ghost use Rattle.courses.specs.Course.{cached};
ghost use Rattle.courses.specs.Ending.{EndsIn};
ghost use Rattle.courses.specs.Taken.{TakesLines, TakesListing};
ghost use Rattle.courses.specs.Wanting.{StandsAtListing};
ghost use Rattle.schedule_commands.specs.Finished.{check_course, count_text};

use courses::{Exit, conclude, counts_or_exit, end_with, read_head};
use coy_io::{LineReader, Sink, Source};
use coy_text::LineBuf;
use listing_read::Listing;
use schedule_replay::count_lines;
use std::alloc::Global;

/// Reads a listing and its schedule, and writes how many events that has. No slot is fetched.
pub fn check<S: Source, K: Sink>(alloc: Global, input: &mut S, output: &mut K) -> Exit
    ensures course { (fetches : ℕ) → TakesListing S.held S.faults K.taken K.faults
        input.old input.new output.old output.new fetches fetches result cached check_course }

    // Where memory is wanting, no more was taken than a listing and what came with its last line.
    ensures wanting { result ≡ Exit.OutOfMemory →
        StandsAtListing (S.held input.old) (S.held input.new) }
{
    let mut lines = LineReader::new();
    let listing = match read_head(alloc, &mut lines, input, output) {
        Ok(listing) => listing,
        Err(exit) => return exit,
    };
    count_schedule(&listing, &mut lines, input, output)
}

/// Counts the events of the lines behind a listing, and writes their number, or why they were not all read.
fn count_schedule<S: Source, K: Sink>(
    listing: &Listing,
    lines: &mut LineReader,
    input: &mut S,
    output: &mut K,
) -> Exit
    requires reader { lines.old.failed ≡ false }
    requires told { TellsEnd lines.old (S.held input.old) }
    ensures course { (fetches : ℕ) → TakesLines S.held S.faults K.taken K.faults lines.old lines.new
        input.old input.new output.old output.new fetches fetches result cached
        (check_course listing.now lines.old.number) }
    ensures memory { result ≢ Exit.OutOfMemory }
{
    let harts = listing.sizes().harts;
    let answer = count_lines(lines, input, harts);
    match counts_or_exit(answer) {
        Ok(counts) => count(counts.events, output),
        Err(exit) => conclude(exit, output),
    }
}

/// Writes the number of events.
#[tactic(auto, using(coy_text::proofs::NumeralLaws::length_decimal))]
fn count<K: Sink>(events: u64, output: &mut K) -> Exit
    ensures { EndsIn K.taken K.faults output.old output.new result
        (record { text = count_text events; exit = Exit.Done }) }
{
    let mut line = LineBuf::new();
    line.push_word("ok events=");
    line.push_dec(events);
    line.push_word("\n");
    end_with(line.as_bytes(), Exit::Done, output)
}
