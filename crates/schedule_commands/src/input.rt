//! A listing and its schedule, from the first line to the last. Here, and nowhere else, a translator is chosen.
ghost use Rattle.std.specs.Prelude.{◌≡◌, IfSome};
ghost use Rattle.coy_io.specs.Lines.{parts_of};
ghost use Rattle.courses.specs.Course.{HasEntries, cached};
ghost use Rattle.courses.specs.Listed.{lines_course};
ghost use Rattle.courses.specs.Taken.{TakesListing};
ghost use Rattle.courses.specs.Wanting.{StandsAtListing};
ghost use Rattle.schedule_commands.specs.Finished.{schedule_course};

use crate::command::ScheduleCommand;
use crate::schedule::answer_lines;
use courses::{Exit, read_head};
use coy_io::{LineReader, Sink, Source};
use image_builder::boot;
use map_cache::MapCache;
use std::alloc::Global;
use std::sync::ledger::Ledger;
use steps::Steps;

/// Reads a listing and its schedule, runs it, and writes of the run what the command says.
pub fn answer_schedule<S: Source, K: Sink, L: Ledger>(
    alloc: Global,
    command: ScheduleCommand,
    input: &mut S,
    output: &mut K,
    fetches: &mut Steps<L>,
) -> Exit
    ensures course { TakesListing S.held S.faults K.taken K.faults input.old input.new output.old output.new
        fetches.old fetches.new result cached (schedule_course command) }

    // What the entries of the mapping cache say then.
    ensures entries { result ≡ Exit.Done → IfSome (S.held input.old) (λ bytes.
        HasEntries (lines_course (schedule_course command) (parts_of bytes))) }

    // Where memory is wanting, no more was taken than a listing and what came with its last line.
    ensures wanting { result ≡ Exit.OutOfMemory →
        StandsAtListing (S.held input.old) (S.held input.new) }
{
    let mut lines = LineReader::new();
    let listing = match read_head(alloc, &mut lines, input, output) {
        Ok(listing) => listing,
        Err(exit) => return exit,
    };
    let Ok(cache) = MapCache::new(alloc, listing.sizes().harts) else {
        return Exit::OutOfMemory;
    };
    let Ok(mut machine) = boot(alloc, &listing, cache) else {
        return Exit::OutOfMemory;
    };
    answer_lines(command, &mut machine, &mut lines, input, output, fetches)
}
