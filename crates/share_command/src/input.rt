//! A listing and its schedule, from the first line to the last.
ghost use Rattle.std.specs.Prelude.{◌≡◌, ◌≢◌, false, IfSome};
ghost use Rattle.coy_io.specs.Lines.{parts_of};
ghost use Rattle.coy_io.specs.Reader.{TellsEnd};
ghost use Rattle.shared_leaves.specs.Cache.{kept_of};
ghost use Rattle.shared_leaves.specs.Kept.{nothing};
ghost use Rattle.kernel_core.specs.State.{state_of};
ghost use Rattle.schedule_replay.specs.Scheduled.{scheduled};
ghost use Rattle.courses.specs.Listed.{lines_course};
ghost use Rattle.courses.specs.Taken.{TakesLines, TakesListing};
ghost use Rattle.courses.specs.Wanting.{StandsAtListing};
ghost use Rattle.share_command.specs.Few.{IsSharedBounded, TellsFew};
ghost use Rattle.share_command.specs.Share.{share_course, shared_fetched, sharing};

use crate::telling::tell;
use boot_again::listing_boots_in_ranges;
use courses::{Exit, conclude, counts_or_exit, read_head};
use coy_io::{LineReader, Sink, Source};
use image_builder::boot;
use kernel_core::Machine;
use schedule_replay::{Mode, replay};
use shared_leaves::SharedLeaves;
use std::alloc::Global;
use std::sync::ledger::Ledger;
use steps::Steps;

/// Reads a listing and its schedule, runs it over shared leaf tables that keep nothing at first, writes the records that `run`
/// writes, and behind them how many frames are in use then.
pub fn share<S: Source, K: Sink, L: Ledger>(
    alloc: Global,
    input: &mut S,
    output: &mut K,
    fetches: &mut Steps<L>,
) -> Exit
    ensures course { TakesListing S.held S.faults K.taken K.faults input.old input.new output.old output.new
        fetches.old fetches.new result shared_fetched share_course }

    // How many frames are told, and how many slots are fetched at most.
    ensures fewer { result ≡ Exit.Done → IfSome (S.held input.old) (λ bytes.
        TellsFew (lines_course share_course (parts_of bytes))) }
    ensures bounded { IfSome (S.held input.old) (λ bytes.
        IsSharedBounded fetches.old fetches.new (lines_course share_course (parts_of bytes))) }

    // Where memory is wanting, no more was taken than a listing and what came with its last line.
    ensures wanting { result ≡ Exit.OutOfMemory →
        StandsAtListing (S.held input.old) (S.held input.new) }
{
    let mut lines = LineReader::new();
    let listing = match read_head(alloc, &mut lines, input, output) {
        Ok(listing) => listing,
        Err(exit) => return exit,
    };
    listing_boots_in_ranges(&listing);
    let Ok(leaves) = SharedLeaves::new(alloc, listing.sizes().harts) else {
        return Exit::OutOfMemory;
    };
    let Ok(mut machine) = boot(alloc, &listing, leaves) else {
        return Exit::OutOfMemory;
    };
    answer_lines(&mut machine, &mut lines, input, output, fetches)
}

/// Runs the lines behind a listing, and writes their records and how many frames are in use then.
fn answer_lines<S: Source, K: Sink, L: Ledger>(
    machine: &mut Machine<SharedLeaves>,
    lines: &mut LineReader,
    input: &mut S,
    output: &mut K,
    fetches: &mut Steps<L>,
) -> Exit
    requires reader { lines.old.failed ≡ false }
    requires told { TellsEnd lines.old (S.held input.old) }
    requires nothing { kept_of machine.old.translator ≡ nothing }
    ensures course { TakesLines S.held S.faults K.taken K.faults lines.old lines.new
        input.old input.new output.old output.new fetches.old fetches.new result shared_fetched
        (λ parts. sharing (state_of machine.old) (scheduled machine.old.objects.harts lines.old.number parts)) }
    ensures memory { result ≢ Exit.OutOfMemory }
{
    let replayed = replay(machine, lines, input, Mode::Records, output, fetches);
    match counts_or_exit(replayed) {
        Ok(_counts) => tell(machine, output),
        Err(exit) => conclude(exit, output),
    }
}
