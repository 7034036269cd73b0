//! A listing and the lines of a cut, from the first line to the last.
ghost use Rattle.std.specs.Prelude.{◌≡◌, ◌≢◌, false, IfSome};
ghost use Rattle.coy_io.specs.Lines.{parts_of};
ghost use Rattle.coy_io.specs.Reader.{TellsEnd};
ghost use Rattle.kernel_core.specs.State.{state_of};
ghost use Rattle.courses.specs.Course.{cached, course_output};
ghost use Rattle.courses.specs.Listed.{lines_course};
ghost use Rattle.courses.specs.Taken.{TakesLines, TakesListing};
ghost use Rattle.courses.specs.Wanting.{StandsAtListing};
ghost use Rattle.courses.specs.Stopped.{stop_exit};
ghost use Rattle.courses.specs.declared.exit.Exit.TheVariants.{CutRefused};
ghost use Rattle.confine_command.specs.Confine.{checked, confine_course, NobodySleeps};
ghost use Rattle.confine_command.specs.Decided.{IsDecided};
ghost use Rattle.confine_command.specs.Stated.{stated};

use crate::checking::tell;
use crate::lines::read_sides;
use confine_check::{Cut, CutFault, verdict_in_law};
use courses::{Exit, conclude, read_head};
use coy_io::{LineReader, Sink, Source};
use image_builder::boot;
use judged_lines::Stop;
use kernel_core::Machine;
use std::alloc::Global;
use std::sync::ledger::Ledger;
use steps::Steps;
use walk_engine::{Plain, Translator};

/// Reads a listing and the lines of a cut, and tells whether the cut holds of the listing's machine.
pub fn confine<S: Source, K: Sink, L: Ledger>(
    alloc: Global,
    input: &mut S,
    output: &mut K,
    fetches: &mut Steps<L>,
) -> Exit
    ensures course { TakesListing S.held S.faults K.taken K.faults input.old input.new output.old
        output.new
        fetches.old fetches.new result cached confine_course }

    // What it tells of the cut is so of the listing's machine, for good.
    ensures decided { result ≡ Exit.Done → IfSome (S.held input.old) (λ bytes.
        IsDecided bytes (course_output (lines_course confine_course (parts_of bytes))).text) }

    // Where memory is wanting, no more was taken than a listing and what came with its last line.
    ensures wanting { result ≡ Exit.OutOfMemory →
        StandsAtListing (S.held input.old) (S.held input.new) }
{
    let mut lines = LineReader::new();
    let listing = match read_head(alloc, &mut lines, input, output) {
        Ok(listing) => listing,
        Err(exit) => return exit,
    };
    let Ok(machine) = boot(alloc, &listing, Plain::new()) else {
        return Exit::OutOfMemory;
    };
    let Ok(mut cut) = Cut::new(alloc, listing.sizes()) else {
        return Exit::OutOfMemory;
    };
    verdict_in_law(&machine);
    check_lines(&machine, &mut cut, &mut lines, input, output, fetches)
}

/// Reads the lines of a cut, and tells whether it holds of a machine, or why they ended before.
fn check_lines<T: Translator, S: Source, K: Sink, L: Ledger>(
    machine: &Machine<T>,
    cut: &mut Cut,
    lines: &mut LineReader,
    input: &mut S,
    output: &mut K,
    fetches: &mut Steps<L>,
) -> Exit
    requires reader { lines.old.failed ≡ false }
    requires told { TellsEnd lines.old (S.held input.old) }
    requires awake { NobodySleeps machine.now.queues }
    ensures course { TakesLines S.held S.faults K.taken K.faults lines.old lines.new
        input.old input.new output.old output.new fetches.old fetches.new result cached
        (λ parts. checked (state_of machine.now) (stated cut.old lines.old.number parts)) }
    ensures memory { result ≢ Exit.OutOfMemory }
{
    let stop = read_sides(lines, input, cut);
    match cut_exit(stop) {
        None => tell(machine, cut, output, fetches),
        Some(exit) => conclude(exit, output),
    }
}

/// The exit of the lines of a cut, or `None` where all of them were read.
fn cut_exit(stop: Stop<CutFault>) -> Option<Exit>
    ensures { result ≡ stop_exit CutRefused stop }
{
    match stop {
        Stop::End => None,
        Stop::Refused { line, fault } => Some(Exit::CutRefused { line, fault }),
        Stop::TooLong => Some(Exit::TooLong),
        Stop::ReadFault => Some(Exit::ReadFault),
    }
}
