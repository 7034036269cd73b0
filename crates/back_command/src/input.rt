//! A listing and its schedule, from the first line to the last.
ghost use Rattle.std.specs.Prelude.{◌≡◌, ◌≢◌, ◌*◌, [], false, min, IfSome};
ghost use Rattle.cap_format.specs.declared.kind.CapKind.TheVariants.{Gpt};
ghost use Rattle.coy_io.specs.Lines.{parts_of};
ghost use Rattle.coy_io.specs.Reader.{TellsEnd, ahead};
ghost use Rattle.object_store.specs.Store.{size_of};
ghost use Rattle.kernel_core.specs.Outcome.{spent};
ghost use Rattle.listing_read.specs.Listing.{listing_of};
ghost use Rattle.listing_read.specs.declared.place.Place.TheVariants.{Header};
ghost use Rattle.machine_state.specs.State.{state_of};
ghost use Rattle.reverse_run.specs.History.{history_of, remembered};
ghost use Rattle.reverse_run.specs.Reads.{an_undo};
ghost use Rattle.schedule_replay.specs.Scheduled.{OnParts, scheduled};
ghost use Rattle.courses.specs.Course.{cached};
ghost use Rattle.courses.specs.Ending.{EndsIn};
ghost use Rattle.courses.specs.Taken.{TakesLines, TakesListing};
ghost use Rattle.courses.specs.Wanting.{StandsAtListing};
ghost use Rattle.back_command.specs.Back.{back_course, undoing};
ghost use Rattle.back_command.specs.Runs.{text_of, undos};
ghost use Rattle.back_command.specs.Slots.{FetchesBetween, FetchesListed, FetchesUndoing};

use crate::DEPTH;
use crate::running::run_lines;
use crate::telling::tell_state;
use crate::undoing::undo_last;
use courses::{Exit, conclude, read_head, schedule_exit};
use coy_io::{LineReader, Sink, Source};
use image_builder::boot;
use map_cache::MapCache;
use reverse_run::Reversible;
use std::alloc::Global;
use std::sync::ledger::Ledger;
use steps::Steps;
use walk_engine::Translator;

/// Reads a listing and its schedule, runs it without a word, undoes the last events, as many as asked for and no more than
/// 256, and writes how many these were and the state before them.
#[tactic(auto, using(crate::proofs::Slots::slots_wanting))]
pub fn back<S: Source, K: Sink, L: Ledger>(
    alloc: Global,
    number: u32,
    input: &mut S,
    output: &mut K,
    fetches: &mut Steps<L>,
) -> Exit
    // What is done with the input; how many slots are fetched is between bounds, since each event is walked ahead of as well.
    ensures course { TakesListing S.held S.faults K.taken K.faults
        input.old input.new output.old output.new 0 0 result cached (back_course number) }
    ensures fetched { IfSome (S.held input.old) (λ bytes.
        FetchesListed cached number fetches.old fetches.new result (listing_of Header 1 (parts_of bytes))) }
    ensures unspent { result ≡ Exit.OutOfMemory → fetches.new ≡ fetches.old }

    // Where memory is wanting, no more was taken than a listing and what came with its last line.
    ensures wanting { result ≡ Exit.OutOfMemory →
        StandsAtListing (S.held input.old) (S.held input.new) }
{
    let mut lines = LineReader::new();
    let listing = match read_head(alloc, &mut lines, input, output) {
        Ok(listing) => listing,
        Err(exit) => return exit,
    };
    let Ok(cache) = MapCache::new(alloc, listing.sizes().harts) else {
        return Exit::OutOfMemory;
    };
    let Ok(machine) = boot(alloc, &listing, cache) else {
        return Exit::OutOfMemory;
    };
    let Ok(mut reversible) = Reversible::new(alloc, machine, DEPTH) else {
        return Exit::OutOfMemory;
    };
    answer_lines(number, &mut reversible, &mut lines, input, output, fetches)
}

/// Runs the lines behind a listing, undoes their last events, and writes the state before them.
fn answer_lines<T: Translator, S: Source, K: Sink, L: Ledger>(
    number: u32,
    reversible: &mut Reversible<T>,
    lines: &mut LineReader,
    input: &mut S,
    output: &mut K,
    fetches: &mut Steps<L>,
) -> Exit
    requires reader { lines.old.failed ≡ false }
    requires told { TellsEnd lines.old (S.held input.old) }
    requires none { (history_of reversible.old).before ≡ [] }
    requires depth { reversible.old.depth ≡ DEPTH }

    ensures course { let m = reversible.old.machine in
        TakesLines S.held S.faults K.taken K.faults lines.old lines.new
        input.old input.new output.old output.new 0 0 result cached
        (λ parts. undoing number (state_of m) (scheduled m.objects.harts lines.old.number parts)) }
    ensures fetched { let m = reversible.old.machine in
        OnParts (ahead lines.old (S.held input.old)) (λ parts.
        FetchesUndoing (λ touches. spent T.cost T.after T.without (T.kept m.translator) touches)
        number (state_of m) fetches.old fetches.new result (scheduled m.objects.harts lines.old.number parts)) }
    ensures memory { result ≢ Exit.OutOfMemory }
{
    let stop = run_lines(reversible, lines, input, fetches);
    match schedule_exit(stop) {
        None => tell_undone(number, reversible, output, fetches),
        Some(exit) => conclude(exit, output),
    }
}

/// Undoes the last events, and writes how many these were and the state before them.
fn tell_undone<T: Translator, K: Sink, L: Ledger>(
    number: u32,
    reversible: &mut Reversible<T>,
    output: &mut K,
    fetches: &mut Steps<L>,
) -> Exit
    ensures ends { EndsIn K.taken K.faults output.old output.new result
        (record { text = text_of number (history_of reversible.old); exit = Exit.Done }) }
    ensures fetched { let n = min number (remembered (history_of reversible.old)) in
        let all = 16 * size_of (undos n (history_of reversible.old)).present.store.items Gpt in
        FetchesBetween all (an_undo * n) fetches.old fetches.new result }
{
    let count = undo_last(reversible, number, fetches);
    tell_state(count, reversible.machine(), output, fetches)
}
