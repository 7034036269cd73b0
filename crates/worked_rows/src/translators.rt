//! The rows of machines that run, over the two translators that `run` doesn't use: the one that keeps nothing, and
//! shared leaf tables. Their output is the same as over the mapping cache.
ghost use Rattle.std.specs.Prelude.{◌≡◌, ◌≤◌, false};

use crate::kernel_rows::meets;
use crate::rows::{Row, WHOLE, check, sink_of, source_of};
use coy_io::{LineReader, MemSink, MemSource};
use coyotos_cli::{Mode, Replayed, replay};
use image_builder::boot;
use kept_pages::PageTranslator;
use kernel_core::Machine;
use listing_read::read_listing;
use run_text::dump;
use shared_leaves::SharedLeaves;
use std::alloc::Global;
use std::process::Abort;
use std::sync::ledger::Ledger;
use steps::Steps;
use walk_engine::Plain;

/// Writes what comes of the lines behind a listing on its machine: the records, and the last state. It tells whether all
/// lines were run and all was written.
fn run_on<T: PageTranslator, L: Ledger>(
    machine: &mut Machine<T>,
    lines: &mut LineReader,
    source: &mut MemSource,
    mode: Mode,
    output: &mut MemSink,
    fetches: &mut Steps<L>,
) -> bool
    requires reader { lines.old.failed ≡ false }
{
    let ended = replay(machine, lines, source, mode, output, fetches);
    matches!(ended, Replayed::Ended(_)) && dump(machine, output, fetches).is_ok()
}

/// What is written of the row's input over a machine with this translator.
fn run_listing<T: PageTranslator, L: Ledger>(
    rt: &impl Abort,
    alloc: Global,
    row: Row<'_>,
    mode: Mode,
    translator: T,
    fetches: &mut Steps<L>,
) -> Vec<u8>
    requires fresh { T.fresh translator }
    requires harts { 8 ≤ T.harts translator }
{
    let mut source = source_of(rt, alloc, row.input.as_bytes(), WHOLE, row.input);
    let mut lines = LineReader::new();
    let listing = read_listing(alloc, &mut lines, &mut source).expect(rt, row.input);
    prove!(listing.sizes().harts <= 8);
    let mut machine = boot(alloc, &listing, translator).expect(rt, row.input);
    let mut output = sink_of(rt, alloc, WHOLE, row.input);
    let ran = run_on(
        &mut machine,
        &mut lines,
        &mut source,
        mode,
        &mut output,
        fetches,
    );
    check(rt, ran, row.input);
    output.bytes
}

/// Whether what has to hold of a row's output does over a machine with this translator.
fn holds_over<T: PageTranslator, L: Ledger>(
    rt: &impl Abort,
    alloc: Global,
    row: Row<'_>,
    mode: Mode,
    translator: T,
    fetches: &mut Steps<L>,
) -> bool
    requires fresh { T.fresh translator }
    requires harts { 8 ≤ T.harts translator }
{
    let bytes = run_listing(rt, alloc, row, mode, translator, fetches);
    let text = str::from_utf8(bytes.as_slice()).expect(rt, row.input);
    meets(text, row.output)
}

/// Which records a word asks for, where it is one that writes records and the last state.
fn mode_of(word: &str) -> Option<Mode> {
    match word {
        "run" => Some(Mode::Records),
        "trace" => Some(Mode::Trace),
        _ => None,
    }
}

/// Whether what has to hold of the output of a row that runs does over a machine that walks at each access.
pub(crate) fn holds_plainly<L: Ledger>(
    rt: &impl Abort,
    alloc: Global,
    row: Row<'_>,
    fetches: &mut Steps<L>,
) -> bool {
    match mode_of(row.words) {
        Some(mode) => holds_over(rt, alloc, row, mode, Plain::new(), fetches),
        None => true,
    }
}

/// The same over shared leaf tables.
pub(crate) fn holds_shared<L: Ledger>(
    rt: &impl Abort,
    alloc: Global,
    row: Row<'_>,
    fetches: &mut Steps<L>,
) -> bool {
    match mode_of(row.words) {
        Some(mode) => {
            let leaves = SharedLeaves::new(alloc, 8).expect(rt, row.input);
            holds_over(rt, alloc, row, mode, leaves, fetches)
        }
        None => true,
    }
}
