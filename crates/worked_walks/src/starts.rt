//! Machines of listings, their events one by one, and their states as texts.
ghost use Rattle.std.specs.Prelude.{◌≡◌, ◌<◌};
ghost use Rattle.kernel_core.specs.Machine.{hart_in};

use crate::rows::{byte, letter};
use coy_io::{LineReader, MemSink, SureSource};
use image_builder::boot;
use kernel_core::{Event, Machine};
use listing_read::{Listing, read_listing};
use run_text::dump;
use std::alloc::Global;
use std::process::Abort;
use std::sync::ledger::Ledger;
use steps::Steps;
use walk_engine::{Plain, Translator};

/// The listing of a text, which has to be accepted.
pub fn listing_of(rt: &impl Abort, alloc: Global, text: &str) -> Listing {
    let bytes = text.as_bytes().to_vec(alloc).expect(rt, text);
    let mut source = SureSource { bytes, at: 0 };
    read_listing(alloc, &mut LineReader::new(), &mut source).expect(rt, text)
}

/// The machine of a listing, at its start.
pub fn machine_of(rt: &impl Abort, alloc: Global, text: &str) -> Machine<Plain> {
    let listing = listing_of(rt, alloc, text);
    boot(alloc, &listing, Plain::new()).expect(rt, text)
}

/// The event of the words from word `n` on: `step` or `tick` and a hart.
pub fn event_at(rt: &impl Abort, row: &str, n: usize) -> Event
    requires { n < 100 }
{
    let hart = byte(rt, row, n + 1);
    if letter(row, n) == b't' {
        Event::Tick(hart)
    } else {
        Event::Step(hart)
    }
}

/// The hart of an event.
pub fn hart_of(e: Event) -> u8
    ensures { result ≡ hart_in e }
{
    match e {
        Event::Step(hart) => hart,
        Event::Tick(hart) => hart,
    }
}

/// The text of a machine's state.
pub fn state_text<T: Translator, L: Ledger>(
    rt: &impl Abort,
    alloc: Global,
    machine: &Machine<T>,
    row: &str,
    fetches: &mut Steps<L>,
) -> Vec<u8> {
    let mut output = MemSink::new(alloc, 8192, Vec::new(alloc), 8192).expect(rt, row);
    dump(machine, &mut output, fetches).expect(rt, row);
    output.bytes
}
