//! Records are written before the next line is read: a source and a sink that share a count, so that the source sees
//! how many lines were told when it is asked for the next.
ghost use Rattle.std.specs.Prelude.{◌≡◌, ◌≤◌, None};
ghost use Rattle.steps.specs.Permit.{permit_for};

use crate::rows::{Calls, WHOLE, check, source_of, words_of};
use coy_io::{Failed, MemSource, Sink, Source};
use coyotos_cli::{Exit, coyotos};
use std::alloc::Global;
use std::cell::Cell;
use std::marker::Brand;
use std::process::Abort;
use std::rc::Rc;
use std::sync::ledger::Ledger;
use steps::{Permit, Steps};

/// A sink that counts the lines that it is told, and tells no bytes.
#[derive(Drop)]
struct TurnSink {
    told: Rc<Cell<u64>>,
}

impl Sink for TurnSink {
    ghost taken = { λ _. None };

    ghost faults = { λ _. 0 };

    fn put(&mut self, bytes: &[u8]) -> Result<usize, Failed> {
        self.told
            .set(self.told.get().saturating_add(lines_in(bytes)));
        Ok(bytes.len())
    }
}

/// How many of these bytes are line feeds.
fn lines_in(bytes: &[u8]) -> u64 {
    let mut lines = 0u64;
    for byte in bytes {
        if *byte == b'\n' {
            lines = lines.saturating_add(1);
        }
    }
    lines
}

/// A source that gives a line a call and tells no bytes. At each call it notes whether fewer lines were told than two
/// for each line of the schedule that it has given.
#[derive(Drop)]
struct TurnSource {
    lines: MemSource,
    told: Rc<Cell<u64>>,
    /// The number of the call that gives the first line of the schedule.
    first: u64,
    late: bool,
}

impl Source for TurnSource {
    ghost held = { λ _. None };

    ghost faults = { λ s. s.lines.faults };

    fn take(&mut self, buf: &mut [u8]) -> Result<usize, Failed> {
        let given = self
            .lines
            .calls
            .saturating_add(1)
            .saturating_sub(self.first);
        if self.told.get() < given.saturating_mul(2) {
            self.late = true;
        }
        self.lines.take(buf)
    }
}

/// A machine of four instructions, and a schedule of three lines, of which the last is refused.
const TRACED: &str = "\
coyotos 1
machine 1 2 0 1 1 0
page 0 000 93005000371100002320110083210100
gpt 0 12
slot 0 0 page:0@12/0+r
slot 0 1 page:1@12/0
process 0 00000000 gpt:0@16/0 schedule:3 null run
end
step 0 1
step 0 1
tick 9
";

/// The same over a trace of that: a step tells a fetch and an instruction.
#[test]
fn a_line_is_run_before_the_next_is_read(rt: HostRuntime) {
    let told = Rc::new(rt.alloc(), Cell::new(0u64)).expect(&rt, TRACED);
    let mut sink = TurnSink {
        told: told.clone().expect(&rt, TRACED),
    };
    let mut source = source(&rt, rt.alloc(), told);
    let words = words_of(&rt, rt.alloc(), "trace");
    let exit = run::<Brand>(rt.alloc(), words, &mut source, &mut sink, Permit::new(&rt));
    check(&rt, exit.status() == 3, "the last line is refused");
    check_ended(&rt, &source, &sink);
}

/// A source of that text by lines, which shares this count.
fn source(rt: &impl Abort, alloc: Global, told: Rc<Cell<u64>>) -> TurnSource {
    let by_line = Calls {
        by_line: true,
        ..WHOLE
    };
    TurnSource {
        lines: source_of(rt, alloc, TRACED.as_bytes(), by_line, TRACED),
        told,
        first: 9,
        late: false,
    }
}

/// Each line is asked for once, and none before the records of the line before it. Four records are told, and the
/// refusal.
fn check_ended(rt: &impl Abort, source: &TurnSource, sink: &TurnSink) {
    check(rt, source.lines.calls == 11, TRACED);
    check(rt, !source.late, TRACED);
    check(rt, sink.told.get() == 5, TRACED);
}

fn run<L: Ledger>(
    alloc: Global,
    words: Vec<String>,
    source: &mut TurnSource,
    sink: &mut TurnSink,
    permit: Permit,
) -> Exit
    requires ledger { permit ≡ permit_for L.name L.parts }
{
    let mut fetches = Steps::<L>::new(permit);
    coyotos(alloc, words.as_slice(), source, sink, &mut fetches)
}
