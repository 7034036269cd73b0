//! What the program answers, and the rows that say what it should answer.
//!
//! Rows stand in texts, as blocks with the line `==` between two of them. A block has a line with the status and the
//! words, behind which may stand a colon and what the row shows; then the input, `=>` with a line feed, and the
//! output. Where an input or an output has no line feed at its end, `=>` or `==` stands behind its last byte.
ghost use Rattle.std.specs.Prelude.{◌≡◌};
ghost use Rattle.steps.specs.Permit.{permit_for};

use crate::command_rows::COMMAND_ROWS;
use crate::word_rows::WORD_ROWS;
use coy_io::{MemSink, MemSource};
use coyotos_cli::coyotos;
use std::alloc::Global;
use std::marker::Brand;
use std::process::Abort;
use std::sync::ledger::Ledger;
use steps::{Permit, Steps};

/// How a source and a sink in memory answer their calls.
#[derive(Clone, Copy)]
pub(crate) struct Calls {
    /// The most bytes that a call of the source moves.
    pub piece: usize,
    /// The most bytes that a call of the sink moves.
    pub put_piece: usize,
    /// Whether the source gives no byte past the next line feed.
    pub by_line: bool,
    /// The call of the source that fails, 0 where none does.
    pub failing_take: u64,
    /// The call of the sink that fails, 0 where none does.
    pub failing_put: u64,
}

/// A source and a sink that do all that a call asks for.
pub(crate) const WHOLE: Calls = Calls {
    piece: 65536,
    put_piece: 65536,
    by_line: false,
    failing_take: 0,
    failing_put: 0,
};

/// What the program writes for these words and bytes, and its status.
#[derive(Drop)]
pub(crate) struct Answer {
    pub text: Vec<u8>,
    pub status: u8,
}

/// A source of these bytes that answers its calls so, for a row.
pub(crate) fn source_of(
    rt: &impl Abort,
    alloc: Global,
    bytes: &[u8],
    calls: Calls,
    row: &str,
) -> MemSource {
    MemSource {
        bytes: bytes.to_vec(alloc).expect(rt, row),
        at: 0,
        calls: 0,
        failing: vec![in alloc; calls.failing_take].expect(rt, row),
        piece: calls.piece.max(1),
        by_line: calls.by_line,
        faults: 0,
    }
}

/// A sink that answers its calls so, for a row.
pub(crate) fn sink_of(rt: &impl Abort, alloc: Global, calls: Calls, row: &str) -> MemSink {
    let failing = vec![in alloc; calls.failing_put].expect(rt, row);
    MemSink::new(alloc, 65536, failing, calls.put_piece.max(1)).expect(rt, row)
}

/// The words of a line, one space apart.
pub(crate) fn words_of(rt: &impl Abort, alloc: Global, line: &str) -> Vec<String> {
    let mut words = Vec::new(alloc);
    for part in line.split(' ') {
        let word = part.to_string(alloc).expect(rt, line);
        words.push(word).expect(rt, line);
    }
    words
}

/// What the program answers to the words of a line, where a source of these bytes and a sink answer their calls so.
pub(crate) fn ask<L: Ledger>(
    rt: &impl Abort,
    alloc: Global,
    line: &str,
    input: &[u8],
    calls: Calls,
    fetches: &mut Steps<L>,
) -> Answer {
    let words = words_of(rt, alloc, line);
    let mut source = source_of(rt, alloc, input, calls, line);
    let mut sink = sink_of(rt, alloc, calls, line);
    let exit = coyotos(alloc, words.as_slice(), &mut source, &mut sink, fetches);
    Answer {
        text: sink.bytes,
        status: exit.status(),
    }
}

/// A row.
#[derive(Clone, Copy)]
pub(crate) struct Row<'a> {
    /// The status that is wanted.
    pub status: u8,
    pub words: &'a str,
    /// What the row shows.
    pub shows: &'a str,
    pub input: &'a str,
    /// What is wanted of the output.
    pub output: &'a str,
}

/// The row of a block.
pub(crate) fn row_of(block: &str) -> Option<Row<'_>> {
    let (head, texts) = block.split_once('\n')?;
    let (status, told) = head.split_once(' ')?;
    let (words, shows) = told.split_once(": ").unwrap_or((told, ""));
    let (input, output) = texts.split_once("=>\n")?;
    Some(Row {
        status: status.parse().ok()?,
        words,
        shows,
        input,
        output,
    })
}

/// The listing of an input, without the schedule behind it.
pub(crate) fn listing_of(input: &str) -> &str {
    match input.split_once("\nend\n") {
        Some((_, schedule)) => input.strip_suffix(schedule).unwrap_or(input),
        None => input,
    }
}

/// Fails with the row, where what it says doesn't hold.
pub(crate) fn check(rt: &impl Abort, holds: bool, row: &str) {
    assert!(rt; holds, "{row}");
}

/// The program answers what the row of a block says.
pub(crate) fn check_row<L: Ledger>(
    rt: &impl Abort,
    alloc: Global,
    block: &str,
    calls: Calls,
    fetches: &mut Steps<L>,
) {
    let row = row_of(block).expect(rt, block);
    let answer = ask(rt, alloc, row.words, row.input.as_bytes(), calls, fetches);
    check(rt, answer.status == row.status, block);
    check(rt, answer.text.as_slice() == row.output.as_bytes(), block);
}

/// Tries each row of a text.
fn try_rows<L: Ledger>(
    rt: &impl Abort,
    alloc: Global,
    rows: &str,
    calls: Calls,
    fetches: &mut Steps<L>,
) {
    for block in rows.split("==\n") {
        check_row(rt, alloc, block, calls, fetches);
    }
}

/// Tries the rows in pieces of several sizes.
fn try_in_pieces<L: Ledger>(rt: &impl Abort, alloc: Global, permit: Permit)
    requires ledger { permit ≡ permit_for L.name L.parts }
{
    let mut fetches = Steps::<L>::new(permit);
    for piece in [1, 7, 513, 65536] {
        let calls = Calls {
            piece,
            put_piece: piece,
            ..WHOLE
        };
        try_rows(rt, alloc, WORD_ROWS, calls, &mut fetches);
        try_rows(rt, alloc, COMMAND_ROWS, calls, &mut fetches);
    }
}

#[test]
fn rows_give_what_is_written_down_for_them(rt: HostRuntime) {
    try_in_pieces::<Brand>(&rt, rt.alloc(), Permit::new(&rt));
}
