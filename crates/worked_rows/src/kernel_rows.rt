//! What a row of a whole machine wants of the output, and the tries of these rows.
ghost use Rattle.std.specs.Prelude.{◌≡◌};
ghost use Rattle.steps.specs.Permit.{permit_for};

use crate::kernel_table::KERNEL_ROWS;
use crate::rows::{Row, WHOLE, ask, check, row_of};
use crate::translators::{holds_plainly, holds_shared};
use crate::undone::{is_packed, is_undone};
use std::alloc::Global;
use std::marker::Brand;
use std::process::Abort;
use std::sync::ledger::Ledger;
use steps::{Permit, Steps};

/// The records and the lines of the state of an output.
#[derive(Clone, Copy)]
struct Output<'a> {
    records: &'a str,
    state: &'a str,
}

/// An output cut at the line that begins the state.
fn output_of(text: &str) -> Output<'_> {
    match text.strip_prefix("state\n") {
        Some(state) => Output { records: "", state },
        None => match text.split_once("\nstate\n") {
            Some((records, state)) => Output { records, state },
            None => Output {
                records: text,
                state: "",
            },
        },
    }
}

/// Whether a line is this form, where `..` at its end stands for zeros.
fn is_padded(line: &str, form: &str) -> bool {
    match form.strip_suffix("..") {
        Some(front) => match line.strip_prefix(front) {
            Some(rest) => rest.trim_start_matches('0').is_empty(),
            None => false,
        },
        None => line == form,
    }
}

/// Whether the line begins as the form does before its star, and ends or goes on as it does behind it.
fn is_like(line: &str, form: &str) -> bool {
    match form.split_once('*') {
        Some((head, tail)) => {
            match line.strip_prefix(head) {
                Some(rest) => match tail.strip_suffix('*') {
                    Some(part) => rest.contains(part),
                    None => rest.ends_with(tail),
                },
                None => false,
            }
        }
        None => line == form,
    }
}

/// Whether a line consists of these words or begins with them.
fn begins(line: &str, words: &str) -> bool {
    match line.strip_prefix(words) {
        Some(rest) => rest.is_empty() || rest.starts_with(' '),
        None => false,
    }
}

/// What a line may be to a form.
#[derive(Clone, Copy)]
enum Match {
    Equal,
    Padded,
    Like,
    Begins,
}

/// Whether a text has a line that is this to the form.
fn has_line(text: &str, matching: Match, form: &str) -> bool {
    for line in text.lines() {
        let matches = match matching {
            Match::Equal => line == form,
            Match::Padded => is_padded(line, form),
            Match::Like => is_like(line, form),
            Match::Begins => begins(line, form),
        };
        if matches {
            return true;
        }
    }
    false
}

/// Whether the records that are wanted, if any are, are those of the output, in their order.
fn tells(output: Output<'_>, wanted: &str) -> bool {
    let mut told = output.records.lines();
    for statement in wanted.lines() {
        if let Some(record) = statement.strip_prefix("record ") {
            if told.next() != Some(record) {
                return false;
            }
        }
    }
    count_of(wanted, "record ") == 0 || told.next().is_none()
}

/// How many lines begin with a text.
fn count_of(text: &str, front: &str) -> usize {
    let mut count: usize = 0;
    for line in text.lines() {
        if line.starts_with(front) {
            count = count.saturating_add(1);
        }
    }
    count
}

/// Whether a statement on the records of an output holds.
fn holds_of_records(output: Output<'_>, statement: &str) -> bool {
    match statement.split_once(' ') {
        Some(("records", count)) => count.parse() == Ok(count_of(output.records, "")),
        Some(("records-of", counted)) => match counted.split_once(' ') {
            Some((word, count)) => count.parse() == Ok(count_of(output.records, word)),
            None => false,
        },
        Some(("record" | "has-record", line)) => has_line(output.records, Match::Equal, line),
        _ => statement == "no-record" && output.records.is_empty(),
    }
}

/// Whether a statement on an output holds.
fn holds(output: Output<'_>, statement: &str) -> bool {
    match statement.split_once(' ') {
        Some(("show", form)) => has_line(output.state, Match::Padded, form),
        Some(("map", _)) => has_line(output.state, Match::Equal, statement),
        Some(("like", form)) => has_line(output.state, Match::Like, form),
        Some(("none", words)) => !has_line(output.state, Match::Begins, words),
        _ => holds_of_records(output, statement),
    }
}

/// Whether each statement holds of an output.
fn holds_all(output: Output<'_>, wanted: &str) -> bool {
    for statement in wanted.lines() {
        if !holds(output, statement) {
            return false;
        }
    }
    true
}

/// Whether each statement holds of an output; what follows the word `whole` is the output itself.
pub(crate) fn meets(text: &str, wanted: &str) -> bool {
    match wanted.strip_prefix("whole\n") {
        Some(whole) => text == whole,
        None => {
            let output = output_of(text);
            tells(output, wanted)
                && count_of(output.state, "map ") == count_of(wanted, "map ")
                && holds_all(output, wanted)
        }
    }
}

/// Whether what has to hold of a row's output does.
fn kernel_row_holds<L: Ledger>(
    rt: &impl Abort,
    alloc: Global,
    row: Row<'_>,
    fetches: &mut Steps<L>,
) -> bool {
    let answer = ask(rt, alloc, row.words, row.input.as_bytes(), WHOLE, fetches);
    check(rt, answer.status == row.status, row.input);
    let text = str::from_utf8(answer.text.as_slice()).expect(rt, row.input);
    meets(text, row.output)
}

/// A way to try a row of a whole machine.
#[derive(Clone, Copy)]
enum Way {
    /// Over the mapping cache.
    Cached,
    /// Over a machine that walks at each access.
    Plain,
    /// Over shared leaf tables.
    Shared,
    /// Event by event back to its start.
    Undone,
    /// Its listing by way of an image.
    Packed,
}

/// Whether a row holds in this way.
fn holds_in<L: Ledger>(
    rt: &impl Abort,
    alloc: Global,
    row: Row<'_>,
    way: Way,
    fetches: &mut Steps<L>,
) -> bool {
    match way {
        Way::Cached => kernel_row_holds(rt, alloc, row, fetches),
        Way::Plain => holds_plainly(rt, alloc, row, fetches),
        Way::Shared => holds_shared(rt, alloc, row, fetches),
        Way::Undone => is_undone(rt, alloc, row.input, fetches),
        Way::Packed => is_packed(rt, alloc, row.input, fetches),
    }
}

/// Tries each row in this way.
fn try_kernel_rows<L: Ledger>(rt: &impl Abort, alloc: Global, way: Way, permit: Permit)
    requires ledger { permit ≡ permit_for L.name L.parts }
{
    let mut fetches = Steps::<L>::new(permit);
    for block in KERNEL_ROWS.split("==\n") {
        let row = row_of(block).expect(rt, block);
        check(rt, holds_in(rt, alloc, row, way, &mut fetches), block);
    }
}

#[test]
fn kernel_rows_hold(rt: HostRuntime) {
    try_kernel_rows::<Brand>(&rt, rt.alloc(), Way::Cached, Permit::new(&rt));
}

#[test]
fn kernel_rows_hold_over_the_plain_translator(rt: HostRuntime) {
    try_kernel_rows::<Brand>(&rt, rt.alloc(), Way::Plain, Permit::new(&rt));
}

#[test]
fn kernel_rows_hold_over_shared_leaf_tables(rt: HostRuntime) {
    try_kernel_rows::<Brand>(&rt, rt.alloc(), Way::Shared, Permit::new(&rt));
}

#[test]
fn kernel_rows_are_undone_to_their_start(rt: HostRuntime) {
    try_kernel_rows::<Brand>(&rt, rt.alloc(), Way::Undone, Permit::new(&rt));
}

#[test]
fn a_packed_listing_is_unpacked_as_its_migrated_text(rt: HostRuntime) {
    try_kernel_rows::<Brand>(&rt, rt.alloc(), Way::Packed, Permit::new(&rt));
}
