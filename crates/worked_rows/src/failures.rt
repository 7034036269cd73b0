//! What stands where a call of the source or of the sink fails, in a short run and in a long one, and what is told of
//! an input that is too long.
ghost use Rattle.std.specs.Prelude.{◌≡◌};
ghost use Rattle.steps.specs.Permit.{permit_for};

use crate::kernel_table::KERNEL_ROWS;
use crate::rows::{Answer, Calls, WHOLE, ask, check, check_row, listing_of, row_of};
use std::alloc::Global;
use std::marker::Brand;
use std::process::Abort;
use std::sync::ledger::Ledger;
use steps::{Permit, Steps};

/// Rows of calls that fail, one by one. Behind the colon stand the number of the call of the source that fails and of
/// that of the sink, 0 where none does. The output is exactly what stands then, worked out by hand. By line, the
/// source gives line n in its call n, and the lines of an event are told to the sink by one call. A call behind the line
/// that is refused is not made, so its failing shows nowhere.
const FAILING_ROWS: &str = "\
5 trace: 0 2
coyotos 1
machine 1 2 0 1 1 0
page 0 000 93005000371100002320110083210100
gpt 0 12
slot 0 0 page:0@12/0+r
slot 0 1 page:1@12/0
process 0 00000000 gpt:0@16/0 schedule:3 null run
end
step 0 1
step 0 1
tick 9
=>
fetch 0 00000000 page 0
insn 0 00000000 addi x1 x0 5
==
5 trace: 0 3
coyotos 1
machine 1 2 0 1 1 0
page 0 000 93005000371100002320110083210100
gpt 0 12
slot 0 0 page:0@12/0+r
slot 0 1 page:1@12/0
process 0 00000000 gpt:0@16/0 schedule:3 null run
end
step 0 1
step 0 1
tick 9
=>
fetch 0 00000000 page 0
insn 0 00000000 addi x1 x0 5
fetch 0 00000004 page 0
insn 0 00000004 lui x2 1
==
4 trace: 10 0
coyotos 1
machine 1 2 0 1 1 0
page 0 000 93005000371100002320110083210100
gpt 0 12
slot 0 0 page:0@12/0+r
slot 0 1 page:1@12/0
process 0 00000000 gpt:0@16/0 schedule:3 null run
end
step 0 1
step 0 1
tick 9
=>
fetch 0 00000000 page 0
insn 0 00000000 addi x1 x0 5
==
4 trace: 11 0
coyotos 1
machine 1 2 0 1 1 0
page 0 000 93005000371100002320110083210100
gpt 0 12
slot 0 0 page:0@12/0+r
slot 0 1 page:1@12/0
process 0 00000000 gpt:0@16/0 schedule:3 null run
end
step 0 1
step 0 1
tick 9
=>
fetch 0 00000000 page 0
insn 0 00000000 addi x1 x0 5
fetch 0 00000004 page 0
insn 0 00000004 lui x2 1
==
3 trace: 12 0
coyotos 1
machine 1 2 0 1 1 0
page 0 000 93005000371100002320110083210100
gpt 0 12
slot 0 0 page:0@12/0+r
slot 0 1 page:1@12/0
process 0 00000000 gpt:0@16/0 schedule:3 null run
end
step 0 1
step 0 1
tick 9
=>
fetch 0 00000000 page 0
insn 0 00000000 addi x1 x0 5
fetch 0 00000004 page 0
insn 0 00000004 lui x2 1
refused 11 NoHart
==
4 trace: 1 0
coyotos 1
machine 1 2 0 1 1 0
page 0 000 93005000371100002320110083210100
gpt 0 12
slot 0 0 page:0@12/0+r
slot 0 1 page:1@12/0
process 0 00000000 gpt:0@16/0 schedule:3 null run
end
step 0 1
step 0 1
tick 9
=>
==
4 migrate: 8 0
coyotos 1
machine 1 2 0 1 1 0
page 0 000 93005000371100002320110083210100
gpt 0 12
slot 0 0 page:0@12/0+r
slot 0 1 page:1@12/0
process 0 00000000 gpt:0@16/0 schedule:3 null run
end
step 0 4
=>
==
4 migrate: 9 0
coyotos 1
machine 1 2 0 1 1 0
page 0 000 93005000371100002320110083210100
gpt 0 12
slot 0 0 page:0@12/0+r
slot 0 1 page:1@12/0
process 0 00000000 gpt:0@16/0 schedule:3 null run
end
step 0 4
=>
coyotos 2
machine 1 2 0 1 1 0
page 0 000 93005000371100002320110083210100
gpt 0 12
slot 0 0 page:0@12/00000+r
slot 0 1 page:1@12/00000
process 0 00000000 gpt:0@16/00000 schedule:3 null run
end
==
5 migrate: 0 3
coyotos 1
machine 1 2 0 1 1 0
page 0 000 93005000371100002320110083210100
gpt 0 12
slot 0 0 page:0@12/0+r
slot 0 1 page:1@12/0
process 0 00000000 gpt:0@16/0 schedule:3 null run
end
step 0 4
=>
coyotos 2
machine 1 2 0 1 1 0
==
5 migrate: 0 9
coyotos 1
machine 1 2 0 1 1 0
page 0 000 93005000371100002320110083210100
gpt 0 12
slot 0 0 page:0@12/0+r
slot 0 1 page:1@12/0
process 0 00000000 gpt:0@16/0 schedule:3 null run
end
step 0 4
=>
coyotos 2
machine 1 2 0 1 1 0
page 0 000 93005000371100002320110083210100
gpt 0 12
slot 0 0 page:0@12/00000+r
slot 0 1 page:1@12/00000
process 0 00000000 gpt:0@16/00000 schedule:3 null run
end
==
4 confine: 9 0
coyotos 1
machine 1 2 0 1 1 0
page 0 000 93005000371100002320110083210100
gpt 0 12
slot 0 0 page:0@12/0+r
slot 0 1 page:1@12/0
process 0 00000000 gpt:0@16/0 schedule:3 null run
end
step 0 4
=>
==
4 back 2: 9 0
coyotos 1
machine 1 2 0 1 1 0
page 0 000 93005000371100002320110083210100
gpt 0 12
slot 0 0 page:0@12/0+r
slot 0 1 page:1@12/0
process 0 00000000 gpt:0@16/0 schedule:3 null run
end
step 0 4
=>
==
5 back 2: 0 2
coyotos 1
machine 1 2 0 1 1 0
page 0 000 93005000371100002320110083210100
gpt 0 12
slot 0 0 page:0@12/0+r
slot 0 1 page:1@12/0
process 0 00000000 gpt:0@16/0 schedule:3 null run
end
step 0 4
=>
back 2
";

/// Exactly what a row of calls that fail says stands.
fn try_failing_row<L: Ledger>(rt: &impl Abort, alloc: Global, block: &str, fetches: &mut Steps<L>) {
    let row = row_of(block).expect(rt, block);
    let (take, put) = row.shows.split_once(' ').expect(rt, block);
    let calls = Calls {
        by_line: true,
        failing_take: take.parse().expect(rt, block),
        failing_put: put.parse().expect(rt, block),
        ..WHOLE
    };
    check_row(rt, alloc, block, calls, fetches);
}

/// Tries the rows of calls that fail.
fn try_failing_rows<L: Ledger>(rt: &impl Abort, alloc: Global, permit: Permit)
    requires ledger { permit ≡ permit_for L.name L.parts }
{
    let mut fetches = Steps::<L>::new(permit);
    for block in FAILING_ROWS.split("==\n") {
        try_failing_row(rt, alloc, block, &mut fetches);
    }
}

#[test]
fn a_failing_call_leaves_a_front_of_the_text(rt: HostRuntime) {
    try_failing_rows::<Brand>(&rt, rt.alloc(), Permit::new(&rt));
}

/// What is told where the run of the first row of the kernel isn't as it should be.
const PAGER: &str = "the pager";

/// What the program answers to the first row of the kernel: a pager, a server, a client and a logger.
fn run_pager<L: Ledger>(
    rt: &impl Abort,
    alloc: Global,
    calls: Calls,
    fetches: &mut Steps<L>,
) -> Answer {
    let row = row_of(KERNEL_ROWS).expect(rt, PAGER);
    ask(rt, alloc, row.words, row.input.as_bytes(), calls, fetches)
}

/// Whether an answer with this status has so many lines of a text, whole ones, and nothing behind them.
fn has_front(answer: &Answer, status: u8, whole: &str, lines: usize) -> bool {
    let told = str::from_utf8(answer.text.as_slice()).unwrap_or("none");
    answer.status == status
        && whole.starts_with(told)
        && told.lines().count() == lines
        && (lines == 0 || told.ends_with('\n'))
}

/// Where a call of the sink fails, the lines before it stand: each of the first forty lines is the only one of its event,
/// and has a call.
fn try_failing_puts<L: Ledger>(
    rt: &impl Abort,
    alloc: Global,
    whole: &str,
    fetches: &mut Steps<L>,
) {
    for lines in 0..40 {
        let calls = Calls {
            failing_put: lines + 1,
            ..WHOLE
        };
        let answer = run_pager(rt, alloc, calls, fetches);
        check(rt, has_front(&answer, 5, whole, lines as usize), whole);
    }
}

/// Where a call of the source fails, nothing is run of the line that it would have given: of 65 lines the last is the
/// only one that runs anything, and the 66th call would tell the end. The run has 202 records.
fn try_failing_takes<L: Ledger>(
    rt: &impl Abort,
    alloc: Global,
    whole: &str,
    fetches: &mut Steps<L>,
) {
    for failing_take in [1, 2, 40, 65, 66] {
        let calls = Calls {
            by_line: true,
            failing_take,
            ..WHOLE
        };
        let lines = if failing_take == 66 { 202 } else { 0 };
        let answer = run_pager(rt, alloc, calls, fetches);
        check(rt, has_front(&answer, 4, whole, lines), whole);
    }
}

/// However many bytes a call moves, the text is the same.
fn try_small_pieces<L: Ledger>(
    rt: &impl Abort,
    alloc: Global,
    whole: &str,
    fetches: &mut Steps<L>,
) {
    for piece in [1, 7, 513] {
        let calls = Calls {
            piece,
            put_piece: 1,
            ..WHOLE
        };
        let answer = run_pager(rt, alloc, calls, fetches);
        check(rt, answer.status == 0, whole);
        check(rt, answer.text.as_slice() == whole.as_bytes(), whole);
    }
}

/// Tries the long run.
fn try_pager<L: Ledger>(rt: &impl Abort, alloc: Global, permit: Permit)
    requires ledger { permit ≡ permit_for L.name L.parts }
{
    let mut fetches = Steps::<L>::new(permit);
    let answer = run_pager(rt, alloc, WHOLE, &mut fetches);
    check(rt, answer.status == 0, PAGER);
    let whole = str::from_utf8(answer.text.as_slice()).expect(rt, PAGER);
    try_failing_puts(rt, alloc, whole, &mut fetches);
    try_failing_takes(rt, alloc, whole, &mut fetches);
    try_small_pieces(rt, alloc, whole, &mut fetches);
}

#[test]
fn a_long_run_tells_its_lines_up_to_the_call_that_fails(rt: HostRuntime) {
    try_pager::<Brand>(&rt, rt.alloc(), Permit::new(&rt));
}

/// Lines of notes, 32 of two bytes.
const NOTES: &str =
    "#\n#\n#\n#\n#\n#\n#\n#\n#\n#\n#\n#\n#\n#\n#\n#\n#\n#\n#\n#\n#\n#\n#\n#\n#\n#\n#\n#\n#\n#\n#\n#\n";

/// A listing with a line more behind it than an input may have bytes for.
fn long_input(rt: &impl Abort, alloc: Global) -> String {
    let row = row_of(FAILING_ROWS).expect(rt, NOTES);
    let mut input = listing_of(row.input).to_string(alloc).expect(rt, NOTES);
    for _ in 0..262_144 {
        input.push_str(NOTES).expect(rt, NOTES);
    }
    input
}

/// The program says so behind all that came before, which is nothing.
fn run_too_long<L: Ledger>(rt: &impl Abort, alloc: Global, permit: Permit)
    requires ledger { permit ≡ permit_for L.name L.parts }
{
    let mut fetches = Steps::<L>::new(permit);
    let input = long_input(rt, alloc);
    let answer = ask(rt, alloc, "run", input.as_bytes(), WHOLE, &mut fetches);
    check(
        rt,
        answer.text.as_slice() == b"too long\n".as_slice(),
        NOTES,
    );
    check(rt, answer.status == 7, NOTES);
}

#[test]
fn an_input_that_is_too_long_is_told(rt: HostRuntime) {
    run_too_long::<Brand>(&rt, rt.alloc(), Permit::new(&rt));
}
