//! Lines of listings and schedules with what they say, worked out by hand from their grammar.
use crate::rows::{barred, check, check_text, hex, joined, source_of};
use bitflags::Flags;
use cap_format::Cap;
use coy_io::{INPUT_LIMIT, LineReader, Source, SureSource};
use listing_read::{ListingFault, Statement, Timed, read_event, read_listing};
use rv32_decode::Insn;
use std::alloc::Global;
use std::process::Abort;

/// The line and the fault for which a listing is refused, or why it is not read, or `-` where it is read.
fn judged<S: Source>(rt: &impl Abort, alloc: Global, source: &mut S, row: &str) -> String {
    let told = match read_listing(alloc, &mut LineReader::new(), source) {
        Ok(_) => "-".to_string(alloc),
        Err(ListingFault::Refused { line, fault }) => format!(in alloc; "{line} {fault:?}"),
        Err(fault) => format!(in alloc; "{fault:?}"),
    };
    told.expect(rt, row)
}

/// Judges a listing of three parts, in pieces of 7 bytes.
fn judge(rt: &impl Abort, alloc: Global, front: &str, line: &str, back: &str, wanted: &str) {
    let mut source = source_of(alloc, joined(rt, alloc, front, line, back), 7);
    let told = judged(rt, alloc, &mut source, line);
    check_text(rt, told.as_bytes(), wanted, line);
}

/// Judges the line of each row between these texts as the row says.
fn judge_all(rt: &impl Abort, alloc: Global, front: &str, rows: &str, back: &str) {
    for row in rows.lines() {
        let (wanted, line) = barred(rt, row);
        judge(rt, alloc, front, line, back, wanted);
    }
}

/// A machine with two of everything.
const TWO: &str = "coyotos 1\nmachine 2 2 2 2 2 2\n";

/// The line and the fault for which a listing is refused, or `-` where it isn't, and its third line in bars.
const LINES: &str = "\
- ||
- |  # page|
3 UnknownStatement |stop|
3 UnknownStatement |Page 0 0 00|
3 WrongWords |end 1|
3 BadByte |reg\t0 1 0|
3 BadByte |# \x7f|
- |# ~|
- |page 1 fff 00|
- |page 1 ffe 0000|
3 BadValue |page 1 fff 0000|
3 BadValue |page 1 1000 00|
3 NoObject |page 2 000 00|
3 BadNumber |page -1 000 00|
3 NoObject |page 2 xyz 0|
3 BadNumber |page 0 xyz 0|
3 BadHex |page 0 0 0|
3 BadHex |page 0 0 000|
3 BadHex |page 0 0 0g|
3 BadHex |page 0 fff 0g0g|
3 WrongWords |page 0 000|
3 WrongWords |page x 000|
3 WrongWords |page 0 000 00 00|
- |code 1 ffc ecall|
3 BadValue |code 1 1000 ecall|
3 BadValue |code 1 ffe ecall|
3 NoObject |code 2 ffc ecall|
- |code 1 000 addi x1 x0 2047|
3 BadInstruction |code 1 000 addi x1 x0 2048|
3 BadInstruction |code 1 000 nop|
3 WrongWords |code 1 000|
- |cap 1 255 null|
3 BadValue |cap 1 256 null|
3 NoObject |cap 2 256 nul|
- |gpt 1 12|
- |gpt 1 31 ha bg|
- |gpt 1 12 bg|
3 BadValue |gpt 1 11|
3 BadValue |gpt 1 32|
3 BadValue |gpt 1 12 bg ha|
3 BadValue |gpt 1 12 ha ha|
3 BadValue |gpt 1 12 hb|
3 WrongWords |gpt 1|
3 WrongWords |gpt 1 12 ha bg ha|
- |slot 1 15 null|
3 BadValue |slot 1 16 null|
- |endpoint 1 process:1 0 ffffffff match|
- |endpoint 1 null 0 0 plain|
3 BadValue |endpoint 1 range 0 0 plain|
3 NoObject |endpoint 1 process:2 0 0 plain|
3 BadGuard |endpoint 1 page:0@11/0 0 0 plain|
3 BadNumber |endpoint 1 null 100000000 0 plain|
3 BadNumber |endpoint 1 null 0 g plain|
3 BadValue |endpoint 1 null 0 0 Plain|
3 WrongWords |endpoint 1 null 0 0|
- |process 1 fffffffc null null null run|
- |process 1 0 range sysctl kernlog stop|
3 BadValue |process 1 2 null null null run|
3 BadValue |process 1 0 null null null halt|
3 BadCap |process 1 0 null nul page:2@12/0 run|
- |reg 1 1 ffffffff|
- |reg 1 31 0|
3 BadValue |reg 1 0 0|
3 BadValue |reg 1 32 0|
3 BadNumber |reg 1 1 #|
3 WrongWords |reg 1 1 0 #|
- |capreg 1 31 null|
3 BadValue |capreg 1 0 null|
- |count page 1 1048575|
3 BadValue |count page 1 1048576|
3 NoObject |count endpoint 2 0|
3 BadValue |count entry 0 0|";

/// The same machine in version 2, of whose pages the second has a name.
const NAMED: &str = "coyotos 2\nmachine 2 2 2 2 2 2\nname code page 1\n";

/// The same of its fourth line.
const NAMED_LINES: &str = "\
- |name data page 0|
4 NameTaken |name code gpt 0|
4 NameTaken |name code entry 9|
4 BadName |name Code page 0|
4 BadName |name 1st page 0|
- |name abcdefghijklmn_9 page 0|
4 BadName |name abcdefghijklmn_90 page 0|
4 BadValue |name data entry 0|
4 NoObject |name data page 2|
4 BadNumber |name data page $code|
4 WrongWords |name data page|
- |page $code 000 00|
4 BadName |page $ 000 00|
4 NameUnknown |page $data 000 0|
4 NameUnknown |gpt $code 12|
- |count page $code 1|
- |cap 0 0 page:$code@12/0|
4 BadGuard |cap 0 0 page:$code@11/0|
4 NameUnknown |cap 0 0 page:$data@11/0|
4 NameUnknown |cap 0 0 gpt:$code@16/0|
4 BadCap |cap 0 0 page:$data@12|
4 BadCap |cap 0 0 page:$@12/0|
- |region 0 0 2 0|
- |region 1 15 1 $code rx|
4 NoObject |region 2 0 1 0|
4 BadValue |region 0 16 1 0|
4 BadValue |region 0 0 0 0|
4 BadValue |region 0 14 3 0|
4 NoObject |region 0 0 3 0|
4 NoObject |region 0 0 2 $code|
4 BadValue |region 0 0 1 0 xr|
4 WrongWords |region 0 0 1 0 r x|";

/// The same of a third line in version 1.
const EARLIER_LINES: &str = "\
3 UnknownStatement |name data page 0|
3 UnknownStatement |region 0 0 1 0|
3 BadNumber |page $code 000 00|
3 BadCap |cap 0 0 page:$code@12/0|";

/// The front of a line that ends in a capability word, on a machine with two of everything.
const SLOT: &str = "coyotos 1\nmachine 2 2 2 2 2 2\ncap 0 0 ";

/// The same of a third line that ends in this word, where the listing ends behind it.
const WORDS: &str = "\
4 NoEnd |discrim|
3 BadCap |Null|
3 BadCap |null:|
4 NoEnd |schedule:7|
3 BadCap |schedule:8|
4 NoEnd |endpoint:1|
3 NoObject |endpoint:2|
3 NoObject |process:4294967295|
3 BadCap |process:4294967296|
4 NoEnd |entry:1:ffffffff|
3 NoObject |entry:2:0|
3 BadCap |entry:1:100000000|
3 BadCap |entry:1|
3 BadCap |page:1|
3 BadCap |page:2@11|
3 NoObject |page:2@11/0|
3 BadGuard |page:1@11/0|
4 NoEnd |page:1@12/fffff|
3 BadGuard |page:1@12/100000|
4 NoEnd |page:1@32/0|
3 BadGuard |page:1@32/1|
3 BadGuard |page:1@33/0|
3 BadGuard |page:0@4294967295/0|
3 BadCap |page:0@4294967296/0|
4 NoEnd |cappage:1@12/0+o|
4 NoEnd |gpt:1@16/0+rxwon|
3 BadCap |gpt:1@16/0+xr|
3 BadCap |gpt:1@16/0+rr|
3 BadCap |gpt:1@16/0+|
4 NoEnd |window:ffffe000@13/0|
3 BadGuard |window:fffff000@13/0|
4 NoEnd |window:0@32/0|
3 BadGuard |window:80000000@32/0|
4 NoEnd |local:15:0@12/0|
3 BadCap |local:16:0@12/0|
3 BadGuard |local:1:800@12/0|";

#[test]
fn a_line_is_refused_for_its_first_fault(rt: HostRuntime) {
    let (rt, alloc) = (&rt, rt.alloc());
    judge_all(rt, alloc, TWO, LINES, "\nend\nany\n");
    judge_all(rt, alloc, NAMED, NAMED_LINES, "\nend\nany\n");
    judge_all(rt, alloc, TWO, EARLIER_LINES, "\nend\n");
    judge_all(rt, alloc, SLOT, WORDS, "");
}

/// Listings, each behind the line and the fault for which it is refused. A line of three signs stands between two of
/// them, and the line feed in front of it is of neither.
const LISTINGS: &str = "\
1 BadHeader

===
3 BadHeader

# coyotos 1

===
1 BadHeader
coyotos 3

===
1 BadHeader
coyotos 1 1

===
3 BadMachine

 coyotos  1\x20
===
3 NoEnd
coyotos 1
machine 8 4096 256 1024 256 1024
===
2 BadMachine
coyotos 1
machine 0 0 0 0 0 0

===
2 BadMachine
coyotos 1
machine 9 0 0 0 0 0

===
2 BadMachine
coyotos 1
machine 1 4097 0 0 0 0

===
2 BadMachine
coyotos 1
machine 1 0 257 0 0 0

===
2 BadMachine
coyotos 1
machine 1 0 0 1025 0 0

===
2 BadMachine
coyotos 1
machine 1 0 0 0 257 0

===
2 BadMachine
coyotos 1
machine 1 0 0 0 0 1025

===
2 BadMachine
coyotos 1
machine 1 0 0 0 0

===
2 BadMachine
coyotos 1
end

===
5 UnknownStatement
coyotos 1
machine 1 0 0 0 0 0

#
stop
reg 0 1
end
";

#[test]
fn a_listing_is_refused_at_its_first_line_with_a_fault(rt: HostRuntime) {
    for block in LISTINGS.split("\n===\n") {
        let (wanted, listing) = block.split_once('\n').expect(&rt, block);
        judge(&rt, rt.alloc(), "", listing, "", wanted);
    }
}

/// Judges a listing whose third line ends in so many zeros.
fn judge_zeros(rt: &impl Abort, alloc: Global, front: &str, count: usize, wanted: &str) {
    let mut line = front.to_string(alloc).expect(rt, front);
    let zeros = "0".repeat(alloc, count).expect(rt, front);
    line.push_str(zeros.as_str()).expect(rt, front);
    judge(rt, alloc, TWO, line.as_str(), "\nend", wanted);
}

#[test]
fn a_long_line_or_a_long_page_row_is_refused(rt: HostRuntime) {
    let (rt, alloc) = (&rt, rt.alloc());
    judge_zeros(rt, alloc, "page 0 f80 ", 128, "-");
    judge_zeros(rt, alloc, "page 0 f80 ", 127, "3 BadHex");
    judge_zeros(rt, alloc, "page 0 f80 ", 130, "3 BadHex");
    judge_zeros(rt, alloc, "#", 511, "-");
    judge_zeros(rt, alloc, "#", 512, "3 LineTooLong");
    judge_zeros(rt, alloc, "\t", 512, "3 LineTooLong");
}

/// The kind and the restrictions of a capability, as they stand in its first number.
fn cap_word(cap: Cap) -> u32 {
    u32::from(cap.kind().number()) | u32::from(cap.restr().bits()) << 6
}

/// What a statement assigns, in the order of its line; last the object of a recipient, or the handler of a process.
fn values_of(statement: &Statement) -> [u32; 7] {
    match statement {
        Statement::Page { number, at, bytes } => {
            let [first, second, ..] = bytes.as_slice() else {
                return [0, *number as u32, *at as u32, 0, 0, 0, 0];
            };
            [
                0,
                *number as u32,
                *at as u32,
                bytes.as_slice().len() as u32,
                *first as u32,
                *second as u32,
                0,
            ]
        }
        Statement::Code { number, at, insn } => [
            1,
            *number as u32,
            *at as u32,
            u32::from(matches!(*insn, Insn::Lui { rd: 5, imm: 1 })),
            0,
            0,
            0,
        ],
        Statement::CapSlot { number, slot, cap } => {
            [
                2,
                *number as u32,
                *slot as u32,
                cap_word(*cap),
                cap.object(),
                cap.payload(),
                0,
            ]
        }
        Statement::Gpt { number, header } => {
            [
                3,
                *number as u32,
                header.l2v() as u32,
                header.ha() as u32,
                header.bg() as u32,
                0,
                0,
            ]
        }
        Statement::GptSlot { number, slot, cap } => {
            [
                4,
                *number as u32,
                *slot as u32,
                cap_word(*cap),
                cap.object(),
                cap.slot() as u32,
                0,
            ]
        }
        Statement::Endpoint {
            number,
            recipient,
            id,
            payload,
            matching,
        } => {
            [
                5,
                *number as u32,
                cap_word(*recipient),
                *id,
                *payload,
                *matching as u32,
                recipient.object(),
            ]
        }
        Statement::Process {
            number,
            pc,
            space,
            schedule,
            handler,
            runs,
        } => {
            [
                6,
                *number as u32,
                *pc,
                cap_word(*space),
                schedule.object(),
                *runs as u32,
                cap_word(*handler),
            ]
        }
        Statement::Reg {
            number,
            index,
            value,
        } => [7, *number as u32, *index as u32, *value, 0, 0, 0],
        Statement::CapReg { number, index, cap } => {
            [
                8,
                *number as u32,
                *index as u32,
                cap_word(*cap),
                cap.guard().l2g() as u32,
                cap.guard().matches(),
                0,
            ]
        }
        Statement::Count {
            kind,
            number,
            count,
        } => [9, kind.number() as u32, *number as u32, *count, 0, 0, 0],
        Statement::Region {
            gpt,
            slot,
            count,
            page,
            restr,
        } => [
            10,
            *gpt as u32,
            *slot as u32,
            *count as u32,
            *page as u32,
            restr.bits() as u32,
            0,
        ],
    }
}

/// Which statement a line is and what it assigns, and the line in bars.
const VALUES: &str = "\
0 1 ffe 2 a ff 0 |page 1 ffe 0aFf|
1 1 ffc 1 0 0 0 |code 1 ffc lui x5 1|
2 1 ff 7 1 deadbeef 0 |cap 1 255 entry:1:DEADbeef|
3 1 1f 1 0 0 0 |gpt 1 31 ha|
3 1 c 0 1 0 0 |gpt 01 012 bg|
4 1 f 445 5000 3 0 |slot 1 15 local:3:5000@12/0+rn|
5 1 8 1 2 1 1 |endpoint 1 process:1 1 2 match|
6 1 10 203 6 0 a |process 1 10 gpt:1@16/0+o schedule:6 range stop|
7 1 1f 10 0 0 0 |reg 1 31 10|
8 1 1 181 d 7ffff 0 |capreg 1 1 page:1@13/7FFFF+xw|
9 6 1 a 0 0 0 |count endpoint 1 10|";

/// The statement has the values of the row.
fn check_values(rt: &impl Abort, statement: &Statement, row: &str) {
    let values = values_of(statement);
    for (n, value) in values.iter().enumerate() {
        check(rt, *value == hex(rt, row, n), row);
    }
}

/// The listing with the row's line is read, and has one statement, with the row's values.
fn check_statement(rt: &impl Abort, alloc: Global, row: &str) {
    let (_, line) = barred(rt, row);
    let mut source = source_of(alloc, joined(rt, alloc, TWO, line, "\nend\n"), 7);
    let mut lines = LineReader::new();
    let listing = read_listing(alloc, &mut lines, &mut source).expect(rt, row);
    check(rt, lines.number() == 4, row);
    check(rt, listing.sizes().harts == 2, row);
    let [statement] = listing.statements() else {
        panic!(rt; "{row}")
    };
    check_values(rt, statement, row);
}

#[test]
fn a_statement_has_the_values_of_its_line(rt: HostRuntime) {
    for row in VALUES.lines() {
        check_statement(&rt, rt.alloc(), row);
    }
}

/// What a line asks for on a machine with two harts, its fault, or `-` where it is skipped, and the line in bars.
const EVENTS: &str = "\
- ||
- | # step|
step 1 1000000 |step 1 1000000|
step 0 1 |step 0 1|
BadRepeat |step 0 0|
BadRepeat |step 0 1000001|
NoHart |step 2 x|
BadNumber |step x 0|
WrongWords |step 0|
tick 1 | tick  1 |
NoHart |tick 2|
WrongWords |tick 0 1|
round 1 |round 1|
BadRepeat |round 0|
BadNumber |round 0xa|
UnknownEvent |end|
BadByte |tick\t0|";

/// What a line asks for, or its fault, in words.
fn check_asked(rt: &impl Abort, alloc: Global, line: &str, wanted: &str) {
    let told = match read_event(line.as_bytes(), 2) {
        Ok(None) => "-".to_string(alloc),
        Ok(Some(Timed::Step { hart, times })) => format!(in alloc; "step {hart} {times}"),
        Ok(Some(Timed::Tick { hart })) => format!(in alloc; "tick {hart}"),
        Ok(Some(Timed::Round { times })) => format!(in alloc; "round {times}"),
        Err(fault) => format!(in alloc; "{fault:?}"),
    };
    check_text(rt, told.expect(rt, line).as_bytes(), wanted, line);
}

#[test]
fn a_line_of_a_schedule_asks_for_events(rt: HostRuntime) {
    for row in EVENTS.lines() {
        let (wanted, line) = barred(&rt, row);
        check_asked(&rt, rt.alloc(), line, wanted);
    }
}

#[test]
fn a_line_of_a_schedule_has_512_bytes_at_most(rt: HostRuntime) {
    let (rt, alloc) = (&rt, rt.alloc());
    let most = "-";
    let mut spaces = " ".repeat(alloc, 512).expect(rt, most);
    check_asked(rt, alloc, spaces.as_str(), most);
    spaces.push(' ').expect(rt, most);
    check_asked(rt, alloc, spaces.as_str(), "LineTooLong");
}

/// A comment with 64 bytes.
const COMMENT: &str = "\
###############################################################\n";

/// Judges a listing with this end, which has as many bytes as there may be, where its last line alone is the end.
fn judge_long(rt: &impl Abort, alloc: Global, back: &str, wanted: &str) {
    let front = "coyotos 1\nmachine 1 0 0 0 0 0\n#############################\n";
    let comments = COMMENT.repeat(alloc, 262_143).expect(rt, wanted);
    let bytes = joined(rt, alloc, front, comments.as_str(), back);
    check(
        rt,
        bytes.len() == (INPUT_LIMIT - 4).saturating_add(back.len()),
        wanted,
    );
    let told = judged(rt, alloc, &mut SureSource { bytes, at: 0 }, wanted);
    check_text(rt, told.as_bytes(), wanted, wanted);
}

#[test]
fn a_listing_has_16_777_216_bytes_at_most(rt: HostRuntime) {
    judge_long(&rt, rt.alloc(), "end\n", "-");
    judge_long(&rt, rt.alloc(), "\nend\n", "TooLong");
}
