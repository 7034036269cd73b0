//! Lines of bytes in whatever pieces they come, the faults in between, and readers and writers of the standard library.

use crate::rows::{check, check_text, source_of};
use coy_io::{
    LineFault, LineReader, MemSink, MemSource, ReadSource, Source, SureSink, SureSource, WriteSink,
    put_all,
};
use std::alloc::Global;
use std::io::{self, BufWriter, Read};
use std::process::Abort;

/// The word for a fault.
fn word_of(fault: LineFault) -> &'static str {
    match fault {
        LineFault::ReadFault => "failed",
        LineFault::LineTooLong => "long",
        LineFault::TooLong => "more",
    }
}

/// Reads all lines, each of which has to have its number, and asks again behind the end. The text has a bar behind each
/// line, and a word for the fault that came in the end.
fn read_text<S: Source>(rt: &impl Abort, alloc: Global, source: &mut S) -> Vec<u8> {
    let why = "the lines";
    let mut lines = LineReader::new();
    let mut text = Vec::new(alloc);
    for count in 0..300_000u32 {
        let failed = lines.failed();
        check(
            rt,
            lines.number().saturating_add(u32::from(failed)) == count,
            why,
        );
        if failed {
            break;
        }
        let word = match lines.next(source) {
            Ok(Some(_)) => {
                text.extend_from_slice(lines.line()).expect(rt, why);
                "|"
            }
            Ok(None) => break,
            Err(fault) => word_of(fault),
        };
        text.extend_from_slice(word.as_bytes()).expect(rt, why);
    }
    if !lines.failed() {
        check(rt, matches!(lines.next(source), Ok(None)), why);
    }
    text
}

/// So many x as a line may have.
const LONG: &str = "\
xxxxxxxxxxxxxxxxxxxxxxxxxxxxxxxxxxxxxxxxxxxxxxxxxxxxxxxxxxxxxxxx\
xxxxxxxxxxxxxxxxxxxxxxxxxxxxxxxxxxxxxxxxxxxxxxxxxxxxxxxxxxxxxxxx\
xxxxxxxxxxxxxxxxxxxxxxxxxxxxxxxxxxxxxxxxxxxxxxxxxxxxxxxxxxxxxxxx\
xxxxxxxxxxxxxxxxxxxxxxxxxxxxxxxxxxxxxxxxxxxxxxxxxxxxxxxxxxxxxxxx\
xxxxxxxxxxxxxxxxxxxxxxxxxxxxxxxxxxxxxxxxxxxxxxxxxxxxxxxxxxxxxxxx\
xxxxxxxxxxxxxxxxxxxxxxxxxxxxxxxxxxxxxxxxxxxxxxxxxxxxxxxxxxxxxxxx\
xxxxxxxxxxxxxxxxxxxxxxxxxxxxxxxxxxxxxxxxxxxxxxxxxxxxxxxxxxxxxxxx\
xxxxxxxxxxxxxxxxxxxxxxxxxxxxxxxxxxxxxxxxxxxxxxxxxxxxxxxxxxxxxxxx";

/// Bytes, and behind a colon the lines that are read of them and the fault in the end. A slash stands for a line feed,
/// and a star for 512 times x.
const LINES: &str = "\
:
/:|
a:a|
a/:a|
a//b:a||b|
/a\r/b c//:|a\r|b c||
*/:*|
*:*|
ab/*/c:ab|*|c|
*x/:long
a/b/*x:a|b|long
a/**********/b/:a|long";

/// Reads the bytes of a row in pieces of this size, where that is 7 by lines.
fn check_piece(rt: &impl Abort, alloc: Global, row: &str, piece: usize) {
    let (bytes, wanted) = row.split_once(':').expect(rt, row);
    let held = bytes.as_bytes().to_vec(alloc).expect(rt, row);
    let mut source = source_of(alloc, held, piece);
    source.by_line = piece == 7;
    let text = read_text(rt, alloc, &mut source);
    check_text(rt, text.as_slice(), wanted, row);
}

/// Reads the row's bytes in pieces of five sizes, one of them by lines.
fn check_lines(rt: &impl Abort, alloc: Global, row: &str) {
    let feeds = row.replace(alloc, "/", "\n").expect(rt, row);
    let whole = feeds.replace(alloc, "*", LONG).expect(rt, row);
    check_piece(rt, alloc, whole.as_str(), 1);
    check_piece(rt, alloc, whole.as_str(), 7);
    check_piece(rt, alloc, whole.as_str(), 64);
    check_piece(rt, alloc, whole.as_str(), 513);
    check_piece(rt, alloc, whole.as_str(), usize::MAX);
}

#[test]
fn a_line_of_512_bytes_at_most_ends_at_each_line_feed(rt: HostRuntime) {
    for row in LINES.lines() {
        check_lines(&rt, rt.alloc(), row);
    }
}

/// A line of 64 bytes.
const LINE: &str = "xxxxxxxxxxxxxxxxxxxxxxxxxxxxxxxxxxxxxxxxxxxxxxxxxxxxxxxxxxxxxxx\n";

/// What is told of it.
const TOLD: &str = "xxxxxxxxxxxxxxxxxxxxxxxxxxxxxxxxxxxxxxxxxxxxxxxxxxxxxxxxxxxxxxx|";

/// Reads 16,777,216 bytes in lines of 64, and what is put behind them: the text has to end in the fault.
fn check_limit(rt: &impl Abort, alloc: Global, more: &str, fault: &str) {
    let mut lines = LINE.repeat(alloc, 262_144).expect(rt, fault);
    lines.push_str(more).expect(rt, fault);
    let mut source = SureSource {
        bytes: lines.into_bytes(),
        at: 0,
    };
    let text = read_text(rt, alloc, &mut source);
    check(rt, source.at == source.bytes.len(), fault);
    let mut told = TOLD.repeat(alloc, 262_144).expect(rt, fault);
    told.push_str(fault).expect(rt, fault);
    check(rt, text.as_slice() == told.as_bytes(), fault);
}

#[test]
fn a_byte_behind_the_limit_is_one_too_many(rt: HostRuntime) {
    check_limit(&rt, rt.alloc(), "", "");
    check_limit(&rt, rt.alloc(), "x", "more");
}

/// The reader failed behind its first line, and the source in its second call, behind seven bytes.
fn check_failed(rt: &impl Abort, lines: &LineReader, source: &MemSource) {
    let why = "the reader or its source";
    check(rt, lines.failed(), why);
    check(rt, lines.line() == b"first".as_slice(), why);
    check(rt, lines.number() == 1, why);
    check(rt, source.calls == 2, why);
    check(rt, source.at == 7, why);
    check(rt, source.faults == 1, why);
}

#[test]
fn a_source_that_fails_in_mid_stream_ends_the_lines(rt: HostRuntime) {
    let text = "first\nsecond\n";
    let bytes = text.as_bytes().to_vec(rt.alloc()).expect(&rt, text);
    let mut source = source_of(rt.alloc(), bytes, 7);
    source.failing.push(2).expect(&rt, text);
    let mut lines = LineReader::new();
    let Ok(Some(5)) = lines.next(&mut source) else {
        panic!(rt; "a line")
    };
    let Err(LineFault::ReadFault) = lines.next(&mut source) else {
        panic!(rt; "a fault")
    };
    check_failed(&rt, &lines, &source);
}

/// How often a source of these bytes is called, which gives so many at a time.
fn check_calls(rt: &impl Abort, alloc: Global, bytes: &str, piece: usize, calls: u64) {
    let held = bytes.as_bytes().to_vec(alloc).expect(rt, bytes);
    let mut source = source_of(alloc, held, piece);
    let _ = read_text(rt, alloc, &mut source);
    check(rt, source.calls == calls, bytes);
}

#[test]
fn no_call_follows_the_one_that_told_the_end(rt: HostRuntime) {
    let (rt, alloc) = (&rt, rt.alloc());
    check_calls(rt, alloc, "", 1, 1);
    check_calls(rt, alloc, "a", 1, 2);
    check_calls(rt, alloc, "a\nb", 1, 4);
    check_calls(rt, alloc, "a\nb\n", 1, 5);
    check_calls(rt, alloc, "a\nb\n", 7, 2);
}

/// Puts seven bytes in pieces of two into a sink that fails at this call: whether all are put, what it then holds, and
/// how often it was called.
fn check_taken(rt: &impl Abort, alloc: Global, failing: u64, all: bool, taken: &str, calls: u64) {
    let mut sink = MemSink::new(alloc, 7, Vec::new(alloc), 2).expect(rt, taken);
    sink.failing.push(failing).expect(rt, taken);
    let put = put_all(&mut sink, b"abcdefg").is_ok();
    check(rt, put == all, taken);
    check_text(rt, sink.bytes.as_slice(), taken, taken);
    check(rt, sink.calls == calls, taken);
    check(rt, sink.starved == 0, taken);
}

#[test]
fn a_sink_that_fails_in_mid_stream_holds_a_front(rt: HostRuntime) {
    let (rt, alloc) = (&rt, rt.alloc());
    check_taken(rt, alloc, 1, false, "", 1);
    check_taken(rt, alloc, 3, false, "abcd", 3);
    check_taken(rt, alloc, 5, true, "abcdefg", 4);
}

/// Gives its bytes three at a time, and fails behind them.
#[derive(Drop)]
struct FailingReader {
    bytes: &'static [u8],
}

impl Read for FailingReader {
    fn read(&mut self, buf: &mut [u8]) -> io::Result<usize> {
        if self.bytes.is_empty() {
            return Err(io::ErrorKind::Other.into());
        }
        let count = self.bytes.len().min(buf.len()).min(3);
        let (now, behind) = self.bytes.split_at(count);
        buf[..count].copy_from_slice(now);
        self.bytes = behind;
        Ok(count)
    }
}

#[test]
fn a_standard_reader_is_a_source_that_fails_where_it_does(rt: HostRuntime) {
    let what = "a reader";
    let whole = read_text(
        &rt,
        rt.alloc(),
        &mut ReadSource::new(b"ab\ncd\nef".as_slice()),
    );
    check_text(&rt, whole.as_slice(), "ab|cd|ef|", what);
    let bytes = b"ab\ncd\ne".as_slice();
    let front = read_text(
        &rt,
        rt.alloc(),
        &mut ReadSource::new(FailingReader { bytes }),
    );
    check_text(&rt, front.as_slice(), "ab|cd|failed", what);
}

#[test]
fn a_sink_that_does_not_fail_takes_all_bytes(rt: HostRuntime) {
    let what = "all of it";
    check(&rt, put_all(&mut SureSink, b"abcdefg").is_ok(), what);
    let mut taken = Vec::new(rt.alloc());
    check(
        &rt,
        put_all(&mut WriteSink::new(&mut taken), b"abc").is_ok(),
        what,
    );
    check_text(&rt, taken.as_slice(), "abc", what);
}

#[test]
fn a_slice_of_two_bytes_takes_no_third_one(rt: HostRuntime) {
    let mut room = [0; 2];
    let mut full = WriteSink::new(room.as_mut_slice());
    check(&rt, put_all(&mut full, b"abc").is_err(), "full");
}

/// Behind a buffer the same comes out at the flush.
#[test]
fn a_buffer_before_two_bytes_fails_at_the_flush(rt: HostRuntime) {
    let what = "the third byte";
    let mut room = [0; 2];
    let buffered = BufWriter::with_capacity(rt.alloc(), 8, room.as_mut_slice()).expect(&rt, what);
    let mut late = WriteSink::new(buffered);
    check(&rt, put_all(&mut late, b"abc").is_ok(), what);
    check(&rt, late.flush().is_err(), what);
}
