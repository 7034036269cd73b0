//! Images byte by byte, worked out by hand from the tables of their fields, and where they are refused.
use crate::rows::{barred, check, check_text, hex, joined, source_of};
use coy_io::{INPUT_LIMIT, LineReader, MemSink, Source, SureSource};
use coy_text::hex_value;
use image_binary::{ImageFault, pack, unpack};
use listing_read::{Listing, read_listing};
use std::alloc::Global;
use std::process::Abort;

/// Adds the bytes that a text has digits of, with spaces where they help to read.
fn push_digits(rt: &impl Abort, bytes: &mut Vec<u8>, text: &str) {
    let mut high = None;
    for letter in text.as_bytes() {
        let Some(digit) = hex_value(*letter) else {
            check(rt, *letter == b' ', text);
            continue;
        };
        high = match high {
            None => Some(digit << 4),
            Some(first) => {
                bytes.push(first | digit).expect(rt, text);
                None
            }
        };
    }
}

/// The bytes of a text of digits.
fn bytes_of(rt: &impl Abort, alloc: Global, text: &str) -> Vec<u8> {
    let mut bytes = Vec::new(alloc);
    push_digits(rt, &mut bytes, text);
    bytes
}

/// How many statements an image has, or where and why it is refused, or why it is not read.
fn judged<S: Source>(rt: &impl Abort, alloc: Global, source: &mut S, row: &str) -> String {
    let told = match unpack(alloc, source) {
        Ok(listing) => format!(in alloc; "{}", listing.statements().len()),
        Err(ImageFault::Refused { offset, fault }) => format!(in alloc; "{offset} {fault:?}"),
        Err(fault) => format!(in alloc; "{fault:?}"),
    };
    told.expect(rt, row)
}

/// Judges the image of this front and the row's bytes, in pieces of this size.
fn judge(rt: &impl Abort, alloc: Global, front: &str, row: &str, piece: usize) {
    let (wanted, back) = barred(rt, row);
    let mut bytes = bytes_of(rt, alloc, front);
    push_digits(rt, &mut bytes, back);
    let told = judged(rt, alloc, &mut source_of(alloc, bytes, piece), back);
    check_text(rt, told.as_bytes(), wanted, back);
}

/// One region of one page, under a name in its listing.
const REGION: &str =
    "434f59494d473032 0100 0100 0000 0100 0100 0000 01000000 0b 0000 00 01 0000 01";

/// One of each form of statement, and its bytes in bars.
const EACH: &str = "\
page 1 ffe 0a0b |01 0100 fe0f 02 0a0b|
code 0 004 addi x1 x0 5 |02 0000 0400 93005000|
cap 0 255 page:1@12/00005+r |03 0000 ff 41000000 0c500000 01000000 00000000|
gpt 1 31 ha bg |04 0100 1f 03|
slot 1 15 local:3:00005000@12/0 |05 0100 0f 05000000 0c000000 00500000 03000000|
endpoint 0 process:1 00000007 deadbeef match |06 0000 08000000 00000000 01000000 00000000 07000000 efbeadde 01|
process 1 00001000 gpt:0@32/0 schedule:3 null run |07 0100 00100000 03000000 20000000 00000000 00000000 \
    09000000 00000000 03000000 00000000 00000000 00000000 00000000 00000000 01|
reg 1 31 deadbeef |08 0100 1f efbeadde|
capreg 0 1 entry:0:00000001 |09 0000 01 07000000 01000000 00000000 00000000|
count endpoint 0 1048575 |0a 06 0000 ffff0f00|
region 0 2 1 1 rx |0b 0000 02 01 0100 03|";

/// What is written of a listing, up to the call that fails, are these bytes. With 0 no call fails.
fn check_packed(
    rt: &impl Abort,
    alloc: Global,
    listing: &Listing,
    failing: u64,
    image: &[u8],
    row: &str,
) {
    let mut sink = MemSink::new(alloc, 512, Vec::new(alloc), 8).expect(rt, row);
    sink.failing.push(failing).expect(rt, row);
    check(rt, pack(listing, &mut sink).is_ok() == (failing == 0), row);
    check(rt, sink.bytes.as_slice() == image, row);
}

/// A listing with this line is written as this image.
fn check_written(rt: &impl Abort, alloc: Global, line: &str, image: &[u8]) {
    let front = "coyotos 2\nmachine 1 2 1 2 2 1\n";
    let bytes = joined(rt, alloc, front, line, "\nend\n");
    let mut source = SureSource { bytes, at: 0 };
    let read = read_listing(alloc, &mut LineReader::new(), &mut source);
    check_packed(rt, alloc, &read.expect(rt, line), 0, image, line);
}

/// What is read from an image, up to its end, is written as it was.
fn check_read(rt: &impl Abort, alloc: Global, image: Vec<u8>, line: &str) {
    let mut source = source_of(alloc, image, 3);
    let listing = unpack(alloc, &mut source).expect(rt, line);
    check(rt, source.at == source.bytes.len(), line);
    check_packed(rt, alloc, &listing, 0, source.bytes.as_slice(), line);
}

#[test]
fn each_form_has_its_bytes_and_is_read_again(rt: HostRuntime) {
    let head = "434f59494d473032 0100 0200 0100 0200 0200 0100 01000000";
    for row in EACH.lines() {
        let (line, bytes) = barred(&rt, row);
        let mut image = bytes_of(&rt, rt.alloc(), head);
        push_digits(&rt, &mut image, bytes);
        check_written(&rt, rt.alloc(), line, image.as_slice());
        check_read(&rt, rt.alloc(), image, line);
    }
}

/// For each number of bytes below 32, where the field of the region begins that is cut behind them.
const CUTS: &str =
    "0 0 0 0 0 0 0 0 8 8 10 10 12 12 14 14 16 16 18 18 20 20 20 20 24 25 25 27 28 29 29 31";

/// So many bytes of the region's image are refused at the field that begins there.
fn check_cut(rt: &impl Abort, alloc: Global, len: usize, start: &str) {
    let mut bytes = bytes_of(rt, alloc, REGION);
    bytes.truncate(len);
    let told = judged(rt, alloc, &mut source_of(alloc, bytes, 5), start);
    check(rt, told.as_str().strip_suffix(" Cut") == Some(start), start);
}

#[test]
fn a_cut_image_is_refused_at_the_field_that_is_cut(rt: HostRuntime) {
    for (len, start) in CUTS.split(' ').enumerate() {
        check_cut(&rt, rt.alloc(), len, start);
    }
}

/// Where and why an image is refused, or how many statements it has, and in bars its bytes.
const IMAGES: &str = "\
1 |434f59494d473032 0100 0100 0000 0100 0100 0000 01000000 0b 0000 00 01 0000 01|
32 Trailing |434f59494d473032 0100 0100 0000 0100 0100 0000 01000000 0b 0000 00 01 0000 01 00|
0 |434f59494d473032 0100 0000 0000 0000 0000 0000 00000000|
0 |434f59494d473032 0800 0010 0001 0004 0001 0004 00000000|
0 BadMagic |434f59494d473031 0900 0000 0000 0000 0000 0000 00000000|
0 BadMagic |436f59494d473032 0100 0000 0000 0000 0000 0000 00000000|
8 BadMachine |434f59494d473032 0000 0110 0000 0000 0000 0000 00000000|
8 BadMachine |434f59494d473032 0900 0000 0000 0000 0000 0000 00000000|
8 BadMachine |434f59494d473032 0001 0000 0000 0000 0000 0000 00000000|
10 BadMachine |434f59494d473032 0100 0110 0000 0000 0000 0000 00000000|
12 BadMachine |434f59494d473032 0100 0000 0101 0000 0000 0000 00000000|
14 BadMachine |434f59494d473032 0100 0000 0000 0104 0000 0000 00000000|
16 BadMachine |434f59494d473032 0100 0000 0000 0000 0101 0000 00000000|
18 BadMachine |434f59494d473032 0100 0000 0000 0000 0000 0104 00000000|
24 Cut |434f59494d473032 0100 0000 0000 0000 0000 0000 01000000|
24 Cut |434f59494d473032 0100 0000 0000 0000 0000 0000 00000001|
24 Trailing |434f59494d473032 0100 0000 0000 0000 0000 0000 00000000 0b|";

/// The same of images of a machine with two of everything, of which this is the only statement.
const STATEMENTS: &str = "\
24 BadType |00|
24 BadType |0c|
24 BadType |ff 0000 00|
1 |01 0100 ff0f 01 07|
31 Trailing |01 0100 ff0f 01 07 00|
25 NoObject |01 0200 0010 00|
25 NoObject |01 0200|
25 Cut |01 02|
27 BadValue |01 0100 0010 00|
29 BadValue |01 0100 0000 00|
29 BadValue |01 0100 0000 41|
29 BadValue |01 0100 ff0f 02 07|
30 Cut |01 0100 0000 02 07|
1 |02 0100 fc0f 73000000|
1 |02 0100 fc0f 0f00f00f|
25 NoObject |02 0200 fe0f 00000000|
27 BadValue |02 0100 fe0f 00000000|
27 BadValue |02 0100 0010 00000000|
29 BadInstruction |02 0100 fc0f 00000000|
29 BadInstruction |02 0100 fc0f 0f000000|
1 |03 0100 ff 00000000 00000000 00000000 00000000|
25 NoObject |03 0200 ff 0e000000 00000000 00000000 00000000|
28 BadCap |03 0100 ff 0e000000 00000000 00000000 00000000|
28 BadCap |03 0100 ff 00080000 00000000 00000000 00000000|
28 BadCap |03 0100 ff 41100000 0c500000 01000000 00000000|
28 BadCap |03 0100 ff 01000000 0b000000 00000000 00000000|
28 BadCap |03 0100 ff 04000000 0c000000 01000000 00000000|
28 BadCap |03 0100 ff 09000000 00000000 08000000 00000000|
28 BadCap |03 0100 ff 08000000 00000000 2c010000 00000000|
28 NoObject |03 0100 ff 08000000 00000000 c8000000 00000000|
28 NoObject |03 0100 ff 01000000 0c000000 02000000 00000000|
28 NoObject |03 0100 ff 07000000 efbeadde 02000000 00000000|
28 Cut |03 0100 ff 07000000 efbeadde 01000000 000000|
1 |04 0100 0c 00|
25 NoObject |04 0200 0b 04|
27 BadValue |04 0100 0b 04|
27 BadValue |04 0100 20 04|
28 BadValue |04 0100 1f 04|
25 NoObject |05 0200 10|
27 BadValue |05 0100 10|
28 BadCap |05 0100 0f 0e000000 00000000 00000000 00000000|
25 NoObject |06 0200|
27 BadCap |06 0100 01000000 0c000000 02000000 00000000|
27 NoObject |06 0100 08000000 00000000 02000000 00000000|
51 BadValue |06 0100 00000000 00000000 00000000 00000000 ffffffff ffffffff 02|
25 NoObject |07 0200 02000000|
27 BadValue |07 0100 02000000|
47 BadCap |07 0100 fcffffff 00000000 00000000 00000000 00000000 0e000000 00000000 00000000 00000000|
79 BadValue |07 0100 fcffffff 00000000 00000000 00000000 00000000 00000000 00000000 00000000 00000000 \
    00000000 00000000 00000000 00000000 02|
27 BadValue |08 0100 00 00000000|
27 BadValue |08 0100 20 00000000|
27 BadValue |09 0100 00 0e|
25 BadValue |0a 07 0200|
26 NoObject |0a 01 0200|
28 BadValue |0a 01 0100 00001000|
1 |0b 0000 00 02 0000 1f|
27 BadValue |0b 0000 10 01 0000 00|
28 BadValue |0b 0000 0f 02 0000 00|
28 BadValue |0b 0000 0f 00 0000 00|
29 NoObject |0b 0000 00 02 0100 20|
31 BadValue |0b 0000 00 01 0100 20|";

/// Judges the image of this front and the row's bytes, in pieces of four sizes.
fn judge_row(rt: &impl Abort, alloc: Global, front: &str, row: &str) {
    judge(rt, alloc, front, row, 1);
    judge(rt, alloc, front, row, 7);
    judge(rt, alloc, front, row, 9);
    judge(rt, alloc, front, row, usize::MAX);
}

#[test]
fn an_image_is_read_or_refused_at_its_first_fault(rt: HostRuntime) {
    for row in IMAGES.lines() {
        judge_row(&rt, rt.alloc(), "", row);
    }
}

#[test]
fn a_statement_is_refused_at_its_first_fault(rt: HostRuntime) {
    let front = "434f59494d473032 0200 0200 0200 0200 0200 0200 01000000";
    for row in STATEMENTS.lines() {
        judge_row(&rt, rt.alloc(), front, row);
    }
}

/// Reads an image in pieces of 8 bytes, from a source that fails in this call, if it is made.
fn check_failing(
    rt: &impl Abort,
    alloc: Global,
    image: &str,
    call: u64,
    wanted: &str,
    faults: u64,
) {
    let mut source = source_of(alloc, bytes_of(rt, alloc, image), 8);
    source.failing.push(call).expect(rt, image);
    let told = judged(rt, alloc, &mut source, image);
    check_text(rt, told.as_bytes(), wanted, image);
    check(rt, source.faults == faults, image);
}

#[test]
fn a_source_that_fails_ends_the_reading_and_hides_no_fault(rt: HostRuntime) {
    let (rt, alloc) = (&rt, rt.alloc());
    // The region's image has four pieces, and the fifth call tells the end.
    for call in 1..6u64 {
        check_failing(rt, alloc, REGION, call, "ReadFault", 1);
    }
    check_failing(rt, alloc, REGION, 6, "1", 0);
    // The letters are wrong in the first piece, and the second would fail.
    check_failing(rt, alloc, "434f59494d473031 0100", 2, "0 BadMagic", 0);
}

/// A call of the sink, of which each takes 8 bytes, and the front of the region's image that stands before it.
const FRONTS: &str = "\
1 ||
2 |434f59494d473032|
3 |434f59494d473032 0100 0100 0000 0100|
4 |434f59494d473032 0100 0100 0000 0100 0100 0000 01000000|";

/// Where the row's call of the sink fails, the calls before it have put the row's bytes.
fn check_front(rt: &impl Abort, alloc: Global, row: &str) {
    let mut source = source_of(alloc, bytes_of(rt, alloc, REGION), 8);
    let listing = unpack(alloc, &mut source).expect(rt, row);
    let (_, front) = barred(rt, row);
    let image = bytes_of(rt, alloc, front);
    let call = u64::from(hex(rt, row, 0));
    check_packed(rt, alloc, &listing, call, image.as_slice(), row);
}

#[test]
fn a_sink_that_fails_has_the_front_of_the_image(rt: HostRuntime) {
    for row in FRONTS.lines() {
        check_front(&rt, rt.alloc(), row);
    }
}

/// The statement of a page with 64 bytes.
const PAGE: &str = "\x01\0\0\0\0@0123456789abcdef0123456789abcdef0123456789abcdef0123456789abcdef";

/// What is told of an image that goes up to the last byte that is read, and in bars how many statements its head
/// announces, and bytes behind its end. It has 239,675 statements: pages of 64 bytes, and one of 6.
const FULL: &str = "\
239675 |3ba80300:|
TooLong |3ba80300:a|
TooLong |3ba80300:abcdefghi|
16777216 Cut |3ca80300:|
TooLong |3ca80300:a|
16777204 Trailing |3aa80300:abcdefghi|";

/// Reads the row's image.
fn check_full(rt: &impl Abort, alloc: Global, row: &str) {
    let (wanted, text) = barred(rt, row);
    let (count, more) = text.split_once(':').expect(rt, row);
    let mut bytes = bytes_of(rt, alloc, "434f59494d473032 0100 0100 0000 0000 0000 0000");
    push_digits(rt, &mut bytes, count);
    let pages = PAGE.repeat(alloc, 239_674).expect(rt, row);
    let rest = joined(rt, alloc, pages.as_str(), "\x01\0\0\0\0\x06abcdef", more);
    bytes.extend_from_slice(rest.as_slice()).expect(rt, row);
    check(
        rt,
        bytes.len() == INPUT_LIMIT.saturating_add(more.len()),
        row,
    );
    let told = judged(rt, alloc, &mut SureSource { bytes, at: 0 }, row);
    check_text(rt, told.as_bytes(), wanted, row);
}

#[test]
fn a_byte_behind_the_limit_is_one_too_many(rt: HostRuntime) {
    for row in FULL.lines() {
        check_full(&rt, rt.alloc(), row);
    }
}
