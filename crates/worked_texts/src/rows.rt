//! The words of a row, what is said where a row doesn't hold, and the texts and sources that rows are tried with.

use coy_io::MemSource;
use coy_text::{read_hex, word};
use std::alloc::Global;
use std::process::Abort;

/// The row's word `n`, from 0, which is a hexadecimal number.
pub fn hex(rt: &impl Abort, row: &str, n: usize) -> u32 {
    read_hex(word(row.as_bytes(), n)).expect(rt, row)
}

/// The same, where it is below 256.
pub fn byte(rt: &impl Abort, row: &str, n: usize) -> u8 {
    u8::try_from(hex(rt, row, n)).expect(rt, row)
}

/// The sixteen bytes of a capability that a row begins with, in four words.
pub fn cap_bytes(rt: &impl Abort, row: &str) -> [u8; 16] {
    let [a, b, c, d] = hex(rt, row, 0).to_be_bytes();
    let [e, f, g, h] = hex(rt, row, 1).to_be_bytes();
    let [i, j, k, l] = hex(rt, row, 2).to_be_bytes();
    let [m, n, o, p] = hex(rt, row, 3).to_be_bytes();
    [a, b, c, d, e, f, g, h, i, j, k, l, m, n, o, p]
}

/// What stands in front of the row's bars, and the text in them.
pub fn barred<'a>(rt: &impl Abort, row: &'a str) -> (&'a str, &'a str) {
    let (front, rest) = row.split_once(" |").expect(rt, row);
    (front, rest.strip_suffix("|").expect(rt, row))
}

/// Fails with the row, where what it says doesn't hold.
pub fn check(rt: &impl Abort, holds: bool, row: &str) {
    assert!(rt; holds, "{row}");
}

/// Fails with the row, where another text was told than it wants.
pub fn check_text(rt: &impl Abort, told: &[u8], wanted: &str, row: &str) {
    let told = str::from_utf8(told).expect(rt, row);
    assert!(rt; told == wanted, "{row}: {told}");
}

/// Three texts behind each other.
pub fn joined(rt: &impl Abort, alloc: Global, front: &str, middle: &str, back: &str) -> Vec<u8> {
    let mut text = front.to_string(alloc).expect(rt, front);
    text.push_str(middle).expect(rt, middle);
    text.push_str(back).expect(rt, back);
    text.into_bytes()
}

/// A source of these bytes, which gives so many at a time.
pub fn source_of(alloc: Global, bytes: Vec<u8>, piece: usize) -> MemSource {
    MemSource {
        bytes,
        at: 0,
        calls: 0,
        failing: Vec::new(alloc),
        piece: piece.max(1),
        by_line: false,
        faults: 0,
    }
}
