//! The words of a row.

use coy_text::{read_hex, word};
use std::process::Abort;

/// The row's word `n`, from 0, which is a hexadecimal number.
pub fn hex(rt: &impl Abort, row: &str, n: usize) -> u32 {
    read_hex(word(row.as_bytes(), n)).expect(rt, row)
}

/// The same, where it is below 256.
pub fn byte(rt: &impl Abort, row: &str, n: usize) -> u8 {
    u8::try_from(hex(rt, row, n)).expect(rt, row)
}

/// The same, where it is below 65,536.
pub fn short(rt: &impl Abort, row: &str, n: usize) -> u16 {
    u16::try_from(hex(rt, row, n)).expect(rt, row)
}

/// The first byte of the row's word `n`, and 0 where there is none.
pub fn letter(row: &str, n: usize) -> u8 {
    match word(row.as_bytes(), n).first() {
        Some(byte) => *byte,
        None => 0,
    }
}

/// The row's word `n`, or None where it is `-`.
pub fn number(rt: &impl Abort, row: &str, n: usize) -> Option<u32> {
    if letter(row, n) == b'-' {
        return None;
    }
    Some(hex(rt, row, n))
}

/// What stands in front of the row's bars, and the text in them.
pub fn barred<'a>(rt: &impl Abort, row: &'a str) -> (&'a str, &'a str) {
    let (front, rest) = row.split_once(" |").expect(rt, row);
    (front, rest.strip_suffix("|").expect(rt, row))
}

/// Fails with the row, where what it says doesn't hold.
pub fn check(rt: &impl Abort, holds: bool, row: &str) {
    assert!(rt; holds, "{row}");
}

/// Whether a text has a line.
pub fn has_line(text: &[u8], wanted: &str) -> bool {
    for line in str::from_utf8(text).unwrap_or("").lines() {
        if line == wanted {
            return true;
        }
    }
    false
}
