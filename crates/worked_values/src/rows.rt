//! The words of a row, and what is compared with them.
ghost use Rattle.std.specs.Prelude.{◌<◌};

use coy_text::{read_hex, word};
use std::process::Abort;

/// The row's word `n`, from 0, which is a hexadecimal number.
pub fn hex(rt: &impl Abort, row: &str, n: usize) -> u32 {
    read_hex(word(row.as_bytes(), n)).expect(rt, "a hexadecimal number")
}

/// The same, where it is below 65,536.
pub fn short(rt: &impl Abort, row: &str, n: usize) -> u16 {
    u16::try_from(hex(rt, row, n)).expect(rt, "a number below 65,536")
}

/// The same, where it is below 256.
pub fn byte(rt: &impl Abort, row: &str, n: usize) -> u8 {
    u8::try_from(hex(rt, row, n)).expect(rt, "a number below 256")
}

/// The first byte of the row's word `n`, and 0 where there is none.
pub fn letter(row: &str, n: usize) -> u8 {
    match word(row.as_bytes(), n).first() {
        Some(byte) => *byte,
        None => 0,
    }
}

/// The row's word `n`, or None where it is `-`.
pub fn number(rt: &impl Abort, row: &str, n: usize) -> Option<u32> {
    if letter(row, n) == b'-' {
        return None;
    }
    Some(hex(rt, row, n))
}

/// Fails with the row, where what it says doesn't hold.
pub fn check(rt: &impl Abort, holds: bool, row: &str) {
    assert!(rt; holds, "{row}");
}

/// Fails with the row, unless its words from `n` on are these numbers.
pub fn check_numbers(rt: &impl Abort, found: &[u32], row: &str, n: usize)
    requires { n < 100 }
{
    for (i, number) in found.iter().enumerate() {
        check(rt, *number == hex(rt, row, n + i), row);
    }
}
