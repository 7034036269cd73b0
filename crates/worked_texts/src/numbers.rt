//! Numbers and words by the grammar of the listing, worked out by hand.

use crate::rows::{barred, check};
use coy_text::{read_dec, read_hex, word, word_count, words_from};
use std::process::Abort;

/// What a word is as a decimal number and as a hexadecimal one, both written in decimal, or `-` where it is none, and
/// the word in bars.
const NUMBERS: &str = "\
- - ||
0 0 |0|
1 - |0000000001|
1 1 |00000001|
- - |00000000001|
4294967295 - |4294967295|
- - |4294967296|
- - |9999999999|
- 3735928559 |deadBEEF|
- 4294967295 |ffffffff|
100000000 - |100000000|
12 18 |12|
- - |-1|
- - |+1|
- - |0x1|
- - |1 |
- - |1g|
- - |/|
- - |:|";

/// The number that a row has in a column, if it has one there.
fn wanted(row: &str, column: usize) -> Option<u32> {
    row.split(' ').nth(column)?.parse().ok()
}

#[test]
fn numbers_are_read_by_their_grammar(rt: HostRuntime) {
    for row in NUMBERS.lines() {
        let (_, text) = barred(&rt, row);
        check(&rt, read_dec(text.as_bytes()).ok() == wanted(row, 0), row);
        check(&rt, read_hex(text.as_bytes()).ok() == wanted(row, 1), row);
    }
}

/// Counts the words of a line, and takes its second word and what follows that.
fn check_words(rt: &impl Abort, line: &str, count: usize, second: &str, rest: &str) {
    check(rt, word_count(line.as_bytes()) == count, line);
    check(rt, word(line.as_bytes(), 1) == second.as_bytes(), line);
    check(rt, words_from(line.as_bytes(), 2) == rest.as_bytes(), line);
}

#[test]
fn words_stand_between_spaces(rt: HostRuntime) {
    let rt = &rt;
    check_words(rt, "", 0, "", "");
    check_words(rt, "   ", 0, "", "");
    check_words(rt, "end", 1, "", "");
    check_words(rt, "slot 0 15 null", 4, "0", " 15 null");
    check_words(rt, "  reg   0  5 1  ", 4, "0", "  5 1  ");
    check_words(rt, "a\tb c", 2, "c", "");
}
