//! One word of an Sv32 table: flags in the low ten bits, a physical page number above.

ghost use Rattle.std.specs.Prelude.{◌≡◌, ◌<◌, ◌≤◌, ◌/◌, ◌^◌, true};
ghost use Rattle.sv32_tables.specs.Word.{has, is_valid, leaf_of, leaf_word, pointer, table_of};

use crate::leaf::Leaf;

/// The flag V: the word leads somewhere.
pub const VALID: u32 = 1;
/// The flag R. With neither R nor X a valid word leads to a table.
pub const READ: u32 = 2;
/// The flag W.
pub const WRITE: u32 = 4;
/// The flag X.
pub const EXECUTE: u32 = 8;
/// The flag U: user accesses may use the leaf.
pub const USER: u32 = 16;
/// The flag A: the leaf was used.
pub const ACCESSED: u32 = 64;
/// The flag D: the leaf was written by.
pub const DIRTY: u32 = 128;
/// The flags of every leaf.
const LEAF: u32 = VALID + READ + USER + ACCESSED + DIRTY;
/// The physical page number of frame 0, behind all pages that a leaf may name.
pub const FIRST_FRAME: u32 = 4096;

fn has_flag(word: u32, flag: u32) -> bool
    requires { 0 < flag }
    ensures { result ≡ has word flag }
{
    word / flag % 2 == 1
}

/// The word that leads to the table in a frame.
pub fn pointer(frame: u16) -> u32
    ensures { result ≡ pointer frame }
{
    (FIRST_FRAME + u32::from(frame)) * 1024 + VALID
}

/// The frame of the table to which a word leads, if it is valid.
pub fn table_of(word: u32) -> Option<u16>
    requires low { is_valid word ≡ true → 4096 ≤ word / 1024 }
    requires high { word / 1024 < 4352 }
    ensures { result ≡ table_of word }
{
    if !has_flag(word, VALID) {
        return None;
    }
    Some((word / 1024 - FIRST_FRAME) as u16)
}

/// The word of a leaf.
pub fn leaf_word(leaf: Leaf) -> u32
    ensures word { result ≡ leaf_word leaf }
    ensures page { leaf.page < 2 ^ 16 }
{
    let write = if leaf.write { WRITE } else { 0 };
    let execute = if leaf.execute { EXECUTE } else { 0 };
    u32::from(leaf.page) * 1024 + LEAF + write + execute
}

/// The leaf that a word is, if it is valid.
pub fn leaf_of(word: u32) -> Option<Leaf>
    requires { word / 1024 < 65536 }
    ensures { result ≡ leaf_of word }
{
    if !has_flag(word, VALID) {
        return None;
    }
    Some(Leaf {
        page: (word / 1024) as u16,
        write: has_flag(word, WRITE),
        execute: has_flag(word, EXECUTE),
    })
}
