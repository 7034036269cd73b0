//! Words in a vector, changed in place.

ghost use Rattle.std.specs.Prelude.{◌≡◌, ◌≤◌, ◌<◌, ◌+◌, ◌*◌, ◌&&◌, ℕ, IfOk, if◌then◌else◌, length, nat_le, nat_lt, slice_index, slice_set};
ghost use Rattle.sv32_tables.specs.Pool.{word_at};

use std::alloc::{AllocError, Global};

/// How many words a frame has.
pub const FRAME_WORDS: usize = 1024;

/// A vector of this many zeros.
pub fn zeros(alloc: Global, count: usize) -> Result<Vec<u32>, AllocError>
    ensures length { IfOk result (λ words. length words.items ≡ count) }
    ensures zeros { IfOk result (λ words. (k : ℕ) → slice_index words.items k ≡ 0) }
{
    let words = vec![in alloc; 0; count]?;
    Ok(words)
}

/// A word of a frame.
pub fn get(words: &Vec<u32>, frame: u16, index: u16) -> u32
    requires { frame * 1024 + index < length words.now.items }
    ensures { result ≡ word_at words.now.items frame index }
{
    words[frame as usize * FRAME_WORDS + index as usize]
}

pub fn put(words: &mut Vec<u32>, frame: u16, index: u16, word: u32)
    requires { frame * 1024 + index < length words.old.items }
    ensures { words.new.items ≡ slice_set words.old.items (frame * 1024 + index) word }
{
    words[frame as usize * FRAME_WORDS + index as usize] = word;
}

/// Writes 0 from `start` on, up to `end`.
pub fn wipe(words: &mut Vec<u32>, start: usize, end: usize)
    requires order { start ≤ end }
    requires inside { end ≤ length words.old.items }
    ensures length { length words.new.items ≡ length words.old.items }
    ensures words { (k : ℕ) → slice_index words.new.items k
        ≡ (if nat_le start k && nat_lt k end then 0 else slice_index words.old.items k) }
{
    'each: for at in start..end {
        words[at] = 0;
    }
}
