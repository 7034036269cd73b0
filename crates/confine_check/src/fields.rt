//! The fields of a line that name objects of a machine.
ghost use Rattle.std.specs.Prelude.{◌≡◌, ◌<◌, ◌≤◌, IfOk};
ghost use Rattle.coy_text.specs.Words.{words_of};
ghost use Rattle.confine_check.specs.Fields.{kind_of, last_of, named_block, object_of};

use crate::block::Block;
use cap_format::CapKind;
use coy_text::{read_dec, word, word_count};
use listing_read::FieldFault;

/// The kind of objects that a word is.
#[tactic(auto, unfolding(crate::specs::Fields::kind_of))]
pub fn read_kind(word: &[u8]) -> Result<CapKind, FieldFault>
    ensures { result ≡ kind_of word.now }
{
    if word == b"page".as_slice() {
        return Ok(CapKind::Page);
    }
    if word == b"cappage".as_slice() {
        return Ok(CapKind::CapPage);
    }
    if word == b"gpt".as_slice() {
        return Ok(CapKind::Gpt);
    }
    if word == b"endpoint".as_slice() {
        return Ok(CapKind::Endpoint);
    }
    if word == b"process".as_slice() {
        return Ok(CapKind::Process);
    }
    Err(FieldFault::BadValue)
}

/// The objects of a kind, of which there are `size`, that a line names from word `at` on: by the number of the first and, in
/// its last word, that of the last, or by the number of one alone.
#[tactic(auto, unfolding(crate::specs::Fields::named_block))]
pub fn read_block(kind: CapKind, size: usize, line: &[u8], at: u8) -> Result<Block, FieldFault>
    requires { size < 65536 }
    ensures value { result ≡ named_block kind size at (words_of line.now) }
    ensures kind { IfOk result (λ block. block.kind ≡ kind) }
    ensures order { IfOk result (λ block. block.from ≤ block.to) }
    ensures there { IfOk result (λ block. block.to < size) }
{
    let from = object(size, word(line, at as usize))?;
    let to = last(size, from, line, at)?;
    if to < from {
        return Err(FieldFault::BadOrder);
    }
    Ok(Block { kind, from, to })
}

/// The number of an object of which there are `size`.
#[tactic(auto, unfolding(crate::specs::Fields::object_of))]
fn object(size: usize, word: &[u8]) -> Result<u16, FieldFault>
    requires { size < 65536 }
    ensures value { result ≡ object_of size word.now }
    ensures there { IfOk result (λ n. n < size) }
{
    let number = match read_dec(word) {
        Ok(value) => value,
        Err(_) => return Err(FieldFault::BadNumber),
    };
    if number as usize >= size {
        return Err(FieldFault::NoObject);
    }
    Ok(number as u16)
}

/// The last object: the word behind word `at`, where the line has just that more, and otherwise the first object.
#[tactic(auto, unfolding(crate::specs::Fields::last_of))]
fn last(size: usize, from: u16, line: &[u8], at: u8) -> Result<u16, FieldFault>
    requires small { size < 65536 }
    requires there { from < size }
    ensures value { result ≡ last_of size from at (words_of line.now) }
    ensures there { IfOk result (λ n. n < size) }
{
    if word_count(line) == at as usize + 2 {
        return object(size, word(line, at as usize + 1));
    }
    Ok(from)
}
