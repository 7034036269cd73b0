//! Lines of a cut.
ghost use Rattle.std.specs.Prelude.{◌≡◌, ◌==◌, ◌||◌, ◌<◌, ◌≤◌, length, IfOk, IfSome};
ghost use Rattle.coy_text.specs.Words.{words_of};
ghost use Rattle.listing_read.specs.Faults.{ensured};
ghost use Rattle.confinement.specs.Cut.{sides_of};
ghost use Rattle.listing_read.specs.declared.object_fault.CutFault.TheVariants.{WrongWords};
ghost use Rattle.confine_check.specs.CutLine.{left_line, block_line, asked_by, cut_line, after_line, refusal};

use crate::block::Block;
use crate::cut::Cut;
use crate::fields::{read_block, read_kind};
use coy_io::LINE_LIMIT;
use coy_text::{is_skipped, is_visible, word, word_count};
use listing_read::CutFault;

/// Puts the objects that a line names on the left. After a fault, and after a line that is skipped, the cut is as before.
pub fn read_cut(line: &[u8], cut: &mut Cut) -> Result<(), CutFault>
    ensures fault { result ≡ refusal (cut_line cut.old line.now) }
    ensures after { cut.new ≡ after_line cut.old (cut_line cut.old line.now) }
{
    if let Some(block) = named(line, cut)? {
        cut.put_left(block);
    }
    Ok(())
}

/// The objects that a line names. `None` for a line that is skipped.
#[tactic(auto, unfolding(crate::specs::CutLine::cut_line))]
fn named(line: &[u8], cut: &Cut) -> Result<Option<Block>, CutFault>
    ensures value { result ≡ cut_line cut.now line.now }
    ensures order { IfOk result (λ found. IfSome found (λ block. block.from ≤ block.to)) }
    ensures there { IfOk result (λ found.
        IfSome found (λ block. block.to < length (sides_of cut.now block.kind))) }
{
    if line.len() > LINE_LIMIT {
        return Err(CutFault::LineTooLong);
    }
    if !is_visible(line) {
        return Err(CutFault::BadByte);
    }
    if is_skipped(line) {
        return Ok(None);
    }
    asked(line, cut)
}

#[tactic(auto, unfolding(crate::specs::CutLine::asked_by))]
fn asked(line: &[u8], cut: &Cut) -> Result<Option<Block>, CutFault>
    ensures value { result ≡ asked_by cut.now (words_of line.now) }
    ensures order { IfOk result (λ found. IfSome found (λ block. block.from ≤ block.to)) }
    ensures there { IfOk result (λ found.
        IfSome found (λ block. block.to < length (sides_of cut.now block.kind))) }
{
    Ok(Some(by_first_word(line, cut)?))
}

#[tactic(auto, unfolding(crate::specs::CutLine::block_line))]
fn by_first_word(line: &[u8], cut: &Cut) -> Result<Block, CutFault>
    ensures value { result ≡ block_line cut.now (words_of line.now) }
    ensures order { IfOk result (λ block. block.from ≤ block.to) }
    ensures there { IfOk result (λ block. block.to < length (sides_of cut.now block.kind)) }
{
    if word(line, 0) == b"left".as_slice() {
        return left(line, cut);
    }
    Err(CutFault::UnknownCut)
}

#[tactic(auto, unfolding(crate::specs::CutLine::left_line))]
fn left(line: &[u8], cut: &Cut) -> Result<Block, CutFault>
    ensures value { result ≡ left_line cut.now (words_of line.now) }
    ensures order { IfOk result (λ block. block.from ≤ block.to) }
    ensures there { IfOk result (λ block. block.to < length (sides_of cut.now block.kind)) }
{
    has_words(line)?;
    let kind = read_kind(word(line, 1))?;
    Ok(read_block(kind, cut.size(kind), line, 2)?)
}

fn has_words(line: &[u8]) -> Result<(), CutFault>
    ensures { result ≡ ensured (length (words_of line.now) == 3
        || length (words_of line.now) == 4) WrongWords }
{
    let count = word_count(line);
    if count != 3 && count != 4 {
        return Err(CutFault::WrongWords);
    }
    Ok(())
}
