//! The flags of a GPT's header.
ghost use Rattle.std.specs.Prelude.{◌≡◌};
ghost use Rattle.listing_read.specs.StatementLines.{flags_of, one_flag, both_flags};

use crate::fault::Fault;
use coy_text::LineWords;

/// The flags of a GPT, behind its number and its size.
#[tactic(auto, unfolding(crate::specs::StatementLines::flags_of))]
pub(crate) fn flags(words: &LineWords<'_>) -> Result<(bool, bool), Fault>
    ensures { result ≡ flags_of words.now }
{
    match words.count() {
        3 => Ok((false, false)),
        4 => one_flag(words.word(3)),
        _ => both_flags(words.word(3), words.word(4)),
    }
}

fn one_flag(flag: &[u8]) -> Result<(bool, bool), Fault>
    ensures { result ≡ one_flag flag.now }
{
    if flag == b"ha".as_slice() {
        return Ok((true, false));
    }
    if flag == b"bg".as_slice() {
        return Ok((false, true));
    }
    Err(Fault::BadValue)
}

fn both_flags(first: &[u8], second: &[u8]) -> Result<(bool, bool), Fault>
    ensures { result ≡ both_flags first.now second.now }
{
    if first == b"ha".as_slice() && second == b"bg".as_slice() {
        return Ok((true, true));
    }
    Err(Fault::BadValue)
}
