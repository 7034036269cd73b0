//! The fields of a line of a question.
ghost use Rattle.std.specs.Prelude.{◌≡◌, ◌<◌, ◌≤◌, ◌+◌, ◌==◌, length, IfOk};
ghost use Rattle.object_store.specs.Sizes.{size_in};
ghost use Rattle.listing_read.specs.Faults.{ensured};
ghost use Rattle.listing_read.specs.declared.object_fault.QuestionFault.TheVariants.{WrongWords};
ghost use Rattle.questions.specs.Term.{bytes_in};
ghost use Rattle.question_lines.specs.Fields.{code_from, hart_from, limit_from, number_from, object_from, offset_in, register_from, times_from, value_from};

use cap_format::{CapKind, FaultCode};
use coy_text::{read_dec, read_hex};
use listing_read::{QuestionFault, size_of};
use object_store::Sizes;
use questions::Width;

/// There are so many words.
pub(crate) fn has_words(count: usize, wanted: usize) -> Result<(), QuestionFault>
    ensures { result ≡ ensured (count == wanted) WrongWords }
{
    if count != wanted {
        return Err(QuestionFault::WrongWords);
    }
    Ok(())
}

/// A decimal number.
pub(crate) fn number(word: &[u8]) -> Result<u32, QuestionFault>
    ensures { result ≡ number_from word.now }
{
    match read_dec(word) {
        Ok(value) => Ok(value),
        Err(_) => Err(QuestionFault::BadNumber),
    }
}

/// An address or a value.
pub(crate) fn value(word: &[u8]) -> Result<u32, QuestionFault>
    ensures { result ≡ value_from word.now }
{
    match read_hex(word) {
        Ok(value) => Ok(value),
        Err(_) => Err(QuestionFault::BadNumber),
    }
}

/// A hart of so many.
#[tactic(auto, unfolding(crate::specs::Fields::hart_from))]
pub(crate) fn hart(harts: u8, word: &[u8]) -> Result<u8, QuestionFault>
    ensures value { result ≡ hart_from harts word.now }
    ensures there { IfOk result (λ hart. hart < harts) }
{
    let value = number(word)?;
    if value >= harts as u32 {
        return Err(QuestionFault::NoHart);
    }
    Ok(value as u8)
}

/// How many steps.
#[tactic(auto, unfolding(crate::specs::Fields::times_from))]
pub(crate) fn times(word: &[u8]) -> Result<u32, QuestionFault>
    ensures value { result ≡ times_from word.now }
    ensures least { IfOk result (λ n. 1 ≤ n) }
    ensures most { IfOk result (λ n. n ≤ 1000000) }
{
    let value = number(word)?;
    if value < 1 || value > 1_000_000 {
        return Err(QuestionFault::BadRepeat);
    }
    Ok(value)
}

/// An object of a kind.
#[tactic(auto, unfolding(crate::specs::Fields::object_from))]
pub(crate) fn object(sizes: Sizes, kind: CapKind, word: &[u8]) -> Result<u16, QuestionFault>
    ensures value { result ≡ object_from sizes kind word.now }
    ensures there { IfOk result (λ n. n < size_in sizes kind) }
{
    let value = number(word)?;
    if value >= size_of(sizes, kind) as u32 {
        return Err(QuestionFault::NoObject);
    }
    Ok(value as u16)
}

/// A register.
#[tactic(auto, unfolding(crate::specs::Fields::register_from))]
pub(crate) fn register(word: &[u8]) -> Result<u8, QuestionFault>
    ensures value { result ≡ register_from word.now }
    ensures there { IfOk result (λ n. n ≤ 31) }
{
    let value = number(word)?;
    if value > 31 {
        return Err(QuestionFault::BadRegister);
    }
    Ok(value as u8)
}

/// The offset of so many bytes in a page.
#[tactic(auto, unfolding(crate::specs::Fields::offset_in))]
pub(crate) fn offset(width: Width, word: &[u8]) -> Result<u16, QuestionFault>
    ensures value { result ≡ offset_in width word.now }
    ensures within { IfOk result (λ n. n + bytes_in width ≤ 4096) }
{
    let count = bytes_in(width);
    let value = value(word)?;
    if value > 4096 - count || value % count != 0 {
        return Err(QuestionFault::BadOffset);
    }
    Ok(value as u16)
}

/// How many bytes are read.
fn bytes_in(width: Width) -> u32
    ensures value { result ≡ bytes_in width }
    ensures least { 1 ≤ result }
    ensures most { result ≤ 4 }
{
    match width {
        Width::Byte => 1,
        Width::Half => 2,
        Width::Word => 4,
    }
}

/// How many states are kept.
#[tactic(auto, unfolding(crate::specs::Fields::limit_from))]
pub(crate) fn limit(word: &[u8]) -> Result<u32, QuestionFault>
    ensures value { result ≡ limit_from word.now }
    ensures some { IfOk result (λ n. 1 ≤ n) }
{
    let value = number(word)?;
    if value < 1 {
        return Err(QuestionFault::BadLimit);
    }
    Ok(value)
}

/// A fault by its name.
#[tactic(auto, unfolding(crate::specs::Fields::code_from))]
pub(crate) fn code(word: &[u8]) -> Result<FaultCode, QuestionFault>
    ensures { result ≡ code_from word.now }
{
    if word == b"InvalidDataReference".as_slice() {
        return Ok(FaultCode::InvalidDataReference);
    }
    if word == b"InvalidCapReference".as_slice() {
        return Ok(FaultCode::InvalidCapReference);
    }
    if word == b"DataAccessTypeError".as_slice() {
        return Ok(FaultCode::DataAccessTypeError);
    }
    if word == b"CapAccessTypeError".as_slice() {
        return Ok(FaultCode::CapAccessTypeError);
    }
    if word == b"AccessViolation".as_slice() {
        return Ok(FaultCode::AccessViolation);
    }
    if word == b"MalformedSpace".as_slice() {
        return Ok(FaultCode::MalformedSpace);
    }
    if word == b"NoSchedule".as_slice() {
        return Ok(FaultCode::NoSchedule);
    }
    if word == b"MalformedSyscall".as_slice() {
        return Ok(FaultCode::MalformedSyscall);
    }
    if word == b"BadAlign".as_slice() {
        return Ok(FaultCode::BadAlign);
    }
    if word == b"BadOpcode".as_slice() {
        return Ok(FaultCode::BadOpcode);
    }
    if word == b"Breakpoint".as_slice() {
        return Ok(FaultCode::Breakpoint);
    }
    Err(QuestionFault::BadCode)
}
