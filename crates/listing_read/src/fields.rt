//! The fields of a line, each with its faults in their order.
ghost use Rattle.std.specs.Prelude.{◌<◌, ◌≤◌, ◌%◌, ◌≡◌, ◌^◌, ◌==◌, ◌+◌, length, IfOk};
ghost use Rattle.object_store.specs.Sizes.{size_in};
ghost use Rattle.listing_read.specs.declared.fault.Fault.TheVariants.{WrongWords};
ghost use Rattle.listing_read.specs.Faults.{ensured};
ghost use Rattle.listing_read.specs.Fields.{decimal_of, hex_number_of, there_of, plain_object_of, named_number_of, number_of_object, object_of, first_page_of, between_of, hex_to, aligned_to, either_of};

use crate::fault::Fault;
use crate::terms::{Terms, size_of};
use cap_format::CapKind;
use cap_words::{called, read_name};
use coy_text::{LineWords, read_dec, read_hex};
use object_store::Sizes;

/// The line has so many words.
pub(crate) fn has_words(words: &LineWords<'_>, count: usize) -> Result<(), Fault>
    ensures { result ≡ ensured (length words.now == count) WrongWords }
{
    if words.count() != count {
        return Err(Fault::WrongWords);
    }
    Ok(())
}

/// A decimal number.
pub(crate) fn number(word: &[u8]) -> Result<u32, Fault>
    ensures { result ≡ decimal_of word.now }
{
    match read_dec(word) {
        Ok(value) => Ok(value),
        Err(_) => Err(Fault::BadNumber),
    }
}

/// A hexadecimal number.
pub(crate) fn hexadecimal(word: &[u8]) -> Result<u32, Fault>
    ensures { result ≡ hex_number_of word.now }
{
    match read_hex(word) {
        Ok(value) => Ok(value),
        Err(_) => Err(Fault::BadNumber),
    }
}

/// The machine has an object of this number.
fn there(sizes: Sizes, kind: CapKind, number: u32) -> Result<u16, Fault>
    ensures value { result ≡ there_of sizes kind number }
    ensures there { IfOk result (λ n. n < size_in sizes kind) }
{
    if number >= size_of(sizes, kind) as u32 {
        return Err(Fault::NoObject);
    }
    Ok(number as u16)
}

/// The number of an object, in decimal alone.
#[tactic(auto, unfolding(crate::specs::Fields::plain_object_of))]
pub(crate) fn plain_object(sizes: Sizes, kind: CapKind, word: &[u8]) -> Result<u16, Fault>
    ensures value { result ≡ plain_object_of sizes kind word.now }
    ensures there { IfOk result (λ n. n < size_in sizes kind) }
{
    there(sizes, kind, number(word)?)
}

/// The number of the object for which a name stands.
#[tactic(auto, unfolding(crate::specs::Fields::named_number_of))]
fn named_number(terms: &Terms, kind: CapKind, word: &[u8]) -> Result<u16, Fault>
    ensures { result ≡ named_number_of terms.now kind word.now }
{
    let Some(name) = read_name(word) else {
        return Err(Fault::BadName);
    };
    terms
        .names
        .number_called(kind, name.as_slice())
        .ok_or(Fault::NameUnknown)
}

/// The number of an object, or that for which the name behind a `$` stands.
#[tactic(auto, unfolding(crate::specs::Fields::number_of_object))]
fn object_number(terms: &Terms, kind: CapKind, word: &[u8]) -> Result<u32, Fault>
    ensures { result ≡ number_of_object terms.now kind word.now }
{
    match called(terms.version.has_names(), word) {
        Some(name) => Ok(named_number(terms, kind, name)? as u32),
        None => number(word),
    }
}

/// The number of an object that the machine has.
#[tactic(auto, unfolding(crate::specs::Fields::object_of))]
pub(crate) fn object(terms: &Terms, kind: CapKind, word: &[u8]) -> Result<u16, Fault>
    ensures value { result ≡ object_of terms.now kind word.now }
    ensures there { IfOk result (λ n. n < size_in terms.now.sizes kind) }
{
    there(terms.sizes, kind, object_number(terms, kind, word)?)
}

/// The number of the first of so many pages that the machine has.
#[tactic(auto, unfolding(crate::specs::Fields::first_page_of))]
pub(crate) fn first_page(terms: &Terms, count: u32, word: &[u8]) -> Result<u16, Fault>
    requires { count ≤ 16 }
    ensures value { result ≡ first_page_of terms.now count word.now }
    ensures there { IfOk result (λ n. n + count ≤ terms.now.sizes.pages) }
{
    let number = object_number(terms, CapKind::Page, word)?;
    if number as u64 + count as u64 > terms.sizes.pages as u64 {
        return Err(Fault::NoObject);
    }
    Ok(number as u16)
}

/// A decimal number from `least` to `most`.
#[tactic(auto, unfolding(crate::specs::Fields::between_of))]
pub(crate) fn between(least: u32, most: u32, word: &[u8]) -> Result<u32, Fault>
    ensures value { result ≡ between_of least most word.now }
    ensures least { IfOk result (λ n. least ≤ n) }
    ensures most { IfOk result (λ n. n ≤ most) }
{
    let value = number(word)?;
    if value < least || value > most {
        return Err(Fault::BadValue);
    }
    Ok(value)
}

/// A hexadecimal number of at most `most`.
#[tactic(auto, unfolding(crate::specs::Fields::hex_to))]
pub(crate) fn hexadecimal_to(most: u32, word: &[u8]) -> Result<u32, Fault>
    ensures value { result ≡ hex_to most word.now }
    ensures most { IfOk result (λ n. n ≤ most) }
{
    let value = hexadecimal(word)?;
    if value > most {
        return Err(Fault::BadValue);
    }
    Ok(value)
}

/// A hexadecimal number of at most `most` that is a multiple of 4.
#[tactic(auto, unfolding(crate::specs::Fields::aligned_to))]
pub(crate) fn aligned(most: u32, word: &[u8]) -> Result<u32, Fault>
    ensures value { result ≡ aligned_to most word.now }
    ensures most { IfOk result (λ n. n ≤ most) }
    ensures aligned { IfOk result (λ n. n % 4 ≡ 0) }
{
    let value = hexadecimal(word)?;
    if value > most || value % 4 != 0 {
        return Err(Fault::BadValue);
    }
    Ok(value)
}

/// Whether the word is the first of two, and it is one of them.
#[tactic(auto, unfolding(crate::specs::Fields::either_of))]
pub(crate) fn either(first: &[u8], second: &[u8], word: &[u8]) -> Result<bool, Fault>
    ensures { result ≡ either_of first.now second.now word.now }
{
    if word == first {
        return Ok(true);
    }
    if word == second {
        return Ok(false);
    }
    Err(Fault::BadValue)
}
