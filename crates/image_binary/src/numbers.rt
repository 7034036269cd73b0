//! Fields that are numbers.
ghost use Rattle.std.specs.Prelude.{◌≡◌, ◌+◌, ◌≤◌, ◌<◌, ◌%◌, length, IfOk};
ghost use Rattle.object_store.specs.Sizes.{size_in};
ghost use Rattle.byteorder.specs.Endian.{little_number};
ghost use Rattle.image_binary.specs.Fields.{Gives};
ghost use Rattle.image_binary.specs.Values.{between, word, object, first_page, offset, word_offset, length_from, code_address, allocation_count, size};

use crate::fault::ImageWord;
use crate::front::{front, wrong};
use crate::stop::Stop;
use byteorder::{ByteOrder, LittleEndian};
use cap_format::CapKind;
use listing_read::size_of;
use object_store::Sizes;

/// A number of one byte.
pub(crate) fn u8_in(front: &[u8]) -> u8
    requires { length front.now ≡ 1 }
    ensures { result ≡ little_number 1 front.now }
{
    front[0]
}

/// A number of two bytes.
fn u16_in(front: &[u8]) -> u16
    requires { length front.now ≡ 2 }
    ensures { result ≡ little_number 2 front.now }
{
    LittleEndian::read_u16(front)
}

/// A number of four bytes.
pub(crate) fn u32_in(front: &[u8]) -> u32
    requires { length front.now ≡ 4 }
    ensures { result ≡ little_number 4 front.now }
{
    LittleEndian::read_u32(front)
}

/// A byte from `least` to `most`.
#[tactic(auto, unfolding(crate::specs::Fields::field_of))]
pub(crate) fn byte_between(least: u8, most: u8, bytes: &[u8]) -> Result<(u8, &[u8]), Stop>
    ensures value { Gives result ((between least most).read bytes.now) }
    ensures least { IfOk result (λ x. least ≤ x.0) }
    ensures most { IfOk result (λ x. x.0 ≤ most) }
{
    let (front, rest) = front(1, bytes)?;
    let number = u8_in(front);
    if number < least || number > most {
        return Err(wrong(bytes, ImageWord::BadValue));
    }
    Ok((number, rest))
}

/// Any number of 32 bits.
#[tactic(auto, unfolding(crate::specs::Fields::field_of))]
pub(crate) fn any_word(bytes: &[u8]) -> Result<(u32, &[u8]), Stop>
    ensures { Gives result (word.read bytes.now) }
{
    let (front, rest) = front(4, bytes)?;
    Ok((u32_in(front), rest))
}

/// The number of an object of this kind, of which there are `size`.
#[tactic(auto, unfolding(crate::specs::Fields::field_of))]
pub(crate) fn object_number(sizes: Sizes, kind: CapKind, bytes: &[u8]) -> Result<(u16, &[u8]), Stop>
    ensures value { Gives result ((object sizes kind).read bytes.now) }
    ensures there { IfOk result (λ x. x.0 < size_in sizes kind) }
{
    let (front, rest) = front(2, bytes)?;
    let number = u16_in(front);
    if number >= size_of(sizes, kind) {
        return Err(wrong(bytes, ImageWord::NoObject));
    }
    Ok((number, rest))
}

/// The number of the first of so many pages that the machine has.
#[tactic(auto, unfolding(crate::specs::Fields::field_of))]
pub(crate) fn first_page_number(sizes: Sizes, count: u8, bytes: &[u8]) -> Result<(u16, &[u8]), Stop>
    ensures value { Gives result ((first_page sizes count).read bytes.now) }
    ensures there { IfOk result (λ x. x.0 + count ≤ sizes.pages) }
{
    let (front, rest) = front(2, bytes)?;
    let number = u16_in(front);
    if u32::from(number) + u32::from(count) > u32::from(sizes.pages) {
        return Err(wrong(bytes, ImageWord::NoObject));
    }
    Ok((number, rest))
}

/// An offset in a page.
#[tactic(auto, unfolding(crate::specs::Fields::field_of))]
pub(crate) fn page_offset(bytes: &[u8]) -> Result<(u16, &[u8]), Stop>
    ensures value { Gives result (offset.read bytes.now) }
    ensures most { IfOk result (λ x. x.0 ≤ 4095) }
{
    let (front, rest) = front(2, bytes)?;
    let number = u16_in(front);
    if number > 4095 {
        return Err(wrong(bytes, ImageWord::BadValue));
    }
    Ok((number, rest))
}

/// The offset of a whole word in a page.
#[tactic(auto, unfolding(crate::specs::Fields::field_of))]
pub(crate) fn offset_of_word(bytes: &[u8]) -> Result<(u16, &[u8]), Stop>
    ensures value { Gives result (word_offset.read bytes.now) }
    ensures within { IfOk result (λ x. x.0 + 4 ≤ 4096) }
    ensures aligned { IfOk result (λ x. x.0 % 4 ≡ 0) }
{
    let (front, rest) = front(2, bytes)?;
    let number = u16_in(front);
    if number > 4092 || number % 4 != 0 {
        return Err(wrong(bytes, ImageWord::BadValue));
    }
    Ok((number, rest))
}

/// How many bytes stand from offset `at` of a page on.
pub(crate) fn byte_count(at: u16, bytes: &[u8]) -> Result<(u8, &[u8]), Stop>
    requires { at ≤ 4095 }
    ensures value { Gives result ((length_from at).read bytes.now) }
    ensures some { IfOk result (λ x. 1 ≤ x.0) }
    ensures most { IfOk result (λ x. x.0 ≤ 64) }
    ensures within { IfOk result (λ x. at + x.0 ≤ 4096) }
{
    byte_between(1, (4096 - at).min(64) as u8, bytes)
}

/// A pc.
#[tactic(auto, unfolding(crate::specs::Fields::field_of))]
pub(crate) fn pc(bytes: &[u8]) -> Result<(u32, &[u8]), Stop>
    ensures value { Gives result (code_address.read bytes.now) }
    ensures aligned { IfOk result (λ x. x.0 % 4 ≡ 0) }
{
    let (front, rest) = front(4, bytes)?;
    let number = u32_in(front);
    if number % 4 != 0 {
        return Err(wrong(bytes, ImageWord::BadValue));
    }
    Ok((number, rest))
}

/// An allocation count.
#[tactic(auto, unfolding(crate::specs::Fields::field_of))]
pub(crate) fn count_number(bytes: &[u8]) -> Result<(u32, &[u8]), Stop>
    ensures value { Gives result (allocation_count.read bytes.now) }
    ensures most { IfOk result (λ x. x.0 ≤ 1048575) }
{
    let (front, rest) = front(4, bytes)?;
    let number = u32_in(front);
    if number > 1_048_575 {
        return Err(wrong(bytes, ImageWord::BadValue));
    }
    Ok((number, rest))
}

/// One of the six sizes, from `least` to `most`.
#[tactic(auto, unfolding(crate::specs::Fields::field_of))]
pub(crate) fn size_between(least: u16, most: u16, bytes: &[u8]) -> Result<(u16, &[u8]), Stop>
    ensures value { Gives result ((size least most).read bytes.now) }
    ensures least { IfOk result (λ x. least ≤ x.0) }
    ensures most { IfOk result (λ x. x.0 ≤ most) }
{
    let (front, rest) = front(2, bytes)?;
    let number = u16_in(front);
    if number < least || number > most {
        return Err(wrong(bytes, ImageWord::BadMachine));
    }
    Ok((number, rest))
}
