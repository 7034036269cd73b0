//! Fields that are more than numbers.
ghost use Rattle.std.specs.Prelude.{◌≡◌, ◌≤◌, true, length, drop, IfOk, IfSome, OnOk};
ghost use Rattle.cap_format.specs.Kind.{is_object};
ghost use Rattle.rv32_decode.specs.InRange.{InRange};
ghost use Rattle.listing_read.specs.CapWord.{IsStated};
ghost use Rattle.listing_read.specs.Statement.{is_recipient};
ghost use Rattle.image_binary.specs.Fields.{Gives, GivesAt};
ghost use Rattle.image_binary.specs.Values.{mark, flags, magic, kind_of_object, object_kind_with, instruction, instruction_with, cap, recipient, is_there};

use crate::fault::ImageWord;
use crate::front::{front, wrong};
use crate::numbers::{u8_in, u32_in};
use crate::spelled::uncounted_of;
use crate::stop::Stop;
use cap_format::{Cap, CapKind};
use listing_read::size_of;
use object_store::Sizes;
use rv32_decode::Insn;

/// Whether something is so.
#[tactic(auto, unfolding(crate::specs::Fields::field_of, crate::specs::Values::mark_of))]
pub(crate) fn mark(bytes: &[u8]) -> Result<(bool, &[u8]), Stop>
    ensures { Gives result (mark.read bytes.now) }
{
    let (front, rest) = front(1, bytes)?;
    let number = u8_in(front);
    if number > 1 {
        return Err(wrong(bytes, ImageWord::BadValue));
    }
    Ok((number == 1, rest))
}

/// The flags of a GPT: whether it has a handler, and whether it has a background.
#[tactic(auto, unfolding(crate::specs::Fields::field_of, crate::specs::Values::flags_of))]
pub(crate) fn flags(bytes: &[u8]) -> Result<((bool, bool), &[u8]), Stop>
    ensures { Gives result (flags.read bytes.now) }
{
    let (front, rest) = front(1, bytes)?;
    let number = u8_in(front);
    if number > 3 {
        return Err(wrong(bytes, ImageWord::BadValue));
    }
    Ok(((number % 2 == 1, number >= 2), rest))
}

/// The eight letters at the start of an image.
#[tactic(auto, unfolding(crate::specs::Fields::field_of, crate::specs::Values::magic_of))]
pub(crate) fn magic(bytes: &[u8]) -> Result<((), &[u8]), Stop>
    ensures { Gives result (magic.read bytes.now) }
{
    let (front, rest) = front(8, bytes)?;
    if front != b"COYIMG02".as_slice() {
        return Err(wrong(bytes, ImageWord::BadMagic));
    }
    Ok(((), rest))
}

/// A kind of objects.
#[tactic(auto, unfolding(crate::specs::Fields::field_of, crate::specs::Values::object_kind_of))]
pub(crate) fn kind_of_object(bytes: &[u8]) -> Result<(CapKind, &[u8]), Stop>
    ensures value { Gives result (kind_of_object.read bytes.now) }
    ensures object { IfOk result (λ x. is_object x.0 ≡ true) }
{
    let (front, rest) = front(1, bytes)?;
    let Some(kind) = object_kind_with(u8_in(front)) else {
        return Err(wrong(bytes, ImageWord::BadValue));
    };
    Ok((kind, rest))
}

/// The kind of objects that has a type number.
#[tactic(auto, unfolding(crate::specs::Values::object_kinds))]
fn object_kind_with(number: u8) -> Option<CapKind>
    ensures value { result ≡ object_kind_with number }
    ensures object { IfSome result (λ kind. is_object kind ≡ true) }
{
    match number {
        1 => Some(CapKind::Page),
        2 => Some(CapKind::CapPage),
        3 => Some(CapKind::Gpt),
        6 => Some(CapKind::Endpoint),
        8 => Some(CapKind::Process),
        _ => None,
    }
}

/// An instruction, by the one word that is written for it.
#[tactic(auto, unfolding(crate::specs::Fields::field_of, crate::specs::Values::instruction_of))]
pub(crate) fn instruction(bytes: &[u8]) -> Result<(Insn, &[u8]), Stop>
    ensures value { Gives result (instruction.read bytes.now) }
    ensures range { IfOk result (λ x. InRange x.0) }
{
    let (front, rest) = front(4, bytes)?;
    let Some(insn) = instruction_with(u32_in(front)) else {
        return Err(wrong(bytes, ImageWord::BadInstruction));
    };
    Ok((insn, rest))
}

/// The instruction of which this is the word.
fn instruction_with(word: u32) -> Option<Insn>
    ensures value { result ≡ instruction_with word }
    ensures range { IfSome result InRange }
{
    let insn = rv32_decode::decode(word).ok()?;
    if rv32_decode::encode(insn) != word {
        return None;
    }
    Some(insn)
}

/// A capability without a count.
#[tactic(auto, unfolding(crate::specs::Fields::field_of, crate::specs::Values::cap_of))]
pub(crate) fn capability(sizes: Sizes, bytes: &[u8]) -> Result<Cap, Stop>
    ensures value { GivesAt 16 bytes.now result ((cap sizes).read bytes.now) }
    ensures whole { OnOk result (16 ≤ length bytes.now) }
    ensures stated { IfOk result (IsStated sizes) }
{
    let (front, _) = front(16, bytes)?;
    let Some(cap) = uncounted_of(front) else {
        return Err(wrong(bytes, ImageWord::BadCap));
    };
    if !is_there(sizes, cap) {
        return Err(wrong(bytes, ImageWord::NoObject));
    }
    Ok(cap)
}

/// The bytes behind a capability.
pub(crate) fn behind_capability(bytes: &[u8]) -> &[u8]
    requires { 16 ≤ length bytes.now }
    ensures { result.now ≡ drop 16 bytes.now }
{
    &bytes[16..]
}

/// A capability to a process, or to nothing, without a count.
#[tactic(auto, unfolding(crate::specs::Fields::field_of, crate::specs::Values::recipient_of))]
pub(crate) fn recipient(sizes: Sizes, bytes: &[u8]) -> Result<Cap, Stop>
    ensures value { GivesAt 16 bytes.now result ((recipient sizes).read bytes.now) }
    ensures whole { OnOk result (16 ≤ length bytes.now) }
    ensures kind { IfOk result (λ cap. is_recipient cap.kind ≡ true) }
    ensures stated { IfOk result (IsStated sizes) }
{
    let (front, _) = front(16, bytes)?;
    let Some(cap) = uncounted_of(front) else {
        return Err(wrong(bytes, ImageWord::BadCap));
    };
    if !matches!(cap.kind(), CapKind::Process | CapKind::Null) {
        return Err(wrong(bytes, ImageWord::BadCap));
    }
    if !is_there(sizes, cap) {
        return Err(wrong(bytes, ImageWord::NoObject));
    }
    Ok(cap)
}

/// Whether the machine has the object that is named, if one is.
fn is_there(sizes: Sizes, cap: Cap) -> bool
    ensures { result ≡ is_there sizes cap }
{
    !cap.kind().is_counted() || cap.object() < u32::from(size_of(sizes, cap.kind().object_kind()))
}
