//! The one spelling of a capability in 16 bytes.

ghost use Rattle.std.specs.Prelude.{◌≡◌, ◌≤◌, ◌<◌, ◌+◌, ◌*◌, ◌/◌, ◌%◌, ◌↔◌, length, drop, IfOk, IfSome, IsTrue, true, false};
ghost use Rattle.byteorder.specs.Endian.{little_number};
ghost use Rattle.cap_format.specs.Kind.{is_memory, number_of};
ghost use Rattle.cap_format.specs.Capability.{Capability, IsCapability};
ghost use Rattle.cap_format.specs.Guard.{GuardValue, no_guard};
ghost use Rattle.cap_format.specs.Spelling.{FourBytes, HasNumber, HasNumbers, SpellingsDiffer, Spells, guard_number, spelling, type_of};

use crate::cap::Cap;
use crate::guard::Guard;
use crate::kind::CapKind;
use crate::restr::Restr;
use bitflags::Flags;
use byteorder::{ByteOrder, LittleEndian};

/// Bytes that spell no capability.
#[derive(Clone, Copy, Debug, PartialEq, Eq)]
pub enum CapFault {
    /// The type number is over 13.
    BadType,
    /// Some other field is out of its range.
    BadField,
}

/// The spelling of a capability.
pub fn encode(cap: Cap) -> [u8; 16]
    ensures spelling { result ≡ spelling cap }
    ensures range { IsCapability cap }
{
    let mut bytes = [0; 16];
    let head = u32::from(cap.kind().number())
        + 64 * u32::from(cap.restr().bits())
        + 4096 * cap.count();
    let second = if cap.kind().is_memory() {
        guard_word(cap.guard())
    } else {
        cap.payload()
    };
    LittleEndian::write_u32(&mut bytes, head);
    LittleEndian::write_u32(&mut bytes[4..], second);
    LittleEndian::write_u32(&mut bytes[8..], cap.object());
    LittleEndian::write_u32(&mut bytes[12..], u32::from(cap.slot()));
    bytes
}

/// The capability that the bytes spell. A type number that is too high is told before all else.
pub fn decode(bytes: &[u8; 16]) -> Result<Cap, CapFault>
    ensures ok { IfOk result (λ cap. Spells bytes.now cap) }
    ensures exact { (cap : Capability) → Spells bytes.now cap → result ≡ Ok cap }
    ensures bad_type { (result ≡ Err CapFault.BadType) ↔ (13 < type_of bytes.now) }
    ensures bad_field { (result ≡ Err CapFault.BadField)
        ↔ ((type_of bytes.now ≤ 13) × ((cap : Capability) → ¬ Spells bytes.now cap)) }
{
    let Some(kind) = CapKind::from_number(word_at(bytes, 0) % 64) else {
        return Err(CapFault::BadType);
    };
    let Some(cap) = spelled(kind, bytes) else {
        return Err(CapFault::BadField);
    };
    Ok(cap)
}

/// What is written reads back.
pub fn reads_back(cap: Cap) -> Result<Cap, CapFault>
    ensures { result ≡ Ok cap }
{
    decode(&encode(cap))
}

/// No two capabilities have one spelling.
pub fn spellings_differ()
    ensures { SpellingsDiffer }
{}

/// Four bytes, the lowest first, are a number of 32 bits, and such a number is four bytes.
pub fn four_bytes()
    ensures { FourBytes }
{}

/// The capability of this kind that the bytes spell, if there is one.
fn spelled(kind: CapKind, bytes: &[u8; 16]) -> Option<Cap>
    requires { number_of kind ≡ type_of bytes.now }
    ensures some { IfSome result (λ cap. Spells bytes.now cap) }
    ensures exact { (cap : Capability) → Spells bytes.now cap → result ≡ Some cap }
{
    let Some(cap) = of_numbers(
        kind,
        word_at(bytes, 0),
        word_at(bytes, 4),
        word_at(bytes, 8),
        word_at(bytes, 12),
    ) else {
        return None;
    };
    if !is_spelling(bytes, cap) {
        return None;
    }
    Some(cap)
}

/// Whether the bytes are those of the capability: no bit that it does not use may be set.
fn is_spelling(bytes: &[u8; 16], cap: Cap) -> bool
    ensures { IsTrue result ↔ (bytes.now ≡ spelling cap) }
{
    encode(cap) == *bytes
}

/// The number in the four bytes from `at`.
fn word_at(bytes: &[u8; 16], at: usize) -> u32
    requires { at ≤ 12 }
    ensures { result ≡ little_number 4 (drop at bytes.now) }
{
    LittleEndian::read_u32(&bytes[at..])
}

/// A guard in 32 bits.
fn guard_word(guard: Guard) -> u32
    ensures { result ≡ guard_number guard }
{
    u32::from(guard.l2g()) + 4096 * guard.matches()
}

/// The one capability that could have these numbers in its spelling, if there is one.
fn of_numbers(kind: CapKind, head: u32, second: u32, object: u32, slot: u32) -> Option<Cap>
    ensures { (cap : Capability) → HasNumbers cap kind head second object slot → result ≡ Some cap }
{
    let restr = Restr::from_bits_retain((head / 64 % 32) as u8);
    let Some(guard) = guard_in(kind, second) else {
        return None;
    };
    let payload = if kind.is_memory() { 0 } else { second };
    if slot > 15 {
        return None;
    }
    Cap::try_new(kind, restr, head / 4096, guard, object, payload, slot as u8)
}

/// The one guard that a capability of this kind could have with this second number.
fn guard_in(kind: CapKind, second: u32) -> Option<Guard>
    ensures memory { (guard : GuardValue) → is_memory kind ≡ true →
        HasNumber guard second → result ≡ Some guard }
    ensures other { is_memory kind ≡ false → result ≡ Some no_guard }
{
    if !kind.is_memory() {
        return Some(Guard::page());
    }
    Guard::new((second % 64) as u8, second / 4096).ok()
}
