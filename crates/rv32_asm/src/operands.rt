//! The operands of an assembler line, each of which is a word.
ghost use Rattle.std.specs.Prelude.{◌≡◌, ◌<◌, ◌≤◌, ◌%◌, ◌^◌, ℤ, pos, negsuc, ◌≤ℤ◌, unsigned_abs, IfSome};
ghost use Rattle.rv32_decode.specs.InRange.{IsImmediate, IsBranchOffset, IsJumpOffset};
ghost use Rattle.rv32_asm.specs.Operands.{register_of, immediate_of, number_of, offset_of, natural_of, address_of};

use coy_text::{cut, read_dec, read_hex};

/// A register: `x0` to `x31`.
#[tactic(auto, unfolding(crate::specs::Operands::register_of))]
pub fn register(word: &[u8]) -> Option<u8>
    ensures value { result ≡ register_of word.now }
    ensures below { IfSome result (λ number. number < 32) }
{
    let digits = word.strip_prefix(b"x".as_slice())?;
    if word.len() > 2 && word[1] == b'0' {
        return None;
    }
    let number = read_dec(digits).ok()?;
    if number < 32 {
        Some(number as u8)
    } else {
        None
    }
}

/// An immediate of any size.
#[tactic(auto, unfolding(crate::specs::Operands::immediate_of))]
fn immediate(word: &[u8]) -> Option<i64>
    ensures { result ≡ immediate_of word.now }
{
    if let Some(digits) = word.strip_prefix(b"-".as_slice()) {
        return Some(-i64::from(read_dec(digits).ok()?));
    }
    if let Some(digits) = word.strip_prefix(b"0x".as_slice()) {
        return Some(i64::from(read_hex(digits).ok()?));
    }
    Some(i64::from(read_dec(word).ok()?))
}

/// An immediate from `low` to `high`.
#[tactic(auto, unfolding(crate::specs::Operands::number_of))]
pub fn number(low: i32, high: i32, word: &[u8]) -> Option<i32>
    ensures value { result ≡ number_of low high word.now }
    ensures bounds { IfSome result (λ number. (low ≤ℤ number) × (number ≤ℤ high)) }
{
    let number = immediate(word)?;
    if number < i64::from(low) || i64::from(high) < number {
        return None;
    }
    Some(number as i32)
}

/// A distance in bytes from `low` to `high`, which is even.
#[tactic(auto, unfolding(crate::specs::Operands::offset_of))]
pub fn offset(low: i32, high: i32, word: &[u8]) -> Option<i32>
    ensures value { result ≡ offset_of low high word.now }
    ensures bounds { IfSome result (λ off. (low ≤ℤ off) × (off ≤ℤ high)) }
    ensures even { IfSome result (λ off. unsigned_abs off % 2 ≡ 0) }
{
    let off = number(low, high, word)?;
    if off.unsigned_abs() % 2 == 0 {
        Some(off)
    } else {
        None
    }
}

/// An immediate from 0 to `most`.
#[tactic(auto, unfolding(crate::specs::Operands::natural_of))]
pub fn natural(most: u32, word: &[u8]) -> Option<u32>
    requires { most < 2 ^ 31 }
    ensures value { result ≡ natural_of most word.now }
    ensures bound { IfSome result (λ number. number ≤ most) }
{
    Some(number(0, most as i32, word)?.unsigned_abs())
}

/// An immediate of 12 bits.
pub fn immediate_12(word: &[u8]) -> Option<i32>
    ensures value { result ≡ number_of (negsuc 2047) (pos 2047) word.now }
    ensures range { IfSome result IsImmediate }
{
    number(-2048, 2047, word)
}

/// `imm(rs1)`: an immediate of 12 bits and a register.
#[tactic(auto, unfolding(crate::specs::Operands::address_of))]
pub fn address(word: &[u8]) -> Option<(i32, u8)>
    ensures value { result ≡ address_of word.now }
    ensures range { IfSome result (λ address. IsImmediate address.0 × (address.1 < 32)) }
{
    let (front, behind) = cut(word, b'(')?;
    let (base, rest) = cut(behind, b')')?;
    if !rest.is_empty() {
        return None;
    }
    let imm = immediate_12(front)?;
    let register = register(base)?;
    Some((imm, register))
}
