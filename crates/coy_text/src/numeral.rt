//! Numbers of 32 bits as words of text.
ghost use Rattle.std.specs.Prelude.{ℕ, ◌≡◌, ◌<◌, ◌≤◌, ◌^◌, Some, IfSome, decimal};
ghost use Rattle.std.specs.Result.{result_ok};
ghost use Rattle.coy_text.specs.Numeral.{dec_digit, hex_digit, dec_of, hex_of, hex_text};

use thiserror::Error;

/// The word is no number of the wanted form.
#[derive(Clone, Copy, Debug, Error)]
#[error("no number")]
pub struct BadNumber;

/// The digit that the byte stands for in decimal.
fn dec_value(byte: u8) -> Option<u8>
    ensures value { result ≡ dec_digit byte }
    ensures below { IfSome result (λ digit. digit < 10) }
{
    match byte {
        b'0'..=b'9' => Some(byte - b'0'),
        _ => None,
    }
}

/// The digit that the byte stands for in hexadecimal, in either case.
pub fn hex_value(byte: u8) -> Option<u8>
    ensures value { result ≡ hex_digit byte }
    ensures below { IfSome result (λ digit. digit < 16) }
{
    if b'0' <= byte && byte <= b'9' {
        return Some(byte - b'0');
    }
    if b'a' <= byte && byte <= b'f' {
        return Some(byte - b'a' + 10);
    }
    if b'A' <= byte && byte <= b'F' {
        return Some(byte - b'A' + 10);
    }
    None
}

/// Reads a word of 1 to 10 decimal digits whose value is at most 4,294,967,295. Leading zeros are allowed.
#[tactic(auto, using(crate::proofs::Numerals::ten_digits_fit, crate::proofs::Numerals::one_more_digit), unfolding(crate::specs::Numeral::dec_of))]
pub fn read_dec(word: &[u8]) -> Result<u32, BadNumber>
    ensures { result_ok result ≡ dec_of word.now }
{
    if word.is_empty() || word.len() > 10 {
        return Err(BadNumber);
    }
    let mut value: u64 = 0;
    for byte in word {
        let Some(digit) = dec_value(*byte) else {
            return Err(BadNumber);
        };
        value = value * 10 + u64::from(digit);
    }
    u32::try_from(value).ok().ok_or(BadNumber)
}

/// Reads a word of 1 to 8 hexadecimal digits of either case. Leading zeros are allowed.
#[tactic(auto, using(crate::proofs::Numerals::eight_digits_fit, crate::proofs::Numerals::one_more_digit), unfolding(crate::specs::Numeral::hex_of))]
pub fn read_hex(word: &[u8]) -> Result<u32, BadNumber>
    ensures { result_ok result ≡ hex_of word.now }
{
    if word.is_empty() || word.len() > 8 {
        return Err(BadNumber);
    }
    let mut value: u32 = 0;
    for byte in word {
        let Some(digit) = hex_value(*byte) else {
            return Err(BadNumber);
        };
        value = value * 16 + u32::from(digit);
    }
    Ok(value)
}

/// The law that a number which is written is read again, in decimal and in any number of hexadecimal digits that
/// holds it.
pub fn numbers_read_back()
    ensures dec { (n : ℕ) → n < 2 ^ 32 → dec_of (decimal n) ≡ Some n }
    ensures hex { (k n : ℕ) → 1 ≤ k → k ≤ 8 → n < 16 ^ k → hex_of (hex_text k n) ≡ Some n }
{}
