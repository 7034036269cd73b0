//! Bytes written as pairs of hexadecimal digits.
ghost use Rattle.std.specs.Prelude.{◌≡◌, ◌≤◌, ◌*◌, ◌%◌, IfOk, IfSome, length};
ghost use Rattle.listing_read.specs.Bytes.{byte_of, bytes_of};
ghost use Rattle.listing_read.specs.StatementLines.{hex_bytes_of};

use crate::fault::Fault;
use crate::page_bytes::PageBytes;
use coy_text::hex_value;

/// 1 to 64 bytes.
#[tactic(auto, unfolding(crate::specs::StatementLines::hex_bytes_of))]
pub(crate) fn hex_bytes(digits: &[u8]) -> Result<PageBytes, Fault>
    ensures value { result ≡ hex_bytes_of digits.now }
    ensures some { IfOk result (λ bytes. 1 ≤ length bytes) }
{
    if digits.len() < 2 || digits.len() > 128 || digits.len() % 2 != 0 {
        return Err(Fault::BadHex);
    }
    match pairs(digits) {
        Some(bytes) => Ok(bytes),
        None => Err(Fault::BadHex),
    }
}

/// The bytes of the pairs. `None` where one of them is no digit.
fn pairs(digits: &[u8]) -> Option<PageBytes>
    requires most { length digits.now ≤ 128 }
    requires even { length digits.now % 2 ≡ 0 }
    ensures value { result ≡ bytes_of digits.now }
    ensures length { IfSome result (λ bytes. length bytes * 2 ≡ length digits.now) }
{
    let mut bytes = PageBytes::new();
    'pairs: for i in 0..digits.len() / 2 {
        bytes.push(byte(digits[2 * i], digits[2 * i + 1])?);
    }
    Some(bytes)
}

#[tactic(auto, unfolding(crate::specs::Bytes::byte_of))]
fn byte(high: u8, low: u8) -> Option<u8>
    ensures { result ≡ byte_of high low }
{
    Some(hex_value(high)? * 16 + hex_value(low)?)
}
