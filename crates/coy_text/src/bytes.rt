//! Bytes as they are written.
ghost use Rattle.std.specs.Prelude.{◌≡◌, ◌≤◌, ◌+◌, ◌*◌, ◌++◌, length};
ghost use Rattle.coy_text.specs.Bytes.{bytes_text};

use crate::LineBuf;

/// Appends two digits for each byte.
pub fn push_bytes(line: &mut LineBuf, bytes: &[u8])
    requires room { length line.old ≤ 400 }
    requires most { length bytes.now ≤ 256 }
    ensures text { line.new ≡ line.old ++ bytes_text bytes.now }
    ensures len { length line.new ≡ length line.old + 2 * length bytes.now }
{
    'bytes: for byte in bytes {
        line.push_hex(*byte as u32, 2);
    }
}
