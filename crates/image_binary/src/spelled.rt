//! The capability that sixteen bytes spell.
ghost use Rattle.std.specs.Prelude.{◌≡◌, ◌+◌, ◌<◌, length, IfSome};
ghost use Rattle.image_binary.specs.Values.{uncounted_of};

use cap_format::{Cap, decode};

/// The capability that the bytes spell, where it has no count.
pub(crate) fn uncounted_of(bytes: &[u8]) -> Option<Cap>
    requires { length bytes.now ≡ 16 }
    ensures value { result ≡ uncounted_of bytes.now }
    ensures uncounted { IfSome result (λ cap. cap.count ≡ 0) }
{
    let mut spelling = [0; 16];
    spelling.copy_from_slice(bytes);
    let Ok(cap) = decode(&spelling) else {
        return None;
    };
    if cap.count() != 0 {
        return None;
    }
    Some(cap)
}
