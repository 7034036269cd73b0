//! Powers of two, up to that of the whole space.

ghost use Rattle.std.specs.Prelude.{◌≡◌, ◌≤◌, ◌<◌, ◌^◌};

/// `2^l2`, for `l2` up to 32.
pub fn size(l2: u8) -> u64
    requires { l2 ≤ 32 }
    ensures value { result ≡ 2 ^ l2 }
    ensures positive { 0 < result }
{
    1u64 << l2
}
