//! The fields of an instruction's word, and the immediates that they make.

ghost use Rattle.rv32_decode.specs.Word.{unsigned};
ghost use Rattle.std.specs.Prelude.{◌≡◌, ℕ, ◌+◌, ◌*◌, ◌^◌, ◌<◌, ◌≤◌};
ghost use Rattle.rv32_decode.specs.Fields.{bits, signed, i_immediate, s_immediate, b_immediate, j_immediate};

/// The bits of a word from `high` down to `low`.
pub(crate) fn field(word: u32, high: u32, low: u32) -> u32
    requires order { low ≤ high }
    requires within { high < 32 }
    ensures { result ≡ bits word high low }
{
    let width = high + 1 - low;
    let above = 1u64 << width;
    (u64::from(word >> low) % above) as u32
}

/// The number of the register whose field begins at bit `low`.
pub(crate) fn register(word: u32, low: u32) -> u8
    requires { low < 28 }
    ensures { result ≡ bits word (low + 4) low }
{
    field(word, low + 4, low) as u8
}

/// The number that bits say in two's complement, the highest of them with the weight `sign`.
fn sign_extend(value: u32, sign: u32) -> i32
    requires room { sign ≤ 2 ^ 20 }
    requires fits { value < 2 * sign }
    ensures value { result ≡ signed sign value }
    ensures back { unsigned sign result ≡ value }
{
    if value < sign {
        value as i32
    } else {
        value as i32 - (2 * sign) as i32
    }
}

/// The immediate of format I.
pub(crate) fn immediate_i(word: u32) -> i32
    ensures value { result ≡ i_immediate word }
    ensures back { unsigned (2 ^ 11) result ≡ bits word 31 20 }
{
    sign_extend(field(word, 31, 20), 1 << 11)
}

/// The immediate of format S.
pub(crate) fn immediate_s(word: u32) -> i32
    ensures value { result ≡ s_immediate word }
    ensures back { unsigned (2 ^ 11) result ≡ bits word 31 25 * 2 ^ 5 + bits word 11 7 }
{
    let number = (field(word, 31, 25) << 5) + field(word, 11, 7);
    sign_extend(number, 1 << 11)
}

/// The immediate of format B.
pub(crate) fn immediate_b(word: u32) -> i32
    ensures value { result ≡ b_immediate word }
    ensures back { unsigned (2 ^ 12) result
        ≡ bits word 31 31 * 2 ^ 12 + bits word 7 7 * 2 ^ 11 + bits word 30 25 * 2 ^ 5 + bits word 11 8 * 2 }
{
    let high = (field(word, 31, 31) << 12) + (field(word, 7, 7) << 11);
    let low = (field(word, 30, 25) << 5) + (field(word, 11, 8) << 1);
    sign_extend(high + low, 1 << 12)
}

/// The immediate of format J.
pub(crate) fn immediate_j(word: u32) -> i32
    ensures value { result ≡ j_immediate word }
    ensures back { unsigned (2 ^ 20) result
        ≡ bits word 31 31 * 2 ^ 20 + bits word 19 12 * 2 ^ 12 + bits word 20 20 * 2 ^ 11 + bits word 30 21 * 2 }
{
    let high = (field(word, 31, 31) << 20) + (field(word, 19, 12) << 12);
    let low = (field(word, 20, 20) << 11) + (field(word, 30, 21) << 1);
    sign_extend(high + low, 1 << 20)
}
