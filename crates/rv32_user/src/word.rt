//! Registers, and the arithmetic of their words.
ghost use Rattle.std.specs.Prelude.{◌≡◌, ◌*◌, ◌/◌, ◌^◌, ◌<◌};
ghost use Rattle.rv32_user.specs.Size.{IsSize};
ghost use Rattle.rv32_user.specs.Word.{word_of, signed_word, plus, sum_of, difference_of, shifted_left, shifted_right, shifted_right_signed, low_bytes, extended, is_aligned, next_of};
ghost use Rattle.rv32_user.specs.Registers.{register, with_register};

/// What is read from a register: 0 from x0.
pub fn register(regs: &[u32; 32], number: u8) -> u32
    requires { number < 32 }
    ensures { result ≡ register regs.now number }
{
    if number == 0 {
        0
    } else {
        regs[usize::from(number)]
    }
}

/// Writes a register. A write to x0 does nothing.
pub fn write(regs: &mut [u32; 32], number: u8, value: u32)
    requires { number < 32 }
    ensures { regs.new ≡ with_register regs.old number value }
{
    if number != 0 {
        regs[usize::from(number)] = value;
    }
}

pub fn unsigned(number: i32) -> u32
    ensures { result ≡ word_of number }
{
    number.cast_unsigned()
}

pub fn signed(value: u32) -> i32
    ensures { result ≡ signed_word value }
{
    value.cast_signed()
}

pub fn plus(value: u32, number: i32) -> u32
    ensures { result ≡ plus value number }
{
    value.wrapping_add_signed(number)
}

pub fn sum(a: u32, b: u32) -> u32
    ensures { result ≡ sum_of a b }
{
    a.wrapping_add(b)
}

pub fn difference(a: u32, b: u32) -> u32
    ensures { result ≡ difference_of a b }
{
    a.wrapping_sub(b)
}

/// A word and an upper immediate, which counts from bit 12 on.
pub fn upper(value: u32, imm: u32) -> u32
    requires { imm < 2 ^ 20 }
    ensures { result ≡ sum_of value (imm * 2 ^ 12) }
{
    sum(value, imm << 12)
}

/// The word without its lowest bit.
pub fn even(value: u32) -> u32
    ensures { result ≡ value / 2 * 2 }
{
    value & !1
}

pub fn shifted_left(value: u32, by: u32) -> u32
    ensures { result ≡ shifted_left value by }
{
    value.wrapping_shl(by)
}

pub fn shifted_right(value: u32, by: u32) -> u32
    ensures { result ≡ shifted_right value by }
{
    value.wrapping_shr(by)
}

pub fn shifted_right_signed(value: u32, by: u32) -> u32
    ensures { result ≡ shifted_right_signed value by }
{
    value.cast_signed().wrapping_shr(by).cast_unsigned()
}

pub fn low_bytes(size: u8, value: u32) -> u32
    requires { IsSize size }
    ensures { result ≡ low_bytes size value }
{
    match size {
        1 => value % 0x100,
        2 => value % 0x1_0000,
        _ => value,
    }
}

/// The word of a value of `size` bytes.
pub fn extended(size: u8, is_signed: bool, value: u32) -> u32
    requires size { IsSize size }
    requires fits { value < 2 ^ (8 * size) }
    ensures { result ≡ extended size is_signed value }
{
    match size {
        1 if is_signed => i32::from((value as u8).cast_signed()).cast_unsigned(),
        2 if is_signed => i32::from((value as u16).cast_signed()).cast_unsigned(),
        _ => value,
    }
}

pub fn is_aligned(address: u32) -> bool
    ensures { result ≡ is_aligned address }
{
    address % 4 == 0
}

/// The address of the instruction behind the one at `pc`.
pub fn next(pc: u32) -> u32
    ensures { result ≡ next_of pc }
{
    pc.wrapping_add(4)
}
