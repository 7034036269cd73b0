//! Operands in their places: a word of each format, from the match of its row.

ghost use Rattle.std.specs.Prelude.{◌≡◌, ℕ, ◌*◌, ◌^◌, ◌<◌, ◌≤◌, pos, neg_ℤ, ◌≤ℤ◌, ◌<ℤ◌};
ghost use Rattle.rv32_decode.specs.InRange.{IsRegister, IsImmediate, IsBranchOffset, IsJumpOffset};
ghost use Rattle.rv32_decode.specs.Word.{unsigned, r_word, i_word, s_word, b_word, u_word, j_word};

use crate::fields::field;

/// The bits that say a number in two's complement, the highest of them with the weight `sign`.
fn to_bits(number: i32, sign: u32) -> u32
    requires room { sign ≤ 2 ^ 20 }
    requires low { neg_ℤ (pos sign) ≤ℤ number }
    requires high { number <ℤ pos sign }
    ensures { result ≡ unsigned sign number }
{
    if number < 0 {
        (number + (2 * sign) as i32) as u32
    } else {
        number as u32
    }
}

/// A word of format R.
pub(crate) fn word_r(row: u32, rd: u8, rs1: u8, rs2: u8) -> u32
    requires row { row < 2 ^ 31 }
    requires operands { IsRegister rd × IsRegister rs1 × IsRegister rs2 }
    ensures { result ≡ r_word row rd rs1 rs2 }
{
    row + (u32::from(rd) << 7) + (u32::from(rs1) << 15) + (u32::from(rs2) << 20)
}

/// A word of format I.
pub(crate) fn word_i(row: u32, rd: u8, rs1: u8, imm: i32) -> u32
    requires row { row ≤ 0x707f }
    requires operands { IsRegister rd × IsRegister rs1 × IsImmediate imm }
    ensures { result ≡ i_word row rd rs1 imm }
{
    row + (u32::from(rd) << 7) + (u32::from(rs1) << 15) + (to_bits(imm, 1 << 11) << 20)
}

/// A word of format S.
pub(crate) fn word_s(row: u32, rs1: u8, rs2: u8, imm: i32) -> u32
    requires row { row ≤ 0x707f }
    requires operands { IsRegister rs1 × IsRegister rs2 × IsImmediate imm }
    ensures { result ≡ s_word row rs1 rs2 imm }
{
    let bits = to_bits(imm, 1 << 11);
    let registers = (u32::from(rs1) << 15) + (u32::from(rs2) << 20);
    row + (field(bits, 4, 0) << 7) + registers + (field(bits, 11, 5) << 25)
}

/// A word of format B.
pub(crate) fn word_b(row: u32, rs1: u8, rs2: u8, off: i32) -> u32
    requires row { row ≤ 0x707f }
    requires operands { IsRegister rs1 × IsRegister rs2 × IsBranchOffset off }
    ensures { result ≡ b_word row rs1 rs2 off }
{
    let bits = to_bits(off, 1 << 12);
    let low = (field(bits, 11, 11) << 7) + (field(bits, 4, 1) << 8);
    let registers = (u32::from(rs1) << 15) + (u32::from(rs2) << 20);
    row + low + registers + (field(bits, 10, 5) << 25) + (field(bits, 12, 12) << 31)
}

/// A word of format U.
pub(crate) fn word_u(row: u32, rd: u8, imm: u32) -> u32
    requires row { row < 2 ^ 7 }
    requires operands { IsRegister rd × (imm < 2 ^ 20) }
    ensures { result ≡ u_word row rd imm }
{
    row + (u32::from(rd) << 7) + (imm << 12)
}

/// A word of format J.
pub(crate) fn word_j(row: u32, rd: u8, off: i32) -> u32
    requires row { row < 2 ^ 7 }
    requires operands { IsRegister rd × IsJumpOffset off }
    ensures { result ≡ j_word row rd off }
{
    let bits = to_bits(off, 1 << 20);
    let low = (field(bits, 19, 12) << 12) + (field(bits, 11, 11) << 20);
    row + (u32::from(rd) << 7) + low + (field(bits, 10, 1) << 21) + (field(bits, 20, 20) << 31)
}
