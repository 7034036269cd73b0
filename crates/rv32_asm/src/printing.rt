//! An instruction to its line.
ghost use Rattle.std.specs.Prelude.{◌≡◌, ◌+◌, ◌<◌, ◌≤◌, ◌^◌, ◌∷◌, ◌++◌, Ok, length, unsigned_abs, decimal};
ghost use Rattle.std.specs.Fmt.{signed_decimal};
ghost use Rattle.coy_text.specs.Words.{words_of};
ghost use Rattle.rv32_decode.specs.InRange.{InRange, IsImmediate};
ghost use Rattle.rv32_asm.specs.Assembly.{insn_of};
ghost use Rattle.rv32_asm.specs.Text.{register_text, address_text, registers_words, number_words, shift_words, address_words, jump_words, upper_words, spaced, text_of};

use coy_text::LineBuf;
use rv32_decode::Insn;

/// Appends a space and a register.
#[tactic(auto, using(crate::proofs::Lengths::register_length))]
fn push_register(line: &mut LineBuf, register: u8)
    requires below { register < 32 }
    requires room { length line.old + 4 ≤ 1024 }
    ensures text { line.new ≡ line.old ++ 32 ∷ register_text register }
    ensures len { length line.new ≤ length line.old + 4 }
{
    line.push_word(" x");
    line.push_dec(u64::from(register));
}

/// Appends a space and a number of at most 7 digits, with `-` where it is negative.
#[tactic(auto, using(crate::proofs::Lengths::number_length))]
fn push_number(line: &mut LineBuf, number: i32)
    requires digits { unsigned_abs number < 10000000 }
    requires room { length line.old + 9 ≤ 1024 }
    ensures text { line.new ≡ line.old ++ 32 ∷ signed_decimal number }
    ensures len { length line.new ≤ length line.old + 9 }
{
    line.push_word(if number < 0 { " -" } else { " " });
    line.push_dec(u64::from(number.unsigned_abs()));
}

/// Appends `m rd rs1 rs2`.
fn registers(line: &mut LineBuf, name: &str, rd: u8, rs1: u8, rs2: u8)
    requires name { length name.now ≤ 6 }
    requires rd { rd < 32 }
    requires rs1 { rs1 < 32 }
    requires rs2 { rs2 < 32 }
    requires room { length line.old + 24 ≤ 1024 }
    ensures text { line.new ≡ line.old ++ spaced name.now (registers_words rd rs1 rs2) }
    ensures len { length line.new ≤ length line.old + 24 }
{
    line.push_word(name);
    push_register(line, rd);
    push_register(line, rs1);
    push_register(line, rs2);
}

/// Appends `m rd rs1 imm` or `m rs1 rs2 off`.
fn number(line: &mut LineBuf, name: &str, first: u8, second: u8, number: i32)
    requires name { length name.now ≤ 5 }
    requires first { first < 32 }
    requires second { second < 32 }
    requires digits { unsigned_abs number < 10000 }
    requires room { length line.old + 24 ≤ 1024 }
    ensures text { line.new ≡ line.old ++ spaced name.now (number_words first second number) }
    ensures len { length line.new ≤ length line.old + 24 }
{
    line.push_word(name);
    push_register(line, first);
    push_register(line, second);
    push_number(line, number);
}

/// Appends `m rd rs1 sh`.
#[tactic(auto, using(crate::proofs::Lengths::register_length))]
fn shift(line: &mut LineBuf, name: &str, rd: u8, rs1: u8, sh: u8)
    requires name { length name.now ≤ 4 }
    requires rd { rd < 32 }
    requires rs1 { rs1 < 32 }
    requires sh { sh < 32 }
    requires room { length line.old + 24 ≤ 1024 }
    ensures text { line.new ≡ line.old ++ spaced name.now (shift_words rd rs1 sh) }
    ensures len { length line.new ≤ length line.old + 24 }
{
    line.push_word(name);
    push_register(line, rd);
    push_register(line, rs1);
    line.push_word(" ");
    line.push_dec(u64::from(sh));
}

/// Appends `m rd imm(rs1)` or `m rs2 imm(rs1)`.
#[tactic(auto, using(crate::proofs::Lengths::register_length))]
fn address(line: &mut LineBuf, name: &str, register: u8, imm: i32, base: u8)
    requires name { length name.now ≤ 4 }
    requires register { register < 32 }
    requires imm { unsigned_abs imm < 10000 }
    requires base { base < 32 }
    requires room { length line.old + 24 ≤ 1024 }
    ensures text { line.new ≡ line.old ++ spaced name.now (address_words register imm base) }
    ensures len { length line.new ≤ length line.old + 24 }
{
    line.push_word(name);
    push_register(line, register);
    push_number(line, imm);
    line.push_word("(x");
    line.push_dec(u64::from(base));
    line.push_word(")");
}

/// Appends `m rd imm`.
#[tactic(auto, using(crate::proofs::Lengths::number_length))]
fn upper(line: &mut LineBuf, name: &str, rd: u8, imm: u32)
    requires name { length name.now ≤ 5 }
    requires rd { rd < 32 }
    requires imm { imm < 2 ^ 20 }
    requires room { length line.old + 24 ≤ 1024 }
    ensures text { line.new ≡ line.old ++ spaced name.now (upper_words rd imm) }
    ensures len { length line.new ≤ length line.old + 24 }
{
    line.push_word(name);
    push_register(line, rd);
    line.push_word(" ");
    line.push_dec(u64::from(imm));
}

/// Appends `jal rd off`.
fn jump(line: &mut LineBuf, name: &str, rd: u8, off: i32)
    requires name { length name.now ≤ 3 }
    requires rd { rd < 32 }
    requires off { unsigned_abs off < 10000000 }
    requires room { length line.old + 24 ≤ 1024 }
    ensures text { line.new ≡ line.old ++ spaced name.now (jump_words rd off) }
    ensures len { length line.new ≤ length line.old + 24 }
{
    line.push_word(name);
    push_register(line, rd);
    push_number(line, off);
}

/// Appends the text of an instruction.
#[tactic(auto, unfolding(crate::specs::Text::text_of))]
fn push_insn(line: &mut LineBuf, insn: Insn)
    requires in_range { InRange insn }
    requires room { length line.old + 24 ≤ 1024 }
    ensures text { line.new ≡ line.old ++ text_of insn }
    ensures len { length line.new ≤ length line.old + 24 }
{
    match insn {
        Insn::Add { rd, rs1, rs2 } => registers(line, "add", rd, rs1, rs2),
        Insn::Sub { rd, rs1, rs2 } => registers(line, "sub", rd, rs1, rs2),
        Insn::Sll { rd, rs1, rs2 } => registers(line, "sll", rd, rs1, rs2),
        Insn::Slt { rd, rs1, rs2 } => registers(line, "slt", rd, rs1, rs2),
        Insn::Sltu { rd, rs1, rs2 } => registers(line, "sltu", rd, rs1, rs2),
        Insn::Xor { rd, rs1, rs2 } => registers(line, "xor", rd, rs1, rs2),
        Insn::Srl { rd, rs1, rs2 } => registers(line, "srl", rd, rs1, rs2),
        Insn::Sra { rd, rs1, rs2 } => registers(line, "sra", rd, rs1, rs2),
        Insn::Or { rd, rs1, rs2 } => registers(line, "or", rd, rs1, rs2),
        Insn::And { rd, rs1, rs2 } => registers(line, "and", rd, rs1, rs2),
        Insn::Addi { rd, rs1, imm } => number(line, "addi", rd, rs1, imm),
        Insn::Slti { rd, rs1, imm } => number(line, "slti", rd, rs1, imm),
        Insn::Sltiu { rd, rs1, imm } => number(line, "sltiu", rd, rs1, imm),
        Insn::Xori { rd, rs1, imm } => number(line, "xori", rd, rs1, imm),
        Insn::Ori { rd, rs1, imm } => number(line, "ori", rd, rs1, imm),
        Insn::Andi { rd, rs1, imm } => number(line, "andi", rd, rs1, imm),
        Insn::Slli { rd, rs1, sh } => shift(line, "slli", rd, rs1, sh),
        Insn::Srli { rd, rs1, sh } => shift(line, "srli", rd, rs1, sh),
        Insn::Srai { rd, rs1, sh } => shift(line, "srai", rd, rs1, sh),
        Insn::Lb { rd, rs1, imm } => address(line, "lb", rd, imm, rs1),
        Insn::Lh { rd, rs1, imm } => address(line, "lh", rd, imm, rs1),
        Insn::Lw { rd, rs1, imm } => address(line, "lw", rd, imm, rs1),
        Insn::Lbu { rd, rs1, imm } => address(line, "lbu", rd, imm, rs1),
        Insn::Lhu { rd, rs1, imm } => address(line, "lhu", rd, imm, rs1),
        Insn::Jalr { rd, rs1, imm } => address(line, "jalr", rd, imm, rs1),
        Insn::Sb { rs1, rs2, imm } => address(line, "sb", rs2, imm, rs1),
        Insn::Sh { rs1, rs2, imm } => address(line, "sh", rs2, imm, rs1),
        Insn::Sw { rs1, rs2, imm } => address(line, "sw", rs2, imm, rs1),
        Insn::Beq { rs1, rs2, off } => number(line, "beq", rs1, rs2, off),
        Insn::Bne { rs1, rs2, off } => number(line, "bne", rs1, rs2, off),
        Insn::Blt { rs1, rs2, off } => number(line, "blt", rs1, rs2, off),
        Insn::Bge { rs1, rs2, off } => number(line, "bge", rs1, rs2, off),
        Insn::Bltu { rs1, rs2, off } => number(line, "bltu", rs1, rs2, off),
        Insn::Bgeu { rs1, rs2, off } => number(line, "bgeu", rs1, rs2, off),
        Insn::Jal { rd, off } => jump(line, "jal", rd, off),
        Insn::Lui { rd, imm } => upper(line, "lui", rd, imm),
        Insn::Auipc { rd, imm } => upper(line, "auipc", rd, imm),
        Insn::Fence => line.push_word("fence"),
        Insn::Ecall => line.push_word("ecall"),
        Insn::Ebreak => line.push_word("ebreak"),
    }
}

/// Appends the text of an instruction, which has at most 24 bytes and assembles to that instruction.
#[tactic(auto, using(crate::proofs::RoundTrip::text_reads_back))]
pub fn disassemble(insn: Insn, line: &mut LineBuf)
    requires in_range { InRange insn }
    requires room { length line.old + 24 ≤ 1024 }
    ensures text { line.new ≡ line.old ++ text_of insn }
    ensures len { length line.new ≤ length line.old + 24 }
    ensures assembles { insn_of (words_of (text_of insn)) ≡ Ok insn }
{
    push_insn(line, insn);
}
