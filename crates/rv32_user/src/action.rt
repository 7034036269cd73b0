//! The table of instructions: what each makes of the registers, before anything is written.
ghost use Rattle.std.specs.Prelude.{◌≡◌, ◌<◌};
ghost use Rattle.rv32_decode.specs.InRange.{InRange};
ghost use Rattle.rv32_user.specs.declared.action.Action.TheVariants.{Only};
ghost use Rattle.rv32_user.specs.declared.effect.Effect.TheVariants.{Load, Store};
ghost use Rattle.rv32_user.specs.Size.{IsSize};
ghost use Rattle.rv32_user.specs.Word.{low_bytes};
ghost use Rattle.rv32_user.specs.Table.{action_of, arrival, branch, IsAction};

use crate::action::Action::{Link, Only, Write};
use crate::effect::Effect;
use crate::effect::Effect::{Misaligned, Next};
use crate::word::{
    difference, even, is_aligned, low_bytes, next, plus, register as x, shifted_left,
    shifted_right, shifted_right_signed, signed, sum, unsigned, upper,
};
use rv32_decode::Insn;

/// What an instruction does, with the values that it read.
#[derive(Clone, Copy)]
pub enum Action {
    /// Writes the word to the register, and goes on with the next instruction.
    Write(u8, u32),
    /// Goes to the address, and writes the next instruction's address to the register.
    Link(u8, u32),
    /// Changes no register.
    Only(Effect),
}

/// What the instruction at `pc` does with these registers, one row an instruction.
#[inline(always)]
#[tactic(auto, unfolding(crate::specs::Table::action_of))]
pub fn prepare(regs: &[u32; 32], pc: u32, insn: Insn) -> Action
    requires { InRange insn }
    ensures table { result ≡ action_of regs.now pc insn }
    ensures parts { IsAction result }
{
    // x(regs, n) is the register x[n] of the manual.
    match insn {
        Insn::Add { rd, rs1, rs2 } => Write(rd, sum(x(regs, rs1), x(regs, rs2))),
        Insn::Sub { rd, rs1, rs2 } => Write(rd, difference(x(regs, rs1), x(regs, rs2))),
        Insn::Sll { rd, rs1, rs2 } => Write(rd, shifted_left(x(regs, rs1), x(regs, rs2))),
        Insn::Slt { rd, rs1, rs2 } => Write(
            rd,
            u32::from(signed(x(regs, rs1)) < signed(x(regs, rs2))),
        ),
        Insn::Sltu { rd, rs1, rs2 } => Write(rd, u32::from(x(regs, rs1) < x(regs, rs2))),
        Insn::Xor { rd, rs1, rs2 } => Write(rd, x(regs, rs1) ^ x(regs, rs2)),
        Insn::Srl { rd, rs1, rs2 } => Write(rd, shifted_right(x(regs, rs1), x(regs, rs2))),
        Insn::Sra { rd, rs1, rs2 } => Write(rd, shifted_right_signed(x(regs, rs1), x(regs, rs2))),
        Insn::Or { rd, rs1, rs2 } => Write(rd, x(regs, rs1) | x(regs, rs2)),
        Insn::And { rd, rs1, rs2 } => Write(rd, x(regs, rs1) & x(regs, rs2)),
        Insn::Addi { rd, rs1, imm } => Write(rd, plus(x(regs, rs1), imm)),
        Insn::Slti { rd, rs1, imm } => Write(rd, u32::from(signed(x(regs, rs1)) < imm)),
        Insn::Sltiu { rd, rs1, imm } => Write(rd, u32::from(x(regs, rs1) < unsigned(imm))),
        Insn::Xori { rd, rs1, imm } => Write(rd, x(regs, rs1) ^ unsigned(imm)),
        Insn::Ori { rd, rs1, imm } => Write(rd, x(regs, rs1) | unsigned(imm)),
        Insn::Andi { rd, rs1, imm } => Write(rd, x(regs, rs1) & unsigned(imm)),
        Insn::Slli { rd, rs1, sh } => Write(rd, shifted_left(x(regs, rs1), u32::from(sh))),
        Insn::Srli { rd, rs1, sh } => Write(rd, shifted_right(x(regs, rs1), u32::from(sh))),
        Insn::Srai { rd, rs1, sh } => Write(rd, shifted_right_signed(x(regs, rs1), u32::from(sh))),
        Insn::Lb { rd, rs1, imm } => load(plus(x(regs, rs1), imm), 1, true, rd),
        Insn::Lh { rd, rs1, imm } => load(plus(x(regs, rs1), imm), 2, true, rd),
        Insn::Lw { rd, rs1, imm } => load(plus(x(regs, rs1), imm), 4, true, rd),
        Insn::Lbu { rd, rs1, imm } => load(plus(x(regs, rs1), imm), 1, false, rd),
        Insn::Lhu { rd, rs1, imm } => load(plus(x(regs, rs1), imm), 2, false, rd),
        Insn::Jalr { rd, rs1, imm } => Link(rd, even(plus(x(regs, rs1), imm))),
        Insn::Sb { rs1, rs2, imm } => store(plus(x(regs, rs1), imm), 1, x(regs, rs2)),
        Insn::Sh { rs1, rs2, imm } => store(plus(x(regs, rs1), imm), 2, x(regs, rs2)),
        Insn::Sw { rs1, rs2, imm } => store(plus(x(regs, rs1), imm), 4, x(regs, rs2)),
        Insn::Beq { rs1, rs2, off } => branch(pc, off, x(regs, rs1) == x(regs, rs2)),
        Insn::Bne { rs1, rs2, off } => branch(pc, off, x(regs, rs1) != x(regs, rs2)),
        Insn::Blt { rs1, rs2, off } => branch(pc, off, signed(x(regs, rs1)) < signed(x(regs, rs2))),
        Insn::Bge { rs1, rs2, off } => branch(
            pc,
            off,
            signed(x(regs, rs1)) >= signed(x(regs, rs2)),
        ),
        Insn::Bltu { rs1, rs2, off } => branch(pc, off, x(regs, rs1) < x(regs, rs2)),
        Insn::Bgeu { rs1, rs2, off } => branch(pc, off, x(regs, rs1) >= x(regs, rs2)),
        Insn::Jal { rd, off } => Link(rd, plus(pc, off)),
        Insn::Lui { rd, imm } => Write(rd, upper(0, imm)),
        Insn::Auipc { rd, imm } => Write(rd, upper(pc, imm)),
        Insn::Fence => Only(Next(next(pc))),
        Insn::Ecall => Only(Effect::Syscall),
        Insn::Ebreak => Only(Effect::Break),
    }
}

fn load(at: u32, size: u8, signed: bool, rd: u8) -> Action
    ensures { result ≡ Only (Load at size signed rd) }
{
    Only(Effect::Load {
        at,
        size,
        signed,
        rd,
    })
}

fn store(at: u32, size: u8, word: u32) -> Action
    requires { IsSize size }
    ensures { result ≡ Only (Store at size (low_bytes size word)) }
{
    let value = low_bytes(size, word);
    Only(Effect::Store { at, size, value })
}

/// A branch at `pc`: by `off` where it is taken, and else on.
fn branch(pc: u32, off: i32, taken: bool) -> Action
    ensures { result ≡ Only (branch pc off taken) }
{
    Only(if taken {
        arrival(plus(pc, off))
    } else {
        Next(next(pc))
    })
}

/// Going to an address.
pub fn arrival(target: u32) -> Effect
    ensures { result ≡ arrival target }
{
    if is_aligned(target) {
        Next(target)
    } else {
        Misaligned(target)
    }
}
