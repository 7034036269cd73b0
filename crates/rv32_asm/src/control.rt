//! The mnemonics of branches, and those that no operand follows.
ghost use Rattle.std.specs.Prelude.{◌≡◌, ◌<◌, ◌^◌, option_map};
ghost use Rattle.rv32_decode.specs.InRange.{InRange, IsRegister, IsBranchOffset};
ghost use Rattle.rv32_asm.specs.Forms.{branches, bares, named};
ghost use Rattle.rv32_asm.specs.Mnemonics.{branch_insn, bare_insn};

use rv32_decode::Insn;

/// A mnemonic that two source registers and a distance in bytes follow.
#[derive(Clone, Copy)]
pub enum BranchOp {
    Beq,
    Bne,
    Blt,
    Bge,
    Bltu,
    Bgeu,
}

impl BranchOp {
    /// The mnemonic that a word is, where it is one of these.
    pub fn named(word: &[u8]) -> Option<Self>
        ensures { option_map branch_insn result ≡ named branches word.now }
    {
        match word {
            b"beq" => Some(Self::Beq),
            b"bne" => Some(Self::Bne),
            b"blt" => Some(Self::Blt),
            b"bge" => Some(Self::Bge),
            b"bltu" => Some(Self::Bltu),
            b"bgeu" => Some(Self::Bgeu),
            _ => None,
        }
    }

    /// The instruction that the operands make.
    pub fn insn(self, rs1: u8, rs2: u8, off: i32) -> Insn
        requires rs1 { IsRegister rs1 }
        requires rs2 { IsRegister rs2 }
        requires off { IsBranchOffset off }
        ensures value { result ≡ branch_insn self rs1 rs2 off }
        ensures in_range { InRange result }
    {
        match self {
            Self::Beq => Insn::Beq { rs1, rs2, off },
            Self::Bne => Insn::Bne { rs1, rs2, off },
            Self::Blt => Insn::Blt { rs1, rs2, off },
            Self::Bge => Insn::Bge { rs1, rs2, off },
            Self::Bltu => Insn::Bltu { rs1, rs2, off },
            Self::Bgeu => Insn::Bgeu { rs1, rs2, off },
        }
    }
}

/// A mnemonic that no operand follows.
#[derive(Clone, Copy)]
pub enum BareOp {
    Fence,
    Ecall,
    Ebreak,
}

impl BareOp {
    /// The mnemonic that a word is, where it is one of these.
    pub fn named(word: &[u8]) -> Option<Self>
        ensures { option_map bare_insn result ≡ named bares word.now }
    {
        if word == b"fence".as_slice() {
            Some(Self::Fence)
        } else if word == b"ecall".as_slice() {
            Some(Self::Ecall)
        } else if word == b"ebreak".as_slice() {
            Some(Self::Ebreak)
        } else {
            None
        }
    }

    /// The instruction.
    pub fn insn(self) -> Insn
        ensures value { result ≡ bare_insn self }
        ensures in_range { InRange result }
    {
        match self {
            Self::Fence => Insn::Fence,
            Self::Ecall => Insn::Ecall,
            Self::Ebreak => Insn::Ebreak,
        }
    }
}
