//! The mnemonics of RV32I, by the form of their lines.
ghost use Rattle.std.specs.Prelude.{◌≡◌, option_map, Some, None, if◌then◌else◌};
ghost use Rattle.rv32_decode.specs.declared.insn.Insn.TheVariants.{Jal};
ghost use Rattle.rv32_asm.specs.Forms.{jumps, named, form_of};
ghost use Rattle.rv32_asm.specs.Mnemonics.{form_meant};

use crate::addressed::{LoadOp, StoreOp};
use crate::arithmetic::{ImmediateOp, RegisterOp, ShiftOp, UpperOp};
use crate::control::{BareOp, BranchOp};

/// A mnemonic.
#[derive(Clone, Copy)]
pub enum Mnemonic {
    Registers(RegisterOp),
    Immediate(ImmediateOp),
    Shift(ShiftOp),
    Load(LoadOp),
    Store(StoreOp),
    Branch(BranchOp),
    Jump,
    Upper(UpperOp),
    Bare(BareOp),
}

impl Mnemonic {
    /// The mnemonic that a word is.
    #[tactic(auto, unfolding(crate::specs::Forms::form_of))]
    pub fn named(word: &[u8]) -> Option<Self>
        ensures { option_map form_meant result ≡ form_of word.now }
    {
        if let Some(op) = RegisterOp::named(word) {
            return Some(Self::Registers(op));
        }
        if let Some(op) = ImmediateOp::named(word) {
            return Some(Self::Immediate(op));
        }
        if let Some(op) = ShiftOp::named(word) {
            return Some(Self::Shift(op));
        }
        if let Some(op) = LoadOp::named(word) {
            return Some(Self::Load(op));
        }
        if let Some(op) = StoreOp::named(word) {
            return Some(Self::Store(op));
        }
        if let Some(op) = BranchOp::named(word) {
            return Some(Self::Branch(op));
        }
        if let Some(op) = UpperOp::named(word) {
            return Some(Self::Upper(op));
        }
        if is_jal(word) {
            return Some(Self::Jump);
        }
        if let Some(op) = BareOp::named(word) {
            return Some(Self::Bare(op));
        }
        None
    }
}

fn is_jal(word: &[u8]) -> bool
    ensures { named jumps word.now ≡ (if result then Some Jal else None) }
{
    word == b"jal".as_slice()
}
