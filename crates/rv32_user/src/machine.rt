//! One instruction, and the end of a load.
ghost use Rattle.std.specs.Prelude.{◌≡◌, ◌*◌, ◌%◌, ◌^◌, ◌<◌, slice_index};
ghost use Rattle.rv32_decode.specs.InRange.{InRange};
ghost use Rattle.rv32_user.specs.Size.{IsSize};
ghost use Rattle.rv32_user.specs.Registers.{with_register};
ghost use Rattle.rv32_user.specs.Step.{effect_of, registers_after, loaded};
ghost use Rattle.rv32_user.specs.Answers.{ChangesOnlyAtNext, IsEffect, IsAlignedNext, ComesFrom};

use crate::action::{Action, prepare};
use crate::effect::Effect;
use crate::word::{extended, is_aligned, next, write};
use rv32_decode::Insn;

/// What an instruction comes to, with nothing written yet.
#[derive(Clone, Copy)]
pub struct Outcome {
    /// The register that is to be written, or 0 where none is.
    pub rd: u8,
    /// The word that goes to the register.
    pub value: u32,
    /// What is left to be done then.
    pub effect: Effect,
}

/// What the instruction at `pc` comes to over these registers. The operands are in their ranges.
#[inline(always)]
#[tactic(auto, unfolding(crate::specs::Step::effect_of, crate::specs::Step::registers_after))]
pub fn evaluate(regs: &[u32; 32], pc: u32, insn: Insn) -> Outcome
    requires { InRange insn }
    ensures effect { result.effect ≡ effect_of regs.now pc insn }
    ensures registers { with_register regs.now result.rd result.value ≡
        registers_after regs.now pc insn }
    ensures register { result.rd < 32 }

    // What callers know without looking the instruction up.
    ensures parts { IsEffect result.effect }
    ensures aligned { pc % 4 ≡ 0 → IsAlignedNext result.effect }
    ensures cause { ComesFrom insn result.effect }
{
    match prepare(regs, pc, insn) {
        Action::Write(rd, value) => Outcome {
            rd,
            value,
            effect: Effect::Next(next(pc)),
        },
        Action::Link(rd, target) => {
            if is_aligned(target) {
                let value = next(pc);
                let effect = Effect::Next(target);
                return Outcome { rd, value, effect };
            }
            only(Effect::Misaligned(target))
        }
        Action::Only(effect) => only(effect),
    }
}

/// An effect, and no register.
fn only(effect: Effect) -> Outcome
    ensures effect { result.effect ≡ effect }
    ensures none { result.rd ≡ 0 }
{
    Outcome {
        rd: 0,
        value: 0,
        effect,
    }
}

/// Performs the instruction at `pc`: writes its register and says what is left to be done.
///
/// The operands are in their ranges. After every answer but `Effect::Next` the registers are as
/// before.
pub fn step(regs: &mut [u32; 32], pc: u32, insn: Insn) -> Effect
    requires { InRange insn }
    ensures effect { result ≡ effect_of regs.old pc insn }
    ensures registers { regs.new ≡ registers_after regs.old pc insn }

    // What callers know without looking the instruction up.
    ensures unchanged { ChangesOnlyAtNext result regs.old regs.new }
    ensures zero { slice_index regs.new 0 ≡ slice_index regs.old 0 }
    ensures parts { IsEffect result }
    ensures aligned { pc % 4 ≡ 0 → IsAlignedNext result }
    ensures cause { ComesFrom insn result }
{
    let outcome = evaluate(regs, pc, insn);
    write(regs, outcome.rd, outcome.value);
    outcome.effect
}

/// Ends a load: writes the value that was read, extended from its size to a word, to the register.
///
/// `rd`, `size` and `signed` are those of `Effect::Load`, and `value` is the number that the bytes
/// read spell, the lowest first. With `rd` 0 nothing changes.
#[tactic(auto, unfolding(crate::specs::Step::loaded))]
pub fn finish_load(regs: &mut [u32; 32], rd: u8, size: u8, signed: bool, value: u32)
    requires register { rd < 32 }
    requires size { IsSize size }
    requires fits { value < 2 ^ (8 * size) }
    ensures registers { regs.new ≡ loaded regs.old rd size signed value }
    ensures zero { slice_index regs.new 0 ≡ slice_index regs.old 0 }
{
    write(regs, rd, extended(size, signed, value));
}
