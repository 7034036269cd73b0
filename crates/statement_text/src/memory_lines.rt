//! The lines of statements that no object prints: an instruction in a page, a region of a GPT.
ghost use Rattle.std.specs.Prelude.{◌≡◌, ◌≤◌, ◌<◌, ◌+◌, ◌++◌, ◌∷◌, [], length, decimal};
ghost use Rattle.coy_text.specs.Spaced.{behind};
ghost use Rattle.rv32_decode.specs.InRange.{InRange};
ghost use Rattle.rv32_asm.specs.Text.{words_from};
ghost use Rattle.statement_text.specs.Words.{letter_words};
ghost use Rattle.statement_text.specs.Text.{statement_text};

use bitflags::Flags;
use cap_format::Restr;
use cap_words::push_letters;
use coy_text::LineBuf;
use listing_read::Statement;
use object_lines::push_offset;
use rv32_asm::disassemble;
use rv32_decode::Insn;

/// Appends `code N OFF INSTRUCTION`.
#[tactic(auto, unfolding(coy_text::specs::Spaced::line_of))]
pub(crate) fn push_code(line: &mut LineBuf, number: u16, at: u16, insn: Insn)
    requires room { length line.old ≤ 100 }
    requires page { at < 4096 }
    requires insn { InRange insn }
    ensures text { line.new ≡ line.old ++ statement_text (Statement.Code number at insn) }
    ensures len { length line.new ≤ length line.old + 60 }
{
    line.push_numbered("code ", number as u32);
    push_offset(line, at);
    push_insn(line, insn);
    line.push_word("\n");
}

/// Appends a space and an instruction.
fn push_insn(line: &mut LineBuf, insn: Insn)
    requires room { length line.old ≤ 200 }
    requires insn { InRange insn }
    ensures text { line.new ≡ line.old ++ behind (words_from insn) }
    ensures len { length line.new ≤ length line.old + 25 }
{
    line.push_word(" ");
    disassemble(insn, line);
}

/// Appends `region N S COUNT PAGE` with its letters.
#[tactic(auto, unfolding(coy_text::specs::Spaced::line_of))]
pub(crate) fn push_region(
    line: &mut LineBuf,
    gpt: u16,
    slot: u8,
    count: u8,
    page: u16,
    restr: Restr,
)
    requires { length line.old ≤ 100 }
    ensures text { let statement = Statement.Region gpt slot count page restr in
        line.new ≡ line.old ++ statement_text statement }
    ensures len { length line.new ≤ length line.old + 60 }
{
    line.push_numbered("region ", gpt as u32);
    push_three(line, slot as u32, count as u32, page as u32);
    push_restrictions(line, restr.bits());
    line.push_word("\n");
}

/// Appends three numbers, each behind a space.
pub(crate) fn push_three(line: &mut LineBuf, first: u32, second: u32, third: u32)
    requires { length line.old ≤ 200 }
    ensures text { line.new ≡ line.old ++
        behind (decimal first ∷ decimal second ∷ decimal third ∷ []) }
    ensures len { length line.new ≤ length line.old + 33 }
{
    line.push_numbered(" ", first);
    line.push_numbered(" ", second);
    line.push_numbered(" ", third);
}

/// Appends the letters of restrictions behind a space, where there are any.
fn push_restrictions(line: &mut LineBuf, restr: u8)
    requires { length line.old ≤ 200 }
    ensures text { line.new ≡ line.old ++ behind (letter_words restr) }
    ensures len { length line.new ≤ length line.old + 6 }
{
    if restr == 0 {
        return;
    }
    line.push_word(" ");
    push_letters(line, restr);
}
