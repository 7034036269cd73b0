//! The statements of what memory is made of: pages, capability pages, GPTs and regions.
ghost use Rattle.std.specs.Prelude.{◌≡◌, ◌≤◌, ◌<◌, ◌+◌, ◌-◌, nat_le, length, IfOk};
ghost use Rattle.object_store.specs.Ranges.{IsWithinLimits};
ghost use Rattle.listing_read.specs.declared.fault.Fault.TheVariants.{BadValue};
ghost use Rattle.listing_read.specs.Faults.{ensured};
ghost use Rattle.listing_read.specs.Fields.{between_of};
ghost use Rattle.listing_read.specs.Statement.{IsStatement};
ghost use Rattle.listing_read.specs.StatementLines.{page_line, code_line, cap_line, gpt_line, slot_line, letters_of, region_line};

use crate::capability::capability;
use crate::fault::Fault;
use crate::fields::{aligned, between, first_page, has_words, hexadecimal_to, object};
use crate::flags::flags;
use crate::hex_bytes::hex_bytes;
use crate::statement::Statement;
use crate::terms::Terms;
use bitflags::Flags;
use cap_format::{CAPPAGE_SLOTS, CapKind, GPT_SLOTS, PAGE_BYTES, Restr};
use cap_words::restrictions;
use coy_text::LineWords;
use gpt_objects::GptHeader;
use rv32_asm::assemble_insn;

#[tactic(auto, unfolding(crate::specs::StatementLines::page_line))]
pub(crate) fn page(terms: &Terms, words: &LineWords<'_>) -> Result<Statement, Fault>
    ensures value { result ≡ page_line terms.now words.now }
    ensures range { IfOk result (IsStatement terms.now.sizes) }
{
    has_words(words, 4)?;
    let number = object(terms, CapKind::Page, words.word(1))?;
    let at = hexadecimal_to(u32::from(PAGE_BYTES) - 1, words.word(2))?;
    let bytes = hex_bytes(words.word(3))?;
    within_page(at, bytes.as_slice())?;
    Ok(Statement::Page {
        number,
        at: at as u16,
        bytes,
    })
}

/// A page has room for the bytes from offset `at` on.
fn within_page(at: u32, bytes: &[u8]) -> Result<(), Fault>
    requires { length bytes.now ≤ 64 }
    ensures { result ≡ ensured (nat_le (at + length bytes.now) 4096) BadValue }
{
    if at as usize + bytes.len() > usize::from(PAGE_BYTES) {
        return Err(Fault::BadValue);
    }
    Ok(())
}

#[tactic(auto, unfolding(crate::specs::StatementLines::code_line))]
pub(crate) fn code(terms: &Terms, words: &LineWords<'_>) -> Result<Statement, Fault>
    ensures value { result ≡ code_line terms.now words.now }
    ensures range { IfOk result (IsStatement terms.now.sizes) }
{
    if words.count() < 4 {
        return Err(Fault::WrongWords);
    }
    let number = object(terms, CapKind::Page, words.word(1))?;
    let at = aligned(u32::from(PAGE_BYTES) - 4, words.word(2))?;
    match assemble_insn(words.behind(3)) {
        Ok(insn) => Ok(Statement::Code {
            number,
            at: at as u16,
            insn,
        }),
        Err(_) => Err(Fault::BadInstruction),
    }
}

#[tactic(auto, unfolding(crate::specs::StatementLines::cap_line))]
pub(crate) fn cap_slot(terms: &Terms, words: &LineWords<'_>) -> Result<Statement, Fault>
    requires { IsWithinLimits terms.now.sizes }
    ensures value { result ≡ cap_line terms.now words.now }
    ensures range { IfOk result (IsStatement terms.now.sizes) }
{
    has_words(words, 4)?;
    let number = object(terms, CapKind::CapPage, words.word(1))?;
    let slot = between(0, u32::from(CAPPAGE_SLOTS) - 1, words.word(2))?;
    let cap = capability(terms, words.word(3))?;
    Ok(Statement::CapSlot {
        number,
        slot: slot as u8,
        cap,
    })
}

#[tactic(auto, unfolding(crate::specs::StatementLines::gpt_line))]
pub(crate) fn gpt(terms: &Terms, words: &LineWords<'_>) -> Result<Statement, Fault>
    ensures value { result ≡ gpt_line terms.now words.now }
    ensures range { IfOk result (IsStatement terms.now.sizes) }
{
    let total = words.count();
    if total < 3 || total > 5 {
        return Err(Fault::WrongWords);
    }
    let number = object(terms, CapKind::Gpt, words.word(1))?;
    let l2v = between(12, 31, words.word(2))?;
    let (ha, bg) = flags(words)?;
    Ok(Statement::Gpt {
        number,
        header: GptHeader::new(l2v as u8, ha, bg),
    })
}

#[tactic(auto, unfolding(crate::specs::StatementLines::slot_line))]
pub(crate) fn gpt_slot(terms: &Terms, words: &LineWords<'_>) -> Result<Statement, Fault>
    requires { IsWithinLimits terms.now.sizes }
    ensures value { result ≡ slot_line terms.now words.now }
    ensures range { IfOk result (IsStatement terms.now.sizes) }
{
    has_words(words, 4)?;
    let number = object(terms, CapKind::Gpt, words.word(1))?;
    let slot = between(0, u32::from(GPT_SLOTS) - 1, words.word(2))?;
    let cap = capability(terms, words.word(3))?;
    Ok(Statement::GptSlot {
        number,
        slot: slot as u8,
        cap,
    })
}

#[tactic(auto, unfolding(crate::specs::StatementLines::region_line))]
pub(crate) fn region(terms: &Terms, words: &LineWords<'_>) -> Result<Statement, Fault>
    ensures value { result ≡ region_line terms.now words.now }
    ensures range { IfOk result (IsStatement terms.now.sizes) }
{
    let total = words.count();
    if total < 5 || total > 6 {
        return Err(Fault::WrongWords);
    }
    let gpt = object(terms, CapKind::Gpt, words.word(1))?;
    let slot = between(0, u32::from(GPT_SLOTS) - 1, words.word(2))?;
    let count = slots_from(slot, words.word(3))?;
    let page = first_page(terms, count, words.word(4))?;
    let restr = letters(words)?;
    Ok(Statement::Region {
        gpt,
        slot: slot as u8,
        count: count as u8,
        page,
        restr: Restr::from_bits_retain(restr),
    })
}

/// How many slots a region has from one on: they all are slots of a GPT.
fn slots_from(slot: u32, word: &[u8]) -> Result<u32, Fault>
    requires { slot ≤ 15 }
    ensures value { result ≡ between_of 1 (16 - slot) word.now }
    ensures some { IfOk result (λ count. 1 ≤ count) }
    ensures fits { IfOk result (λ count. slot + count ≤ 16) }
{
    between(1, u32::from(GPT_SLOTS) - slot, word)
}

/// The bits of a region's restrictions.
#[tactic(auto, unfolding(crate::specs::StatementLines::letters_of))]
fn letters(words: &LineWords<'_>) -> Result<u8, Fault>
    ensures value { result ≡ letters_of words.now }
    ensures range { IfOk result (λ restr. restr < 32) }
{
    if words.count() == 5 {
        return Ok(0);
    }
    match restrictions(words.word(5)) {
        Some(restr) => Ok(restr),
        None => Err(Fault::BadValue),
    }
}
