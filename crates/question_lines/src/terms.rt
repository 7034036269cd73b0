//! The terms of an atom.
ghost use Rattle.std.specs.Prelude.{◌≡◌, ◌<◌, ◌≤◌, IfOk, IfErr, length, nat_le};
ghost use Rattle.listing_read.specs.Faults.{ensured};
ghost use Rattle.listing_read.specs.declared.object_fault.QuestionFault.TheVariants.{WrongWords};
ghost use Rattle.questions.specs.Term.{IsOperandOf, IsTermOf};
ghost use Rattle.question_lines.specs.QuestionLine.{IsUntaken};
ghost use Rattle.question_lines.specs.TermLine.{age_operand, bytes_operand, leaf_at, node_at, number_operand, operand_from, operator_of, payload_operand, pc_operand, register_operand, term_at, words_in};

use crate::fault::Untaken;
use crate::fields::{object, offset, register, value};
use crate::phrase::Phrase;
use cap_format::CapKind;
use confine_check::read_kind;
use listing_read::QuestionFault;
use object_store::Sizes;
use questions::{Operand, Operator, Term, Width};
use std::alloc::Global;

/// The term from word `at` on, in which terms nest to `deepest`, and the number of the first word behind it.
#[cycle(term)]
#[tactic(auto, unfolding(crate::specs::TermLine::term_at, crate::specs::TermLine::term_by))]
pub(crate) fn term(
    alloc: Global,
    sizes: Sizes,
    words: &Phrase<'_>,
    deepest: u8,
    at: usize,
) -> Result<(Term, usize), Untaken>
    ensures value { IfOk result (λ read. term_at sizes words.now deepest at ≡ Ok read) }
    ensures range { IfOk result (λ read. IsTermOf sizes read.0) }
    ensures untaken { IfErr result (IsUntaken (term_at sizes words.now deepest at)) }
{
    if deepest == 0 {
        return Err(Untaken::Refused(QuestionFault::BadTerm));
    }
    if at >= words.count() {
        return Err(Untaken::Refused(QuestionFault::WrongWords));
    }
    match operator_of(words.word(at)) {
        Some(operator) => node(alloc, sizes, words, deepest - 1, at, operator),
        None => leaf(sizes, words, at),
    }
}

/// The term of an operator that is word `at`.
#[cycle(term)]
#[tactic(auto, unfolding(crate::specs::TermLine::node_at))]
fn node(
    alloc: Global,
    sizes: Sizes,
    words: &Phrase<'_>,
    deepest: u8,
    at: usize,
    operator: Operator,
) -> Result<(Term, usize), Untaken>
    requires { at < length words.now }
    ensures value { IfOk result (λ read.
        node_at (term_at sizes words.now deepest) at operator ≡ Ok read) }
    ensures range { IfOk result (λ read. IsTermOf sizes read.0) }
    ensures untaken { IfErr result
        (IsUntaken (node_at (term_at sizes words.now deepest) at operator)) }
{
    let _count = words.count();
    let (first, behind) = match term(alloc, sizes, words, deepest, at + 1) {
        Ok(read) => read,
        Err(untaken) => return Err(untaken),
    };
    let (second, end) = match term(alloc, sizes, words, deepest, behind) {
        Ok(read) => read,
        Err(untaken) => return Err(untaken),
    };
    match Term::node(alloc, operator, first, second) {
        Ok(term) => Ok((term, end)),
        Err(_) => Err(Untaken::OutOfMemory),
    }
}

/// The term that an operand is.
#[tactic(auto, unfolding(crate::specs::TermLine::leaf_at))]
fn leaf(sizes: Sizes, words: &Phrase<'_>, at: usize) -> Result<(Term, usize), Untaken>
    requires { at < length words.now }
    ensures value { IfOk result (λ read. leaf_at sizes words.now at ≡ Ok read) }
    ensures range { IfOk result (λ read. IsTermOf sizes read.0) }
    ensures untaken { IfErr result (IsUntaken (leaf_at sizes words.now at)) }
{
    let _count = words.count();
    match operand(sizes, &words.behind(at)) {
        Ok(operand) => Ok((Term::leaf(operand), at + words_in(operand))),
        Err(fault) => Err(Untaken::Refused(fault)),
    }
}

/// What a word makes of two terms.
#[tactic(auto, unfolding(crate::specs::TermLine::operator_of))]
fn operator_of(word: &[u8]) -> Option<Operator>
    ensures { result ≡ operator_of word.now }
{
    if word == b"plus".as_slice() {
        return Some(Operator::Plus);
    }
    if word == b"minus".as_slice() {
        return Some(Operator::Minus);
    }
    if word == b"both".as_slice() {
        return Some(Operator::Both);
    }
    None
}

/// How many words an operand has.
fn words_in(operand: Operand) -> usize
    ensures value { result ≡ words_in operand }
    ensures most { result ≤ 3 }
{
    match operand {
        Operand::Number { .. } => 2,
        Operand::Register { .. } => 3,
        Operand::Pc { .. } => 2,
        Operand::Bytes { .. } => 3,
        Operand::Age { .. } => 3,
        Operand::Payload { .. } => 2,
    }
}

/// The operand with which some words begin.
#[tactic(auto, unfolding(crate::specs::TermLine::operand_from))]
fn operand(sizes: Sizes, words: &Phrase<'_>) -> Result<Operand, QuestionFault>
    ensures value { result ≡ operand_from sizes words.now }
    ensures range { IfOk result (IsOperandOf sizes) }
    ensures within { IfOk result (λ operand. words_in operand ≤ length words.now) }
{
    let head = words.word(0);
    if head == b"number".as_slice() {
        return number(words);
    }
    if head == b"reg".as_slice() {
        return reg(sizes, words);
    }
    if head == b"pc".as_slice() {
        return pc(sizes, words);
    }
    if head == b"word".as_slice() {
        return bytes(sizes, Width::Word, words);
    }
    if head == b"half".as_slice() {
        return bytes(sizes, Width::Half, words);
    }
    if head == b"byte".as_slice() {
        return bytes(sizes, Width::Byte, words);
    }
    if head == b"age".as_slice() {
        return age(sizes, words);
    }
    if head == b"payload".as_slice() {
        return payload(sizes, words);
    }
    Err(QuestionFault::BadTerm)
}

#[tactic(auto, unfolding(crate::specs::TermLine::number_operand))]
fn number(words: &Phrase<'_>) -> Result<Operand, QuestionFault>
    ensures value { result ≡ number_operand words.now }
    ensures range { (sizes : Sizes) → IfOk result (IsOperandOf sizes) }
    ensures within { IfOk result (λ operand. words_in operand ≤ length words.now) }
{
    begins(words, 2)?;
    let value = value(words.word(1))?;
    Ok(Operand::Number { value })
}

#[tactic(auto, unfolding(crate::specs::TermLine::register_operand))]
fn reg(sizes: Sizes, words: &Phrase<'_>) -> Result<Operand, QuestionFault>
    ensures value { result ≡ register_operand sizes words.now }
    ensures range { IfOk result (IsOperandOf sizes) }
    ensures within { IfOk result (λ operand. words_in operand ≤ length words.now) }
{
    begins(words, 3)?;
    let process = object(sizes, CapKind::Process, words.word(1))?;
    let register = register(words.word(2))?;
    Ok(Operand::Register { process, register })
}

#[tactic(auto, unfolding(crate::specs::TermLine::pc_operand))]
fn pc(sizes: Sizes, words: &Phrase<'_>) -> Result<Operand, QuestionFault>
    ensures value { result ≡ pc_operand sizes words.now }
    ensures range { IfOk result (IsOperandOf sizes) }
    ensures within { IfOk result (λ operand. words_in operand ≤ length words.now) }
{
    begins(words, 2)?;
    let process = object(sizes, CapKind::Process, words.word(1))?;
    Ok(Operand::Pc { process })
}

#[tactic(auto, unfolding(crate::specs::TermLine::bytes_operand))]
fn bytes(sizes: Sizes, width: Width, words: &Phrase<'_>) -> Result<Operand, QuestionFault>
    ensures value { result ≡ bytes_operand sizes width words.now }
    ensures range { IfOk result (IsOperandOf sizes) }
    ensures within { IfOk result (λ operand. words_in operand ≤ length words.now) }
{
    begins(words, 3)?;
    let page = object(sizes, CapKind::Page, words.word(1))?;
    let offset = offset(width, words.word(2))?;
    Ok(Operand::Bytes {
        width,
        page,
        offset,
    })
}

#[tactic(auto, unfolding(crate::specs::TermLine::age_operand))]
fn age(sizes: Sizes, words: &Phrase<'_>) -> Result<Operand, QuestionFault>
    ensures value { result ≡ age_operand sizes words.now }
    ensures range { IfOk result (IsOperandOf sizes) }
    ensures within { IfOk result (λ operand. words_in operand ≤ length words.now) }
{
    begins(words, 3)?;
    let kind = read_kind(words.word(1))?;
    let number = object(sizes, kind, words.word(2))?;
    Ok(Operand::Age { kind, number })
}

#[tactic(auto, unfolding(crate::specs::TermLine::payload_operand))]
fn payload(sizes: Sizes, words: &Phrase<'_>) -> Result<Operand, QuestionFault>
    ensures value { result ≡ payload_operand sizes words.now }
    ensures range { IfOk result (IsOperandOf sizes) }
    ensures within { IfOk result (λ operand. words_in operand ≤ length words.now) }
{
    begins(words, 2)?;
    let endpoint = object(sizes, CapKind::Endpoint, words.word(1))?;
    Ok(Operand::Payload { endpoint })
}

/// There are at least so many words.
fn begins(words: &Phrase<'_>, wanted: usize) -> Result<(), QuestionFault>
    ensures { result ≡ ensured (nat_le wanted (length words.now)) WrongWords }
{
    if words.count() < wanted {
        return Err(QuestionFault::WrongWords);
    }
    Ok(())
}
