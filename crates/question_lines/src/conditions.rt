//! The conditions of which atoms are made.
ghost use Rattle.std.specs.Prelude.{◌≡◌, ◌<◌, ◌≤◌, ◌==◌, ◌||◌, length, IfErr, IfOk};
ghost use Rattle.object_store.specs.Sizes.{size_in};
ghost use Rattle.cap_format.specs.declared.kind.CapKind.TheVariants.{Process};
ghost use Rattle.listing_read.specs.Faults.{ensured};
ghost use Rattle.questions.specs.Atom.{IsConditionOf};
ghost use Rattle.listing_read.specs.declared.object_fault.QuestionFault.TheVariants.{WrongWords};
ghost use Rattle.question_lines.specs.QuestionLine.{IsUntaken};
ghost use Rattle.question_lines.specs.AtomLine.{alone, comparison_of, compares_atom, condition_from, plain_condition, word_atom};

use crate::fault::Untaken;
use crate::fields::{has_words, object, offset, value};
use crate::holding::holds;
use crate::phrase::Phrase;
use crate::process_conditions::process_condition;
use crate::terms::term;
use cap_format::CapKind;
use listing_read::QuestionFault;
use object_store::Sizes;
use questions::{Comparison, Condition, Width};
use std::alloc::Global;

/// The condition that some words are.
#[tactic(auto, unfolding(crate::specs::AtomLine::condition_by))]
pub(crate) fn condition(
    alloc: Global,
    sizes: Sizes,
    words: &Phrase<'_>,
) -> Result<Condition, Untaken>
    ensures value { IfOk result (λ said. condition_from sizes words.now ≡ Ok said) }
    ensures range { IfOk result (IsConditionOf sizes) }
    ensures untaken { IfErr result (IsUntaken (condition_from sizes words.now)) }
{
    match comparison_of(words.word(0)) {
        Some(comparison) => compares(alloc, sizes, comparison, words),
        None => match plain_condition(sizes, words) {
            Ok(condition) => Ok(condition),
            Err(fault) => Err(Untaken::Refused(fault)),
        },
    }
}

/// What a word asks of two terms.
#[tactic(auto, unfolding(crate::specs::AtomLine::comparison_of))]
fn comparison_of(word: &[u8]) -> Option<Comparison>
    ensures { result ≡ comparison_of word.now }
{
    if word == b"same".as_slice() {
        return Some(Comparison::Same);
    }
    if word == b"below".as_slice() {
        return Some(Comparison::Below);
    }
    if word == b"most".as_slice() {
        return Some(Comparison::Most);
    }
    if word == b"less".as_slice() {
        return Some(Comparison::Less);
    }
    None
}

/// How many terms may stand in one another, the outermost among them.
const DEEPEST_TERMS: u8 = 16;

/// A comparison of the two terms behind the first word.
#[tactic(auto, unfolding(crate::specs::AtomLine::compares_atom))]
fn compares(
    alloc: Global,
    sizes: Sizes,
    comparison: Comparison,
    words: &Phrase<'_>,
) -> Result<Condition, Untaken>
    ensures value { IfOk result (λ said. compares_atom sizes comparison words.now ≡ Ok said) }
    ensures range { IfOk result (IsConditionOf sizes) }
    ensures untaken { IfErr result (IsUntaken (compares_atom sizes comparison words.now)) }
{
    let (first, behind) = match term(alloc, sizes, words, DEEPEST_TERMS, 1) {
        Ok(read) => read,
        Err(untaken) => return Err(untaken),
    };
    let (second, end) = match term(alloc, sizes, words, DEEPEST_TERMS, behind) {
        Ok(read) => read,
        Err(untaken) => return Err(untaken),
    };
    if end != words.count() {
        return Err(Untaken::Refused(QuestionFault::WrongWords));
    }
    Ok(Condition::Compares {
        comparison,
        first,
        second,
    })
}

/// A condition without terms.
#[tactic(auto, unfolding(crate::specs::AtomLine::plain_condition))]
fn plain_condition(sizes: Sizes, words: &Phrase<'_>) -> Result<Condition, QuestionFault>
    ensures value { result ≡ plain_condition sizes words.now }
    ensures range { IfOk result (IsConditionOf sizes) }
{
    let head = words.word(0);
    if head == b"stuck".as_slice() {
        return alone(Condition::Stuck, words);
    }
    if head == b"halted".as_slice() {
        return alone(Condition::Halted, words);
    }
    if head == b"crossing".as_slice() {
        return alone(Condition::Crossing, words);
    }
    if head == b"word".as_slice() {
        return word(sizes, words);
    }
    if head == b"holds".as_slice() {
        return holds(sizes, words);
    }
    process_condition(sizes, words)
}

/// A condition that names nothing.
#[tactic(auto, unfolding(crate::specs::AtomLine::alone))]
fn alone(condition: Condition, words: &Phrase<'_>) -> Result<Condition, QuestionFault>
    ensures value { result ≡ alone condition words.now }
    ensures same { IfOk result (λ said. said ≡ condition) }
{
    has_words(words.count(), 1)?;
    Ok(condition)
}

#[tactic(auto, unfolding(crate::specs::AtomLine::word_atom))]
fn word(sizes: Sizes, words: &Phrase<'_>) -> Result<Condition, QuestionFault>
    ensures value { result ≡ word_atom sizes words.now }
    ensures range { IfOk result (IsConditionOf sizes) }
{
    has_words(words.count(), 4)?;
    let page = object(sizes, CapKind::Page, words.word(1))?;
    let offset = offset(Width::Word, words.word(2))?;
    let value = value(words.word(3))?;
    Ok(Condition::Word {
        page,
        offset,
        value,
    })
}
