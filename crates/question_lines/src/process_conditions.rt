//! The conditions on one process, one function each.
ghost use Rattle.std.specs.Prelude.{◌≡◌, ◌<◌, ◌==◌, ◌||◌, length, IfOk};
ghost use Rattle.object_store.specs.Sizes.{size_in};
ghost use Rattle.cap_format.specs.declared.kind.CapKind.TheVariants.{Process};
ghost use Rattle.listing_read.specs.Faults.{ensured};
ghost use Rattle.listing_read.specs.declared.object_fault.QuestionFault.TheVariants.{WrongWords};
ghost use Rattle.questions.specs.Atom.{IsConditionOf};
ghost use Rattle.question_lines.specs.AtomLine.{accepts_atom, asks_atom, faulted_as, faulted_atom, last_from, pc_atom, process_condition, process_from, receiving_atom, reg_atom, running_atom, sleeps_atom, waiting_condition, waits_atom};

use crate::fields::{code, has_words, object, register, value};
use crate::phrase::Phrase;
use cap_format::CapKind;
use listing_read::QuestionFault;
use object_store::Sizes;
use questions::Condition;

/// A condition on a process.
#[tactic(auto, unfolding(crate::specs::AtomLine::process_condition))]
pub(crate) fn process_condition(
    sizes: Sizes,
    words: &Phrase<'_>,
) -> Result<Condition, QuestionFault>
    ensures value { result ≡ process_condition sizes words.now }
    ensures range { IfOk result (IsConditionOf sizes) }
{
    let head = words.word(0);
    if head == b"running".as_slice() {
        return running(sizes, words);
    }
    if head == b"receiving".as_slice() {
        return receiving(sizes, words);
    }
    if head == b"faulted".as_slice() {
        return faulted(sizes, words);
    }
    if head == b"sleeps".as_slice() {
        return sleeps(sizes, words);
    }
    if head == b"pc".as_slice() {
        return pc(sizes, words);
    }
    if head == b"reg".as_slice() {
        return reg(sizes, words);
    }
    waiting_condition(sizes, words)
}

/// A condition on what a process waits for.
#[tactic(auto, unfolding(crate::specs::AtomLine::waiting_condition))]
fn waiting_condition(sizes: Sizes, words: &Phrase<'_>) -> Result<Condition, QuestionFault>
    ensures value { result ≡ waiting_condition sizes words.now }
    ensures range { IfOk result (IsConditionOf sizes) }
{
    let head = words.word(0);
    if head == b"waits".as_slice() {
        return waits(sizes, words);
    }
    if head == b"accepts".as_slice() {
        return accepts(sizes, words);
    }
    if head == b"asks".as_slice() {
        return asks(sizes, words);
    }
    Err(QuestionFault::UnknownAtom)
}

/// The process that an atom is about.
fn process(sizes: Sizes, words: &Phrase<'_>) -> Result<u16, QuestionFault>
    ensures value { result ≡ process_from sizes words.now }
    ensures there { IfOk result (λ n. n < sizes.processes) }
{
    object(sizes, CapKind::Process, words.word(1))
}

#[tactic(auto, unfolding(crate::specs::AtomLine::running_atom))]
fn running(sizes: Sizes, words: &Phrase<'_>) -> Result<Condition, QuestionFault>
    ensures value { result ≡ running_atom sizes words.now }
    ensures range { IfOk result (IsConditionOf sizes) }
{
    has_words(words.count(), 2)?;
    let process = process(sizes, words)?;
    Ok(Condition::Running { process })
}

#[tactic(auto, unfolding(crate::specs::AtomLine::receiving_atom))]
fn receiving(sizes: Sizes, words: &Phrase<'_>) -> Result<Condition, QuestionFault>
    ensures value { result ≡ receiving_atom sizes words.now }
    ensures range { IfOk result (IsConditionOf sizes) }
{
    has_words(words.count(), 2)?;
    let process = process(sizes, words)?;
    Ok(Condition::Receiving { process })
}

#[tactic(auto, unfolding(crate::specs::AtomLine::sleeps_atom))]
fn sleeps(sizes: Sizes, words: &Phrase<'_>) -> Result<Condition, QuestionFault>
    ensures value { result ≡ sleeps_atom sizes words.now }
    ensures range { IfOk result (IsConditionOf sizes) }
{
    has_words(words.count(), 2)?;
    let process = process(sizes, words)?;
    Ok(Condition::Sleeps { process })
}

#[tactic(auto, unfolding(crate::specs::AtomLine::faulted_atom))]
fn faulted(sizes: Sizes, words: &Phrase<'_>) -> Result<Condition, QuestionFault>
    ensures value { result ≡ faulted_atom sizes words.now }
    ensures range { IfOk result (IsConditionOf sizes) }
{
    one_of(words.count(), 2, 3)?;
    let process = process(sizes, words)?;
    faulted_as(sizes, process, words)
}

/// A process at any fault, or at one of a name.
#[tactic(auto, unfolding(crate::specs::AtomLine::faulted_as))]
fn faulted_as(sizes: Sizes, process: u16, words: &Phrase<'_>) -> Result<Condition, QuestionFault>
    requires { process < sizes.processes }
    ensures value { result ≡ faulted_as process words.now }
    ensures range { IfOk result (IsConditionOf sizes) }
{
    if words.count() == 2 {
        return Ok(Condition::Faulted { process });
    }
    let code = code(words.word(2))?;
    Ok(Condition::FaultedBy { process, code })
}

#[tactic(auto, unfolding(crate::specs::AtomLine::pc_atom))]
fn pc(sizes: Sizes, words: &Phrase<'_>) -> Result<Condition, QuestionFault>
    ensures value { result ≡ pc_atom sizes words.now }
    ensures range { IfOk result (IsConditionOf sizes) }
{
    one_of(words.count(), 3, 4)?;
    let process = process(sizes, words)?;
    let first = value(words.word(2))?;
    let last = last(first, words)?;
    if last < first {
        return Err(QuestionFault::BadOrder);
    }
    Ok(Condition::Pc {
        process,
        first,
        last,
    })
}

/// The last address of an atom, which is the first where none is said.
#[tactic(auto, unfolding(crate::specs::AtomLine::last_from))]
fn last(first: u32, words: &Phrase<'_>) -> Result<u32, QuestionFault>
    ensures { result ≡ last_from first words.now }
{
    if words.count() == 3 {
        return Ok(first);
    }
    value(words.word(3))
}

#[tactic(auto, unfolding(crate::specs::AtomLine::reg_atom))]
fn reg(sizes: Sizes, words: &Phrase<'_>) -> Result<Condition, QuestionFault>
    ensures value { result ≡ reg_atom sizes words.now }
    ensures range { IfOk result (IsConditionOf sizes) }
{
    has_words(words.count(), 4)?;
    let process = process(sizes, words)?;
    let register = register(words.word(2))?;
    let value = value(words.word(3))?;
    Ok(Condition::Register {
        process,
        register,
        value,
    })
}

#[tactic(auto, unfolding(crate::specs::AtomLine::waits_atom))]
fn waits(sizes: Sizes, words: &Phrase<'_>) -> Result<Condition, QuestionFault>
    ensures value { result ≡ waits_atom sizes words.now }
    ensures range { IfOk result (IsConditionOf sizes) }
{
    has_words(words.count(), 3)?;
    let process = process(sizes, words)?;
    let endpoint = object(sizes, CapKind::Endpoint, words.word(2))?;
    Ok(Condition::Waits { process, endpoint })
}

#[tactic(auto, unfolding(crate::specs::AtomLine::accepts_atom))]
fn accepts(sizes: Sizes, words: &Phrase<'_>) -> Result<Condition, QuestionFault>
    ensures value { result ≡ accepts_atom sizes words.now }
    ensures range { IfOk result (IsConditionOf sizes) }
{
    has_words(words.count(), 2)?;
    let process = process(sizes, words)?;
    Ok(Condition::Accepts { process })
}

#[tactic(auto, unfolding(crate::specs::AtomLine::asks_atom))]
fn asks(sizes: Sizes, words: &Phrase<'_>) -> Result<Condition, QuestionFault>
    ensures value { result ≡ asks_atom sizes words.now }
    ensures range { IfOk result (IsConditionOf sizes) }
{
    has_words(words.count(), 3)?;
    let process = process(sizes, words)?;
    let on = object(sizes, CapKind::Process, words.word(2))?;
    Ok(Condition::SleepsOn { process, on })
}

/// There are as many words as one of two numbers says.
fn one_of(count: usize, fewer: usize, more: usize) -> Result<(), QuestionFault>
    ensures { result ≡ ensured (count == fewer || count == more) WrongWords }
{
    if count != fewer && count != more {
        return Err(QuestionFault::WrongWords);
    }
    Ok(())
}
