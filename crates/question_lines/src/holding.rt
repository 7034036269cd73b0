//! The conditions on what an object holds.
ghost use Rattle.std.specs.Prelude.{◌≡◌, ◌==◌, ◌||◌, length, IfOk};
ghost use Rattle.listing_read.specs.Faults.{ensured};
ghost use Rattle.listing_read.specs.declared.object_fault.QuestionFault.TheVariants.{WrongWords};
ghost use Rattle.questions.specs.Atom.{IsConditionOf};
ghost use Rattle.question_lines.specs.AtomLine.{any_from, holds_any_atom, holds_atom, holds_object_atom, is_writable};

use crate::fields::object;
use crate::phrase::Phrase;
use cap_format::CapKind;
use confine_check::read_kind;
use listing_read::QuestionFault;
use object_store::Sizes;
use questions::{Condition, Holding};

/// What an object holds: a capability of a kind, or one to another object.
#[tactic(auto, unfolding(crate::specs::AtomLine::holds_atom))]
pub(crate) fn holds(sizes: Sizes, words: &Phrase<'_>) -> Result<Condition, QuestionFault>
    ensures value { result ≡ holds_atom sizes words.now }
    ensures range { IfOk result (IsConditionOf sizes) }
{
    if words.count() == 4 {
        return holds_any(sizes, words);
    }
    holds_object(sizes, words)
}

#[tactic(auto, unfolding(crate::specs::AtomLine::holds_any_atom))]
fn holds_any(sizes: Sizes, words: &Phrase<'_>) -> Result<Condition, QuestionFault>
    ensures value { result ≡ holds_any_atom sizes words.now }
    ensures range { IfOk result (IsConditionOf sizes) }
{
    let of = any(words.word(3))?;
    let kind = read_kind(words.word(1))?;
    let number = object(sizes, kind, words.word(2))?;
    Ok(Condition::Holds {
        kind,
        number,
        holding: Holding::Kind { of },
    })
}

/// A kind of which no object is named.
#[tactic(auto, unfolding(crate::specs::AtomLine::any_from))]
fn any(word: &[u8]) -> Result<CapKind, QuestionFault>
    ensures { result ≡ any_from word.now }
{
    if word == b"range".as_slice() {
        return Ok(CapKind::Range);
    }
    if word == b"sysctl".as_slice() {
        return Ok(CapKind::SysCtl);
    }
    if word == b"kernlog".as_slice() {
        return Ok(CapKind::KernLog);
    }
    if word == b"schedule".as_slice() {
        return Ok(CapKind::Schedule);
    }
    Err(QuestionFault::WrongWords)
}

#[tactic(auto, unfolding(crate::specs::AtomLine::holds_object_atom))]
fn holds_object(sizes: Sizes, words: &Phrase<'_>) -> Result<Condition, QuestionFault>
    ensures value { result ≡ holds_object_atom sizes words.now }
    ensures range { IfOk result (IsConditionOf sizes) }
{
    names_object(words)?;
    let kind = read_kind(words.word(1))?;
    let number = object(sizes, kind, words.word(2))?;
    let of = read_kind(words.word(3))?;
    let named = object(sizes, of, words.word(4))?;
    let holding = if words.count() == 5 {
        Holding::Object { of, named }
    } else {
        Holding::Writable { of, named }
    };
    Ok(Condition::Holds {
        kind,
        number,
        holding,
    })
}

/// There are five words, or six of which the last is `writable`.
#[tactic(auto, unfolding(crate::specs::AtomLine::is_writable))]
fn names_object(words: &Phrase<'_>) -> Result<(), QuestionFault>
    ensures { result ≡ ensured (length words.now == 5 || is_writable words.now) WrongWords }
{
    if words.count() == 5 || (words.count() == 6 && words.word(5) == b"writable".as_slice()) {
        return Ok(());
    }
    Err(QuestionFault::WrongWords)
}
