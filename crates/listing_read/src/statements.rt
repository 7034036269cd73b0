//! The statements of a listing, one function each. Those of memory stand apart.
ghost use Rattle.std.specs.Prelude.{◌≡◌, true, IfOk};
ghost use Rattle.cap_format.specs.Kind.{is_object};
ghost use Rattle.object_store.specs.Ranges.{IsWithinLimits};
ghost use Rattle.listing_read.specs.Statement.{IsStatement};
ghost use Rattle.listing_read.specs.StatementLines.{endpoint_line, process_line, reg_line, capreg_line, kind_of, count_line, naming_line, later_statement_of, statement_of};

use crate::capability::capability;
use crate::fault::Fault;
use crate::fields::{aligned, between, either, has_words, hexadecimal, object, plain_object};
use crate::memory_statements::{cap_slot, code, gpt, gpt_slot, page, region};
use crate::names::Naming;
use crate::statement::Statement;
use crate::terms::Terms;
use cap_format::{CapKind, LAST_COUNT};
use cap_words::read_name;
use coy_text::LineWords;

/// What a line says, whose first word is not `end`.
#[tactic(auto, unfolding(crate::specs::StatementLines::statement_of))]
pub(crate) fn statement(terms: &Terms, words: &LineWords<'_>) -> Result<Statement, Fault>
    requires { IsWithinLimits terms.now.sizes }
    ensures value { result ≡ statement_of terms.now words.now }
    ensures range { IfOk result (IsStatement terms.now.sizes) }
{
    let head = words.word(0);
    if head == b"page".as_slice() {
        return page(terms, words);
    }
    if head == b"code".as_slice() {
        return code(terms, words);
    }
    if head == b"cap".as_slice() {
        return cap_slot(terms, words);
    }
    if head == b"gpt".as_slice() {
        return gpt(terms, words);
    }
    if head == b"slot".as_slice() {
        return gpt_slot(terms, words);
    }
    if head == b"endpoint".as_slice() {
        return endpoint(terms, words);
    }
    if head == b"process".as_slice() {
        return process(terms, words);
    }
    if head == b"reg".as_slice() {
        return register(terms, words);
    }
    if head == b"capreg".as_slice() {
        return cap_register(terms, words);
    }
    if head == b"count".as_slice() {
        return count(terms, words);
    }
    later_statement(terms, words)
}

/// What a line says that is no statement of version 1.
#[tactic(auto, unfolding(crate::specs::StatementLines::later_statement_of))]
fn later_statement(terms: &Terms, words: &LineWords<'_>) -> Result<Statement, Fault>
    ensures value { result ≡ later_statement_of terms.now words.now }
    ensures range { IfOk result (IsStatement terms.now.sizes) }
{
    if terms.version.has_names() && words.word(0) == b"region".as_slice() {
        return region(terms, words);
    }
    Err(Fault::UnknownStatement)
}

#[tactic(auto, unfolding(crate::specs::StatementLines::endpoint_line))]
fn endpoint(terms: &Terms, words: &LineWords<'_>) -> Result<Statement, Fault>
    requires { IsWithinLimits terms.now.sizes }
    ensures value { result ≡ endpoint_line terms.now words.now }
    ensures range { IfOk result (IsStatement terms.now.sizes) }
{
    has_words(words, 6)?;
    let number = object(terms, CapKind::Endpoint, words.word(1))?;
    let recipient = capability(terms, words.word(2))?;
    if !matches!(recipient.kind(), CapKind::Process | CapKind::Null) {
        return Err(Fault::BadValue);
    }
    let id = hexadecimal(words.word(3))?;
    let payload = hexadecimal(words.word(4))?;
    let matching = either(b"match".as_slice(), b"plain".as_slice(), words.word(5))?;
    Ok(Statement::Endpoint {
        number,
        recipient,
        id,
        payload,
        matching,
    })
}

#[tactic(auto, unfolding(crate::specs::StatementLines::process_line))]
fn process(terms: &Terms, words: &LineWords<'_>) -> Result<Statement, Fault>
    requires { IsWithinLimits terms.now.sizes }
    ensures value { result ≡ process_line terms.now words.now }
    ensures range { IfOk result (IsStatement terms.now.sizes) }
{
    has_words(words, 7)?;
    let number = object(terms, CapKind::Process, words.word(1))?;
    let pc = aligned(u32::MAX, words.word(2))?;
    let space = capability(terms, words.word(3))?;
    let schedule = capability(terms, words.word(4))?;
    let handler = capability(terms, words.word(5))?;
    let runs = either(b"run".as_slice(), b"stop".as_slice(), words.word(6))?;
    Ok(Statement::Process {
        number,
        pc,
        space,
        schedule,
        handler,
        runs,
    })
}

#[tactic(auto, unfolding(crate::specs::StatementLines::reg_line))]
fn register(terms: &Terms, words: &LineWords<'_>) -> Result<Statement, Fault>
    ensures value { result ≡ reg_line terms.now words.now }
    ensures range { IfOk result (IsStatement terms.now.sizes) }
{
    has_words(words, 4)?;
    let number = object(terms, CapKind::Process, words.word(1))?;
    let index = between(1, 31, words.word(2))?;
    let value = hexadecimal(words.word(3))?;
    Ok(Statement::Reg {
        number,
        index: index as u8,
        value,
    })
}

#[tactic(auto, unfolding(crate::specs::StatementLines::capreg_line))]
fn cap_register(terms: &Terms, words: &LineWords<'_>) -> Result<Statement, Fault>
    requires { IsWithinLimits terms.now.sizes }
    ensures value { result ≡ capreg_line terms.now words.now }
    ensures range { IfOk result (IsStatement terms.now.sizes) }
{
    has_words(words, 4)?;
    let number = object(terms, CapKind::Process, words.word(1))?;
    let index = between(1, 31, words.word(2))?;
    let cap = capability(terms, words.word(3))?;
    Ok(Statement::CapReg {
        number,
        index: index as u8,
        cap,
    })
}

#[tactic(auto, unfolding(crate::specs::StatementLines::count_line))]
fn count(terms: &Terms, words: &LineWords<'_>) -> Result<Statement, Fault>
    ensures value { result ≡ count_line terms.now words.now }
    ensures range { IfOk result (IsStatement terms.now.sizes) }
{
    has_words(words, 4)?;
    let kind = object_kind(words.word(1))?;
    let number = object(terms, kind, words.word(2))?;
    let count = between(0, LAST_COUNT, words.word(3))?;
    Ok(Statement::Count {
        kind,
        number,
        count,
    })
}

/// What a line `name` says.
#[tactic(auto, unfolding(crate::specs::StatementLines::naming_line))]
pub(crate) fn naming(terms: &Terms, words: &LineWords<'_>) -> Result<Naming, Fault>
    ensures { result ≡ naming_line terms.now words.now }
{
    has_words(words, 4)?;
    let Some(name) = read_name(words.word(1)) else {
        return Err(Fault::BadName);
    };
    if terms.names.is_taken(name.as_slice()) {
        return Err(Fault::NameTaken);
    }
    let kind = object_kind(words.word(2))?;
    let number = plain_object(terms.sizes, kind, words.word(3))?;
    Ok(Naming { name, kind, number })
}

#[tactic(auto, unfolding(crate::specs::StatementLines::kind_of))]
fn object_kind(word: &[u8]) -> Result<CapKind, Fault>
    ensures value { result ≡ kind_of word.now }
    ensures range { IfOk result (λ kind. is_object kind ≡ true) }
{
    if word == b"page".as_slice() {
        return Ok(CapKind::Page);
    }
    if word == b"cappage".as_slice() {
        return Ok(CapKind::CapPage);
    }
    if word == b"gpt".as_slice() {
        return Ok(CapKind::Gpt);
    }
    if word == b"endpoint".as_slice() {
        return Ok(CapKind::Endpoint);
    }
    if word == b"process".as_slice() {
        return Ok(CapKind::Process);
    }
    Err(Fault::BadValue)
}
