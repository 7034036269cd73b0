//! A capability as it is read, without regard to what a machine has.
ghost use Rattle.std.specs.Prelude.{◌≡◌, ◌≤◌, ◌<◌, ◌^◌, true, false, IfSome};
ghost use Rattle.coy_text.specs.Numeral.{dec_of, hex_of};
ghost use Rattle.cap_format.specs.Kind.{is_memory, is_window, is_counted, object_limit, payload_limit, slot_limit};
ghost use Rattle.cap_words.specs.Spelling.{dec_to, named, named_by, object_by, object_at, behind, plain_kind_of, match_of, guarded_of, schedule_of, entry_of, memory_of, window_of, local_of, headed, spelled_of, IsSpelled};

use crate::letters::restrictions;
use crate::name::{Name, called, read_name};
use cap_format::{CapKind, PRIORITIES};
use coy_text::{cut, read_dec, read_hex};

/// A word that is spelled as a capability. Its numbers may be out of range, and what its kind has not is 0.
#[derive(Drop)]
pub struct Spelled {
    pub kind: CapKind,
    pub restr: u8,
    pub l2g: u32,
    pub matches: u32,
    /// The object number, the offset in bytes, or the priority.
    pub object: u32,
    /// The name that stands for the object number, which is 0 then.
    pub name: Option<Name>,
    pub payload: u32,
    pub slot: u8,
}

/// What stands behind the `@` of a memory capability.
#[derive(Clone, Copy)]
pub struct Guarded {
    pub l2g: u32,
    pub matches: u32,
    pub restr: u8,
}

/// What a word spells, in which a name may stand for an object's number, or not. `None` where it spells no capability.
#[tactic(auto, unfolding(crate::specs::Spelling::spelled_of))]
pub fn read_spelled(names: bool, word: &[u8]) -> Option<Spelled>
    ensures value { result ≡ spelled_of names word.now }
    ensures range { IfSome result IsSpelled }
{
    match cut(word, b':') {
        Some((head, rest)) => headed(names, head, rest),
        None => Some(named(plain_kind(word)?, 0)),
    }
}

#[tactic(auto, unfolding(crate::specs::Spelling::headed))]
fn headed(names: bool, head: &[u8], rest: &[u8]) -> Option<Spelled>
    ensures value { result ≡ headed names head.now rest.now }
    ensures range { IfSome result IsSpelled }
{
    if head == b"schedule".as_slice() {
        return scheduled(rest);
    }
    if head == b"endpoint".as_slice() {
        return object_at(names, CapKind::Endpoint, rest);
    }
    if head == b"process".as_slice() {
        return object_at(names, CapKind::Process, rest);
    }
    if head == b"entry".as_slice() {
        return entered(names, rest);
    }
    if head == b"page".as_slice() {
        return guarded_object(names, CapKind::Page, rest);
    }
    if head == b"cappage".as_slice() {
        return guarded_object(names, CapKind::CapPage, rest);
    }
    if head == b"gpt".as_slice() {
        return guarded_object(names, CapKind::Gpt, rest);
    }
    if head == b"window".as_slice() {
        return windowed(CapKind::Window, 0, rest);
    }
    if head == b"local".as_slice() {
        return localized(rest);
    }
    None
}

/// A capability without guard and restrictions.
#[tactic(auto, using(crate::proofs::Spellings::IsSpelled_named))]
fn named(kind: CapKind, object: u32) -> Spelled
    requires { is_counted kind ≡ false → object < object_limit kind }
    ensures value { result ≡ named kind object }
    ensures range { IsSpelled result }
{
    Spelled {
        kind,
        restr: 0,
        l2g: 12,
        matches: 0,
        object,
        name: None,
        payload: 0,
        slot: 0,
    }
}

/// One to the object that a name stands for.
#[tactic(auto, using(crate::proofs::Spellings::IsSpelled_named))]
fn named_by(kind: CapKind, name: Name) -> Spelled
    requires { is_counted kind ≡ true }
    ensures value { result ≡ named_by kind name }
    ensures range { IsSpelled result }
    ensures kind { result.kind ≡ kind }
{
    Spelled {
        name: Some(name),
        ..named(kind, 0)
    }
}

/// The same behind a guard.
#[tactic(auto, using(crate::proofs::Spellings::IsSpelled_behind))]
fn behind(guarded: Guarded, spelled: Spelled) -> Spelled
    requires memory { is_memory spelled.kind ≡ true }
    requires restr { guarded.restr < 32 }
    requires range { IsSpelled spelled }
    ensures value { result ≡ behind guarded spelled }
    ensures range { IsSpelled result }
{
    Spelled {
        restr: guarded.restr,
        l2g: guarded.l2g,
        matches: guarded.matches,
        ..spelled
    }
}

/// The same with a payload.
fn with_payload(payload: u32, spelled: Spelled) -> Spelled
    requires payload { payload < payload_limit spelled.kind }
    requires range { IsSpelled spelled }
    ensures value { result ≡ record spelled { payload = payload } }
    ensures range { IsSpelled result }
{
    Spelled { payload, ..spelled }
}

/// The same through a slot.
fn in_slot(slot: u8, spelled: Spelled) -> Spelled
    requires slot { slot < slot_limit spelled.kind }
    requires range { IsSpelled spelled }
    ensures value { result ≡ record spelled { slot = slot } }
    ensures range { IsSpelled result }
{
    Spelled { slot, ..spelled }
}

#[tactic(auto, unfolding(crate::specs::Spelling::plain_kind_of))]
fn plain_kind(word: &[u8]) -> Option<CapKind>
    ensures value { result ≡ plain_kind_of word.now }
    ensures range { IfSome result (λ kind. 0 < object_limit kind) }
{
    if word == b"null".as_slice() {
        return Some(CapKind::Null);
    }
    if word == b"range".as_slice() {
        return Some(CapKind::Range);
    }
    if word == b"discrim".as_slice() {
        return Some(CapKind::Discrim);
    }
    if word == b"kernlog".as_slice() {
        return Some(CapKind::KernLog);
    }
    if word == b"sysctl".as_slice() {
        return Some(CapKind::SysCtl);
    }
    None
}

#[tactic(auto, unfolding(crate::specs::Spelling::schedule_of))]
fn scheduled(rest: &[u8]) -> Option<Spelled>
    ensures value { result ≡ schedule_of rest.now }
    ensures range { IfSome result IsSpelled }
{
    Some(named(
        CapKind::Schedule,
        number_to(u32::from(PRIORITIES) - 1, rest)?,
    ))
}

#[tactic(auto, unfolding(crate::specs::Spelling::object_at))]
fn object_at(names: bool, kind: CapKind, word: &[u8]) -> Option<Spelled>
    requires { is_counted kind ≡ true }
    ensures value { result ≡ object_at names kind word.now }
    ensures range { IfSome result IsSpelled }
    ensures kind { IfSome result (λ spelled. spelled.kind ≡ kind) }
{
    match called(names, word) {
        Some(name) => Some(named_by(kind, read_name(name)?)),
        None => Some(named(kind, number(word)?)),
    }
}

#[tactic(auto, unfolding(crate::specs::Spelling::entry_of))]
fn entered(names: bool, rest: &[u8]) -> Option<Spelled>
    ensures value { result ≡ entry_of names rest.now }
    ensures range { IfSome result IsSpelled }
{
    let (endpoint, payload) = cut(rest, b':')?;
    let spelled = object_at(names, CapKind::Entry, endpoint)?;
    let payload = hexadecimal(payload)?;
    Some(with_payload(payload, spelled))
}

#[tactic(auto, unfolding(crate::specs::Spelling::memory_of))]
fn guarded_object(names: bool, kind: CapKind, rest: &[u8]) -> Option<Spelled>
    requires memory { is_memory kind ≡ true }
    requires counted { is_counted kind ≡ true }
    ensures value { result ≡ memory_of names kind rest.now }
    ensures range { IfSome result IsSpelled }
{
    let (object, guard) = cut(rest, b'@')?;
    let spelled = object_at(names, kind, object)?;
    let guarded = read_guard(guard)?;
    Some(behind(guarded, spelled))
}

#[tactic(auto, unfolding(crate::specs::Spelling::window_of))]
fn windowed(kind: CapKind, slot: u8, rest: &[u8]) -> Option<Spelled>
    requires window { is_window kind ≡ true }
    requires slot { slot < slot_limit kind }
    ensures value { result ≡ window_of kind slot rest.now }
    ensures range { IfSome result IsSpelled }
{
    let (offset, guard) = cut(rest, b'@')?;
    let offset = hexadecimal(offset)?;
    let guarded = read_guard(guard)?;
    Some(behind(guarded, in_slot(slot, named(kind, offset))))
}

#[tactic(auto, unfolding(crate::specs::Spelling::local_of))]
fn localized(rest: &[u8]) -> Option<Spelled>
    ensures value { result ≡ local_of rest.now }
    ensures range { IfSome result IsSpelled }
{
    let (slot, window) = cut(rest, b':')?;
    let slot = number_to(15, slot)?;
    windowed(CapKind::LocalWindow, slot as u8, window)
}

#[tactic(auto, unfolding(crate::specs::Spelling::guarded_of))]
fn read_guard(word: &[u8]) -> Option<Guarded>
    ensures value { result ≡ guarded_of word.now }
    ensures range { IfSome result (λ guarded. guarded.restr < 32) }
{
    let (l2g, rest) = cut(word, b'/')?;
    let l2g = number(l2g)?;
    match cut(rest, b'+') {
        None => Some(Guarded {
            l2g,
            matches: hexadecimal(rest)?,
            restr: 0,
        }),
        Some((matches, letters)) => Some(Guarded {
            l2g,
            matches: hexadecimal(matches)?,
            restr: restrictions(letters)?,
        }),
    }
}

fn number(word: &[u8]) -> Option<u32>
    ensures { result ≡ dec_of word.now }
{
    read_dec(word).ok()
}

#[tactic(auto, unfolding(crate::specs::Spelling::dec_to))]
pub fn number_to(most: u32, word: &[u8]) -> Option<u32>
    ensures value { result ≡ dec_to most word.now }
    ensures most { IfSome result (λ n. n ≤ most) }
{
    let value = number(word)?;
    if value > most {
        return None;
    }
    Some(value)
}

fn hexadecimal(word: &[u8]) -> Option<u32>
    ensures value { result ≡ hex_of word.now }
    ensures bound { IfSome result (λ n. n < 2 ^ 32) }
{
    read_hex(word).ok()
}
