//! The capability that a word gives.
ghost use Rattle.std.specs.Prelude.{◌≡◌, ◌<◌, ◌&&◌, true, if◌then◌else◌, Some, None, Ok, Err, IfOk, OnOk};
ghost use Rattle.cap_format.specs.Kind.{is_counted, object_kind, object_limit};
ghost use Rattle.cap_format.specs.Guard.{guard_of};
ghost use Rattle.listing_read.specs.declared.fault.Fault.TheVariants.{NoObject, BadGuard};
ghost use Rattle.object_store.specs.Ranges.{IsWithinLimits};
ghost use Rattle.object_store.specs.Sizes.{size_in};
ghost use Rattle.listing_read.specs.Faults.{ensured};
ghost use Rattle.listing_read.specs.CapWord.{numbered_by, is_there, has_guard, is_aligned, meant, cap_of, IsStated};
ghost use Rattle.cap_words.specs.Spelling.{IsSpelled};

use crate::fault::Fault;
use crate::terms::{Terms, size_of};
use bitflags::Flags;
use cap_format::{Cap, CapKind, Guard, Restr};
use cap_words::{Spelled, read_spelled};

/// The capability, with count 0, that a word spells.
#[tactic(auto, unfolding(crate::specs::CapWord::cap_of))]
pub(crate) fn capability(terms: &Terms, word: &[u8]) -> Result<Cap, Fault>
    requires { IsWithinLimits terms.now.sizes }
    ensures value { result ≡ cap_of terms.now word.now }
    ensures range { IfOk result (IsStated terms.now.sizes) }
{
    let Some(words) = read_spelled(terms.version.has_names(), word) else {
        return Err(Fault::BadCap);
    };
    let spelled = numbered(terms, words)?;
    there(terms, &spelled)?;
    guarded(spelled)
}

/// The same with the number for which its name stands, where it has one.
fn numbered(terms: &Terms, words: Spelled) -> Result<Spelled, Fault>
    requires { IsSpelled words }
    ensures value { result ≡ numbered_by terms.now words words.name }
    ensures range { IfOk result IsSpelled }
{
    let kind = words.kind.object_kind();
    let Some(name) = &words.name else {
        return Ok(words);
    };
    match terms.names.number_called(kind, name.as_slice()) {
        Some(number) => Ok(Spelled {
            object: number as u32,
            ..words
        }),
        None => Err(Fault::NameUnknown),
    }
}

/// The machine has the object that is spelled, if one is.
fn there(terms: &Terms, spelled: &Spelled) -> Result<(), Fault>
    requires limits { IsWithinLimits terms.now.sizes }
    requires range { IsSpelled spelled.now }
    ensures value { result ≡ ensured (is_there terms.now.sizes spelled.now) NoObject }
    ensures named { let size = size_in terms.now.sizes (object_kind spelled.now.kind) in
        OnOk result (is_counted spelled.now.kind ≡ true → spelled.now.object < size) }
    ensures fits { OnOk result (spelled.now.object < object_limit spelled.now.kind) }
{
    if spelled.kind.is_counted()
        && spelled.object >= u32::from(size_of(terms.sizes, spelled.kind.object_kind()))
    {
        return Err(Fault::NoObject);
    }
    Ok(())
}

/// The capability that is spelled, where its guard is in range and divides its offset.
fn guarded(spelled: Spelled) -> Result<Cap, Fault>
    requires range { IsSpelled spelled }
    requires object { spelled.object < object_limit spelled.kind }
    ensures value { result ≡
        if has_guard spelled && is_aligned spelled then Ok (meant spelled) else Err BadGuard }
    ensures meant { IfOk result (λ cap. cap ≡ meant spelled) }
{
    match guard(&spelled) {
        Some(guard) => through(spelled, guard),
        None => Err(Fault::BadGuard),
    }
}

/// The guard that is spelled, where it is in range.
#[tactic(auto, using(crate::proofs::CapWords::guard_tested))]
fn guard(spelled: &Spelled) -> Option<Guard>
    ensures { let s = spelled.now in
        result ≡ if has_guard s then Some (guard_of s.l2g s.matches) else None }
{
    if spelled.l2g > 32 {
        return None;
    }
    Guard::new(spelled.l2g as u8, spelled.matches).ok()
}

/// The capability that is spelled, where its guard divides its offset.
#[tactic(auto, using(crate::proofs::CapWords::cap_tested))]
fn through(spelled: Spelled, guard: Guard) -> Result<Cap, Fault>
    requires guard { guard ≡ guard_of spelled.l2g spelled.matches }
    requires range { IsSpelled spelled }
    requires object { spelled.object < object_limit spelled.kind }
    ensures { result ≡ if is_aligned spelled then Ok (meant spelled) else Err BadGuard }
{
    let restr = Restr::from_bits_retain(spelled.restr);
    let Spelled {
        kind,
        object,
        payload,
        slot,
        ..
    } = spelled;
    Cap::try_new(kind, restr, 0, guard, object, payload, slot).ok_or(Fault::BadGuard)
}
