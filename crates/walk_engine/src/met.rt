//! What one capability makes of a walk: a function for each rule.

ghost use Rattle.std.specs.Prelude.{◌≡◌, ◌≤◌, ◌<◌, ◌-◌, ◌/◌, ◌%◌, ◌^◌, ℕ, true, false, ◌&&◌, IfSome, IsNone};
ghost use Rattle.cap_format.specs.Capability.{IsCapability, bare};
ghost use Rattle.guard_math.specs.Pass.{passes};
ghost use Rattle.cap_format.specs.Kind.{is_counted, is_memory, is_window};
ghost use Rattle.object_store.specs.Store.{size_of, header_at};
ghost use Rattle.object_store.specs.Meaning.{is_live, map_of};
ghost use Rattle.walk_meaning.specs.Walk.{invalid, denied, restricted, past, reached_place, at_page, at_cappage, at_gpt, at_kind, handler_from, background_from, is_reserved, step};
ghost use Rattle.walk_meaning.specs.Trail.{slots_from};
ghost use Rattle.walk_meaning.specs.After.{slots_after};
ghost use Rattle.walk_meaning.specs.Bounds.{Below, IsAt, GoesBelow};
ghost use Rattle.windows.specs.Resolve.{resolution};
ghost use Rattle.walk_engine.specs.Windows.{held, context_of, step_through};

use bitflags::Flags;
use cap_format::{Cap, CapKind, FaultCode, Restr};
use gpt_objects::GptHeader;
use guard_math::pass;
use object_store::Objects;
use walk_meaning::{At, Kind, Place, Step};
use windows::{Context, resolve};

/// What a live capability makes of a walk.
pub fn step(objects: &Objects, kind: Kind, cap: Cap, at: At) -> Step
    requires live { is_live objects.now.items cap ≡ true }
    requires at { IsAt (size_of objects.now.items CapKind.Gpt) at }
    ensures value { result ≡ step objects.now.items kind cap at }
    ensures below { GoesBelow (size_of objects.now.items CapKind.Gpt) result }

    // The slots that are read from here on, where n capabilities may still be met.
    ensures slots { (n : ℕ) → 0 < n → slots_from (map_of objects.now.items) kind n (bare cap) at
        ≡ slots_after (map_of objects.now.items) kind (n - 1) result }
{
    objects.in_ranges();
    let Some(behind) = behind(cap, at) else {
        return Step::Fault(invalid(kind), at.handler);
    };
    at_kind(objects, kind, cap, behind)
}

/// The walk behind the guard of a memory capability, if the address passes it.
fn behind(cap: Cap, at: At) -> Option<At>
    ensures some { IfSome result (λ w. w ≡ past cap at) }
    ensures passed { IfSome result
        (λ w. (is_memory cap.kind && passes cap.guard at.address) ≡ true) }
    ensures none { IsNone result → (is_memory cap.kind && passes cap.guard at.address) ≡ false }
    ensures left { IfSome result (λ w. w.address < 2 ^ cap.guard.l2g) }
    ensures range { IsCapability cap }
{
    if !cap.kind().is_memory() {
        return None;
    }
    let address = pass(cap.guard(), at.address).ok()?;
    let restr = restricted(at.restr, cap.restr());
    let l2 = at.l2.min(cap.guard().l2g());
    Some(At {
        restr,
        address,
        l2,
        ..at
    })
}

/// All restrictions of the way, with those of one more capability.
fn restricted(met: Restr, more: Restr) -> Restr
    ensures { result ≡ restricted met more.0 }
{
    met.union(more)
}

/// The rule of the capability's kind, behind its guard.
fn at_kind(objects: &Objects, kind: Kind, cap: Cap, at: At) -> Step
    requires live { is_live objects.now.items cap ≡ true }
    requires holding { Below (size_of objects.now.items CapKind.Gpt) at.holding }
    requires left { at.address < 2 ^ cap.guard.l2g }
    ensures { result ≡ at_kind objects.now.items kind cap.kind cap at }
{
    match cap.kind() {
        CapKind::Page => at_page(kind, cap, at),
        CapKind::CapPage => at_cappage(kind, cap, at),
        CapKind::Gpt => at_gpt(objects.gpt_header(number_of(cap)), number_of(cap), kind, at),
        CapKind::Window => at_window(objects, cap, at),
        CapKind::LocalWindow => at_window(objects, cap, at),
        _ => Step::Fault(invalid(kind), at.handler),
    }
}

fn at_page(kind: Kind, cap: Cap, at: At) -> Step
    requires { is_counted cap.kind ≡ true }
    ensures { result ≡ at_page kind cap at }
{
    if at.address >= 4096 {
        return Step::Fault(invalid(kind), at.handler);
    }
    if !kind.is_data() {
        return Step::Fault(FaultCode::CapAccessTypeError, at.handler);
    }
    if denied(kind, at.restr) {
        return Step::Fault(FaultCode::AccessViolation, at.handler);
    }
    Step::Reach(reached_place(cap, at))
}

fn at_cappage(kind: Kind, cap: Cap, at: At) -> Step
    requires { is_counted cap.kind ≡ true }
    ensures { result ≡ at_cappage kind cap at }
{
    if at.address >= 4096 {
        return Step::Fault(invalid(kind), at.handler);
    }
    if kind.is_data() {
        return Step::Fault(FaultCode::DataAccessTypeError, at.handler);
    }
    if denied(kind, at.restr) {
        return Step::Fault(FaultCode::AccessViolation, at.handler);
    }
    Step::Reach(reached_place(cap, at))
}

fn at_gpt(header: GptHeader, gpt: u16, kind: Kind, at: At) -> Step
    ensures { result ≡ at_gpt header gpt kind at }
{
    let handler = handler_from(header, gpt, at);
    let slot = at.address / size(header.l2v());
    if slot > 15 || is_reserved(header, slot as u8) {
        return Step::Fault(invalid(kind), handler);
    }
    let into = At {
        holding: Some(gpt),
        background: if header.bg() {
            Some(gpt)
        } else {
            at.background
        },
        handler,
        address: at.address % size(header.l2v()),
        l2: at.l2.min(header.l2v()),
        ..at
    };
    Step::Go(into, gpt, slot as u8)
}

/// Whether a slot, 0 to 15, is no way on, since it is the GPT's handler or its background.
fn is_reserved(header: GptHeader, slot: u8) -> bool
    ensures { result ≡ is_reserved header slot }
{
    (slot == 15 && header.ha()) || (slot == 14 && header.bg())
}

/// The two rules of windows.
fn at_window(objects: &Objects, window: Cap, at: At) -> Step
    requires window { is_window window.kind ≡ true }
    requires left { at.address < 2 ^ window.guard.l2g }
    requires holding { Below (size_of objects.now.items CapKind.Gpt) at.holding }
    ensures { result
        ≡ step_through at (resolution window.kind window at.address (context_of objects.now.items at)) }
{
    let context = Context {
        holding: held(objects, at.holding),
        background: at.background,
    };
    let Ok(next) = resolve(window, at.address, context) else {
        return Step::Fault(FaultCode::MalformedSpace, at.handler);
    };
    let through = At {
        holding: Some(next.gpt),
        address: next.address,
        ..at
    };
    Step::Go(through, next.gpt, next.slot)
}

fn held(objects: &Objects, holding: Option<u16>) -> Option<(u16, GptHeader)>
    requires { Below (size_of objects.now.items CapKind.Gpt) holding }
    ensures { result ≡ held objects.now.items holding }
{
    let gpt = holding?;
    Some((gpt, objects.gpt_header(gpt)))
}

fn handler_from(header: GptHeader, gpt: u16, at: At) -> Option<u16>
    ensures { result ≡ handler_from header gpt at }
{
    if header.ha() && !at.restr.contains(Restr::NC) {
        return Some(gpt);
    }
    at.handler
}

fn reached_place(cap: Cap, at: At) -> Place
    requires counted { is_counted cap.kind ≡ true }
    requires within { at.address < 4096 }
    ensures { result ≡ reached_place cap at }
{
    Place {
        kind: cap.kind(),
        number: number_of(cap),
        offset: at.address as u16,
        restr: at.restr,
    }
}

/// The number of the object that a capability names.
pub fn number_of(cap: Cap) -> u16
    requires { is_counted cap.kind ≡ true }
    ensures { result ≡ cap.object }
{
    cap.object() as u16
}

fn invalid(kind: Kind) -> FaultCode
    ensures { result ≡ invalid kind }
{
    if kind.is_data() {
        return FaultCode::InvalidDataReference;
    }
    FaultCode::InvalidCapReference
}

fn denied(kind: Kind, restr: Restr) -> bool
    ensures { result ≡ denied kind restr.0 }
{
    match kind {
        Kind::Fetch => restr.contains(Restr::NX),
        Kind::Store | Kind::CapStore => restr.contains(Restr::RO),
        Kind::Load | Kind::CapLoad => false,
    }
}

/// `2^l2v`, the number of bytes that a slot covers.
fn size(l2v: u8) -> u32
    requires { l2v ≤ 31 }
    ensures value { result ≡ 2 ^ l2v }
    ensures positive { 0 < result }
{
    1u32 << l2v
}
