//! A walk that tells its producer.

ghost use Rattle.std.specs.Prelude.{◌≡◌, ◌≤◌, ◌+◌, ◌%◌, ◌<◌, [], true, OnOk, OnErr, IfOk, IfErr};
ghost use Rattle.cap_format.specs.Capability.{bare};
ghost use Rattle.object_store.specs.Store.{size_of};
ghost use Rattle.object_store.specs.Meaning.{is_live, map_of, meaning};
ghost use Rattle.walk_meaning.specs.Bounds.{Below, IsAt};
ghost use Rattle.walk_meaning.specs.Walk.{access};
ghost use Rattle.walk_meaning.specs.Trail.{slots, trail as trail_of};
ghost use Rattle.walk_meaning.specs.Laws.{IsReached};
ghost use Rattle.walk_engine.specs.Answer.{HandlerLives, answer_meaning};
ghost use Rattle.producers.specs.Producer.{aged, here, join_of, place_of, produced_by};

use crate::producer::{Background, Produced, Producer};
use bitflags::Flags;
use cap_format::{Cap, CapKind, FaultCode};
use guard_math::pass;
use object_store::Objects;
use std::sync::ledger::Ledger;
use steps::Steps;
use walk_engine::{Trail, note_header, note_slot, read_next, start_at, step, told};
use walk_meaning::{At, Kind, Place, Step, WalkFault};

/// Where a walk ended, and where it joined others.
#[derive(Clone, Copy)]
pub struct Walked {
    /// Where it ended.
    pub place: Place,
    /// The producer, if it has one.
    pub produced: Option<Produced>,
}

/// Walks as `walk_engine::walk` does, with the same trail and the same count, and tells the producer.
pub fn walk<L: Ledger>(
    objects: &Objects,
    space: Cap,
    address: u32,
    kind: Kind,
    trail: &mut Trail,
    fetches: &mut Steps<L>,
) -> Result<Walked, WalkFault>
    ensures value { let o = map_of objects.now.items in let c = meaning objects.now.items space in
        answer_meaning (place_of result) ≡ access o c address kind }
    ensures place { IfOk result (λ walked. IsReached objects.now.items kind walked.place) }
    ensures offset { IfOk result (λ walked. walked.place.offset ≡ address % 4096) }
    ensures produced { let o = map_of objects.now.items in
        let c = meaning objects.now.items space in
        IfOk result (λ walked. walked.produced ≡ produced_by o (join_of o c address kind)) }
    ensures handler { IfErr result (λ fault. HandlerLives objects.now.items fault.handler) }

    // What was read.
    ensures noted { let o = map_of objects.now.items in let c = meaning objects.now.items space in
        OnOk result (trail.new.items ≡ trail_of o c address kind) }
    ensures emptied { OnErr result (trail.new.items ≡ []) }

    ensures counted { let o = map_of objects.now.items in let c = meaning objects.now.items space in
        fetches.new ≡ fetches.old + slots o c address kind }
    ensures bound { fetches.new ≤ fetches.old + 32 }
{
    objects.in_ranges();
    let _range = space.kind();
    trail.clear();
    let mut cap = objects.live(space);
    let mut at = start_at(address);
    let mut left = 32;
    let mut produced = None;
    'way: while left > 0 {
        left -= 1;
        let joined = here(objects, cap, at, left, trail);
        note_header(cap, address, at.l2, trail);
        match step(objects, kind, cap, at) {
            Step::Reach(place) => return Ok(Walked { place, produced }),
            Step::Fault(code, handler) => {
                trail.clear();
                return Err(told(objects, code, handler, fetches));
            }
            Step::Go(next, gpt, slot) => {
                note_slot(gpt, slot, address, next.l2, trail);
                cap = read_next(objects, gpt, slot, left, fetches);
                at = next;
                produced = joined.or(produced);
            }
        }
    }
    trail.clear();
    Err(told(objects, FaultCode::MalformedSpace, at.handler, fetches))
}

/// The producer that a GPT's capability is, where the walk may join others.
fn here(objects: &Objects, cap: Cap, at: At, left: u8, trail: &Trail) -> Option<Produced>
    requires live { is_live objects.now.items cap ≡ true }
    requires background { Below (size_of objects.now.items CapKind.Gpt) at.background }
    ensures { result ≡
        produced_by (map_of objects.now.items) (here left (bare cap) at trail.now.items) }
{
    if cap.kind() != CapKind::Gpt {
        return None;
    }
    let address = pass(cap.guard(), at.address).ok()?;
    if at.l2.min(cap.guard().l2g()) < 22 {
        return None;
    }
    let producer = Producer {
        gpt: cap.object() as u16,
        age: cap.count(),
        top: (address / 4_194_304) as u16,
        restr: at.restr.union(cap.restr()),
        background: aged(objects, at.background),
        left,
    };
    let before = trail.as_slice().len();
    Some(Produced { producer, before })
}

/// A background GPT with its age.
fn aged(objects: &Objects, background: Option<u16>) -> Option<Background>
    requires { Below (size_of objects.now.items CapKind.Gpt) background }
    ensures { result ≡ aged objects.now.items background }
{
    let gpt = background?;
    let Ok(cap) = objects.cap_to(CapKind::Gpt, u32::from(gpt)) else {
        unreachable!();
    };
    Some(Background {
        gpt,
        age: cap.count(),
    })
}
