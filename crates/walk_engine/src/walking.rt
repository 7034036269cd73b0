//! The walk: capability by capability, with its trail and its count.

ghost use Rattle.std.specs.Prelude.{◌≡◌, ◌≤◌, ◌+◌, ◌%◌, [], OnOk, OnErr, IfOk, IfErr};
ghost use Rattle.object_store.specs.Meaning.{meaning, map_of};
ghost use Rattle.walk_meaning.specs.Walk.{access};
ghost use Rattle.walk_meaning.specs.Trail.{trail as trail_of, slots};
ghost use Rattle.walk_meaning.specs.Laws.{IsReached};
ghost use Rattle.walk_engine.specs.Answer.{HandlerLives, answer_meaning};

use crate::met::step;
use crate::on_way::{Trail, note_header, note_slot, read_next, start_at, told};
use cap_format::{Cap, FaultCode};
use object_store::Objects;
use std::sync::ledger::Ledger;
use steps::Steps;
use walk_meaning::{Kind, Place, Step, WalkFault};

/// Walks from a space to the page, or the slot of a capability page, that an address names.
///
/// The trail is what was read where the walk reaches, and empty where it faults. A fault has the
/// capability in slot 15 of the handler GPT, where the walk met one. At most 32 capabilities are met,
/// and at most 32 slots are fetched.
pub fn walk<L: Ledger>(
    objects: &Objects,
    space: Cap,
    address: u32,
    kind: Kind,
    trail: &mut Trail,
    fetches: &mut Steps<L>,
) -> Result<Place, WalkFault>
    ensures value { let o = map_of objects.now.items in let c = meaning objects.now.items space in
        answer_meaning result ≡ access o c address kind }
    ensures place { IfOk result (λ place. IsReached objects.now.items kind place) }
    ensures offset { IfOk result (λ place. place.offset ≡ address % 4096) }
    ensures handler { IfErr result (λ fault. HandlerLives objects.now.items fault.handler) }

    // What was read.
    ensures noted { let o = map_of objects.now.items in let c = meaning objects.now.items space in
        OnOk result (trail.new.items ≡ trail_of o c address kind) }
    ensures emptied { OnErr result (trail.new.items ≡ []) }

    ensures counted { let o = map_of objects.now.items in let c = meaning objects.now.items space in
        fetches.new ≡ fetches.old + slots o c address kind }
    ensures bound { fetches.new ≤ fetches.old + 32 }
{
    objects.in_ranges();
    let _range = space.kind();
    trail.clear();
    let mut cap = objects.live(space);
    let mut at = start_at(address);
    let mut left = 32;
    'way: while left > 0 {
        left -= 1;
        note_header(cap, address, at.l2, trail);
        match step(objects, kind, cap, at) {
            Step::Reach(place) => return Ok(place),
            Step::Fault(code, handler) => {
                trail.clear();
                return Err(told(objects, code, handler, fetches));
            }
            Step::Go(next, gpt, slot) => {
                note_slot(gpt, slot, address, next.l2, trail);
                cap = read_next(objects, gpt, slot, left, fetches);
                at = next;
            }
        }
    }
    trail.clear();
    Err(told(objects, FaultCode::MalformedSpace, at.handler, fetches))
}
