//! The parts of a walk, for whoever takes it capability by capability.
//!
//! A walk starts at `start_at` before its space's meaning, and may meet 32 capabilities. Each that it meets has its
//! header noted, and then `step` says what becomes of the walk: it ends, in a fault that is `told`, or it goes on with a
//! slot, which is noted and read. `IsOnWay` says where it stands, and the lemmas `on_way-..` what each part makes of that.

ghost use Rattle.std.specs.Prelude.{◌≡◌, ◌≤◌, ◌<◌, ◌+◌, ◌++◌, [], ◌∷◌, true};
ghost use Rattle.arrayvec.specs.ArrayVec.{array_vec_len};
ghost use Rattle.cap_format.specs.Capability.{bare};
ghost use Rattle.object_store.specs.Store.{size_of, slot_at};
ghost use Rattle.object_store.specs.Meaning.{is_live, map_of};
ghost use Rattle.walk_meaning.specs.Walk.{fault, start_at};
ghost use Rattle.walk_meaning.specs.Trail.{noted, header_noted, handler_cost, read_cost};
ghost use Rattle.walk_meaning.specs.Bounds.{Below};
ghost use Rattle.walk_engine.specs.Answer.{HandlerLives, fault_meaning};

use crate::met::number_of;
use arrayvec::ArrayVec;
use bitflags::Flags;
use cap_format::{Cap, CapKind, FaultCode, Item, Restr};
use guard_math::Block;
use object_store::Objects;
use std::sync::ledger::Ledger;
use steps::Steps;
use walk_meaning::{At, Noted, WalkFault};

/// The items that a walk read, with their blocks, in the order of reading. One walk has at most 63.
pub type Trail = ArrayVec<Noted, 66>;

/// Where a walk to an address stands before its space.
pub fn start_at(address: u32) -> At
    ensures { result ≡ start_at address }
{
    At {
        holding: None,
        background: None,
        handler: None,
        restr: Restr::empty(),
        address,
        l2: 32,
    }
}

/// Notes that the header of the object was read that a capability names, if it names one. The least size that was
/// passed before its guard is `2^l2`.
pub fn note_header(cap: Cap, address: u32, l2: u8, trail: &mut Trail)
    requires low { 12 ≤ l2 }
    requires high { l2 ≤ 32 }
    requires room { array_vec_len trail.old < 66 }
    ensures value { trail.new.items ≡ trail.old.items ++ header_noted cap address l2 }
    ensures room { array_vec_len trail.new ≤ array_vec_len trail.old + 1 }
{
    if cap.kind().is_counted() {
        trail.push(noted(
            Item::Header(cap.kind().object_kind(), number_of(cap)),
            address,
            l2,
        ));
    }
}

/// Notes that a slot was read. The least size that was passed before it is `2^l2`.
pub fn note_slot(gpt: u16, slot: u8, address: u32, l2: u8, trail: &mut Trail)
    requires low { 12 ≤ l2 }
    requires high { l2 ≤ 32 }
    requires room { array_vec_len trail.old < 66 }
    ensures value { trail.new.items
        ≡ trail.old.items ++ noted (Item.Slot gpt slot) address l2 ∷ [] }
    ensures room { array_vec_len trail.new ≡ array_vec_len trail.old + 1 }
{
    trail.push(noted(Item::Slot(gpt, slot), address, l2));
}

fn noted(item: Item, address: u32, l2: u8) -> Noted
    requires low { 12 ≤ l2 }
    requires high { l2 ≤ 32 }
    ensures { result ≡ noted item address l2 }
{
    Noted {
        item,
        block: Block::around(address, l2),
    }
}

/// The meaning of the slot that a walk goes on with, where `left` capabilities may still be met. It
/// is read where one may.
pub fn read_next<L: Ledger>(
    objects: &Objects,
    gpt: u16,
    slot: u8,
    left: u8,
    fetches: &mut Steps<L>,
) -> Cap
    requires there { gpt < size_of objects.now.items CapKind.Gpt }
    requires slot { slot < 16 }
    ensures value { 0 < left → bare result ≡ slot_at (map_of objects.now.items) gpt slot }
    ensures is_live { is_live objects.now.items result ≡ true }
    ensures counted { fetches.new ≡ fetches.old + read_cost left }
{
    if left == 0 {
        return Cap::null();
    }
    objects.live(objects.gpt_slot(gpt, slot, fetches))
}

/// A fault with its handler, which is read now.
pub fn told<L: Ledger>(
    objects: &Objects,
    code: FaultCode,
    handler: Option<u16>,
    fetches: &mut Steps<L>,
) -> WalkFault
    requires { Below (size_of objects.now.items CapKind.Gpt) handler }
    ensures value { fault_meaning result ≡ fault (map_of objects.now.items) code handler }
    ensures handler { HandlerLives objects.now.items result.handler }
    ensures counted { fetches.new ≡ fetches.old + handler_cost handler }
{
    let Some(gpt) = handler else {
        return WalkFault {
            code,
            handler: None,
        };
    };
    let handler = objects.live(objects.gpt_slot(gpt, 15, fetches));
    WalkFault {
        code,
        handler: Some(handler),
    }
}
