//! Requests to a page of capabilities.
ghost use Rattle.std.specs.Prelude.{◌≡◌, [], true};
ghost use Rattle.cap_format.specs.declared.kind.CapKind.TheVariants.{CapPage};
ghost use Rattle.object_store.specs.Meaning.{is_live};
ghost use Rattle.operations.specs.Row.{reply_of, settled, settled_in};
ghost use Rattle.operations.specs.Request.{w1};
ghost use Rattle.operations.specs.Memory.{cappage_table, clear_cappage_row, get_row, set_row};
ghost use Rattle.operations.specs.Fulfils.{Fulfils};

use bitflags::Flags;
use cap_format::{Cap, Code, Reply, Request, Restr};
use object_store::Objects;
use operations::{done, hand_over, read_through, refuse};

/// A request that capability pages alone know.
#[tactic(auto, unfolding(operations::specs::Memory::cappage_table))]
pub(crate) fn cap_page(objects: &mut Objects, cap: Cap, request: Request) -> Reply
    requires kind { cap.kind ≡ CapPage }
    requires live { is_live objects.old.items cap ≡ true }
    ensures fulfils { let settled =
        settled_in (cappage_table objects.old cap request) (w1 request) in
        Fulfils settled objects.old result objects.new }
{
    match request.words[0] {
        8 => clear(objects, cap),
        9 => get(objects, cap, request),
        10 => set(objects, cap, request),
        _ => refuse(Code::UnknownRequest),
    }
}

/// All slots become Null.
#[tactic(auto, using(object_store::proofs::Live::live_cappage), unfolding(operations::specs::Memory::clear_cappage_row))]
fn clear(objects: &mut Objects, cap: Cap) -> Reply
    requires kind { cap.kind ≡ CapPage }
    requires live { is_live objects.old.items cap ≡ true }
    ensures fulfils { Fulfils (settled (clear_cappage_row cap)) objects.old result objects.new }
{
    if cap.restr().contains(Restr::RO) {
        return refuse(Code::NoAccess);
    }
    objects.cappage_mut(cap.object() as u16).erase();
    done()
}

/// The capability of a slot, weakened where it is read through WK.
#[tactic(auto, using(object_store::proofs::Live::live_cappage), unfolding(operations::specs::Memory::get_row))]
fn get(objects: &Objects, cap: Cap, request: Request) -> Reply
    requires kind { cap.kind ≡ CapPage }
    requires live { is_live objects.now.items cap ≡ true }
    ensures reply { result ≡ reply_of (settled (get_row objects.now cap request)) }
    ensures quiet { (settled (get_row objects.now cap request)).answer.changes ≡ [] }
{
    let slot = request.words[1];
    if 255 < slot {
        return refuse(Code::RequestError);
    }
    let held = objects.cappage(cap.object() as u16).get(slot as u8);
    hand_over(read_through(cap.restr(), held))
}

/// A slot becomes what was sent.
#[tactic(auto, using(object_store::proofs::Live::live_cappage), unfolding(operations::specs::Memory::set_row))]
fn set(objects: &mut Objects, cap: Cap, request: Request) -> Reply
    requires kind { cap.kind ≡ CapPage }
    requires live { is_live objects.old.items cap ≡ true }
    ensures fulfils { let settled = settled (set_row objects.old cap request) in
        Fulfils settled objects.old result objects.new }
{
    let slot = request.words[1];
    if cap.restr().contains(Restr::RO) {
        return refuse(Code::NoAccess);
    }
    if 255 < slot {
        return refuse(Code::RequestError);
    }
    objects
        .cappage_mut(cap.object() as u16)
        .set(slot as u8, request.sent);
    done()
}
