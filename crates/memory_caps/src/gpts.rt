//! Requests to a GPT.
ghost use Rattle.std.specs.Prelude.{◌≡◌, ◌+◌, ◌||◌, [], true};
ghost use Rattle.cap_format.specs.declared.kind.CapKind.TheVariants.{Gpt};
ghost use Rattle.object_store.specs.Meaning.{is_live};
ghost use Rattle.operations.specs.Row.{reply_of, settled, settled_in};
ghost use Rattle.operations.specs.Request.{w1};
ghost use Rattle.operations.specs.Memory.{gpt_table, getslot_row, setslot_row, getheader_row, setheader_row, setwindow_row, opaque, read_only, reads};
ghost use Rattle.operations.specs.Fulfils.{Fulfils};

use crate::windows::window_in;
use bitflags::Flags;
use cap_format::{Cap, Code, Reply, Request, Restr};
use gpt_objects::GptHeader;
use object_store::Objects;
use operations::{hand_over, item_changed, read_through, refuse, tell};
use std::sync::ledger::Ledger;
use steps::Steps;

/// A request that GPTs alone know.
#[tactic(auto, unfolding(operations::specs::Memory::gpt_table))]
pub(crate) fn gpt<L: Ledger>(
    objects: &mut Objects,
    cap: Cap,
    request: Request,
    fetches: &mut Steps<L>,
) -> Reply
    requires kind { cap.kind ≡ Gpt }
    requires live { is_live objects.old.items cap ≡ true }
    ensures fulfils { let settled = settled_in (gpt_table objects.old cap request) (w1 request) in
        Fulfils settled objects.old result objects.new }
    ensures counted { fetches.new ≡ fetches.old + reads Gpt (w1 request) result.code }
{
    match request.words[0] {
        8 => get_slot(objects, cap, request, fetches),
        9 => set_slot(objects, cap, request),
        10 => get_header(objects, cap),
        11 => set_header(objects, cap, request),
        12 => set_window(objects, cap, request),
        _ => refuse(Code::UnknownRequest),
    }
}

/// Whether the capability may not change the GPT.
fn is_fixed(cap: Cap) -> bool
    ensures { result ≡ opaque cap || read_only cap }
{
    let restr = cap.restr();
    restr.contains(Restr::OP) || restr.contains(Restr::RO)
}

/// The capability of a slot, weakened where it is read through WK.
#[tactic(auto, using(object_store::proofs::Live::live_gpt), unfolding(operations::specs::Memory::getslot_row))]
fn get_slot<L: Ledger>(
    objects: &Objects,
    cap: Cap,
    request: Request,
    fetches: &mut Steps<L>,
) -> Reply
    requires kind { cap.kind ≡ Gpt }
    requires live { is_live objects.now.items cap ≡ true }
    ensures reply { result ≡ reply_of (settled (getslot_row objects.now cap request)) }
    ensures quiet { (settled (getslot_row objects.now cap request)).answer.changes ≡ [] }
    ensures counted { fetches.new ≡ fetches.old + reads Gpt 8 result.code }
{
    let wanted = request.words[1];
    if cap.restr().contains(Restr::OP) {
        return refuse(Code::NoAccess);
    }
    if 15 < wanted {
        return refuse(Code::RequestError);
    }
    let held = objects.gpt_slot(cap.object() as u16, wanted as u8, fetches);
    hand_over(read_through(cap.restr(), held))
}

/// A slot becomes what was sent.
#[tactic(auto, using(object_store::proofs::Live::live_gpt), unfolding(operations::specs::Memory::setslot_row))]
fn set_slot(objects: &mut Objects, cap: Cap, request: Request) -> Reply
    requires kind { cap.kind ≡ Gpt }
    requires live { is_live objects.old.items cap ≡ true }
    ensures fulfils { Fulfils (settled (setslot_row cap request)) objects.old result objects.new }
{
    let slot = request.words[1];
    if is_fixed(cap) {
        return refuse(Code::NoAccess);
    }
    if 15 < slot {
        return refuse(Code::RequestError);
    }
    item_changed(objects.set_gpt_slot(cap.object() as u16, slot as u8, request.sent))
}

/// The header.
#[tactic(auto, using(object_store::proofs::Live::live_gpt), unfolding(operations::specs::Memory::getheader_row))]
fn get_header(objects: &Objects, cap: Cap) -> Reply
    requires kind { cap.kind ≡ Gpt }
    requires live { is_live objects.now.items cap ≡ true }
    ensures reply { result ≡ reply_of (settled (getheader_row objects.now cap)) }
    ensures quiet { (settled (getheader_row objects.now cap)).answer.changes ≡ [] }
{
    if cap.restr().contains(Restr::OP) {
        return refuse(Code::NoAccess);
    }
    let header = objects.gpt_header(cap.object() as u16);
    let flags = u32::from(header.ha()) + 2 * u32::from(header.bg());
    tell(u32::from(header.l2v()), flags, 0)
}

/// The header becomes that of two words.
#[tactic(auto, using(object_store::proofs::Live::live_gpt), unfolding(operations::specs::Memory::setheader_row))]
fn set_header(objects: &mut Objects, cap: Cap, request: Request) -> Reply
    requires kind { cap.kind ≡ Gpt }
    requires live { is_live objects.old.items cap ≡ true }
    ensures fulfils { Fulfils (settled (setheader_row cap request)) objects.old result objects.new }
{
    let l2v = request.words[1];
    let flags = request.words[2];
    if is_fixed(cap) {
        return refuse(Code::NoAccess);
    }
    if l2v < 12 || 31 < l2v || 3 < flags {
        return refuse(Code::RequestError);
    }
    let header = GptHeader::new(l2v as u8, flags % 2 == 1, flags / 2 == 1);
    item_changed(objects.set_gpt_header(cap.object() as u16, header))
}

/// A slot becomes the window that three words hold.
#[tactic(auto, using(object_store::proofs::Live::live_gpt), unfolding(operations::specs::Memory::setwindow_row))]
fn set_window(objects: &mut Objects, cap: Cap, request: Request) -> Reply
    requires kind { cap.kind ≡ Gpt }
    requires live { is_live objects.old.items cap ≡ true }
    ensures fulfils { Fulfils (settled (setwindow_row cap request)) objects.old result objects.new }
{
    if is_fixed(cap) {
        return refuse(Code::NoAccess);
    }
    let slot = (request.words[1] % 16) as u8;
    match window_in(request) {
        Some(window) => item_changed(objects.set_gpt_slot(cap.object() as u16, slot, window)),
        None => refuse(Code::RequestError),
    }
}
