//! Requests to a page of bytes.
ghost use Rattle.std.specs.Prelude.{◌≡◌, ◌<◌, true};
ghost use Rattle.cap_format.specs.declared.kind.CapKind.TheVariants.{Page};
ghost use Rattle.object_store.specs.Store.{size_of, page_at, with_page};
ghost use Rattle.object_store.specs.Meaning.{is_live};
ghost use Rattle.operations.specs.Row.{settled, settled_in};
ghost use Rattle.operations.specs.Request.{w1};
ghost use Rattle.operations.specs.Memory.{page_table, clear_page_row, copy_row};
ghost use Rattle.operations.specs.Fulfils.{Fulfils};

use bitflags::Flags;
use cap_format::{Cap, CapKind, Code, Reply, Request, Restr};
use object_store::Objects;
use operations::{done, refuse};

/// A request that pages alone know.
#[tactic(auto, unfolding(operations::specs::Memory::page_table))]
pub(crate) fn page(objects: &mut Objects, cap: Cap, request: Request) -> Reply
    requires kind { cap.kind ≡ Page }
    requires live { is_live objects.old.items cap ≡ true }
    requires sent { is_live objects.old.items request.sent ≡ true }
    ensures fulfils { let settled = settled_in (page_table objects.old cap request) (w1 request) in
        Fulfils settled objects.old result objects.new }
{
    match request.words[0] {
        8 => clear(objects, cap),
        9 => copy(objects, cap, request),
        _ => refuse(Code::UnknownRequest),
    }
}

/// The page becomes zeros.
#[tactic(auto, using(object_store::proofs::Live::live_page), unfolding(operations::specs::Memory::clear_page_row))]
fn clear(objects: &mut Objects, cap: Cap) -> Reply
    requires kind { cap.kind ≡ Page }
    requires live { is_live objects.old.items cap ≡ true }
    ensures fulfils { Fulfils (settled (clear_page_row cap)) objects.old result objects.new }
{
    if cap.restr().contains(Restr::RO) {
        return refuse(Code::NoAccess);
    }
    objects.page_mut(cap.object() as u16).erase();
    done()
}

/// The page becomes the page that was sent.
#[tactic(auto, using(object_store::proofs::Live::live_page), unfolding(operations::specs::Memory::copy_row))]
fn copy(objects: &mut Objects, cap: Cap, request: Request) -> Reply
    requires kind { cap.kind ≡ Page }
    requires live { is_live objects.old.items cap ≡ true }
    requires sent { is_live objects.old.items request.sent ≡ true }
    ensures fulfils { let settled = settled (copy_row objects.old cap request) in
        Fulfils settled objects.old result objects.new }
{
    if cap.restr().contains(Restr::RO) {
        return refuse(Code::NoAccess);
    }
    if request.sent.kind() != CapKind::Page {
        return refuse(Code::RequestError);
    }
    copy_page(objects, request.sent.object() as u16, cap.object() as u16);
    done()
}

/// Page `to` becomes page `from`, which may be itself.
fn copy_page(objects: &mut Objects, from: u16, to: u16)
    requires from { from < size_of objects.old.items Page }
    requires to { to < size_of objects.old.items Page }
    ensures { objects.new ≡ with_page objects.old to (page_at objects.old from) }
{
    let mut bytes = [0; 4096];
    objects.page(from).read(0, &mut bytes);
    objects.page_mut(to).write(0, &bytes);
}
