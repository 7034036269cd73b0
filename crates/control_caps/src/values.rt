//! Requests that read no object but for its size: to a schedule, to Discrim, and `getcap` of Range.
ghost use Rattle.std.specs.Prelude.{◌≡◌, [], Some, None, Option};
ghost use Rattle.cap_format.specs.declared.kind.CapKind.TheVariants.{Schedule};
ghost use Rattle.operations.specs.System.{Stored};
ghost use Rattle.operations.specs.Row.{reply_of, settled, settled_in};
ghost use Rattle.operations.specs.Request.{w1};
ghost use Rattle.operations.specs.Control.{schedule_table, discrim_table, lower_row, getcap_row, classify_row};

use cap_format::{Cap, CapKind, Code, Reply, Request, is_harmless};
use object_store::Objects;
use operations::{hand_over, refuse, tell};

/// A request that schedules alone know.
#[tactic(auto, unfolding(operations::specs::Control::schedule_table, operations::specs::Control::priority_row))]
pub(crate) fn schedule(cap: Cap, request: Request) -> Reply
    requires { cap.kind ≡ Schedule }
    ensures reply { result ≡ reply_of (settled_in (schedule_table cap request) (w1 request)) }
    ensures quiet { (settled_in (schedule_table cap request) (w1 request)).answer.changes ≡ [] }
{
    match request.words[0] {
        8 => tell(cap.object(), 0, 0),
        9 => lower(cap, request),
        _ => refuse(Code::UnknownRequest),
    }
}

/// A schedule of a priority that is no higher.
#[tactic(auto, unfolding(operations::specs::Control::lower_row))]
fn lower(cap: Cap, request: Request) -> Reply
    requires { cap.kind ≡ Schedule }
    ensures reply { result ≡ reply_of (settled (lower_row cap request)) }
    ensures quiet { (settled (lower_row cap request)).answer.changes ≡ [] }
{
    let priority = request.words[1];
    if cap.object() < priority {
        return refuse(Code::RequestError);
    }
    hand_over(Cap::schedule(priority as u8))
}

/// A request that Discrim alone knows.
#[tactic(auto, unfolding(operations::specs::Control::discrim_table, operations::specs::Control::classify_row))]
pub(crate) fn discrim(request: Request) -> Reply
    ensures reply { result ≡ reply_of (settled_in (discrim_table request) (w1 request)) }
    ensures quiet { (settled_in (discrim_table request) (w1 request)).answer.changes ≡ [] }
{
    match request.words[0] {
        8 => {
            let kind = u32::from(request.sent.kind().number());
            tell(kind, u32::from(is_harmless(request.sent)), 0)
        }
        _ => refuse(Code::UnknownRequest),
    }
}

/// A capability to an object, by the type number of its kind and its number.
#[tactic(auto, unfolding(operations::specs::Control::getcap_row, operations::specs::Control::obtained))]
pub(crate) fn get_cap(objects: &Objects, request: Request) -> Reply
    ensures reply { result ≡ reply_of (settled (getcap_row Stored objects.now request)) }
    ensures quiet { (settled (getcap_row Stored objects.now request)).answer.changes ≡ [] }
{
    let Some(kind) = CapKind::from_number(request.words[1]) else {
        return refuse(Code::RequestError);
    };
    match objects.cap_to(kind, request.words[2]) {
        Ok(cap) => hand_over(cap),
        Err(_) => refuse(Code::RequestError),
    }
}
