//! The statements of objects: nothing is appended for what is as in the empty object.
ghost use Rattle.std.specs.Prelude.{◌≡◌, ◌≤◌, ◌<◌, ◌+◌, ◌++◌, ◌==◌, [], if◌then◌else◌, length};
ghost use Rattle.std.specs.List.{list_all};
ghost use Rattle.cap_format.specs.Capability.{bare};
ghost use Rattle.object_store.specs.Meaning.{endpoint_map};
ghost use Rattle.run_text.specs.Objects.{is_null_kind, is_empty_header, is_empty_endpoint, count_text, row_text, slot_text, header_text, endpoint_text, register_text};

use cap_format::{Cap, CapKind};
use coy_text::LineBuf;
use endpoint_objects::Endpoint;
use gpt_objects::GptHeader;
use object_lines::{push_gpt, push_held, push_page};

/// Whether a capability names nothing and allows nothing.
pub(crate) fn is_null(kind: CapKind) -> bool
    ensures { result ≡ is_null_kind kind }
{
    matches!(kind, CapKind::Null)
}

/// Appends the count of an object, unless it is 0.
#[tactic(auto, unfolding(crate::specs::Objects::count_text))]
pub(crate) fn push_count(line: &mut LineBuf, kind: CapKind, n: u16, count: u32)
    requires { length line.old ≤ 100 }
    ensures text { line.new ≡ line.old ++ count_text kind n count }
    ensures len { length line.new ≤ length line.old + 40 }
{
    if count == 0 {
        return;
    }
    object_lines::push_count(line, kind, n, count);
}

/// Whether all bytes are 0.
fn is_zero(bytes: &[u8]) -> bool
    ensures { result ≡ list_all (λ byte. byte == 0) bytes.now }
{
    bytes.iter().all(|byte| *byte == 0)
}

/// Appends a row of a page, from offset `at` on, unless all its bytes are 0.
#[tactic(auto, unfolding(crate::specs::Objects::row_text))]
pub(crate) fn push_row(line: &mut LineBuf, n: u16, at: u16, bytes: &[u8])
    requires room { length line.old ≤ 100 }
    requires page { at < 4096 }
    requires row { length bytes.now ≤ 16 }
    ensures text { line.new ≡ line.old ++ row_text n at bytes.now }
    ensures len { length line.new ≤ length line.old + 60 }
{
    if is_zero(bytes) {
        return;
    }
    push_page(line, n, at, bytes);
}

/// Appends a slot, by the first word of its statement, unless it holds Null.
#[tactic(auto, unfolding(crate::specs::Objects::slot_text))]
pub(crate) fn push_slot(line: &mut LineBuf, word: &str, n: u16, slot: u8, cap: Cap)
    requires room { length line.old ≤ 100 }
    requires word { length word.now ≤ 8 }
    ensures text { line.new ≡ line.old ++ slot_text word.now n slot (bare cap) }
    ensures len { length line.new ≤ length line.old + 130 }
{
    if is_null(cap.kind()) {
        return;
    }
    push_held(line, word, n, slot, cap);
}

fn is_empty_header(header: GptHeader) -> bool
    ensures { result ≡ is_empty_header header }
{
    header.l2v() == 12 && !header.ha() && !header.bg()
}

/// Appends the header of a GPT, unless it is that of an empty one.
#[tactic(auto, unfolding(crate::specs::Objects::header_text))]
pub(crate) fn push_header(line: &mut LineBuf, n: u16, header: GptHeader)
    requires { length line.old ≤ 100 }
    ensures text { line.new ≡ line.old ++ header_text n header }
    ensures len { length line.new ≤ length line.old + 40 }
{
    if is_empty_header(header) {
        return;
    }
    push_gpt(line, n, header);
}

fn is_empty_endpoint(endpoint: Endpoint) -> bool
    ensures { result ≡ is_empty_endpoint endpoint }
{
    is_null(endpoint.recipient.kind())
        && endpoint.id == 0
        && endpoint.payload == 0
        && !endpoint.matching
}

/// Appends an endpoint, unless it is empty.
#[tactic(auto, unfolding(crate::specs::Objects::endpoint_text))]
pub(crate) fn push_endpoint(line: &mut LineBuf, n: u16, endpoint: &Endpoint)
    requires { length line.old ≤ 100 }
    ensures text { line.new ≡ line.old ++ endpoint_text n (endpoint_map bare endpoint.now) }
    ensures len { length line.new ≤ length line.old + 140 }
{
    if is_empty_endpoint(*endpoint) {
        return;
    }
    object_lines::push_endpoint(
        line,
        n,
        endpoint.recipient,
        endpoint.id,
        endpoint.payload,
        endpoint.matching,
    );
}

/// Appends a register of a process, unless it is 0.
#[tactic(auto, unfolding(crate::specs::Objects::register_text))]
pub(crate) fn push_register(line: &mut LineBuf, n: u16, i: u8, value: u32)
    requires { length line.old ≤ 100 }
    ensures text { line.new ≡ line.old ++ register_text n i value }
    ensures len { length line.new ≤ length line.old + 40 }
{
    if value == 0 {
        return;
    }
    object_lines::push_register(line, n, i, value);
}
