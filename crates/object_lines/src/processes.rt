//! The lines of endpoints and processes, and of counts.
ghost use Rattle.std.specs.Prelude.{◌≡◌, ◌≤◌, ◌+◌, ◌++◌, ◌∷◌, [], length};
ghost use Rattle.coy_text.specs.Numeral.{hex_text};
ghost use Rattle.coy_text.specs.Spaced.{behind, line_of};
ghost use Rattle.cap_words.specs.Text.{cap_text};
ghost use Rattle.object_lines.specs.Words.{line_text, count_words, match_word, endpoint_words, process_front, register_words};

use cap_format::{Cap, CapKind};
use cap_words::{kind_word, push_capability};
use coy_text::LineBuf;

/// Appends `count KIND N C`.
#[tactic(auto, unfolding(coy_text::specs::Spaced::line_of))]
pub fn push_count(line: &mut LineBuf, kind: CapKind, number: u16, count: u32)
    requires { length line.old ≤ 100 }
    ensures text { line.new ≡ line.old ++ line_text (count_words kind number count) }
    ensures len { length line.new ≤ length line.old + 40 }
{
    line.push_word("count ");
    line.push_word(kind_word(kind));
    line.push_numbered(" ", number as u32);
    line.push_numbered(" ", count);
    line.push_word("\n");
}

/// Appends `endpoint N REC ID PAYLOAD FLAG`.
#[tactic(auto, unfolding(coy_text::specs::Spaced::line_of))]
pub fn push_endpoint(
    line: &mut LineBuf,
    number: u16,
    recipient: Cap,
    id: u32,
    payload: u32,
    matching: bool,
)
    requires { length line.old ≤ 100 }
    ensures text { let words = endpoint_words number recipient id payload matching in
        line.new ≡ line.old ++ line_text words }
    ensures len { length line.new ≤ length line.old + 140 }
{
    line.push_numbered("endpoint ", number as u32);
    line.push_word(" ");
    push_capability(line, recipient);
    push_taking(line, id, payload, matching);
    line.push_word("\n");
}

/// Appends what an endpoint takes: its id, its payload, and whether that alone.
fn push_taking(line: &mut LineBuf, id: u32, payload: u32, matching: bool)
    requires { length line.old ≤ 250 }
    ensures text { line.new ≡ line.old ++
        behind (hex_text 8 id ∷ hex_text 8 payload ∷ match_word matching ∷ []) }
    ensures len { length line.new ≤ length line.old + 24 }
{
    line.push_value(id);
    line.push_value(payload);
    push_match(line, matching);
}

/// Appends a space and whether an endpoint takes its payload alone.
fn push_match(line: &mut LineBuf, matching: bool)
    requires { length line.old ≤ 300 }
    ensures text { line.new ≡ line.old ++ 32 ∷ match_word matching }
    ensures len { length line.new ≤ length line.old + 6 }
{
    line.push_word(if matching { " match" } else { " plain" });
}

/// Appends `process N PC SPACE SCHEDULE HANDLER`, behind which stand a space, what the process does, and a line feed.
#[tactic(auto, unfolding(coy_text::specs::Spaced::line_of))]
pub fn push_process_front(
    line: &mut LineBuf,
    number: u16,
    pc: u32,
    space: Cap,
    schedule: Cap,
    handler: Cap,
)
    requires { length line.old ≤ 100 }
    ensures text { line.new ≡ line.old ++ line_of (process_front number pc space schedule handler) }
    ensures len { length line.new ≤ length line.old + 290 }
{
    line.push_numbered("process ", number as u32);
    line.push_value(pc);
    push_slots(line, space, schedule, handler);
}

/// Appends the three capabilities of a process, each behind a space.
fn push_slots(line: &mut LineBuf, space: Cap, schedule: Cap, handler: Cap)
    requires { length line.old ≤ 200 }
    ensures text { line.new ≡ line.old ++
        behind (cap_text space ∷ cap_text schedule ∷ cap_text handler ∷ []) }
    ensures len { length line.new ≤ length line.old + 243 }
{
    line.push_word(" ");
    push_capability(line, space);
    line.push_word(" ");
    push_capability(line, schedule);
    line.push_word(" ");
    push_capability(line, handler);
}

/// Appends `reg N I VALUE`.
#[tactic(auto, unfolding(coy_text::specs::Spaced::line_of))]
pub fn push_register(line: &mut LineBuf, number: u16, index: u8, value: u32)
    requires { length line.old ≤ 100 }
    ensures text { line.new ≡ line.old ++ line_text (register_words number index value) }
    ensures len { length line.new ≤ length line.old + 40 }
{
    line.push_numbered("reg ", number as u32);
    line.push_numbered(" ", index as u32);
    line.push_value(value);
    line.push_word("\n");
}
