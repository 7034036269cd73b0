//! The answer of one walk as a line.
ghost use Rattle.std.specs.Prelude.{◌≡◌, ◌≤◌, ◌<◌, ◌+◌, ◌++◌, length, IfOk};
ghost use Rattle.walk_engine.specs.Answer.{bare_handler, fault_meaning, answer_meaning};
ghost use Rattle.run_text.specs.Walk.{met_text, reach_text, handler_text, unreached_text, walk_text};

use crate::names::fault_name;
use bitflags::Flags;
use cap_format::Cap;
use cap_words::{kind_word, push_capability, push_letters};
use coy_text::LineBuf;
use walk_meaning::{Place, WalkFault};

/// Makes the line of a walk, with its line feed. A handler is shown without its count.
pub fn walk_line(found: &Result<Place, WalkFault>, line: &mut LineBuf)
    requires { IfOk found.now (λ place. place.offset < 4096) }
    ensures { line.new ≡ walk_text (answer_meaning found.now) }
{
    line.clear();
    match found {
        Ok(place) => push_reach(line, *place),
        Err(fault) => push_unreached(line, *fault),
    }
    line.push_word("\n");
}

/// Appends where a walk ended.
fn push_reach(line: &mut LineBuf, place: Place)
    requires room { length line.old ≤ 100 }
    requires offset { place.offset < 4096 }
    ensures text { line.new ≡ line.old ++ reach_text place }
    ensures len { length line.new ≤ length line.old + 60 }
{
    line.push_word("reach ");
    line.push_word(kind_word(place.kind));
    line.push_numbered(" ", place.number as u32);
    line.push_word(" ");
    line.push_hex(place.offset as u32, 3);
    line.push_word(" ");
    push_met(line, place.restr.bits());
}

/// Appends the letters of all restrictions that were met.
fn push_met(line: &mut LineBuf, restr: u8)
    requires { length line.old ≤ 200 }
    ensures text { line.new ≡ line.old ++ met_text restr }
    ensures len { length line.new ≤ length line.old + 5 }
{
    if restr == 0 {
        line.push_word("-");
        return;
    }
    push_letters(line, restr);
}

/// Appends why a walk reached nothing.
fn push_unreached(line: &mut LineBuf, fault: WalkFault)
    requires { length line.old ≤ 100 }
    ensures text { line.new ≡ line.old ++ unreached_text (fault_meaning fault) }
    ensures len { length line.new ≤ length line.old + 120 }
{
    line.push_word("fault ");
    line.push_word(fault_name(fault.code));
    line.push_word(" ");
    push_handler(line, fault.handler);
}

/// Appends the handler that a walk gave its fault.
fn push_handler(line: &mut LineBuf, handler: Option<Cap>)
    requires { length line.old ≤ 200 }
    ensures text { line.new ≡ line.old ++ handler_text (bare_handler handler) }
    ensures len { length line.new ≤ length line.old + 80 }
{
    match handler {
        None => line.push_word("none"),
        Some(cap) => push_capability(line, cap),
    }
}
