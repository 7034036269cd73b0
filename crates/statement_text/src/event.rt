//! The line of what a schedule asks for.
ghost use Rattle.std.specs.Prelude.{◌≡◌, ◌≤◌, ◌+◌, length};
ghost use Rattle.statement_text.specs.Text.{event_text};

use coy_text::LineBuf;
use listing_read::Timed;

/// Leaves the line of an event in the buffer, with its line feed, and nothing else.
#[tactic(auto, unfolding(coy_text::specs::Spaced::line_of))]
pub fn write_event(event: Timed, line: &mut LineBuf)
    ensures { line.new ≡ event_text event }
{
    line.clear();
    match event {
        Timed::Step { hart, times } => {
            line.push_numbered("step ", hart as u32);
            line.push_numbered(" ", times);
        }
        Timed::Tick { hart } => line.push_numbered("tick ", hart as u32),
        Timed::Round { times } => line.push_numbered("round ", times),
    }
    line.push_word("\n");
}
