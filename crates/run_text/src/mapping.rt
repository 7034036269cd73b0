//! The line of a mapping.
ghost use Rattle.std.specs.Prelude.{◌≡◌, ◌≤◌, ◌+◌, ◌++◌, length};
ghost use Rattle.run_text.specs.Mapping.{rights_text, mapping_text};

use cap_format::Cap;
use cap_words::push_capability;
use coy_text::LineBuf;

/// Makes the line of a page of a space at an address, with its line feed: the number of the page, and whether it may be
/// written and executed. A space is shown without its count.
pub fn mapping_line(space: Cap, va: u32, page: u16, write: bool, execute: bool, line: &mut LineBuf)
    ensures { line.new ≡ mapping_text space va page write execute }
{
    line.clear();
    line.push_word("map ");
    push_capability(line, space);
    line.push_word(" ");
    line.push_eight(va);
    line.push_numbered(" page ", page as u32);
    line.push_word(" ");
    push_rights(line, write, execute);
    line.push_word("\n");
}

/// Appends what may be done with a page.
fn push_rights(line: &mut LineBuf, write: bool, execute: bool)
    requires { length line.old ≤ 200 }
    ensures text { line.new ≡ line.old ++ rights_text write execute }
    ensures len { length line.new ≤ length line.old + 3 }
{
    line.push_word("r");
    if write {
        line.push_word("w");
    }
    if execute {
        line.push_word("x");
    }
}
