//! The lines of what memory is made of: pages, slots and GPTs.
ghost use Rattle.std.specs.Prelude.{◌≡◌, ◌≤◌, ◌<◌, ◌+◌, ◌*◌, ◌++◌, ◌∷◌, [], length, decimal};
ghost use Rattle.coy_io.specs.Lines.{line_feed};
ghost use Rattle.coy_text.specs.Numeral.{hex_text};
ghost use Rattle.coy_text.specs.Spaced.{behind};
ghost use Rattle.cap_words.specs.Text.{cap_text};
ghost use Rattle.object_lines.specs.Words.{line_text, page_words, held_words, flag_words, gpt_words};

use cap_format::Cap;
use cap_words::push_capability;
use coy_text::{LineBuf, push_bytes};
use gpt_objects::GptHeader;

/// Appends `page N OFF HEX`, for at most 64 bytes.
#[tactic(auto, unfolding(coy_text::specs::Spaced::line_of))]
pub fn push_page(line: &mut LineBuf, number: u16, at: u16, bytes: &[u8])
    requires room { length line.old ≤ 100 }
    requires page { at < 4096 }
    requires few { length bytes.now ≤ 64 }
    ensures text { line.new ≡ line.old ++ line_text (page_words number at bytes.now) }
    ensures len { length line.new ≤ length line.old + 2 * length bytes.now + 24 }
{
    line.push_numbered("page ", number as u32);
    push_offset(line, at);
    line.push_word(" ");
    push_bytes(line, bytes);
    line.push_word("\n");
}

/// Appends a space and an offset in a page.
pub fn push_offset(line: &mut LineBuf, at: u16)
    requires room { length line.old ≤ 200 }
    requires page { at < 4096 }
    ensures text { line.new ≡ line.old ++ 32 ∷ hex_text 3 at }
    ensures len { length line.new ≡ length line.old + 4 }
{
    line.push_word(" ");
    line.push_hex(at as u32, 3);
}

/// Appends `cap N S CAP`, `slot N S CAP` or `capreg N I CAP`, by its first word.
#[tactic(auto, unfolding(coy_text::specs::Spaced::line_of))]
pub fn push_held(line: &mut LineBuf, word: &str, number: u16, place: u8, cap: Cap)
    requires room { length line.old ≤ 100 }
    requires word { length word.now ≤ 8 }
    ensures text { line.new ≡ line.old ++ line_text (held_words word.now number place cap) }
    ensures len { length line.new ≤ length line.old + 130 }
{
    line.push_word(word);
    push_place(line, number, place, cap);
}

/// Appends which object and place it is, what it holds, and the line feed.
fn push_place(line: &mut LineBuf, number: u16, place: u8, cap: Cap)
    requires { length line.old ≤ 110 }
    ensures text { line.new ≡ line.old ++
        (behind (decimal number ∷ decimal place ∷ cap_text cap ∷ []) ++ line_feed) }
    ensures len { length line.new ≤ length line.old + 110 }
{
    line.push_numbered(" ", number as u32);
    line.push_numbered(" ", place as u32);
    line.push_word(" ");
    push_capability(line, cap);
    line.push_word("\n");
}

/// Appends `gpt N V` with its flags.
#[tactic(auto, unfolding(coy_text::specs::Spaced::line_of))]
pub fn push_gpt(line: &mut LineBuf, number: u16, header: GptHeader)
    requires { length line.old ≤ 100 }
    ensures text { line.new ≡ line.old ++ line_text (gpt_words number header) }
    ensures len { length line.new ≤ length line.old + 40 }
{
    line.push_numbered("gpt ", number as u32);
    line.push_numbered(" ", header.l2v() as u32);
    push_flags(line, header.ha(), header.bg());
    line.push_word("\n");
}

/// Appends the flags of a GPT, each behind a space.
fn push_flags(line: &mut LineBuf, ha: bool, bg: bool)
    requires { length line.old ≤ 200 }
    ensures text { line.new ≡ line.old ++ behind (flag_words ha bg) }
    ensures len { length line.new ≤ length line.old + 6 }
{
    line.push_word(match (ha, bg) {
        (true, true) => " ha bg",
        (true, false) => " ha",
        (false, true) => " bg",
        (false, false) => "",
    });
}
