//! A capability as it is written.
ghost use Rattle.std.specs.Prelude.{◌≡◌, ◌≤◌, ◌+◌, ◌++◌, codes, decimal, length};
ghost use Rattle.coy_text.specs.Numeral.{hex_text};
ghost use Rattle.cap_words.specs.Text.{letter, letters, restr_text, guard_text, cap_word, cap_text};

use bitflags::Flags;
use cap_format::{Cap, CapKind, Guard};
use coy_text::LineBuf;

/// Appends the word of a capability.
pub fn push_capability(line: &mut LineBuf, cap: Cap)
    requires { length line.old ≤ 900 }
    ensures text { line.new ≡ line.old ++ cap_text cap }
    ensures len { length line.new ≤ length line.old + 80 }
{
    push_spelling(line, cap.kind(), cap);
}

/// Appends the word of a capability of this kind.
#[tactic(auto, unfolding(crate::specs::Text::cap_word))]
fn push_spelling(line: &mut LineBuf, kind: CapKind, cap: Cap)
    requires { length line.old ≤ 900 }
    ensures text { line.new ≡ line.old ++
        cap_word kind cap.object cap.payload cap.slot cap.guard cap.restr }
    ensures len { length line.new ≤ length line.old + 80 }
{
    match kind {
        CapKind::Null => line.push_word("null"),
        CapKind::Range => line.push_word("range"),
        CapKind::Discrim => line.push_word("discrim"),
        CapKind::KernLog => line.push_word("kernlog"),
        CapKind::SysCtl => line.push_word("sysctl"),
        CapKind::Schedule => line.push_numbered("schedule:", cap.object()),
        CapKind::Endpoint => line.push_numbered("endpoint:", cap.object()),
        CapKind::Process => line.push_numbered("process:", cap.object()),
        CapKind::Entry => {
            line.push_numbered("entry:", cap.object());
            line.push_word(":");
            line.push_eight(cap.payload());
        }
        CapKind::Page => {
            line.push_numbered("page:", cap.object());
            push_guard(line, cap);
        }
        CapKind::CapPage => {
            line.push_numbered("cappage:", cap.object());
            push_guard(line, cap);
        }
        CapKind::Gpt => {
            line.push_numbered("gpt:", cap.object());
            push_guard(line, cap);
        }
        CapKind::Window => {
            line.push_word("window:");
            line.push_eight(cap.object());
            push_guard(line, cap);
        }
        CapKind::LocalWindow => {
            line.push_numbered("local:", cap.slot() as u32);
            line.push_word(":");
            line.push_eight(cap.object());
            push_guard(line, cap);
        }
    }
}

/// Appends the guard and the restrictions of a memory capability.
#[tactic(auto, unfolding(crate::specs::Text::guard_text))]
fn push_guard(line: &mut LineBuf, cap: Cap)
    requires { length line.old ≤ 960 }
    ensures text { line.new ≡ line.old ++ guard_text cap.guard cap.restr }
    ensures len { length line.new ≤ length line.old + 24 }
{
    let guard = cap.guard();
    line.push_numbered("@", guard.l2g() as u32);
    push_match(line, guard);
    push_restrictions(line, cap.restr().bits());
}

/// Appends the match of a guard.
#[tactic(auto, using(cap_format::proofs::Ranges::matches_small))]
fn push_match(line: &mut LineBuf, guard: Guard)
    requires { length line.old ≤ 1000 }
    ensures text { line.new ≡ line.old ++ codes "/" ++ hex_text 5 guard.matches }
    ensures len { length line.new ≡ length line.old + 6 }
{
    line.push_word("/");
    line.push_hex(guard.matches(), 5);
}

/// Appends the letters of restrictions, where there are any.
fn push_restrictions(line: &mut LineBuf, restr: u8)
    requires { length line.old ≤ 1000 }
    ensures text { line.new ≡ line.old ++ restr_text restr }
    ensures len { length line.new ≤ length line.old + 6 }
{
    if restr == 0 {
        return;
    }
    line.push_word("+");
    push_letters(line, restr);
}

/// Appends the letters of restrictions, by the bits of these.
pub fn push_letters(line: &mut LineBuf, restr: u8)
    requires { length line.old ≤ 1010 }
    ensures text { line.new ≡ line.old ++ letters restr }
    ensures len { length line.new ≤ length line.old + 5 }
{
    push_letter(line, restr, 1, "r");
    push_letter(line, restr, 2, "x");
    push_letter(line, restr, 4, "w");
    push_letter(line, restr, 8, "o");
    push_letter(line, restr, 16, "n");
}

/// Appends the letter of a restriction, by its bit, where it is there.
fn push_letter(line: &mut LineBuf, restr: u8, bit: u8, text: &str)
    requires room { length line.old ≤ 1020 }
    requires one { length text.now ≤ 1 }
    ensures text { line.new ≡ line.old ++ letter restr bit text.now }
    ensures len { length line.new ≤ length line.old + 1 }
{
    if restr & bit == bit {
        line.push_word(text);
    }
}
