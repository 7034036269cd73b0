//! A kind of objects as one word.
ghost use Rattle.std.specs.Prelude.{◌≡◌, ◌≤◌, length};
ghost use Rattle.cap_words.specs.Kind.{kind_word};

use cap_format::CapKind;

/// A kind of objects, as `count` says it.
pub fn kind_word(kind: CapKind) -> &'static str
    ensures name { result.now ≡ kind_word kind }
    ensures len { length result.now ≤ 8 }
{
    match kind {
        CapKind::Page => "page",
        CapKind::CapPage => "cappage",
        CapKind::Gpt => "gpt",
        CapKind::Endpoint => "endpoint",
        CapKind::Process => "process",
        _ => "none",
    }
}
