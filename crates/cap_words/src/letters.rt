//! The letters of restrictions, as they are read.
ghost use Rattle.std.specs.Prelude.{◌≡◌, ◌≤◌, ◌<◌, IfSome};
ghost use Rattle.cap_words.specs.Spelling.{letter_at, restr_of};

/// The bits of restrictions, by at least one of their letters, in their order, each at most once.
#[tactic(auto, unfolding(crate::specs::Spelling::restr_of))]
pub fn restrictions(letters: &[u8]) -> Option<u8>
    ensures value { result ≡ restr_of letters.now }
    ensures range { IfSome result (λ restr. restr < 32) }
{
    let (read_only, rest) = letter(b'r', letters);
    let (no_execute, rest) = letter(b'x', rest);
    let (weak, rest) = letter(b'w', rest);
    let (opaque, rest) = letter(b'o', rest);
    let (no_call, rest) = letter(b'n', rest);
    if letters.is_empty() || !rest.is_empty() {
        return None;
    }
    Some(read_only + 2 * no_execute + 4 * weak + 8 * opaque + 16 * no_call)
}

/// Whether the letter is the first of these, as 1 or 0, and what is behind it.
fn letter(wanted: u8, letters: &[u8]) -> (u8, &[u8])
    ensures value { (result.0, result.1.now) ≡ letter_at wanted letters.now }
    ensures bound { result.0 ≤ 1 }
{
    match letters {
        [first, rest @ ..] if *first == wanted => (1, rest),
        _ => (0, letters),
    }
}
