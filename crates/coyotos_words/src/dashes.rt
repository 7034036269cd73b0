//! Words that begin with `-`.
ghost use Rattle.std.specs.Prelude.{◌≡◌, map, string_bytes};
ghost use Rattle.std.specs.List.{list_any};
ghost use Rattle.coyotos_words.specs.Command.{is_dashed, is_help};

/// Whether the one word is `--help`.
pub(crate) fn asks_help(words: &[String]) -> bool
    ensures { result ≡ is_help (map string_bytes words.now) }
{
    match words {
        [word] => word.as_str() == "--help",
        _ => false,
    }
}

/// Whether a word begins with `-`.
pub(crate) fn has_dashes(words: &[String]) -> bool
    ensures { result ≡ list_any (λ word. is_dashed (string_bytes word)) words.now }
{
    words
        .iter()
        .any(|word| begins_with_dash(word.as_str().as_bytes()))
}

fn begins_with_dash(word: &[u8]) -> bool
    ensures { result ≡ is_dashed word.now }
{
    match word {
        [first, ..] => *first == b'-',
        [] => false,
    }
}
