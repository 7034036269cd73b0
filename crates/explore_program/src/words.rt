//! The words behind the program's name.
ghost use Rattle.std.specs.Prelude.{◌≡◌, map, string_bytes};
ghost use Rattle.explore_program.specs.Program.{asked_by};

/// What the words ask for.
#[derive(Clone, Copy)]
pub enum Wanted {
    /// `--help`: how the program is used.
    Help,
    /// No words: that the machine is gone through.
    Explore,
}

/// What the words ask for. `None` for words of no form.
pub(crate) fn read_words(words: &[String]) -> Option<Wanted>
    ensures { result ≡ asked_by (map string_bytes words.now) }
{
    match words {
        [] => Some(Wanted::Explore),
        [word] if word.as_str() == "--help" => Some(Wanted::Help),
        _ => None,
    }
}
