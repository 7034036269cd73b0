//! The words behind the program's name.
ghost use Rattle.std.specs.Prelude.{◌≡◌, map, string_bytes};
ghost use Rattle.separation_program.specs.Program.{asked_by};

/// What is to be found of a policy and a state.
#[derive(Clone, Copy)]
pub enum Aim {
    /// Whether the policy holds of it.
    Holds,
    /// The least lines with which it would.
    Least,
}

/// What the words ask for.
#[derive(Clone, Copy)]
pub enum Asked {
    /// `--help`: how the program is used.
    Help,
    /// That the input is judged: no words whether its policy holds, and `least` with which lines it would.
    Judge(Aim),
}

/// What the words ask for. `None` for words of no form.
pub(crate) fn read_words(words: &[String]) -> Option<Asked>
    ensures { result ≡ asked_by (map string_bytes words.now) }
{
    match words {
        [] => Some(Asked::Judge(Aim::Holds)),
        [word] if word.as_str() == "--help" => Some(Asked::Help),
        [word] if word.as_str() == "least" => Some(Asked::Judge(Aim::Least)),
        _ => None,
    }
}
