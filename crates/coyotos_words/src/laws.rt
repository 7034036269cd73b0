//! The law of commands and their words.
ghost use Rattle.coyotos_words.specs.Usage.{EachIsAskedFor, EachIsNamed};

/// Each command is asked for by words, and each but `--help` is named by the first of these in the line that tells how the
/// program is used. It does nothing: its contract is the law.
pub fn words_law()
    ensures asked { EachIsAskedFor }
    ensures named { EachIsNamed }
{}
