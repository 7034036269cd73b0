//! The program's words to a command.
ghost use Rattle.std.specs.Prelude.{◌≡◌, IfOk, IsOk, map, string_bytes, true, false};
ghost use Rattle.std.specs.List.{list_any};
ghost use Rattle.coyotos_words.specs.Command.{command_of, form_of, is_dashed};

use crate::command::Command;
use crate::dashes::{asks_help, has_dashes};
use crate::forms::forms;
use crate::matches::asked;
use cap_format::OutOfMemory;
use clap::error::ErrorKind;
use std::alloc::Global;

/// What these words ask for, or `None` where they are of no form. A word that begins with `-` is
/// answered before any memory is taken.
#[tactic(auto, using(crate::proofs::Dashed::help_first, crate::proofs::Dashed::refused_first, crate::proofs::Dashed::left_to_forms))]
pub fn read_command(alloc: Global, words: &[String]) -> Result<Option<Command>, OutOfMemory>
    ensures asked { IfOk result (λ command. command ≡ command_of (map string_bytes words.now)) }
    ensures early { list_any (λ word. is_dashed (string_bytes word)) words.now ≡ true →
        IsOk result }
{
    if asks_help(words) {
        return Ok(Some(Command::Help));
    }
    if has_dashes(words) {
        return Ok(None);
    }
    parse(alloc, words)
}

/// What words ask for of which none begins with `-`.
fn parse(alloc: Global, words: &[String]) -> Result<Option<Command>, OutOfMemory>
    requires { list_any (λ word. is_dashed (string_bytes word)) words.now ≡ false }
    ensures { IfOk result (λ command. command ≡ form_of (map string_bytes words.now)) }
{
    match forms(alloc)?.try_get_matches_from(words) {
        Ok(matches) => Ok(asked(&matches)),
        Err(error) => match error.kind() {
            ErrorKind::OutOfMemory => Err(OutOfMemory),
            _ => Ok(None),
        },
    }
}
