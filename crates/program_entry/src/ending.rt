//! The end of a program: its status, and what is said of a failure.
ghost use Rattle.std.specs.Prelude.{◌≡◌};
ghost use Rattle.std.specs.Process.{exit_status};
ghost use Rattle.coy_io.specs.Written.{WroteTo};
ghost use Rattle.courses.specs.Exit.{status_of};
ghost use Rattle.program_entry.specs.Said.{behind_colon, line_of, Says, SaysFailure, SaysPlainly};

use crate::noting::Noted;
use courses::Exit;
use coy_io::{Sink, WriteFault, put_text};
use std::alloc::Global;
use std::io;
use std::process::ExitCode;

/// The status of an exit. Where reading or writing failed, or memory was wanting, a line on `errors` says so, with the
/// system's words where there were some, and memory for them. It changes nothing that the line can't be written.
pub fn end<K: Sink>(
    alloc: Global,
    name: &str,
    exit: Exit,
    noted: &Noted,
    errors: &mut K,
) -> ExitCode
    ensures status { exit_status result ≡ status_of exit }
    ensures said { Says K.taken K.faults errors.old errors.new name.now exit }
{
    match exit {
        Exit::ReadFault => {
            let failure = "standard input could not be read";
            say(alloc, name, failure, noted.of_reading(), errors)
        }
        Exit::WriteFault => {
            let failure = "standard output could not be written";
            say(alloc, name, failure, noted.of_writing(), errors)
        }
        Exit::OutOfMemory => say_plainly(name, "there was not enough memory", errors),
        _ => {}
    }
    exit.code()
}

/// Says what failed, with the words of the system's error.
fn say<K: Sink>(alloc: Global, name: &str, failure: &str, error: Option<io::Error>, errors: &mut K)
    ensures { SaysFailure K.taken K.faults errors.old errors.new name.now failure.now }
{
    let words = words_of_error(alloc, error);
    let _said = put_line(name, failure, words.as_str(), errors);
}

/// Says what failed.
fn say_plainly<K: Sink>(name: &str, failure: &str, errors: &mut K)
    ensures { SaysPlainly K.taken K.faults errors.old errors.new name.now failure.now }
{
    let _said = put_line(name, failure, "", errors);
}

/// The words of an error. There are none where memory for them is wanting.
fn words_of_error(alloc: Global, error: Option<io::Error>) -> String {
    let Some(error) = error else {
        return String::new(alloc);
    };
    match format!(in alloc; "{error}") {
        Ok(words) => words,
        Err(_) => String::new(alloc),
    }
}

/// Writes the line of a failure.
fn put_line<K: Sink>(
    name: &str,
    failure: &str,
    words: &str,
    errors: &mut K,
) -> Result<(), WriteFault>
    ensures { WroteTo K.taken K.faults errors.old errors.new result
        (line_of name.now failure.now words.now) }
{
    put_text(name, errors)?;
    put_text(": ", errors)?;
    put_text(failure, errors)?;
    put_behind_colon(words, errors)?;
    put_text("\n", errors)
}

/// Writes the system's words, if there are some.
fn put_behind_colon<K: Sink>(words: &str, errors: &mut K) -> Result<(), WriteFault>
    ensures { WroteTo K.taken K.faults errors.old errors.new result (behind_colon words.now) }
{
    if words.is_empty() {
        return put_text("", errors);
    }
    put_text(": ", errors)?;
    put_text(words, errors)
}
