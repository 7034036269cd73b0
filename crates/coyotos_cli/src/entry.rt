//! The program as its `main` calls it: with arguments, streams and a permit.
ghost use Rattle.std.specs.Prelude.{◌≡◌, ◌≢◌, ◌⊎◌, codes, map, string_bytes, IfSome, Some};
ghost use Rattle.confine_command.specs.Decided.{IsDecided};
ghost use Rattle.coyotos_words.specs.Command.{command_of};
ghost use Rattle.coyotos_words.specs.declared.command.Command.TheVariants.{Confine, Unpack};
ghost use Rattle.courses.specs.Flush.{AnswersFor, GoesOutFor};
ghost use Rattle.courses.specs.Wanting.{StandsAtListing};
ghost use Rattle.image_binary.specs.Unpacked.{StandsAtStatement};
ghost use Rattle.program_entry.specs.Begins.{Begins, EndsWith};
ghost use Rattle.program_entry.specs.Said.{Says};
ghost use Rattle.program_entry.specs.Streams.{got_by, left_in, read_faults, said_by, said_faults};
ghost use Rattle.program_entry.specs.Words.{given_words};
ghost use Rattle.coyotos_cli.specs.Program.{out, sure};
ghost use Rattle.coyotos_cli.specs.Contract.{bytes_for, HasForm, ReadsInput};
ghost use Rattle.coyotos_cli.specs.Flushed.{CallsFlushed};
ghost use Rattle.steps.specs.Permit.{permit_for};

use crate::program::coyotos;
use courses::{Exit, flush_after};
use coy_io::{Sink, Source, WriteSink};
use program_entry::{Streams, end, words_of};
use std::alloc::{AllocError, Global};
use std::env::Args;
use std::io;
use std::io::{BufWriter, Read, Write};
use std::process::ExitCode;
use std::sync::ledger::Ledger;
use steps::{Permit, Steps};

/// Does what the words behind the program's name ask for, with its streams, and ends with the status. Where a word isn't
/// UTF-8, they are taken for one empty word. Where reading or writing failed, or memory was wanting, `errors` gets a line.
pub fn run_program<'a, R: Read + Drop, W: Write + Drop, E: Write + Drop, L: Ledger>(
    alloc: Global,
    args: io::Result<Args>,
    streams: &mut Streams<'a, R, W, E>,
    permit: Permit,
) -> ExitCode
    requires ledger { permit ≡ permit_for L.name L.parts }
    ensures { let old = streams.old in let new = streams.new in EndsWith result
        (Says (said_by E.contents) said_faults old.errors new.errors (codes "coyotos")) (λ exit.
        Begins (given_words args) old.input new.input old.output new.output exit
        (λ words sink sink'.
        CallsFlushed (left_in R.remaining) read_faults (got_by W.contents)
        old.input new.input sink sink' exit words)) }
{
    let input = &mut streams.input;
    let exit = run_words::<_, _, L>(alloc, args, input, &mut streams.output, permit);
    end(alloc, "coyotos", exit, streams.noted, &mut streams.errors)
}

/// Does what the words ask for, and flushes the output, where there was memory for its buffer.
fn run_words<S: Source, W: Write + Drop, L: Ledger>(
    alloc: Global,
    args: io::Result<Args>,
    input: &mut S,
    output: &mut Result<WriteSink<BufWriter<W>>, AllocError>,
    permit: Permit,
) -> Exit
    requires ledger { permit ≡ permit_for L.name L.parts }
    ensures { Begins (given_words args) input.old input.new output.old output.new result
        (λ words sink sink'. CallsFlushed S.held S.faults W.contents
        input.old input.new sink sink' result words) }
{
    let Ok(words) = words_of(alloc, args) else {
        return Exit::OutOfMemory;
    };
    match output {
        Ok(output) => run_and_flush::<_, _, L>(alloc, words.as_slice(), input, output, permit),
        Err(_) => Exit::OutOfMemory,
    }
}

/// Does what the words ask for, and then flushes the output.
pub fn run_and_flush<S: Source, W: Write + Drop, L: Ledger>(
    alloc: Global,
    words: &[String],
    input: &mut S,
    output: &mut WriteSink<BufWriter<W>>,
    permit: Permit,
) -> Exit
    requires ledger { permit ≡ permit_for L.name L.parts }

    // What the writer behind the buffer gets, how the program ends, and why.
    ensures output { let words = map string_bytes words.now in
        GoesOutFor S.held S.faults W.contents input.old input.new output.old output.new result
        (bytes_for (command_of words)) (out words) (sure words) }

    // What `confine` writes of a cut is so of the machine that the listing boots.
    ensures decided { let words = map string_bytes words.now in command_of words ≡ Some Confine →
        result ≡ Exit.Done → IfSome (S.held input.old) (λ bytes.
        IsDecided bytes (out words bytes).text) }

    // How much of the input is read, and to which words Usage is answered.
    ensures reads { ReadsInput S.held (map string_bytes words.now) input.old input.new result }
    ensures form { HasForm (map string_bytes words.now) result }

    // Where memory is wanting, no more was taken than a listing and what came with its last line.
    ensures wanting { command_of (map string_bytes words.now) ≢ Some Unpack →
        result ≡ Exit.OutOfMemory → StandsAtListing (S.held input.old) (S.held input.new) }

    // For `unpack`: nothing was taken, or memory was wanting for a statement of the image, which was read last.
    ensures wanting_image { command_of (map string_bytes words.now) ≡ Some Unpack →
        result ≡ Exit.OutOfMemory →
        (input.new ≡ input.old) ⊎ StandsAtStatement (S.held input.old) (S.held input.new) }
{
    let exit = counted::<_, _, L>(alloc, words, input, output, permit);
    flush_after(exit, output)
}

/// Calls the program with a counter that nobody reads.
fn counted<S: Source, K: Sink, L: Ledger>(
    alloc: Global,
    words: &[String],
    input: &mut S,
    output: &mut K,
    permit: Permit,
) -> Exit
    requires ledger { permit ≡ permit_for L.name L.parts }

    ensures answers { let words = map string_bytes words.now in
        AnswersFor S.held S.faults K.taken K.faults input.old input.new output.old output.new result
        (bytes_for (command_of words)) (out words) (sure words) }
    ensures decided { let words = map string_bytes words.now in command_of words ≡ Some Confine →
        result ≡ Exit.Done → IfSome (S.held input.old) (λ bytes.
        IsDecided bytes (out words bytes).text) }
    ensures reads { ReadsInput S.held (map string_bytes words.now) input.old input.new result }
    ensures form { HasForm (map string_bytes words.now) result }
    ensures wanting { command_of (map string_bytes words.now) ≢ Some Unpack →
        result ≡ Exit.OutOfMemory → StandsAtListing (S.held input.old) (S.held input.new) }
    ensures wanting_image { command_of (map string_bytes words.now) ≡ Some Unpack →
        result ≡ Exit.OutOfMemory →
        (input.new ≡ input.old) ⊎ StandsAtStatement (S.held input.old) (S.held input.new) }
{
    let mut fetches = Steps::<L>::new(permit);
    coyotos(alloc, words, input, output, &mut fetches)
}
