//! The program as its `main` calls it: with arguments, streams, a watcher and a permit.
ghost use Rattle.std.specs.Prelude.{◌≡◌, codes, map, string_bytes};
ghost use Rattle.std.specs.Io.KnownBytes.{Keeps};
ghost use Rattle.coy_io.specs.Buffered.{taken_in};
ghost use Rattle.courses.specs.Ending.{Output};
ghost use Rattle.courses.specs.Flush.{AnswersFor, GoesOutFor};
ghost use Rattle.courses.specs.Program.{bytes_for, out, sure, HasForm, ReadsInput};
ghost use Rattle.explore_program.specs.Program.{asked_by, explore};
ghost use Rattle.explore_program.specs.Theorem.{Judges, TellsFlushed, TellsInput};
ghost use Rattle.explore_program.specs.Wanting.{Wants};
ghost use Rattle.program_entry.specs.Begins.{Begins, EndsWith};
ghost use Rattle.program_entry.specs.Said.{Says};
ghost use Rattle.program_entry.specs.Streams.{got_by, left_in, read_faults, said_by, said_faults};
ghost use Rattle.program_entry.specs.Words.{given_words};
ghost use Rattle.explore_entry.specs.Flushed.{CallsFlushed};
ghost use Rattle.steps.specs.Permit.{permit_for};

use breadth_first::Watcher;
use courses::{Exit, flush_after};
use coy_io::{Sink, Source, WriteSink};
use explore_program::explore;
use program_entry::{Streams, end, words_of};
use std::alloc::{AllocError, Global};
use std::env::Args;
use std::io;
use std::io::{BufWriter, Read, Write};
use std::process::ExitCode;
use std::sync::ledger::Ledger;
use steps::{Permit, Steps};

/// Does what the words behind the program's name ask for, with its streams, and ends with the status. Where a word isn't
/// UTF-8, they are taken for one empty word. Where reading or writing failed, or memory was wanting, `errors` gets a line.
pub fn run_program<'a, R: Read + Drop, W: Write + Drop, E: Write + Drop, P: Watcher, L: Ledger>(
    alloc: Global,
    args: io::Result<Args>,
    streams: &mut Streams<'a, R, W, E>,
    watcher: &mut P,
    permit: Permit,
) -> ExitCode
    requires ledger { permit ≡ permit_for L.name L.parts }
    ensures { let old = streams.old in let new = streams.new in EndsWith result
        (Says (said_by E.contents) said_faults old.errors new.errors (codes "explore")) (λ exit.
        Begins (given_words args) old.input new.input old.output new.output exit (λ words sink sink'.
        CallsFlushed (left_in R.remaining) read_faults (got_by W.contents)
        old.input new.input sink sink' exit words)) }
{
    let input = &mut streams.input;
    let exit = run_words::<_, _, _, L>(alloc, args, input, &mut streams.output, watcher, permit);
    end(alloc, "explore", exit, streams.noted, &mut streams.errors)
}

/// Does what the words ask for, and flushes the output, where there was memory for its buffer.
fn run_words<S: Source, W: Write + Drop, P: Watcher, L: Ledger>(
    alloc: Global,
    args: io::Result<Args>,
    input: &mut S,
    output: &mut Result<WriteSink<BufWriter<W>>, AllocError>,
    watcher: &mut P,
    permit: Permit,
) -> Exit
    requires ledger { permit ≡ permit_for L.name L.parts }
    ensures { Begins (given_words args) input.old input.new output.old output.new result
        (λ words sink sink'. CallsFlushed S.held S.faults W.contents
        input.old input.new sink sink' result words) }
{
    let Ok(words) = words_of(alloc, args) else {
        return Exit::OutOfMemory;
    };
    match output {
        Ok(output) => run_and_flush::<_, _, _, L>(
            alloc,
            words.as_slice(),
            input,
            output,
            watcher,
            permit,
        ),
        Err(_) => Exit::OutOfMemory,
    }
}

/// Does what the words ask for, and then flushes the output.
pub fn run_and_flush<S: Source, W: Write + Drop, P: Watcher, L: Ledger>(
    alloc: Global,
    words: &[String],
    input: &mut S,
    output: &mut WriteSink<BufWriter<W>>,
    watcher: &mut P,
    permit: Permit,
) -> Exit
    requires ledger { permit ≡ permit_for L.name L.parts }

    // What is told answers what the input asks; what the writer behind the buffer gets, how the program ends, and why. Where
    // reading failed it gets nothing, as nothing is told before the last line.
    ensures output { let words = map string_bytes words.now in
        TellsFlushed words (S.held input.old) result
        (Keeps (taken_in W.contents output.old) (taken_in W.contents output.new)) (λ told.
        GoesOutFor S.held S.faults W.contents input.old input.new output.old output.new result
        (bytes_for (explore told) (asked_by words)) (out (explore told) words) (sure (explore told) words)) }

    // The theorem: where it told that all holds, so it does of each state that the machine can come to.
    ensures judges { Judges (map string_bytes words.now) (S.held input.old) result }

    // How much of the input is read, and to which words Usage is answered.
    ensures reads { (told : Output) →
        ReadsInput (explore told) S.held (map string_bytes words.now) input.old input.new result }
    ensures form { (told : Output) → HasForm (explore told) (map string_bytes words.now) result }

    // Where memory was wanting, what of the input was read.
    ensures wanting { result ≡ Exit.OutOfMemory → Wants (S.held input.old) (S.held input.new) }
{
    let exit = counted::<_, _, _, L>(alloc, words, input, output, watcher, permit);
    flush_after(exit, output)
}

/// Calls the program with a counter that nobody reads.
fn counted<S: Source, K: Sink, P: Watcher, L: Ledger>(
    alloc: Global,
    words: &[String],
    input: &mut S,
    output: &mut K,
    watcher: &mut P,
    permit: Permit,
) -> Exit
    requires ledger { permit ≡ permit_for L.name L.parts }

    ensures answers { let words = map string_bytes words.now in
        TellsInput words (S.held input.old) result (λ told.
        AnswersFor S.held S.faults K.taken K.faults input.old input.new output.old output.new result
        (bytes_for (explore told) (asked_by words)) (out (explore told) words) (sure (explore told) words)) }
    ensures judges { Judges (map string_bytes words.now) (S.held input.old) result }
    ensures reads { (told : Output) →
        ReadsInput (explore told) S.held (map string_bytes words.now) input.old input.new result }
    ensures form { (told : Output) → HasForm (explore told) (map string_bytes words.now) result }
    ensures unwritten { result ≡ Exit.OutOfMemory → K.taken output.new ≡ K.taken output.old }
    ensures wanting { result ≡ Exit.OutOfMemory → Wants (S.held input.old) (S.held input.new) }
{
    let mut fetches = Steps::<L>::new(permit);
    explore(alloc, words, input, output, watcher, &mut fetches)
}
