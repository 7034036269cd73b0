//! The top call.
ghost use Rattle.std.specs.Prelude.{◌≡◌, map, string_bytes, IfSome};
ghost use Rattle.coy_io.specs.Causes.{Rose};
ghost use Rattle.courses.specs.Ending.{Completes, EndsIn, HasCauses, IsGiven, Output};
ghost use Rattle.courses.specs.Flush.{AnswersFor};
ghost use Rattle.courses.specs.Program.{bytes_for, out, sure, HasForm, ReadsInput};
ghost use Rattle.explore_program.specs.Program.{asked_by, explore, usage_text};
ghost use Rattle.explore_program.specs.Slots.{FetchesFor};
ghost use Rattle.explore_program.specs.Theorem.{Judges, TellsInput};
ghost use Rattle.explore_program.specs.Wanting.{Wants};

use crate::input::explore_input;
use crate::words::{Wanted, read_words};
use breadth_first::Watcher;
use courses::{Exit, end_with};
use coy_io::{Sink, Source};
use std::alloc::Global;
use std::sync::ledger::Ledger;
use steps::Steps;

/// Goes through all states that the machine of the input can come to: a listing, the lines of a question and a schedule that
/// sets the machine up. It tells that all is as the question says, or the choices that lead to a state that isn't. With the
/// lone word `--help`, and for words of no form, it tells how it is used. The watcher is told how far it is.
pub fn explore<S: Source, K: Sink, W: Watcher, L: Ledger>(
    alloc: Global,
    words: &[String],
    input: &mut S,
    output: &mut K,
    watcher: &mut W,
    fetches: &mut Steps<L>,
) -> Exit
    // What is told answers what the input asks, where the bytes that are read are told; and what is written, and how it ends,
    // is what the program comes to that tells this. Where reading failed, nothing was written, and no whole line that was read
    // ended the call.
    ensures answers { let words = map string_bytes words.now in
        TellsInput words (S.held input.old) result (λ told.
        AnswersFor S.held S.faults K.taken K.faults input.old input.new output.old output.new result
        (bytes_for (explore told) (asked_by words)) (out (explore told) words) (sure (explore told) words)) }

    // Where nothing failed, that is the whole answer, or there was no memory for it.
    ensures complete { let words = map string_bytes words.now in
        ¬ Rose (S.faults input.old) (S.faults input.new) →
        ¬ Rose (K.faults output.old) (K.faults output.new) →
        TellsInput words (S.held input.old) result (λ told.
        IfSome (bytes_for (explore told) (asked_by words) (S.held input.old)) (λ bytes.
        Completes (K.taken output.old) (K.taken output.new) result (out (explore told) words bytes))) }

    // The theorem: where it told that all holds, so it does of each state that the machine can come to; and it told so exactly
    // where it does, but for a limit.
    ensures judges { Judges (map string_bytes words.now) (S.held input.old) result }

    // How much of the input is read, and how many slots of GPTs.
    ensures reads { (told : Output) →
        ReadsInput (explore told) S.held (map string_bytes words.now) input.old input.new result }
    ensures fetched { FetchesFor (map string_bytes words.now) (S.held input.old)
        fetches.old fetches.new result }

    // Why it ends as it does.
    ensures form { (told : Output) → HasForm (explore told) (map string_bytes words.now) result }
    ensures causes { HasCauses (S.faults input.old) (S.faults input.new)
        (K.faults output.old) (K.faults output.new) result }
    ensures unwritten { result ≡ Exit.OutOfMemory → K.taken output.new ≡ K.taken output.old }

    // Where memory is wanting, no more was taken than a listing and what came with its last line; or than the lines of the
    // question up to one that says a choice or asks something, and what came with that; or the whole input was read and is searched.
    ensures wanting { result ≡ Exit.OutOfMemory → Wants (S.held input.old) (S.held input.new) }
{
    match read_words(words) {
        Some(Wanted::Explore) => explore_input(alloc, input, output, watcher, fetches),
        Some(Wanted::Help) => usage(output, Exit::Done),
        None => usage(output, Exit::Usage),
    }
}

/// Writes how the program is used.
fn usage<K: Sink>(output: &mut K, exit: Exit) -> Exit
    requires { IsGiven exit }
    ensures { EndsIn K.taken K.faults output.old output.new result
        (record { text = usage_text; exit = exit }) }
{
    end_with(b"usage: explore\n".as_slice(), exit, output)
}
