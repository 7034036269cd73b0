//! The top call.
ghost use Rattle.std.specs.Prelude.{◌≡◌, map, string_bytes, IfSome, Some};
ghost use Rattle.coy_io.specs.Causes.{Rose};
ghost use Rattle.courses.specs.Ending.{Completes, EndsIn, HasCauses, IsGiven, Outputs};
ghost use Rattle.courses.specs.Program.{bytes_for, out, sure, HasForm, ReadsInput};
ghost use Rattle.courses.specs.Sure.{WritesSure};
ghost use Rattle.separation_program.specs.Program.{asked_by, separation, usage_text, FetchesFor, Judges};
ghost use Rattle.separation_program.specs.Slots.{WantsFor};
ghost use Rattle.separation_program.specs.declared.words.Aim.{Aim};
ghost use Rattle.separation_program.specs.declared.words.Asked.TheVariants.{Judge};

use crate::input::separate;
use crate::words::{Asked, read_words};
use courses::{Exit, end_with};
use coy_io::{Sink, Source};
use std::alloc::Global;
use std::sync::ledger::Ledger;
use steps::Steps;

/// Judges the input: a listing, the lines of a policy and a schedule that sets the system up. It tells that the policy
/// holds of the state behind the schedule, with the domains, or every crossing. With the lone word `least` it tells the least
/// lines with which the policy would hold in the place of its own, or every crossing that no line allows. With the lone word
/// `--help`, and for words of no form, it tells how it is used.
pub fn separation<S: Source, K: Sink, L: Ledger>(
    alloc: Global,
    words: &[String],
    input: &mut S,
    output: &mut K,
    fetches: &mut Steps<L>,
) -> Exit
    // What is written, and how it ends, where the bytes that are read are told.
    ensures answers { let words = map string_bytes words.now in
        IfSome (bytes_for separation (asked_by words) (S.held input.old)) (λ bytes.
        Outputs (K.taken output.old) (K.taken output.new) result (out separation words bytes)) }

    // Where nothing failed, that is the whole answer, or there was no memory for it.
    ensures complete { let words = map string_bytes words.now in
        ¬ Rose (S.faults input.old) (S.faults input.new) →
        ¬ Rose (K.faults output.old) (K.faults output.new) →
        IfSome (bytes_for separation (asked_by words) (S.held input.old)) (λ bytes.
        Completes (K.taken output.old) (K.taken output.new) result (out separation words bytes)) }

    // The theorem: where it told that the policy holds, so it does of the state that was judged, and from there on nobody
    // writes across domains, and nobody sees across them, but who reads; and it told so exactly where the policy holds. Where
    // it told the least lines, so it is with these; and it told lines exactly where the policy holds with some.
    ensures judges { Judges (map string_bytes words.now) (S.held input.old) result }

    // Where reading failed, nothing was written, and no whole line that was read ended the call.
    ensures sure { let words = map string_bytes words.now in result ≡ Exit.ReadFault →
        WritesSure (S.held input.old) (S.held input.new)
        (K.taken output.old) (K.taken output.new) (sure separation words) }

    // How much of the input is read, and how many slots of GPTs.
    ensures reads { ReadsInput separation S.held (map string_bytes words.now)
        input.old input.new result }
    ensures fetches { FetchesFor (map string_bytes words.now) (S.held input.old)
        fetches.old fetches.new result }

    // Why it ends as it does.
    ensures form { HasForm separation (map string_bytes words.now) result }
    ensures causes { HasCauses (S.faults input.old) (S.faults input.new)
        (K.faults output.old) (K.faults output.new) result }
    ensures unwritten { result ≡ Exit.OutOfMemory → K.taken output.new ≡ K.taken output.old }

    // Where memory is wanting, no more was taken than a listing and what came with its last line, and no slot was read; or the
    // whole input was read, and whole passages through the slots were made for what is to be found.
    ensures wanting { (aim : Aim) → asked_by (map string_bytes words.now) ≡ Some (Judge aim) →
        result ≡ Exit.OutOfMemory →
        WantsFor aim (S.held input.old) (S.held input.new) fetches.old fetches.new }
{
    match read_words(words) {
        Some(Asked::Judge(aim)) => separate(alloc, aim, input, output, fetches),
        Some(Asked::Help) => usage(output, Exit::Done),
        None => usage(output, Exit::Usage),
    }
}

/// Writes how the program is used.
fn usage<K: Sink>(output: &mut K, exit: Exit) -> Exit
    requires { IsGiven exit }
    ensures { EndsIn K.taken K.faults output.old output.new result
        (record { text = usage_text; exit = exit }) }
{
    end_with(b"usage: separation [least]\n".as_slice(), exit, output)
}
