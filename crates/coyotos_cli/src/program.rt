//! The top call.
ghost use Rattle.std.specs.Prelude.{◌≡◌, ◌≢◌, ◌⊎◌, map, string_bytes, true, IfSome, Some};
ghost use Rattle.coy_io.specs.Causes.{Rose};
ghost use Rattle.coyotos_words.specs.declared.command.Command.TheVariants.{Confine, Migrate, Pack, Unpack};
ghost use Rattle.confine_command.specs.Decided.{IsDecided};
ghost use Rattle.image_binary.specs.Unpacked.{StandsAtStatement};
ghost use Rattle.image_commands.specs.Same.{IsImageOf};
ghost use Rattle.migrate_command.specs.Same.{IsMigrated};
ghost use Rattle.coyotos_words.specs.Command.{command_of};
ghost use Rattle.coyotos_cli.specs.Command.{has_cache};
ghost use Rattle.courses.specs.Course.{HasEntries};
ghost use Rattle.courses.specs.Ending.{HasCauses, Completes};
ghost use Rattle.courses.specs.Wanting.{StandsAtListing};
ghost use Rattle.coyotos_cli.specs.Program.{out, sure, whole_course};
ghost use Rattle.coyotos_cli.specs.Contract.{bytes_for, Answers, HasForm, ReadsInput, SharesFor, StandsFor, FetchesFor};

use crate::answering::{answer, usage};
use courses::Exit;
use coy_io::{Sink, Source};
use coyotos_words::read_command;
use std::alloc::Global;
use std::sync::ledger::Ledger;
use steps::Steps;

/// Does what the words ask for, with the bytes of the source, and writes the answer to the sink.
pub fn coyotos<S: Source, K: Sink, L: Ledger>(
    alloc: Global,
    words: &[String],
    input: &mut S,
    output: &mut K,
    fetches: &mut Steps<L>,
) -> Exit
    // What is written, and how it ends, where the bytes that are read are told.
    ensures answers { Answers (map string_bytes words.now) (S.held input.old)
        (K.taken output.old) (K.taken output.new) result }

    // Where nothing failed, that is the whole answer, or there was no memory for it.
    ensures complete { let words = map string_bytes words.now in
        ¬ Rose (S.faults input.old) (S.faults input.new) →
        ¬ Rose (K.faults output.old) (K.faults output.new) →
        IfSome (bytes_for (command_of words) (S.held input.old)) (λ bytes.
        Completes (K.taken output.old) (K.taken output.new) result (out words bytes)) }

    // Where reading failed, no whole line that was read ended the call, and what was written and fetched is what these
    // lines come to.
    ensures sure { let words = map string_bytes words.now in result ≡ Exit.ReadFault →
        StandsFor (command_of words) (S.held input.old) (S.held input.new)
        (K.taken output.old) (K.taken output.new) fetches.old fetches.new (sure words) }

    // How much of the input is read.
    ensures reads { ReadsInput S.held (map string_bytes words.now) input.old input.new result }

    // Why it ends as it does.
    ensures form { HasForm (map string_bytes words.now) result }
    ensures causes { HasCauses (S.faults input.old) (S.faults input.new)
        (K.faults output.old) (K.faults output.new) result }

    // Where memory is wanting, no more was taken than a listing and what came with its last line.
    ensures wanting { command_of (map string_bytes words.now) ≢ Some Unpack →
        result ≡ Exit.OutOfMemory → StandsAtListing (S.held input.old) (S.held input.new) }

    // For `unpack`: nothing was taken, or memory was wanting for a statement of the image, which was read last.
    ensures wanting_image { command_of (map string_bytes words.now) ≡ Some Unpack →
        result ≡ Exit.OutOfMemory →
        (input.new ≡ input.old) ⊎ StandsAtStatement (S.held input.old) (S.held input.new) }

    // What the mapping lines of `tables` say: each is right and its space live, none comes twice, those of a space are in
    // order of address, and where the need of the run fits, each covered pair of the last state has one.
    ensures entries { let words = map string_bytes words.now in
        result ≡ Exit.Done → has_cache (command_of words) ≡ true →
        IfSome (bytes_for (command_of words) (S.held input.old)) (λ bytes.
        HasEntries (whole_course words bytes)) }

    // What `migrate` writes is, read again, the same statements and events, if it is short enough to be an input.
    ensures migrated { let words = map string_bytes words.now in command_of words ≡ Some Migrate →
        result ≡ Exit.Done → IfSome (S.held input.old)
        (λ bytes. IsMigrated bytes (out words bytes).text) }

    // For the image that `pack` writes, `unpack` writes what `migrate` writes for the input, if it is short enough.
    ensures packed { let words = map string_bytes words.now in command_of words ≡ Some Pack →
        result ≡ Exit.Done → IfSome (S.held input.old) (λ bytes.
        IsImageOf bytes (out words bytes).text) }

    // Where `confine` writes that a cut holds, it does at the start of the machine that the listing boots, and its sides are
    // kept apart whatever events follow; where it writes a breach, the cut doesn't hold, and this is the first.
    ensures decided { let words = map string_bytes words.now in command_of words ≡ Some Confine →
        result ≡ Exit.Done → IfSome (S.held input.old) (λ bytes.
        IsDecided bytes (out words bytes).text) }

    // How many slots are fetched.
    ensures fetches { FetchesFor (map string_bytes words.now) (S.held input.old)
        fetches.old fetches.new result }
    ensures shared { SharesFor (map string_bytes words.now) (S.held input.old)
        fetches.old fetches.new result }
{
    let command = match read_command(alloc, words) {
        Ok(Some(command)) => command,
        Ok(None) => return usage(output, Exit::Usage),
        Err(_) => return Exit::OutOfMemory,
    };
    answer(alloc, command, input, output, fetches)
}
