//! A command, with the input or without.
ghost use Rattle.std.specs.Prelude.{◌≡◌, ◌≢◌, true, false, IfSome, Some};
ghost use Rattle.std.specs.Io.KnownBytes.{IsAtEnd};
ghost use Rattle.coyotos_words.specs.declared.command.Command.TheVariants.{Confine, Help, Migrate, Pack, Share, Unpack};
ghost use Rattle.confine_command.specs.Decided.{IsDecided};
ghost use Rattle.coyotos_cli.specs.Command.{asks_input, asks_run, has_cache};
ghost use Rattle.coyotos_cli.specs.Contract.{ComesFor, StandsFor, bytes_for};
ghost use Rattle.coyotos_cli.specs.Input.{read_input, whole_input};
ghost use Rattle.coyotos_cli.specs.Program.{command_course, usage_text};
ghost use Rattle.courses.specs.Course.{HasEntries, course_output};
ghost use Rattle.courses.specs.Ending.{HasCauses, IsGiven, EndsIn};
ghost use Rattle.courses.specs.Exit.{is_finished};
ghost use Rattle.courses.specs.Wanting.{StandsAtListing};
ghost use Rattle.image_binary.specs.Unpacked.{StandsAtStatement};
ghost use Rattle.image_commands.specs.Same.{IsImageOf};
ghost use Rattle.migrate_command.specs.Same.{IsMigrated};
ghost use Rattle.share_command.specs.Few.{IsSharedBounded, TellsFew};

use crate::making::make;
use back_command::back;
use confine_command::confine;
use courses::{Exit, end_with};
use coy_io::{Sink, Source};
use coyotos_words::Command;
use image_commands::{answer_pack, answer_unpack};
use migrate_command::migrate;
use schedule_commands::{ScheduleCommand, answer_schedule, check};
use share_command::share;
use std::alloc::Global;
use std::sync::ledger::Ledger;
use steps::Steps;

/// Does what a command asks for, with the bytes of the source where it asks for input.
pub(crate) fn answer<S: Source, K: Sink, L: Ledger>(
    alloc: Global,
    command: Command,
    input: &mut S,
    output: &mut K,
    fetches: &mut Steps<L>,
) -> Exit
    // What the command comes to with the known bytes, and where the source stands then.
    ensures comes { IfSome (bytes_for (Some command) (S.held input.old)) (λ bytes.
        ComesFor (Some command) (K.taken output.old) (K.taken output.new)
        fetches.old fetches.new result (command_course command (whole_input bytes))) }
    ensures end { is_finished result ≡ true → asks_input command ≡ true
        → IsAtEnd (S.held input.new) }
    ensures unread { asks_input command ≡ false → input.new ≡ input.old }
    ensures unfailed { asks_input command ≡ false → result ≢ Exit.ReadFault }
    ensures sure { result ≡ Exit.ReadFault →
        StandsFor (Some command) (S.held input.old) (S.held input.new)
        (K.taken output.old) (K.taken output.new) fetches.old fetches.new
        (λ bytes. command_course command (read_input bytes)) }

    // What the entries of the mapping cache say then.
    ensures entries { result ≡ Exit.Done → has_cache (Some command) ≡ true →
        IfSome (bytes_for (Some command) (S.held input.old)) (λ bytes.
        HasEntries (command_course command (whole_input bytes))) }

    // What is read again of a text that was migrated.
    ensures migrated { command ≡ Migrate → result ≡ Exit.Done → IfSome (S.held input.old) (λ bytes.
        IsMigrated bytes (course_output (command_course command (whole_input bytes))).text) }

    // What `unpack` writes for an image that was packed.
    ensures packed { command ≡ Pack → result ≡ Exit.Done → IfSome (S.held input.old) (λ bytes.
        IsImageOf bytes (course_output (command_course command (whole_input bytes))).text) }

    // What `confine` tells of a cut.
    ensures decided { command ≡ Confine → result ≡ Exit.Done → IfSome (S.held input.old) (λ bytes.
        IsDecided bytes (course_output (command_course command (whole_input bytes))).text) }

    // How few frames `share` tells, and how few slots it fetches.
    ensures fewer { command ≡ Share → result ≡ Exit.Done →
        IfSome (bytes_for (Some command) (S.held input.old)) (λ bytes.
        TellsFew (command_course command (whole_input bytes))) }
    ensures bounded { command ≡ Share →
        IfSome (bytes_for (Some command) (S.held input.old)) (λ bytes.
        IsSharedBounded fetches.old fetches.new (command_course command (whole_input bytes))) }

    // Why it may end otherwise.
    ensures usage { result ≢ Exit.Usage }
    ensures memory { command ≡ Help → result ≢ Exit.OutOfMemory }
    ensures wanting { command ≢ Unpack → result ≡ Exit.OutOfMemory →
        StandsAtListing (S.held input.old) (S.held input.new) }
    ensures wanting_image { command ≡ Unpack → result ≡ Exit.OutOfMemory →
        StandsAtStatement (S.held input.old) (S.held input.new) }
    ensures causes { HasCauses (S.faults input.old) (S.faults input.new)
        (K.faults output.old) (K.faults output.new) result }
    ensures unwritten { result ≡ Exit.OutOfMemory → K.taken output.new ≡ K.taken output.old }

    // Where no slot is fetched.
    ensures stays { asks_run (Some command) ≡ false → fetches.new ≡ fetches.old }
    ensures unspent { result ≡ Exit.OutOfMemory → fetches.new ≡ fetches.old }
{
    match command {
        Command::Help => usage(output, Exit::Done),
        Command::Check => check(alloc, input, output),
        Command::Schedule(command) => {
            answer_schedule(alloc, ScheduleCommand::Of(command), input, output, fetches)
        }
        Command::Make { number, summary } => make(alloc, number, summary, output, fetches),
        Command::Pack => answer_pack(alloc, input, output),
        Command::Unpack => answer_unpack(alloc, input, output),
        Command::Migrate => migrate(alloc, input, output),
        Command::Confine => confine(alloc, input, output, fetches),
        Command::Share => share(alloc, input, output, fetches),
        Command::Back { number } => back(alloc, number, input, output, fetches),
    }
}

/// Writes how the program is used.
pub(crate) fn usage<K: Sink>(output: &mut K, exit: Exit) -> Exit
    requires { IsGiven exit }
    ensures { EndsIn K.taken K.faults output.old output.new result
        (record { text = usage_text; exit = exit }) }
{
    let line =
        b"usage: coyotos check | run | trace | tables | walk P KIND ADDR | make N [summary] | pack | unpack | migrate | confine | share | back N\n";
    end_with(line.as_slice(), exit, output)
}
