//! The lines behind a listing, run over a mapping cache, and what is written of them and behind them.
ghost use Rattle.std.specs.Prelude.{◌≡◌, ◌≢◌, false};
ghost use Rattle.coy_io.specs.Reader.{TellsEnd, ahead};
ghost use Rattle.map_cache.specs.Cache.{kept_of};
ghost use Rattle.map_cache.specs.Kept.{nothing};
ghost use Rattle.kernel_core.specs.State.{state_of};
ghost use Rattle.schedule_commands.specs.Runs.{mode_of};
ghost use Rattle.courses.specs.Course.{HasEntries, cached};
ghost use Rattle.courses.specs.Taken.{TakesLines};
ghost use Rattle.schedule_commands.specs.Finished.{course_of};
ghost use Rattle.schedule_replay.specs.Scheduled.{OnParts, scheduled};

use crate::command::ScheduleCommand;
use crate::finishing::finish;
use crate::tables::tell_entries;
use courses::{Exit, conclude, counts_or_exit};
use coy_io::{LineReader, Sink, Source};
use coyotos_words::RunCommand;
use kernel_core::Machine;
use map_cache::MapCache;
use schedule_replay::{Mode, replay};
use std::sync::ledger::Ledger;
use steps::Steps;

/// Runs the lines behind a listing, and writes what the command says.
pub(crate) fn answer_lines<S: Source, K: Sink, L: Ledger>(
    command: ScheduleCommand,
    machine: &mut Machine<MapCache>,
    lines: &mut LineReader,
    input: &mut S,
    output: &mut K,
    fetches: &mut Steps<L>,
) -> Exit
    requires reader { lines.old.failed ≡ false }
    requires told { TellsEnd lines.old (S.held input.old) }
    requires nothing { kept_of machine.old.translator ≡ nothing }

    ensures course { TakesLines S.held S.faults K.taken K.faults lines.old lines.new
        input.old input.new output.old output.new fetches.old fetches.new result cached (λ parts.
        course_of command (state_of machine.old)
        (scheduled machine.old.objects.harts lines.old.number parts)) }
    ensures memory { result ≢ Exit.OutOfMemory }

    // What the entries of the mapping cache say then.
    ensures entries { result ≡ Exit.Done → OnParts (ahead lines.old (S.held input.old)) (λ parts.
        HasEntries (course_of command (state_of machine.old)
        (scheduled machine.old.objects.harts lines.old.number parts))) }
{
    let replayed = replay(machine, lines, input, mode_of(command), output, fetches);
    tell_entries(machine);
    match counts_or_exit(replayed) {
        Ok(counts) => finish(command, counts, machine, output, fetches),
        Err(exit) => conclude(exit, output),
    }
}

/// The records of the run that a command writes.
fn mode_of(command: ScheduleCommand) -> Mode
    ensures { result ≡ mode_of command }
{
    match command {
        ScheduleCommand::Of(RunCommand::Run | RunCommand::Tables) => Mode::Records,
        ScheduleCommand::Of(RunCommand::Trace) => Mode::Trace,
        ScheduleCommand::Of(RunCommand::Walk { .. }) | ScheduleCommand::Summary => Mode::Silent,
    }
}
