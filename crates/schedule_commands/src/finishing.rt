//! What comes behind the records.
ghost use Rattle.std.specs.Prelude.{◌≡◌, ◌<◌, ◌≤◌, ◌+◌, ◌*◌, ◌++◌, [], decimal, length};
ghost use Rattle.kernel_core.specs.State.{state_of, space_of};
ghost use Rattle.courses.specs.Ending.{EndsIn, Fetches};
ghost use Rattle.coyotos_words.specs.declared.command.RunCommand.TheVariants.{Walk};
ghost use Rattle.schedule_commands.specs.declared.command.ScheduleCommand.TheVariants.{Of};
ghost use Rattle.schedule_commands.specs.Finished.{summary_text, access_text, last_state_text, last_text, fetches_for};
ghost use Rattle.map_cache.specs.Cache.{kept_of};
ghost use Rattle.walk_meaning.specs.Trail.{slots};
ghost use Rattle.walk_meaning.specs.Walk.{access};
ghost use Rattle.run_text.specs.Walk.{walk_text};
ghost use Rattle.object_store.specs.Meaning.{meaning};
ghost use Rattle.object_store.specs.Store.{size_of};
ghost use Rattle.cap_format.specs.declared.kind.CapKind.TheVariants.{Gpt, Process};

use crate::command::ScheduleCommand;
use crate::tables::tables;
use cap_format::Cap;
use courses::{Exit, end_with};
use coy_io::Sink;
use coy_text::LineBuf;
use coyotos_words::RunCommand;
use kernel_core::Machine;
use map_cache::MapCache;
use run_text::{dump, walk_line};
use schedule_replay::Counts;
use std::sync::ledger::Ledger;
use steps::Steps;
use walk_engine::{Trail, Translator, walk};
use walk_meaning::Kind;

/// Writes what comes last where all lines were read: the counts, the last state with the entries of the mapping cache or
/// without, or where a walk ends.
pub(crate) fn finish<K: Sink, L: Ledger>(
    command: ScheduleCommand,
    counts: Counts,
    machine: &Machine<MapCache>,
    output: &mut K,
    fetches: &mut Steps<L>,
) -> Exit
    ensures ends { let kept = kept_of machine.now.translator in
        EndsIn K.taken K.faults output.old output.new result
        (record { text = last_text command (state_of machine.now) kept counts; exit = Exit.Done }) }
    ensures fetched { Fetches fetches.old fetches.new result
        (fetches_for command (state_of machine.now)) }
{
    match command {
        ScheduleCommand::Of(
            RunCommand::Walk {
                process,
                kind,
                address,
            },
        ) => access(machine, process as u16, kind, address, output, fetches),
        ScheduleCommand::Of(RunCommand::Tables) => tables(machine, output, fetches),
        ScheduleCommand::Of(RunCommand::Run | RunCommand::Trace) => {
            last_state(machine, output, fetches)
        }
        ScheduleCommand::Summary => summary(counts, output),
    }
}

/// Writes the counts of a run.
fn summary<K: Sink>(counts: Counts, output: &mut K) -> Exit
    ensures { EndsIn K.taken K.faults output.old output.new result
        (record { text = summary_text counts; exit = Exit.Done }) }
{
    let mut line = LineBuf::new();
    push_summary(&mut line, counts);
    end_with(line.as_bytes(), Exit::Done, output)
}

/// Makes the line of the counts of a run.
#[tactic(auto, unfolding(crate::specs::Finished::summary_text))]
fn push_summary(line: &mut LineBuf, counts: Counts)
    requires empty { line.old ≡ [] }
    ensures text { line.new ≡ summary_text counts }
{
    push_numbered(line, "summary events=", counts.events);
    push_numbered(line, " messages=", counts.messages);
    push_numbered(line, " faults=", counts.faults);
    push_numbered(line, " logs=", counts.logs);
    push_numbered(line, " destroys=", counts.destroys);
    line.push_word("\n");
}

/// Appends a word and a number.
#[tactic(auto, using(coy_text::proofs::NumeralLaws::length_decimal))]
fn push_numbered(line: &mut LineBuf, word: &str, number: u64)
    requires { length line.old + length word.now ≤ 1000 }
    ensures text { line.new ≡ line.old ++ word.now ++ decimal number }
    ensures len { length line.new ≤ length line.old + length word.now + 20 }
{
    line.push_word(word);
    line.push_dec(number);
}

/// Writes where an access of a process's space ends, by a walk at this moment.
fn access<T: Translator, K: Sink, L: Ledger>(
    machine: &Machine<T>,
    process: u16,
    kind: Kind,
    address: u32,
    output: &mut K,
    fetches: &mut Steps<L>,
) -> Exit
    ensures ends { EndsIn K.taken K.faults output.old output.new result
        (record { text = access_text (state_of machine.now) process kind address; exit = Exit.Done }) }
    ensures counted { let command = Of (Walk process kind address) in
        fetches.new ≡ fetches.old + fetches_for command (state_of machine.now) }
{
    let mut line = LineBuf::new();
    if process < machine.objects().sizes().processes {
        walk_from(machine, process, kind, address, &mut line, fetches);
    } else {
        line.push_word("no process\n");
    }
    end_with(line.as_bytes(), Exit::Done, output)
}

/// Makes the line of a walk from a process's space.
fn walk_from<T: Translator, L: Ledger>(
    machine: &Machine<T>,
    process: u16,
    kind: Kind,
    address: u32,
    line: &mut LineBuf,
    fetches: &mut Steps<L>,
)
    requires { process < size_of machine.now.objects.items Process }
    ensures line { let s = state_of machine.now in
        line.new ≡ walk_text (access s.store.items (space_of s process) address kind) }
    ensures counted { let s = state_of machine.now in
        fetches.new ≡ fetches.old + slots s.store.items (space_of s process) address kind }
{
    let space = space_of(machine, process);
    let mut trail = Trail::new();
    let found = walk(machine.objects(), space, address, kind, &mut trail, fetches);
    walk_line(&found, line);
}

/// The capability in a process's slot for its space.
fn space_of<T: Translator>(machine: &Machine<T>, process: u16) -> Cap
    requires { process < size_of machine.now.objects.items Process }
    ensures { meaning machine.now.objects.items result ≡ space_of (state_of machine.now) process }
{
    machine.objects().process(process).slot(0)
}

/// Writes the last state.
fn last_state<T: Translator, K: Sink, L: Ledger>(
    machine: &Machine<T>,
    output: &mut K,
    fetches: &mut Steps<L>,
) -> Exit
    ensures ends { EndsIn K.taken K.faults output.old output.new result
        (record { text = last_state_text (state_of machine.now); exit = Exit.Done }) }
    ensures fetched { let all = 16 * size_of (state_of machine.now).store.items Gpt in
        Fetches fetches.old fetches.new result all }
{
    match dump(machine, output, fetches) {
        Ok(()) => Exit::Done,
        Err(_) => Exit::WriteFault,
    }
}
