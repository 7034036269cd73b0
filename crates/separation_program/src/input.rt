//! A listing, the lines of a policy and a schedule, from the first line to the last.
ghost use Rattle.std.specs.Prelude.{◌≡◌, true, false, IfSome};
ghost use Rattle.std.specs.Io.KnownBytes.{IsAtEnd};
ghost use Rattle.coy_io.specs.Reader.{TellsEnd, ahead};
ghost use Rattle.kernel_core.specs.Outcome.{spent};
ghost use Rattle.kernel_core.specs.State.{state_of};
ghost use Rattle.schedule_replay.specs.Scheduled.{OnParts};
ghost use Rattle.courses.specs.Course.{cached, ends_in};
ghost use Rattle.courses.specs.Ending.{Fetches};
ghost use Rattle.courses.specs.Exit.{is_finished};
ghost use Rattle.courses.specs.Stopped.{stop_exit};
ghost use Rattle.courses.specs.Taken.{TakesLines, TakesListing};
ghost use Rattle.courses.specs.declared.exit.Exit.TheVariants.{PolicyRefused};
ghost use Rattle.separation_program.specs.Judged.{HasJudged, judged, judged_by, separation_course, stated_output};
ghost use Rattle.separation_program.specs.Slots.{input_slots, judged_slots, stated_slots, LacksStated, WantsFor};
ghost use Rattle.separation_program.specs.Stated.{stated};
ghost use Rattle.separation_program.specs.Text.{told_for};
ghost use Rattle.separation_program.specs.Theorem.{TellsOf};

use crate::judging::judge;
use crate::lines::read_policies;
use crate::words::Aim;
use courses::{Exit, conclude, read_head};
use coy_io::{LineReader, Sink, Source};
use image_builder::boot;
use judged_lines::Stop;
use kept_pages::PageTranslator;
use kernel_core::Machine;
use separation_lines::PolicyFault;
use separation_policy::Policy;
use std::alloc::Global;
use std::sync::ledger::Ledger;
use steps::Steps;
use walk_engine::Plain;

/// Reads a listing, the lines of a policy and, behind its line `end`, a schedule, which sets the system up: it is run without
/// a word, each access walked afresh. Tells of the state behind it what is to be found: that the policy holds, or every
/// crossing; or the least lines with which it would, or every crossing that no line allows.
#[tactic(auto, using(crate::proofs::Slots::slots_wanting))]
pub(crate) fn separate<S: Source, K: Sink, L: Ledger>(
    alloc: Global,
    aim: Aim,
    input: &mut S,
    output: &mut K,
    fetches: &mut Steps<L>,
) -> Exit
    // What is done with the input; how many slots are read is a clause by itself.
    ensures course { TakesListing S.held S.faults K.taken K.faults
        input.old input.new output.old output.new 0 0 result cached (separation_course (told_for aim)) }

    // What is so of the state that was judged.
    ensures judged { is_finished result ≡ true → IfSome (S.held input.old) (λ bytes.
        HasJudged (TellsOf aim result) (judged bytes)) }

    // How many slots are read.
    ensures fetched { IfSome (S.held input.old) (λ bytes.
        Fetches fetches.old fetches.new result (input_slots aim bytes)) }
    ensures wanting { result ≡ Exit.OutOfMemory →
        WantsFor aim (S.held input.old) (S.held input.new) fetches.old fetches.new }
{
    let mut lines = LineReader::new();
    let listing = match read_head(alloc, &mut lines, input, output) {
        Ok(listing) => listing,
        Err(exit) => return exit,
    };
    let Ok(mut machine) = boot(alloc, &listing, Plain::new()) else {
        return Exit::OutOfMemory;
    };
    let Ok(mut policy) = Policy::new(alloc, listing.sizes()) else {
        return Exit::OutOfMemory;
    };
    judge_lines(
        alloc,
        aim,
        &mut machine,
        &mut policy,
        &mut lines,
        input,
        output,
        fetches,
    )
}

/// Reads the lines of a policy and of a schedule, and judges the machine behind them, or tells why they ended before.
fn judge_lines<T: PageTranslator, S: Source, K: Sink, L: Ledger>(
    alloc: Global,
    aim: Aim,
    machine: &mut Machine<T>,
    policy: &mut Policy,
    lines: &mut LineReader,
    input: &mut S,
    output: &mut K,
    fetches: &mut Steps<L>,
) -> Exit
    requires reader { lines.old.failed ≡ false }
    requires told { TellsEnd lines.old (S.held input.old) }
    ensures course { let m = machine.old in
        TakesLines S.held S.faults K.taken K.faults lines.old lines.new
        input.old input.new output.old output.new 0 0 result cached (λ parts.
        ends_in (stated_output (told_for aim) (state_of m) m.objects.harts
        (stated policy.old lines.old.number parts))) }
    ensures judged { let m = machine.old in is_finished result ≡ true →
        OnParts (ahead lines.old (S.held input.old)) (λ parts. HasJudged (TellsOf aim result)
        (judged_by (state_of m) m.objects.harts (stated policy.old lines.old.number parts))) }
    ensures fetched { let m = machine.old in
        OnParts (ahead lines.old (S.held input.old))
        (λ parts. Fetches fetches.old fetches.new result
        (stated_slots (λ touches. spent T.cost T.after T.without (T.kept m.translator) touches)
        (judged_slots aim)
        (state_of m) m.objects.harts (stated policy.old lines.old.number parts))) }
    ensures end { result ≡ Exit.OutOfMemory → IsAtEnd (S.held input.new) }
    ensures wanting { let m = machine.old in result ≡ Exit.OutOfMemory →
        OnParts (ahead lines.old (S.held input.old)) (λ parts.
        LacksStated (λ touches. spent T.cost T.after T.without (T.kept m.translator) touches) aim
        (state_of m) m.objects.harts (stated policy.old lines.old.number parts) fetches.old fetches.new) }
{
    let stop = read_policies(lines, input, policy);
    match policy_exit(stop) {
        None => judge(alloc, aim, machine, policy, lines, input, output, fetches),
        Some(exit) => conclude(exit, output),
    }
}

/// The exit of the lines of a policy, or `None` where that is over.
fn policy_exit(stop: Stop<PolicyFault>) -> Option<Exit>
    ensures { result ≡ stop_exit PolicyRefused stop }
{
    match stop {
        Stop::End => None,
        Stop::Refused { line, fault } => Some(Exit::PolicyRefused { line, fault }),
        Stop::TooLong => Some(Exit::TooLong),
        Stop::ReadFault => Some(Exit::ReadFault),
    }
}
