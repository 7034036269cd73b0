//! What is told of the least lines with which a policy would hold.
ghost use Rattle.std.specs.Prelude.{◌≡◌, ◌≢◌};
ghost use Rattle.coy_io.specs.Written.{WroteTo};
ghost use Rattle.kernel_core.specs.State.{state_of};
ghost use Rattle.separation_policy.specs.Making.{bare_policy};
ghost use Rattle.policy_lines.specs.Needed.{needed_value};
ghost use Rattle.courses.specs.Ending.{EndsIn, Fetches};
ghost use Rattle.separation_program.specs.Slots.{judged_slots, LacksJudging};
ghost use Rattle.separation_program.specs.Text.{lines_text, told_least, told_needed};
ghost use Rattle.separation_program.specs.Theorem.{TellsOf};

use crate::crossing::tell_crossings;
use crate::unused::{line_at, put_line};
use crate::words::Aim;
use courses::Exit;
use coy_io::{Sink, WriteFault};
use kernel_core::Machine;
use policy_lines::{Needed, Permission, least};
use separation_policy::{Policy, integrity, noninterference};
use std::alloc::Global;
use std::sync::ledger::Ledger;
use steps::Steps;
use walk_engine::Translator;

/// Tells the least lines with which a policy would hold of a machine, or all crossings that no line allows. No line of the
/// policy is left.
pub(crate) fn tell_least<T: Translator, K: Sink, L: Ledger>(
    alloc: Global,
    machine: &Machine<T>,
    policy: &mut Policy,
    output: &mut K,
    fetches: &mut Steps<L>,
) -> Exit
    ensures ends { result ≢ Exit.OutOfMemory → EndsIn K.taken K.faults output.old output.new result
        (told_least policy.old (state_of machine.now)) }
    ensures unwritten { result ≡ Exit.OutOfMemory → output.new ≡ output.old }
    ensures after { policy.new ≡ bare_policy policy.old }
    ensures tells { TellsOf Aim.Least result policy.old (state_of machine.now) }
    ensures fetched { let all = judged_slots Aim.Least policy.old (state_of machine.now) in
        Fetches fetches.old fetches.new result all }
    ensures wanting { result ≡ Exit.OutOfMemory →
        LacksJudging Aim.Least policy.old (state_of machine.now) fetches.old fetches.new }
{
    integrity();
    noninterference();
    let Ok(needed) = least(alloc, machine, policy, fetches) else {
        return Exit::OutOfMemory;
    };
    tell_needed(policy, &needed, output)
}

/// Tells what lines a policy needs.
fn tell_needed<K: Sink>(policy: &Policy, needed: &Needed, output: &mut K) -> Exit
    ensures { EndsIn K.taken K.faults output.old output.new result
        (told_needed policy.now (needed_value needed.now)) }
{
    match needed {
        Needed::Lines(lines) => tell_lines(policy, lines.as_slice(), output),
        Needed::Barred(found) => tell_crossings(policy, found.as_slice(), output),
    }
}

/// Tells these lines.
fn tell_lines<K: Sink>(policy: &Policy, lines: &[Permission], output: &mut K) -> Exit
    ensures { let text = lines_text policy.now lines.now in
        EndsIn K.taken K.faults output.old output.new result (record { text = text; exit = Exit.Done }) }
{
    match put_lines(policy, lines, output) {
        Ok(()) => Exit::Done,
        Err(_) => Exit::WriteFault,
    }
}

/// Writes each of these lines, as it stands in a policy.
fn put_lines<K: Sink>(
    policy: &Policy,
    lines: &[Permission],
    output: &mut K,
) -> Result<(), WriteFault>
    ensures { WroteTo K.taken K.faults output.old output.new result
        (lines_text policy.now lines.now) }
{
    'each: for place in 0..lines.len() {
        put_line(policy, line_at(lines, place), output)?;
    }
    Ok(())
}
