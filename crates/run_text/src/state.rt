//! The state of a machine as lines.
ghost use Rattle.std.specs.Prelude.{◌≡◌, ◌≤◌, ◌+◌, ◌*◌, length, OnOk};
ghost use Rattle.cap_format.specs.declared.kind.CapKind.TheVariants.{Gpt, Process};
ghost use Rattle.coy_io.specs.Causes.{HasCause};
ghost use Rattle.object_store.specs.Store.{size_of};
ghost use Rattle.machine_state.specs.State.{state_of};
ghost use Rattle.run_text.specs.State.{standing_text, halted_text, front_text, state_text};
ghost use Rattle.coy_io.specs.Written.{Writes, WroteTo};

use crate::objects::put_objects;
use crate::standing::{put_harts, put_ready, put_sleepers};
use coy_io::{Sink, WriteFault, put_text};
use coy_text::LineBuf;
use machine_state::Machine;
use object_store::Sizes;
use schedules::Queues;
use std::sync::ledger::Ledger;
use steps::Steps;
use walk_engine::Translator;

/// Writes the state of a machine: who stands where, then every object that is not empty. Each slot of a GPT is read
/// once. After a fault a front part of it was written.
#[tactic(auto, unfolding(crate::specs::State::state_text))]
pub fn dump<T: Translator, K: Sink, L: Ledger>(
    machine: &Machine<T>,
    output: &mut K,
    fetches: &mut Steps<L>,
) -> Result<(), WriteFault>
    ensures text { Writes (K.taken output.old) (K.taken output.new) result
        (state_text (state_of machine.now)) }
    ensures cause { HasCause (K.faults output.old) (K.faults output.new) result }
    ensures counted { OnOk result
        (fetches.new ≡ fetches.old + 16 * size_of machine.now.objects.items Gpt) }
    ensures most { fetches.new ≤ fetches.old + 16 * size_of machine.now.objects.items Gpt }
{
    let mut line = LineBuf::new();
    put_front_of(machine, &mut line, output)?;
    put_objects(machine.objects(), &mut line, output, fetches)?;
    put_text("end\n", output)
}

/// Writes what stands before the objects of a machine.
fn put_front_of<T: Translator, K: Sink>(
    machine: &Machine<T>,
    line: &mut LineBuf,
    output: &mut K,
) -> Result<(), WriteFault>
    ensures { WroteTo K.taken K.faults output.old output.new result
        (let m = machine.now in
        front_text m.objects.harts (size_of m.objects.items Process) m.queues m.halted) }
{
    let sizes = machine.objects().sizes();
    put_front(machine.queues(), sizes, machine.halted(), line, output)
}

/// Writes what stands before the objects, of queues of these sizes. Each of its lines is made in `line` first.
#[tactic(auto, unfolding(crate::specs::State::front_text))]
pub fn put_front<K: Sink>(
    queues: &Queues,
    sizes: Sizes,
    halted: bool,
    line: &mut LineBuf,
    output: &mut K,
) -> Result<(), WriteFault>
    requires harts { sizes.harts ≤ length queues.now.harts }
    requires processes { sizes.processes ≤ length queues.now.sleepers }
    ensures { WroteTo K.taken K.faults output.old output.new result
        (front_text sizes.harts sizes.processes queues.now halted) }
{
    put_text("state\n", output)?;
    put_standing(queues, sizes, line, output)?;
    put_halted(halted, output)
}

/// Writes who stands where in queues of these sizes.
#[tactic(auto, unfolding(crate::specs::State::standing_text))]
fn put_standing<K: Sink>(
    queues: &Queues,
    sizes: Sizes,
    line: &mut LineBuf,
    output: &mut K,
) -> Result<(), WriteFault>
    requires harts { sizes.harts ≤ length queues.now.harts }
    requires processes { sizes.processes ≤ length queues.now.sleepers }
    ensures { WroteTo K.taken K.faults output.old output.new result
        (standing_text sizes.harts sizes.processes queues.now) }
{
    put_harts(queues, sizes.harts, line, output)?;
    put_ready(queues, line, output)?;
    put_sleepers(queues, sizes.processes, line, output)
}

/// Writes whether a machine is halted.
fn put_halted<K: Sink>(halted: bool, output: &mut K) -> Result<(), WriteFault>
    ensures { WroteTo K.taken K.faults output.old output.new result (halted_text halted) }
{
    put_text(if halted { "halted\n" } else { "" }, output)
}
