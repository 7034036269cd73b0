//! What is written last: how many events were undone, and the state before them.
ghost use Rattle.std.specs.Prelude.{◌≡◌, ◌≤◌, ◌+◌, ◌*◌, OnOk};
ghost use Rattle.cap_format.specs.declared.kind.CapKind.TheVariants.{Gpt};
ghost use Rattle.coy_io.specs.Causes.{HasCause};
ghost use Rattle.object_store.specs.Store.{size_of};
ghost use Rattle.kernel_core.specs.State.{state_of};
ghost use Rattle.coy_io.specs.Written.{Writes};
ghost use Rattle.courses.specs.Ending.{EndsIn, Fetches};
ghost use Rattle.back_command.specs.Back.{back_text, count_text};

use courses::Exit;
use coy_io::{Sink, WriteFault, put_all};
use coy_text::LineBuf;
use kernel_core::Machine;
use run_text::dump;
use std::sync::ledger::Ledger;
use steps::Steps;
use walk_engine::Translator;

/// Writes how many events were undone, and the state of the machine.
pub(crate) fn tell_state<T: Translator, K: Sink, L: Ledger>(
    count: u16,
    machine: &Machine<T>,
    output: &mut K,
    fetches: &mut Steps<L>,
) -> Exit
    ensures ends { let text = back_text count (state_of machine.now) in
        EndsIn K.taken K.faults output.old output.new result (record { text = text; exit = Exit.Done }) }
    ensures fetched { let all = 16 * size_of (state_of machine.now).store.items Gpt in
        Fetches fetches.old fetches.new result all }
{
    match put_state(count, machine, output, fetches) {
        Ok(()) => Exit::Done,
        Err(_) => Exit::WriteFault,
    }
}

/// Writes both as far as writing comes.
fn put_state<T: Translator, K: Sink, L: Ledger>(
    count: u16,
    machine: &Machine<T>,
    output: &mut K,
    fetches: &mut Steps<L>,
) -> Result<(), WriteFault>
    ensures text { let text = back_text count (state_of machine.now) in
        Writes (K.taken output.old) (K.taken output.new) result text }
    ensures cause { HasCause (K.faults output.old) (K.faults output.new) result }
    ensures counted { OnOk result
        (fetches.new ≡ fetches.old + 16 * size_of machine.now.objects.items Gpt) }
    ensures most { fetches.new ≤ fetches.old + 16 * size_of machine.now.objects.items Gpt }
{
    put_count(count, output)?;
    dump(machine, output, fetches)
}

/// Writes how many events were undone.
#[tactic(auto, unfolding(crate::specs::Back::count_text), using(coy_text::proofs::NumeralLaws::length_decimal))]
fn put_count<K: Sink>(count: u16, output: &mut K) -> Result<(), WriteFault>
    ensures text { Writes (K.taken output.old) (K.taken output.new) result (count_text count) }
    ensures cause { HasCause (K.faults output.old) (K.faults output.new) result }
{
    let mut line = LineBuf::new();
    line.push_word("back ");
    line.push_dec(count as u64);
    line.push_word("\n");
    put_all(output, line.as_bytes())
}
