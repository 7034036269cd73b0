//! The entries of the mapping cache, behind the last state.
ghost use Rattle.std.specs.Prelude.{◌≡◌, ◌≤◌, ◌+◌, ◌*◌, OnOk};
ghost use Rattle.cap_format.specs.declared.kind.CapKind.TheVariants.{Gpt};
ghost use Rattle.object_store.specs.Store.{size_of};
ghost use Rattle.kernel_core.specs.State.{state_of};
ghost use Rattle.map_cache.specs.Cache.{kept_of};
ghost use Rattle.map_cache.specs.Mappings.{mappings_of};
ghost use Rattle.coy_io.specs.Causes.{HasCause};
ghost use Rattle.coy_io.specs.Written.{Writes};
ghost use Rattle.schedule_commands.specs.Finished.{tables_text};
ghost use Rattle.courses.specs.Ending.{EndsIn, Fetches};
ghost use Rattle.schedule_commands.specs.Tables.{TellsEntries, entry_text, entries_text};

use courses::Exit;
use coy_io::{Sink, WriteFault, put_all};
use coy_text::LineBuf;
use kernel_core::Machine;
use map_cache::{MapCache, Mapping, MappingPlace};
use run_text::{dump, mapping_line};
use std::sync::ledger::Ledger;
use steps::Steps;

/// Writes the last state, and a line for each entry of the mapping cache.
pub(crate) fn tables<K: Sink, L: Ledger>(
    machine: &Machine<MapCache>,
    output: &mut K,
    fetches: &mut Steps<L>,
) -> Exit
    ensures ends { let text = tables_text (state_of machine.now) (kept_of machine.now.translator) in
        EndsIn K.taken K.faults output.old output.new result (record { text = text; exit = Exit.Done }) }
    ensures fetched { let all = 16 * size_of (state_of machine.now).store.items Gpt in
        Fetches fetches.old fetches.new result all }
{
    match put_tables(machine, output, fetches) {
        Ok(()) => Exit::Done,
        Err(_) => Exit::WriteFault,
    }
}

/// Writes the last state and the lines of the entries, as far as writing comes.
fn put_tables<K: Sink, L: Ledger>(
    machine: &Machine<MapCache>,
    output: &mut K,
    fetches: &mut Steps<L>,
) -> Result<(), WriteFault>
    ensures text { let text = tables_text (state_of machine.now) (kept_of machine.now.translator) in
        Writes (K.taken output.old) (K.taken output.new) result text }
    ensures cause { HasCause (K.faults output.old) (K.faults output.new) result }
    ensures counted { let all = 16 * size_of (state_of machine.now).store.items Gpt in
        OnOk result (fetches.new ≡ fetches.old + all) }
    ensures most { let all = 16 * size_of (state_of machine.now).store.items Gpt in
        fetches.new ≤ fetches.old + all }
{
    tell_entries(machine);
    dump(machine, output, fetches)?;
    put_entries(machine.translator(), output)
}

/// Does nothing: its contract tells what the entries of a machine's cache are.
pub(crate) fn tell_entries(machine: &Machine<MapCache>)
    ensures { TellsEntries machine.now.translator (state_of machine.now).store.items }
{
    machine.tell_kept();
    machine.translator().listed();
}

/// Writes the lines of the entries of a cache, from each to the next.
fn put_entries<K: Sink>(cache: &MapCache, output: &mut K) -> Result<(), WriteFault>
    ensures text { Writes (K.taken output.old) (K.taken output.new) result
        (entries_text (mappings_of cache.now)) }
    ensures cause { HasCause (K.faults output.old) (K.faults output.new) result }
{
    let mut place = MappingPlace::start();
    'entries: loop {
        match cache.mapping_at(place) {
            Some((mapping, behind)) => {
                put_entry(mapping, output)?;
                place = behind;
            }
            None => return Ok(()),
        }
    }
}

/// Writes the line of an entry.
fn put_entry<K: Sink>(mapping: Mapping, output: &mut K) -> Result<(), WriteFault>
    ensures text { Writes (K.taken output.old) (K.taken output.new) result (entry_text mapping) }
    ensures cause { HasCause (K.faults output.old) (K.faults output.new) result }
{
    let mut line = LineBuf::new();
    mapping_line(
        mapping.space,
        mapping.va,
        mapping.page,
        mapping.write,
        mapping.execute,
        &mut line,
    );
    put_all(output, line.as_bytes())
}
