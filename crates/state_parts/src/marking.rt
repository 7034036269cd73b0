//! Marking what an event may change, before it is performed.
ghost use Rattle.std.specs.Prelude.{◌≡◌, ◌+◌, ◌<◌, ◌≤◌, ◌∷◌, [], ℕ, IsTrue, IfOk, OnOk};
ghost use Rattle.cap_format.specs.declared.kind.CapKind.TheVariants.{Page, Process};
ghost use Rattle.object_store.specs.Store.{size_of};
ghost use Rattle.object_store.specs.Object.{object_name, IsAmong};
ghost use Rattle.string_move.specs.Move.{page_names};
ghost use Rattle.machine_state.specs.Machine.{hart_in};
ghost use Rattle.machine_state.specs.State.{state_of};
ghost use Rattle.machine_state.specs.Outcome.{names_on};
ghost use Rattle.machine_state.specs.Taking.{names_of};
ghost use Rattle.kernel_core.specs.Event.{event_of};
ghost use Rattle.event_reach.specs.Looked.{Looked};
ghost use Rattle.event_reach.specs.Plain.{plain_names, IsThere};
ghost use Rattle.event_reach.specs.Reach.{names_of as reached_names};
ghost use Rattle.state_parts.specs.Looking.{HasAll, IsMore};
ghost use Rattle.state_parts.specs.Marking.{AddsThere, HasProcesses, HasThere, StandsStill};
ghost use Rattle.state_parts.specs.Slots.{a_look};

use crate::look::is_named;
use cap_format::{CapKind, OutOfMemory};
use event_reach::{PlainInsn, Reach, plain_of_event, reach_of_event};
use machine_state::{Event, Machine, Name};
use map_cache::MapCache;
use object_store::Objects;
use std::sync::ledger::Ledger;
use steps::Steps;
use string_move::Pieces;

/// Marks all that an event may change, before it is performed, and tells whether the queues and the harts are sure to stay.
/// Where memory is wanting some is marked.
///
/// A plain instruction changes its process and the page of its store, and a tick the process of its hart; any other step may
/// change every process, and what is reached by it.
pub(crate) fn mark_event<L: Ledger>(
    machine: &mut Machine<MapCache>,
    event: Event,
    marked: &mut Vec<Name>,
    fetches: &mut Steps<L>,
) -> Result<bool, OutOfMemory>
    requires { hart_in event < machine.old.objects.harts }
    ensures state { state_of machine.new ≡ state_of machine.old }
    ensures objects { machine.new.objects ≡ machine.old.objects }
    ensures queues { machine.new.queues ≡ machine.old.queues }
    ensures adds { AddsThere machine.old.objects (names_of marked.old.items)
        (names_of marked.new.items) }
    ensures has { let changed = (event_of (state_of machine.old) event).changed in
        OnOk result (HasThere machine.old.objects changed (names_of marked.new.items)) }
    ensures still { let s = state_of machine.old in
        IfOk result (λ still. IsTrue still → StandsStill s (event_of s event).state) }
    ensures least { fetches.old ≤ fetches.new }
    ensures most { fetches.new ≤ fetches.old + a_look }
{
    match plain_of_event(machine, event, fetches) {
        Some(plain) => {
            mark_plain(machine.objects(), plain, marked)?;
            Ok(true)
        }
        None => {
            mark_performers(machine, event, marked)?;
            let reach = reach_of_event(machine, event, fetches);
            mark_reach(machine.objects(), &reach, marked)?;
            Ok(false)
        }
    }
}

/// Marks what a plain instruction changes.
fn mark_plain(
    objects: &Objects,
    plain: PlainInsn,
    marked: &mut Vec<Name>,
) -> Result<(), OutOfMemory>
    requires { IsThere objects.now plain }
    ensures adds { AddsThere objects.now (names_of marked.old.items) (names_of marked.new.items) }
    ensures has { OnOk result (HasThere objects.now (plain_names plain) (names_of marked.new.items)) }
{
    mark_object(objects, CapKind::Process, u32::from(plain.process), marked)?;
    match plain.page {
        None => Ok(()),
        Some(page) => {
            mark_object(objects, CapKind::Page, u32::from(page), marked)?;
            Ok(())
        }
    }
}

/// Marks the processes that an event may change: at a tick that of the hart, at a step all.
fn mark_performers(
    machine: &Machine<MapCache>,
    event: Event,
    marked: &mut Vec<Name>,
) -> Result<(), OutOfMemory>
    requires { hart_in event < machine.now.objects.harts }
    ensures adds { AddsThere machine.now.objects (names_of marked.old.items)
        (names_of marked.new.items) }
    ensures has { let changed = (event_of (state_of machine.now) event).changed in
        OnOk result (HasProcesses machine.now.objects changed (names_of marked.new.items)) }
{
    match event {
        Event::Step(_) => {
            mark_processes(machine.objects(), marked)?;
            Ok(())
        }
        Event::Tick(hart) => {
            mark_on(machine.objects(), machine.on_hart(hart), marked)?;
            Ok(())
        }
    }
}

/// Marks the process of a hart, where it has one.
fn mark_on(objects: &Objects, on: Option<u16>, marked: &mut Vec<Name>) -> Result<(), OutOfMemory>
    ensures adds { AddsThere objects.now (names_of marked.old.items) (names_of marked.new.items) }
    ensures has { OnOk result (HasThere objects.now (names_on on) (names_of marked.new.items)) }
{
    match on {
        Some(p) => mark_object(objects, CapKind::Process, u32::from(p), marked),
        None => Ok(()),
    }
}

/// Marks all processes.
fn mark_processes(objects: &Objects, marked: &mut Vec<Name>) -> Result<(), OutOfMemory>
    ensures adds { AddsThere objects.now (names_of marked.old.items) (names_of marked.new.items) }
    ensures all { OnOk result ((n : ℕ) → n < size_of objects.now.items Process →
        IsAmong Process n (names_of marked.new.items)) }
{
    let processes = objects.sizes().processes;
    'each: for p in 0..processes {
        mark_object(objects, CapKind::Process, u32::from(p), marked)?;
    }
    Ok(())
}

/// Marks what an event reaches besides processes.
fn mark_reach(objects: &Objects, reach: &Reach, marked: &mut Vec<Name>) -> Result<(), OutOfMemory>
    ensures adds { AddsThere objects.now (names_of marked.old.items) (names_of marked.new.items) }
    ensures has { OnOk result (HasThere objects.now (reached_names reach.now)
        (names_of marked.new.items)) }
{
    match reach {
        Reach::Nothing => Ok(()),
        Reach::Object(kind, number) => {
            mark_object(objects, *kind, *number, marked)?;
            Ok(())
        }
        Reach::Message { endpoint, into } => {
            mark_object(objects, CapKind::Endpoint, u32::from(*endpoint), marked)?;
            mark_pages(objects, into, marked)?;
            Ok(())
        }
    }
}

/// Marks the pages of pieces.
fn mark_pages(objects: &Objects, pieces: &Pieces, marked: &mut Vec<Name>) -> Result<(), OutOfMemory>
    ensures adds { AddsThere objects.now (names_of marked.old.items) (names_of marked.new.items) }
    ensures has { OnOk result (HasThere objects.now (page_names pieces.now)
        (names_of marked.new.items)) }
{
    let list = pieces.as_slice();
    'each: for i in 0..list.len() {
        mark_object(objects, CapKind::Page, u32::from(list[i].page), marked)?;
    }
    Ok(())
}

/// Marks an object, if there is one of this number.
pub(crate) fn mark_object(
    objects: &Objects,
    kind: CapKind,
    number: u32,
    marked: &mut Vec<Name>,
) -> Result<(), OutOfMemory>
    ensures adds { AddsThere objects.now (names_of marked.old.items) (names_of marked.new.items) }
    ensures has { OnOk result
        (HasThere objects.now (object_name kind number ∷ []) (names_of marked.new.items)) }
{
    // Sizes that are read tell that a number of an object is small.
    let _sizes = objects.sizes();
    match objects.cap_to(kind, number) {
        Ok(_) => {
            let name = Name {
                kind,
                number: number as u16,
            };
            mark_name(marked, name)?;
            Ok(())
        }
        Err(_) => Ok(()),
    }
}

/// Marks a name, if it isn't marked yet.
pub(crate) fn mark_name(marked: &mut Vec<Name>, name: Name) -> Result<(), OutOfMemory>
    ensures grows { IsMore (object_name name.kind name.number ∷ []) (names_of marked.old.items)
        (names_of marked.new.items) }
    ensures has { OnOk result (HasAll (object_name name.kind name.number ∷ [])
        (names_of marked.new.items)) }
{
    if is_named(marked.as_slice(), name) {
        return Ok(());
    }
    marked.push(name)?;
    Ok(())
}
