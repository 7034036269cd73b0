//! Looking up the numbers of a machine's parts.
ghost use Rattle.std.specs.Prelude.{◌≡◌, ◌+◌, ◌<◌, ◌≤◌, map, length, ◌↔◌, IfOk, IsTrue};
ghost use Rattle.object_store.specs.declared.sizes.Sizes.{Sizes};
ghost use Rattle.object_store.specs.Sizes.{size_in};
ghost use Rattle.object_store.specs.Store.{size_of, sizes_of};
ghost use Rattle.object_store.specs.Object.{object_name, IsAmong};
ghost use Rattle.object_store.specs.Saved.{AreThere, slots_copied};
ghost use Rattle.machine_state.specs.Taking.{name_of, names_of, slots_taken};
ghost use Rattle.object_parts.specs.Live.{live_store};
ghost use Rattle.object_parts.specs.Objects.{object_in};
ghost use Rattle.object_parts.specs.Table.{Grows};
ghost use Rattle.state_parts.specs.Keys.{in_order, objects_of, Reads};
ghost use Rattle.state_parts.specs.Looking.{AreKnown, IsPut, ReadsLive, AreRanged};
ghost use Rattle.state_parts.specs.Marking.{HaveCounts};

use crate::key::copy_numbers;
use crate::names::place_of;
use cap_format::OutOfMemory;
use machine_state::Name;
use object_parts::{Part, Table, number_of_part};
use object_store::{Objects, Sizes};
use std::alloc::Global;
use std::sync::ledger::Ledger;
use steps::Steps;

/// The numbers of all objects' parts, in the order of their names. Only the parts of the named objects are made anew; the
/// others have the numbers that are given.
pub(crate) fn look<L: Ledger>(
    alloc: Global,
    table: &mut Table<Part>,
    objects: &Objects,
    changed: &[Name],
    numbers: &[u32],
    fetches: &mut Steps<L>,
) -> Result<Vec<u32>, OutOfMemory>
    requires there { AreThere objects.now (names_of changed.now) }
    requires many { length numbers.now ≡ length (in_order (sizes_of objects.now)) }
    requires known { AreKnown (map object_in table.old) (live_store objects.now)
        (names_of changed.now)
        (in_order (sizes_of objects.now)) numbers.now }
    ensures grows { Grows (map object_in table.old) (map object_in table.new) }
    ensures reads { let names = in_order (sizes_of objects.now) in IfOk result (λ found.
        Reads (map object_in table.new) found.items (objects_of names (live_store objects.now))) }
    ensures ranged { let names = in_order (sizes_of objects.now) in IfOk result (λ found.
        AreRanged (objects_of names (live_store objects.now))) }
    ensures least { fetches.old ≤ fetches.new }
    ensures most { fetches.new ≤ fetches.old + slots_taken (names_of changed.now) }
{
    let mut found = copy_numbers(alloc, numbers)?;
    let sizes = objects.sizes();
    'each: for i in 0..changed.len() {
        let number = new_look(alloc, table, objects, changed[i], fetches)?;
        put_number(&mut found, sizes, changed[i], number);
    }
    Ok(found)
}

/// Writes a number at the place of a name.
fn put_number(numbers: &mut Vec<u32>, sizes: Sizes, name: Name, number: u32)
    requires many { length numbers.old.items ≡ length (in_order sizes) }
    requires there { name.number < size_in sizes name.kind }
    ensures { IsPut (in_order sizes) (name_of name) number numbers.old.items numbers.new.items }
{
    let place = place_of(sizes, name);
    numbers[place] = number;
}

/// The numbers of all objects' parts, in the order of their names, each made anew.
pub(crate) fn look_anew<L: Ledger>(
    alloc: Global,
    table: &mut Table<Part>,
    objects: &Objects,
    names: &[Name],
    fetches: &mut Steps<L>,
) -> Result<Vec<u32>, OutOfMemory>
    requires there { AreThere objects.now (names_of names.now) }
    ensures grows { Grows (map object_in table.old) (map object_in table.new) }
    ensures reads { IfOk result (λ found.
        Reads (map object_in table.new) found.items
        (objects_of (names_of names.now) (live_store objects.now))) }
    ensures ranged { IfOk result (λ found.
        AreRanged (objects_of (names_of names.now) (live_store objects.now))) }
    ensures least { fetches.old ≤ fetches.new }
    ensures most { fetches.new ≤ fetches.old + slots_taken (names_of names.now) }
{
    let mut found = Vec::with_capacity(alloc, names.len())?;
    for i in 0..names.len() {
        let number = new_look(alloc, table, objects, names[i], fetches)?;
        found.push(number)?;
    }
    Ok(found)
}

/// The number of one object's part, which is looked up anew.
fn new_look<L: Ledger>(
    alloc: Global,
    table: &mut Table<Part>,
    objects: &Objects,
    name: Name,
    fetches: &mut Steps<L>,
) -> Result<u32, OutOfMemory>
    requires { name.number < size_of objects.now.items name.kind }
    ensures grows { Grows (map object_in table.old) (map object_in table.new) }
    ensures reads { IfOk result (λ found.
        ReadsLive (map object_in table.new) (live_store objects.now)
        (object_name name.kind name.number) found) }
    ensures counted { fetches.new ≡ fetches.old + slots_copied name.kind }
{
    number_of_part(alloc, table, objects, name.kind, name.number, fetches)
}

/// Whether a name is among these.
#[tactic(auto, using(crate::proofs::Marked::named_by))]
pub(crate) fn is_named(names: &[Name], name: Name) -> bool
    ensures { IsTrue result ↔ IsAmong name.kind name.number (names_of names.now) }
{
    for i in 0..names.len() {
        if names[i].kind == name.kind && names[i].number == name.number {
            return true;
        }
    }
    false
}

/// Whether each of these objects has the same count in both.
pub(crate) fn counts_same(a: &Objects, b: &Objects, names: &[Name]) -> bool
    requires here { AreThere a.now (names_of names.now) }
    requires there { AreThere b.now (names_of names.now) }
    ensures { IsTrue result → HaveCounts a.now b.now (names_of names.now) }
{
    'each: for i in 0..names.len() {
        let name = names[i];
        if a.count(name.kind, name.number) != b.count(name.kind, name.number) {
            return false;
        }
    }
    true
}
