//! Going from one state to another.
ghost use Rattle.std.specs.Prelude.{◌≡◌, ◌<◌, ◌++◌, ◌∷◌, [], List, length, map, slice_get, Some, IfOk, OnOk, OnErr};
ghost use Rattle.object_store.specs.Store.{Store, size_of, sizes_of};
ghost use Rattle.object_store.specs.Object.{ObjectName, ObjectValue, object_name, with_object, object_at, IsEven};
ghost use Rattle.object_store.specs.Saved.{AreThere};
ghost use Rattle.machine_state.specs.Taking.{names_of};
ghost use Rattle.object_parts.specs.Objects.{object_in, kind_in};
ghost use Rattle.state_parts.specs.Keys.{AreAll, in_order, objects_of, values_of, Reads, store_by};
ghost use Rattle.state_parts.specs.Looking.{AreMarked, IsMarked, IsMore, IsTarget, kind_of};

use crate::key::same_numbers;
use crate::marking::mark_name;
use crate::names::place_of;
use cap_format::OutOfMemory;
use machine_state::Name;
use object_parts::{Part, Table, put_part};
use object_store::Objects;

/// Marks the names whose numbers differ. Where memory is wanting some are marked.
fn mark(marked: &mut Vec<Name>, names: &[Name], old: &[u32], new: &[u32]) -> Result<(), OutOfMemory>
    requires here { length old.now ≡ length names.now }
    requires there { length new.now ≡ length names.now }
    ensures grows { IsMore (names_of names.now) (names_of marked.old.items)
        (names_of marked.new.items) }
    ensures each { OnOk result (AreMarked (length names.now) (names_of names.now) old.now new.now
        (names_of marked.new.items)) }
{
    for i in 0..names.len() {
        mark_one(marked, names[i], old[i], new[i])?;
    }
    Ok(())
}

/// Marks a name, if its numbers differ.
fn mark_one(marked: &mut Vec<Name>, name: Name, old: u32, new: u32) -> Result<(), OutOfMemory>
    ensures grows { IsMore (object_name name.kind name.number ∷ []) (names_of marked.old.items)
        (names_of marked.new.items) }
    ensures marks { OnOk result (IsMarked (object_name name.kind name.number) old new
        (names_of marked.new.items)) }
{
    if old == new {
        return Ok(());
    }
    mark_name(marked, name)?;
    Ok(())
}

/// Adds all names to those that are marked. Where memory is wanting some are added.
pub(crate) fn mark_all(marked: &mut Vec<Name>, names: &[Name]) -> Result<(), OutOfMemory>
    ensures { OnOk result (marked.new.items ≡ marked.old.items ++ names.now) }
{
    for i in 0..names.len() {
        marked.push(names[i])?;
    }
    Ok(())
}

/// Brings objects to others, by their numbers, and marks those whose numbers differ. Where memory is wanting the objects stay,
/// and some are marked. Nothing is done where all numbers are the same: so it is where one state's choices are tried one
/// after the other.
pub(crate) fn bring_all(
    marked: &mut Vec<Name>,
    objects: &mut Objects,
    table: &Table<Part>,
    names: &[Name],
    old: &[u32],
    new: &[u32],
) -> Result<(), OutOfMemory>
    requires all { AreAll (sizes_of objects.old) (names_of names.now) }
    requires known { AreThere objects.old (names_of marked.old.items) }
    requires here { length old.now ≡ length names.now }
    requires there { length new.now ≡ length names.now }
    requires old { Reads (map object_in table.now) old.now
        (objects_of (names_of names.now) objects.old) }
    requires new { let target = store_by (sizes_of objects.old) (names_of names.now)
        (values_of (map object_in table.now) new.now) in
        IsTarget (map object_in table.now) (names_of names.now) new.now (sizes_of objects.old) target }
    ensures grows { IsMore (names_of names.now) (names_of marked.old.items)
        (names_of marked.new.items) }
    ensures each { OnOk result (AreMarked (length names.now) (names_of names.now) old.now new.now
        (names_of marked.new.items)) }
    ensures objects { OnOk result (objects.new
        ≡ store_by (sizes_of objects.old) (names_of names.now)
        (values_of (map object_in table.now) new.now)) }
    ensures err { OnErr result (objects.new ≡ objects.old) }
{
    // Sizes that are read tell that there are as many objects as counts.
    let _sizes = objects.sizes();
    if same_numbers(old, new) {
        return Ok(());
    }
    mark(marked, names, old, new)?;
    bring(objects, table, marked.as_slice(), old, new);
    Ok(())
}

/// Puts the parts in place of the objects whose numbers differ, all of which are marked.
fn bring(objects: &mut Objects, table: &Table<Part>, marked: &[Name], old: &[u32], new: &[u32])
    requires there { AreThere objects.old (names_of marked.now) }
    requires old { Reads (map object_in table.now) old.now
        (objects_of (in_order (sizes_of objects.old)) objects.old) }
    requires new { let names = in_order (sizes_of objects.old) in
        let values = values_of (map object_in table.now) new.now in
        IsTarget (map object_in table.now) names new.now (sizes_of objects.old)
        (store_by (sizes_of objects.old) names values) }
    requires marked { let names = in_order (sizes_of objects.old) in
        AreMarked (length names) names old.now new.now (names_of marked.now) }
    ensures { let names = in_order (sizes_of objects.old) in
        let values = values_of (map object_in table.now) new.now in
        objects.new ≡ store_by (sizes_of objects.old) names values }
{
    let sizes = objects.sizes();
    'each: for i in 0..marked.len() {
        let place = place_of(sizes, marked[i]);
        bring_one(objects, table, marked[i], old[place], new[place]);
    }
}

/// Puts a part in place of an object, if its number differs.
fn bring_one(objects: &mut Objects, table: &Table<Part>, name: Name, old: u32, new: u32)
    requires there { name.number < size_of objects.old.items name.kind }
    requires inside { new < length table.now }
    requires kind { (x : ObjectValue) → slice_get (map object_in table.now) new ≡ Some x
        → kind_of x ≡ name.kind }
    ensures same { old ≡ new → objects.new ≡ objects.old }
    ensures put { (old ≡ new → ⊥) → (x : ObjectValue)
        → slice_get (map object_in table.now) new ≡ Some x →
        objects.new ≡ with_object objects.old name.number x }
{
    if old == new {
        return;
    }
    put_part(objects, name.number, table.get(new));
}
