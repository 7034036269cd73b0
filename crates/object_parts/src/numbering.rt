//! The numbers of objects' parts.
ghost use Rattle.std.specs.Prelude.{◌≡◌, ◌+◌, ◌<◌, map, slice_get, Some, IfOk, OnOk, IfSome, IsSome};
ghost use Rattle.cap_format.specs.declared.kind.CapKind.{CapKind};
ghost use Rattle.object_store.specs.Store.{size_of};
ghost use Rattle.object_store.specs.Object.{object_at};
ghost use Rattle.object_store.specs.Saved.{slots_copied};
ghost use Rattle.object_parts.specs.Live.{live_store, IsInRanges};
ghost use Rattle.object_parts.specs.Objects.{object_in};
ghost use Rattle.object_parts.specs.Table.{Grows};

use crate::count::Count;
use crate::making::part_of;
use crate::part::Part;
use crate::table::Table;
use crate::there::{PageThere, ProcessThere};
use cap_format::{CapKind, OutOfMemory};
use object_store::Objects;
use std::alloc::Global;
use std::sync::ledger::Ledger;
use steps::Steps;

/// The number of an object's part, with Null in place of each dead capability. A process or a page whose part is in the
/// table is not copied. It reads each slot of a GPT once, whether its part is known or not, and of any other object none.
pub fn number_of_part<L: Ledger>(
    alloc: Global,
    table: &mut Table<Part>,
    objects: &Objects,
    kind: CapKind,
    number: u16,
    fetches: &mut Steps<L>,
) -> Result<u32, OutOfMemory>
    requires { number < size_of objects.now.items kind }
    ensures grows { Grows (map object_in table.old) (map object_in table.new) }
    ensures value { IfOk result (λ found.
        slice_get (map object_in table.new) found
        ≡ Some (object_at (live_store objects.now) kind number)) }
    ensures ranged { OnOk result (IsInRanges (object_at (live_store objects.now) kind number)) }
    ensures counted { fetches.new ≡ fetches.old + slots_copied kind }
{
    if let Some(found) = known_number(table, objects, kind, number) {
        return Ok(found);
    }
    let part = part_of(alloc, objects, kind, number, fetches)?;
    table.number(part)
}

/// The number of an object's part, where it is found without a copy.
fn known_number(table: &Table<Part>, objects: &Objects, kind: CapKind, number: u16) -> Option<u32>
    requires { number < size_of objects.now.items kind }
    ensures value { IfSome result (λ found.
        slice_get (map object_in table.now) found
        ≡ Some (object_at (live_store objects.now) kind number)) }
    ensures ranged { IsSome result → IsInRanges (object_at (live_store objects.now) kind number) }
    ensures copied { IsSome result → slots_copied kind ≡ 0 }
{
    match kind {
        CapKind::Page => known_page(table, objects, number),
        CapKind::Process => known_process(table, objects, number),
        _ => None,
    }
}

fn known_page(table: &Table<Part>, objects: &Objects, n: u16) -> Option<u32>
    requires { n < size_of objects.now.items CapKind.Page }
    ensures value { IfSome result (λ found.
        slice_get (map object_in table.now) found
        ≡ Some (object_at (live_store objects.now) CapKind.Page n)) }
    ensures ranged { IsSome result → IsInRanges (object_at (live_store objects.now) CapKind.Page n) }
{
    let there = PageThere {
        count: Count {
            value: objects.count(CapKind::Page, n),
        },
        page: objects.page(n),
    };
    let (found, part) = table.find(&there)?;
    part.tell_range();
    Some(found)
}

fn known_process(table: &Table<Part>, objects: &Objects, n: u16) -> Option<u32>
    requires { n < size_of objects.now.items CapKind.Process }
    ensures value { IfSome result (λ found.
        slice_get (map object_in table.now) found
        ≡ Some (object_at (live_store objects.now) CapKind.Process n)) }
    ensures ranged { IsSome result → IsInRanges
        (object_at (live_store objects.now) CapKind.Process n) }
{
    let there = ProcessThere {
        count: Count {
            value: objects.count(CapKind::Process, n),
        },
        process: objects.process(n),
        objects,
    };
    let (found, part) = table.find(&there)?;
    part.tell_range();
    Some(found)
}
