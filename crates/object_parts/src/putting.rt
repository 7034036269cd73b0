//! Putting parts in place of objects.
ghost use Rattle.std.specs.Prelude.{◌≡◌, ◌<◌, ◌≤◌, length};
ghost use Rattle.cap_format.specs.declared.kind.CapKind.{CapKind};
ghost use Rattle.object_store.specs.Store.{size_of, set_count, set_gpt, with_items};
ghost use Rattle.object_store.specs.Object.{with_object};
ghost use Rattle.object_parts.specs.Objects.{object_in, kind_in};

use crate::part::Part;
use crate::slots::Slots;
use cap_format::CapKind;
use object_store::Objects;

/// Puts a part, count and record, in place of object `n` of its kind.
pub fn put_part(objects: &mut Objects, n: u16, part: &Part)
    requires { n < size_of objects.old.items (kind_in part.now) }
    ensures { objects.new ≡ with_object objects.old n (object_in part.now) }
{
    match part {
        Part::Page { count, page } => {
            objects.set_count(CapKind::Page, n, count.value);
            objects.page_mut(n).copy_from(page);
        }
        Part::CapPage { count, page } => {
            objects.set_count(CapKind::CapPage, n, count.value);
            objects.cappage_mut(n).copy_from(page);
        }
        Part::Gpt { count, gpt } => {
            objects.set_count(CapKind::Gpt, n, count.value);
            put_gpt(objects, n, gpt);
        }
        Part::Process { count, process } => {
            objects.set_count(CapKind::Process, n, count.value);
            objects.process_mut(n).copy_from(process);
        }
        Part::Endpoint { count, endpoint } => {
            objects.set_count(CapKind::Endpoint, n, count.value);
            objects.endpoint_mut(n).copy_from(endpoint);
        }
    }
}

fn put_gpt(objects: &mut Objects, n: u16, gpt: &Slots)
    requires { n < size_of objects.old.items CapKind.Gpt }
    ensures { objects.new ≡ with_items objects.old (set_gpt objects.old.items n gpt.now) }
{
    objects.in_ranges();
    let _header = objects.set_gpt_header(n, gpt.header());
    for i in 0..16 {
        let _slot = objects.set_gpt_slot(n, i, gpt.slot(i));
    }
}
