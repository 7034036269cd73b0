//! Objects where they stand in a store, by which a table is asked for their parts.
ghost use Rattle.std.specs.Prelude.{◌≡◌};

use crate::compare::{same_live_processes, same_pages};
use crate::count::Count;
use crate::feeding::{feed_front, feed_page};
use crate::part::Part;
use indexmap::Equivalent;
use object_store::Objects;
use page_store::Page;
use process_objects::Process;
use std::hash::{Hash, Hasher};

/// A process of a store, which stands for its copy with Null in place of each dead capability. Two are equal where the
/// same is hashed of them.
#[derive(Clone, Copy)]
pub(crate) struct ProcessThere<'a> {
    pub(crate) count: Count,
    pub(crate) process: &'a Process,
    pub(crate) objects: &'a Objects,
}

impl<'a> PartialEq for ProcessThere<'a> {
    ghost use Rattle.std.specs.Prelude.{◌∷◌};
    ghost use Rattle.std.specs.Ordering.{on};
    ghost use Rattle.std.specs.Cmp.{decided, on_equiv, partial_equiv_from_equiv};
    ghost use Rattle.object_parts.specs.Same.{same_numbers};
    ghost use Rattle.object_parts.specs.SameLaws.{numbers_decide};

    ghost eq = { on (λ q. q.process.now.pc ∷ q.process.now.regs) same_numbers };

    ghost laws = { partial_equiv_from_equiv (on_equiv (λ q. q.process.now.pc ∷ q.process.now.regs) (decided same_numbers numbers_decide)) };

    fn eq(&self, other: &ProcessThere<'a>) -> bool {
        self.process.pc() == other.process.pc()
            && self.process.registers() == other.process.registers()
    }
}

impl<'a> Eq for ProcessThere<'a> {
    ghost use Rattle.std.specs.Prelude.{◌∷◌};
    ghost use Rattle.std.specs.Cmp.{decided, on_equiv};
    ghost use Rattle.object_parts.specs.Same.{same_numbers};
    ghost use Rattle.object_parts.specs.SameLaws.{numbers_decide};

    ghost laws = { on_equiv (λ q. q.process.now.pc ∷ q.process.now.regs) (decided same_numbers numbers_decide) };
}

impl<'a> Hash for ProcessThere<'a> {
    ghost use Rattle.std.specs.Prelude.{◌∷◌};
    ghost use Rattle.std.specs.Hash.{on_Alike, same_Alike};
    ghost use Rattle.object_parts.specs.SameLaws.{numbers_decide};
    ghost use Rattle.object_parts.specs.There.{hashed_front};

    ghost hash_input = { λ q. hashed_front (q.process.now.pc ∷ q.process.now.regs) };

    ghost respects_eq = { (on_Alike (λ q. q.process.now.pc ∷ q.process.now.regs) (same_Alike hashed_front numbers_decide)).fed };

    fn hash<H: Hasher>(&self, state: &mut H) {
        feed_front(self.process, state);
    }
}

impl<'a> Equivalent<Part> for &ProcessThere<'a> {
    ghost use Rattle.object_store.specs.Object.ObjectValue.{OfProcess};
    ghost use Rattle.object_store.specs.Meaning.{live, process_map};
    ghost use Rattle.object_parts.specs.Same.{same_object};
    ghost use Rattle.object_parts.specs.SameLaws.{stands_hashed, stands_alike};
    ghost use Rattle.object_parts.specs.Objects.{object_in};

    ghost equivalent = { λ q k. same_object (OfProcess q.now.count.value (process_map (live q.now.objects.now.items) q.now.process.now)) (object_in k) };

    ghost respects_hash = { λ q k. stands_hashed (OfProcess q.now.count.value (process_map (live q.now.objects.now.items) q.now.process.now)) (object_in k) };

    ghost respects_eq = { λ q x y. stands_alike (OfProcess q.now.count.value (process_map (live q.now.objects.now.items) q.now.process.now)) (object_in x) (object_in y) };

    fn equivalent(&self, key: &Part) -> bool {
        match key {
            Part::Process { count, process } => self.count.value == count.value
                && same_live_processes(self.objects, self.process, process),
            _ => false,
        }
    }
}

/// A page of a store. Two are equal where the same is hashed of them.
#[derive(Clone, Copy)]
pub(crate) struct PageThere<'a> {
    pub(crate) count: Count,
    pub(crate) page: &'a Page,
}

impl<'a> PartialEq for PageThere<'a> {
    ghost use Rattle.std.specs.Prelude.{◌∷◌};
    ghost use Rattle.std.specs.Ordering.{on};
    ghost use Rattle.std.specs.Cmp.{decided, on_equiv, partial_equiv_from_equiv};
    ghost use Rattle.object_parts.specs.Same.{same_numbers};
    ghost use Rattle.object_parts.specs.SameLaws.{numbers_decide};

    ghost eq = { on (λ q. q.count.value ∷ q.page.now) same_numbers };

    ghost laws = { partial_equiv_from_equiv (on_equiv (λ q. q.count.value ∷ q.page.now) (decided same_numbers numbers_decide)) };

    fn eq(&self, other: &PageThere<'a>) -> bool {
        self.count.value == other.count.value && same_pages(self.page, other.page)
    }
}

impl<'a> Eq for PageThere<'a> {
    ghost use Rattle.std.specs.Prelude.{◌∷◌};
    ghost use Rattle.std.specs.Cmp.{decided, on_equiv};
    ghost use Rattle.object_parts.specs.Same.{same_numbers};
    ghost use Rattle.object_parts.specs.SameLaws.{numbers_decide};

    ghost laws = { on_equiv (λ q. q.count.value ∷ q.page.now) (decided same_numbers numbers_decide) };
}

impl<'a> Hash for PageThere<'a> {
    ghost use Rattle.std.specs.Prelude.{◌∷◌};
    ghost use Rattle.std.specs.Hash.{on_Alike, same_Alike};
    ghost use Rattle.object_parts.specs.SameLaws.{numbers_decide};
    ghost use Rattle.object_parts.specs.There.{hashed_bytes};

    ghost hash_input = { λ q. hashed_bytes (q.count.value ∷ q.page.now) };

    ghost respects_eq = { (on_Alike (λ q. q.count.value ∷ q.page.now) (same_Alike hashed_bytes numbers_decide)).fed };

    fn hash<H: Hasher>(&self, state: &mut H) {
        feed_page(self.count.value, self.page, state);
    }
}

impl<'a> Equivalent<Part> for &PageThere<'a> {
    ghost use Rattle.object_store.specs.Object.ObjectValue.{OfPage};
    ghost use Rattle.object_parts.specs.Same.{same_object};
    ghost use Rattle.object_parts.specs.SameLaws.{stands_hashed, stands_alike};
    ghost use Rattle.object_parts.specs.Objects.{object_in};

    ghost equivalent = { λ q k. same_object (OfPage q.now.count.value q.now.page.now) (object_in k) };

    ghost respects_hash = { λ q k. stands_hashed (OfPage q.now.count.value q.now.page.now) (object_in k) };

    ghost respects_eq = { λ q x y. stands_alike (OfPage q.now.count.value q.now.page.now) (object_in x) (object_in y) };

    fn equivalent(&self, key: &Part) -> bool {
        match key {
            Part::Page { count, page } => self.count.value == count.value
                && same_pages(self.page, page),
            _ => false,
        }
    }
}
