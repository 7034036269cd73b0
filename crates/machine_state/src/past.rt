//! What is remembered of a machine.
ghost use Rattle.std.specs.Prelude.{◌≡◌, ◌+◌, ◌<◌, ◌++◌, ◌∷◌, [], ℕ, IfOk, length};
ghost use Rattle.cap_format.specs.declared.kind.CapKind.{CapKind};
ghost use Rattle.object_store.specs.declared.sizes.Sizes.{Sizes};
ghost use Rattle.object_store.specs.Store.{Store, size_of, sizes_of};
ghost use Rattle.object_store.specs.Ranges.{IsWithinLimits};
ghost use Rattle.object_store.specs.Object.{object_name};
ghost use Rattle.object_store.specs.Saved.{slots_copied};
ghost use Rattle.machine_state.specs.Past.{names_in, used, same_kind, next_place, IsFor, Holds};

use crate::machine::Machine;
use crate::places::{Place, Places};
use cap_format::{CapKind, OutOfMemory};
use object_store::{Objects, Sizes};
use schedules::Queues;
use std::alloc::Global;
use std::marker::Model;
use std::sync::ledger::Ledger;
use steps::Steps;
use walk_engine::Translator;

/// The old values of the objects that one event changes, the queues and harts, and whether the machine was halted. All
/// its memory is taken when it is made.
#[derive(Drop)]
pub struct Past {
    pub(crate) copies: Objects,
    pub(crate) places: Places,
    pub(crate) queues: Queues,
    pub(crate) halted: bool,
}

impl Model for Past {
    ghost use Rattle.machine_state.specs.Past.{PastValue, IsPlaced};

    ghost Value = { PastValue };

    ghost view = { λ p. record { copies = p.copies; places = p.places; queues = p.queues; halted = p.halted } };

    ghost invariant = { λ p. IsPlaced p.copies p.places };
}

impl Past {
    /// Room for the old values of one event of a machine of these sizes.
    pub fn new(alloc: Global, sizes: Sizes) -> Result<Past, OutOfMemory>
        requires { IsWithinLimits sizes }
        ensures sizes { IfOk result (λ past. IsFor past sizes) }
    {
        let room = Sizes {
            harts: sizes.harts,
            pages: 18,
            cappages: 1,
            gpts: 1,
            processes: sizes.processes,
            endpoints: 1,
        };
        Ok(Past {
            copies: Objects::new(alloc, room)?,
            places: Places::new(),
            queues: Queues::new(alloc, sizes)?,
            halted: false,
        })
    }

    /// From here on it stands for the machine's present state, with no object of it.
    pub fn begin<T: Translator>(&mut self, machine: &Machine<T>)
        requires { IsFor self.old (sizes_of machine.now.objects) }
        ensures nothing { self.new.places ≡ [] }
        ensures queues { self.new.queues ≡ machine.now.queues }
        ensures halted { self.new.halted ≡ machine.now.halted }
        ensures sizes { IsFor self.new (sizes_of machine.now.objects) }
        ensures holds { Holds self.new machine.now.objects }
    {
        self.places.clear();
        self.queues.copy_from(machine.queues());
        self.halted = machine.halted();
    }

    /// Forgets its objects. The queues, and whether the machine was halted, stay.
    pub fn forget_objects(&mut self)
        ensures nothing { self.new.places ≡ [] }
        ensures queues { self.new.queues ≡ self.old.queues }
        ensures halted { self.new.halted ≡ self.old.halted }
        ensures sizes { (z : Sizes) → IsFor self.old z → IsFor self.new z }
        ensures holds { (s : Store) → Holds self.new s }
    {
        self.places.clear();
    }

    /// Keeps an object of the machine, which is as at `begin`: a copy of its record and its count. One that is kept
    /// already may be kept again.
    pub fn keep<T: Translator, L: Ledger>(
        &mut self,
        machine: &Machine<T>,
        kind: CapKind,
        number: u16,
        fetches: &mut Steps<L>,
    )
        requires there { number < size_of machine.now.objects.items kind }
        requires holds { Holds self.old machine.now.objects }
        requires list { length self.old.places < 288 }
        requires room { next_place kind number self.old.places <
            size_of self.old.copies.items kind }
        ensures holds { Holds self.new machine.now.objects }
        ensures names { names_in self.new ≡ names_in self.old ++ object_name kind number ∷ [] }
        ensures used { (k : CapKind) →
            used k self.new.places ≡ used k self.old.places + same_kind kind k }
        ensures count { length self.new.places ≡ length self.old.places + 1 }
        ensures sizes { (z : Sizes) → IsFor self.old z → IsFor self.new z }
        ensures queues { self.new.queues ≡ self.old.queues }
        ensures halted { self.new.halted ≡ self.old.halted }
        ensures counted { fetches.new ≡ fetches.old + slots_copied kind }
    {
        // Sizes that are read tell that there are as many copies as counts.
        let _room = self.copies.sizes();
        let place = self.next_place(kind, number);
        let objects = machine.objects();
        let _item = self
            .copies
            .copy_object(kind, place, objects, number, fetches);
        self.places.push(Place {
            kind,
            number,
            place,
        });
    }

    /// Where the next copy goes.
    fn next_place(&self, kind: CapKind, number: u16) -> u16
        ensures { result ≡ next_place kind number self.now.places }
    {
        match kind {
            CapKind::Process => number,
            _ => self.places.used(kind),
        }
    }
}
