//! Bringing a machine back to what is remembered of it.
ghost use Rattle.std.specs.Prelude.{◌≡◌, ◌+◌, ◌<◌};
ghost use Rattle.cap_format.specs.declared.kind.CapKind.{CapKind};
ghost use Rattle.object_store.specs.Store.{size_of};
ghost use Rattle.object_store.specs.Meaning.{map_of};
ghost use Rattle.object_store.specs.Object.{object_at, with_object};
ghost use Rattle.object_store.specs.Saved.{restored, AreThere, slots_copied};
ghost use Rattle.machine_state.specs.Machine.{IsMachine};
ghost use Rattle.machine_state.specs.Outcome.{kept_after};
ghost use Rattle.machine_state.specs.Past.{names_in, saved_in, slots_back, touches_back};

use crate::machine::Machine;
use crate::past::Past;
use crate::places::Place;
use cap_format::Item;
use object_store::Objects;
use std::sync::ledger::Ledger;
use steps::Steps;
use walk_engine::Translator;

impl<T: Translator> Machine<T> {
    /// Puts back what is remembered, and tells the translator each object that is put back. The queues and whether the
    /// machine is halted are as they were then.
    pub fn restore<L: Ledger>(&mut self, past: &Past, fetches: &mut Steps<L>)
        requires there { AreThere self.old.objects (names_in past.now) }
        requires machine { IsMachine
            (restored (saved_in past.now) self.old.objects) past.now.queues }
        ensures objects { self.new.objects ≡ restored (saved_in past.now) self.old.objects }
        ensures queues { self.new.queues ≡ past.now.queues }
        ensures halted { self.new.halted ≡ past.now.halted }
        ensures counted { fetches.new ≡ fetches.old + slots_back past.now.places }
        ensures kept { let kept = T.kept self.old.translator in
            let touches = touches_back past.now.places in
            T.kept self.new.translator ≡ kept_after T.cost T.after T.without kept touches }
    {
        put_back(&mut self.objects, &mut self.translator, past, fetches);
        self.queues.copy_from(&past.queues);
        self.halted = past.halted;
    }

    /// Puts back the objects that are remembered, as `restore` does. The queues, and whether the machine is halted, stay.
    pub fn restore_objects<L: Ledger>(&mut self, past: &Past, fetches: &mut Steps<L>)
        requires there { AreThere self.old.objects (names_in past.now) }
        requires machine { IsMachine
            (restored (saved_in past.now) self.old.objects) self.old.queues }
        ensures objects { self.new.objects ≡ restored (saved_in past.now) self.old.objects }
        ensures queues { self.new.queues ≡ self.old.queues }
        ensures halted { self.new.halted ≡ self.old.halted }
        ensures counted { fetches.new ≡ fetches.old + slots_back past.now.places }
        ensures kept { let kept = T.kept self.old.translator in
            let touches = touches_back past.now.places in
            T.kept self.new.translator ≡ kept_after T.cost T.after T.without kept touches }
    {
        put_back(&mut self.objects, &mut self.translator, past, fetches);
    }
}

/// Puts back all objects that are remembered, one after the other.
fn put_back<T: Translator, L: Ledger>(
    objects: &mut Objects,
    translator: &mut T,
    past: &Past,
    fetches: &mut Steps<L>,
)
    requires there { AreThere objects.old (names_in past.now) }
    requires coherent { T.coherent translator.old (map_of objects.old.items) }
    ensures objects { objects.new ≡ restored (saved_in past.now) objects.old }
    ensures coherent { T.coherent translator.new (map_of objects.new.items) }
    ensures harts { T.harts translator.new ≡ T.harts translator.old }
    ensures counted { fetches.new ≡ fetches.old + slots_back past.now.places }
    ensures kept { let touches = touches_back past.now.places in
        T.kept translator.new ≡ kept_after T.cost T.after T.without (T.kept translator.old) touches }
{
    let places = past.places.as_slice();
    'each: for i in 0..places.len() {
        put_one(objects, translator, past, places[i], fetches);
    }
}

/// Puts one object back, and tells it in the same call.
fn put_one<T: Translator, L: Ledger>(
    objects: &mut Objects,
    translator: &mut T,
    past: &Past,
    place: Place,
    fetches: &mut Steps<L>,
)
    requires there { place.number < size_of objects.old.items place.kind }
    requires copy { place.place < size_of past.now.copies.items place.kind }
    requires coherent { T.coherent translator.old (map_of objects.old.items) }
    ensures objects { objects.new ≡
        with_object objects.old place.number (object_at past.now.copies place.kind place.place) }
    ensures sizes { (k : CapKind) → size_of objects.new.items k ≡ size_of objects.old.items k }
    ensures coherent { T.coherent translator.new (map_of objects.new.items) }
    ensures harts { T.harts translator.new ≡ T.harts translator.old }
    ensures counted { fetches.new ≡ fetches.old + slots_copied place.kind }
    ensures kept { T.kept translator.new ≡
        T.without (T.kept translator.old) (Item.Header place.kind place.number) }
{
    let item = objects.copy_object(place.kind, place.number, &past.copies, place.place, fetches);
    translator.invalidate(item);
}
