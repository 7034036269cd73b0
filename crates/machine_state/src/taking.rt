//! Taking objects over from a store that agrees with the machine's outside named objects.
ghost use Rattle.std.specs.Prelude.{◌≡◌, ◌+◌, ◌<◌, IsTrue};
ghost use Rattle.object_store.specs.Store.{size_of, sizes_of};
ghost use Rattle.object_store.specs.Meaning.{map_of};
ghost use Rattle.object_store.specs.Object.{object_at, with_object, Stays, IsEven};
ghost use Rattle.object_store.specs.Saved.{AreThere, slots_copied};
ghost use Rattle.machine_state.specs.Machine.{IsMachine};
ghost use Rattle.machine_state.specs.Taking.{names_of, slots_taken};

use crate::machine::Machine;
use cap_format::CapKind;
use object_store::Objects;
use schedules::Queues;
use std::sync::ledger::Ledger;
use steps::Steps;
use walk_engine::Translator;

/// An object by its name.
#[derive(Clone, Copy)]
pub struct Name {
    /// Its kind.
    pub kind: CapKind,
    /// Its number.
    pub number: u16,
}

impl<T: Translator> Machine<T> {
    /// Takes the named objects over from another store of the same sizes, in which all others are stored as here, and tells
    /// the translator each by which walks could change. The queues become a copy of these, and the machine is halted or not
    /// as is said.
    pub fn take_objects<L: Ledger>(
        &mut self,
        from: &Objects,
        names: &[Name],
        queues: &Queues,
        halted: bool,
        fetches: &mut Steps<L>,
    )
        requires sizes { sizes_of self.old.objects ≡ sizes_of from.now }
        requires there { AreThere from.now (names_of names.now) }
        requires others { Stays (names_of names.now) from.now self.old.objects }
        requires machine { IsMachine from.now queues.now }
        ensures objects { self.new.objects ≡ from.now }
        ensures queues { self.new.queues ≡ queues.now }
        ensures halted { self.new.halted ≡ halted }
        ensures counted { fetches.new ≡ fetches.old + slots_taken (names_of names.now) }
    {
        take_each(
            &mut self.objects,
            &mut self.translator,
            from,
            names,
            fetches,
        );
        self.queues.copy_from(queues);
        self.halted = halted;
    }

    /// The same where nobody came or left: the queues, the harts and whether the machine is halted stay.
    pub fn take_objects_alone<L: Ledger>(
        &mut self,
        from: &Objects,
        names: &[Name],
        fetches: &mut Steps<L>,
    )
        requires sizes { sizes_of self.old.objects ≡ sizes_of from.now }
        requires there { AreThere from.now (names_of names.now) }
        requires others { Stays (names_of names.now) from.now self.old.objects }
        requires machine { IsMachine from.now self.old.queues }
        ensures objects { self.new.objects ≡ from.now }
        ensures queues { self.new.queues ≡ self.old.queues }
        ensures halted { self.new.halted ≡ self.old.halted }
        ensures counted { fetches.new ≡ fetches.old + slots_taken (names_of names.now) }
    {
        take_each(
            &mut self.objects,
            &mut self.translator,
            from,
            names,
            fetches,
        );
    }
}

/// Takes the named objects over, one after the other.
fn take_each<T: Translator, L: Ledger>(
    objects: &mut Objects,
    translator: &mut T,
    from: &Objects,
    names: &[Name],
    fetches: &mut Steps<L>,
)
    requires sizes { sizes_of objects.old ≡ sizes_of from.now }
    requires there { AreThere from.now (names_of names.now) }
    requires others { Stays (names_of names.now) from.now objects.old }
    requires coherent { T.coherent translator.old (map_of objects.old.items) }
    ensures objects { objects.new ≡ from.now }
    ensures coherent { T.coherent translator.new (map_of objects.new.items) }
    ensures harts { T.harts translator.new ≡ T.harts translator.old }
    ensures counted { fetches.new ≡ fetches.old + slots_taken (names_of names.now) }
{
    // Sizes that are read tell that there are as many objects as counts.
    let _sizes = objects.sizes();
    let _from = from.sizes();
    'each: for i in 0..names.len() {
        take_one(objects, translator, from, names[i], fetches);
    }
}

/// Takes one object over, and tells it in the same call, unless all walks are sure to stay.
fn take_one<T: Translator, L: Ledger>(
    objects: &mut Objects,
    translator: &mut T,
    from: &Objects,
    name: Name,
    fetches: &mut Steps<L>,
)
    requires there { name.number < size_of objects.old.items name.kind }
    requires copy { name.number < size_of from.now.items name.kind }
    requires coherent { T.coherent translator.old (map_of objects.old.items) }
    ensures objects { objects.new ≡
        with_object objects.old name.number (object_at from.now name.kind name.number) }
    ensures coherent { T.coherent translator.new (map_of objects.new.items) }
    ensures harts { T.harts translator.new ≡ T.harts translator.old }
    ensures counted { fetches.new ≡ fetches.old + slots_copied name.kind }
{
    let leads_on = leads_on(objects, from, name);
    let item = objects.copy_object(name.kind, name.number, from, name.number, fetches);
    if !leads_on {
        translator.invalidate(item);
    }
}

/// Whether walks stay the same where an object becomes what it is in another store: no walk reads more of it than its count.
fn leads_on(objects: &Objects, from: &Objects, name: Name) -> bool
    requires there { name.number < size_of objects.now.items name.kind }
    requires copy { name.number < size_of from.now.items name.kind }
    ensures { IsTrue result →
        (with_object objects.now name.number (object_at from.now name.kind name.number)).items ≡ objects.now.items }
{
    name.kind != CapKind::Gpt
        && objects.count(name.kind, name.number) == from.count(name.kind, name.number)
}
