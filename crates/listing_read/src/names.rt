//! The names that a listing gives to objects.
ghost use Rattle.std.specs.Prelude.{◌≡◌, ◌&&◌, ◌==◌, bytes_eq, OnOk, OnErr};
ghost use Rattle.std.specs.BTreeMap.{IsUnchanged};
ghost use Rattle.cap_format.specs.Kind.{number_of};
ghost use Rattle.listing_read.specs.Names.{stands_for, is_taken, number_called};
ghost use Rattle.listing_read.specs.NameIndex.{place_in, Notes};

use cap_format::CapKind;
use cap_words::Name;
use std::alloc::{AllocError, Global};
use std::collections::BTreeMap;
use std::marker::Model;

/// What a line `name` says: the name, and the object that it stands for.
#[derive(Drop)]
pub struct Naming {
    pub name: Name,
    pub kind: CapKind,
    pub number: u16,
}

impl Naming {
    /// Whether the name stands for an object of this kind.
    fn stands_for(&self, kind: CapKind, name: &[u8]) -> bool
        ensures { result ≡ stands_for kind name.now self.now }
    {
        self.name.as_slice() == name && self.kind == kind
    }
}

/// All names that the lines so far gave, in the order of these lines.
#[derive(Drop)]
pub struct Names {
    all: Vec<Naming>,
    /// Where each name was given first.
    places: BTreeMap<Vec<u8>, usize>,
}

impl Model for Names {
    ghost use Rattle.std.specs.Prelude.{List};
    ghost use Rattle.listing_read.specs.declared.names.Naming.{Naming};
    ghost use Rattle.listing_read.specs.NameIndex.{IsIndex};

    ghost Value = { List Naming };

    ghost view = { λ n. n.all.items };

    ghost invariant = { λ n. IsIndex n.places n.all.items };
}

impl Names {
    ghost use Rattle.std.specs.Prelude.{◌≡◌, ◌++◌, ◌∷◌, [], OnOk, OnErr};
    ghost use Rattle.listing_read.specs.Names.{is_taken, number_called};

    /// None.
    pub fn new(alloc: Global) -> Names
        ensures { result ≡ [] }
    {
        Names {
            all: Vec::new(alloc),
            places: BTreeMap::new(alloc),
        }
    }

    /// Adds a name behind the others.
    pub fn push(&mut self, alloc: Global, naming: Naming) -> Result<(), AllocError>
        ensures ok { OnOk result (self.new ≡ self.old ++ naming ∷ []) }
        ensures err { OnErr result (self.new ≡ self.old) }
    {
        // Room comes first, since nothing may fail once the place is noted.
        self.all.reserve(1)?;
        note(
            alloc,
            &mut self.places,
            naming.name.as_slice(),
            self.all.len(),
        )?;
        self.all.push(naming)?;
        Ok(())
    }

    /// Whether the name was given.
    pub fn is_taken(&self, name: &[u8]) -> bool
        ensures { result ≡ is_taken name.now self.now }
    {
        place_of(&self.places, name).is_some()
    }

    /// The number of the object of this kind for which the name stands. `None` where it was given for none.
    pub fn number_called(&self, kind: CapKind, name: &[u8]) -> Option<u16>
        ensures { result ≡ number_called kind name.now self.now }
    {
        let place = place_of(&self.places, name)?;
        number_among(&self.all.as_slice()[place..], kind, name)
    }
}

/// The place of a name.
fn place_of(places: &BTreeMap<Vec<u8>, usize>, name: &[u8]) -> Option<usize>
    ensures { result ≡ place_in places.now name.now }
{
    places.get(name).copied()
}

/// Notes the place of a name, unless it has one.
fn note(
    alloc: Global,
    places: &mut BTreeMap<Vec<u8>, usize>,
    name: &[u8],
    place: usize,
) -> Result<(), AllocError>
    ensures ok { OnOk result (Notes places.old places.new name.now place) }
    ensures err { OnErr result (IsUnchanged places.old places.new) }
{
    if place_of(places, name).is_some() {
        return Ok(());
    }
    places.insert(Vec::from_slice(alloc, name)?, place)?;
    Ok(())
}

/// The number that the first of these namings gives that is for an object of this kind.
#[tactic(auto, unfolding(crate::specs::Names::number_called))]
fn number_among(namings: &[Naming], kind: CapKind, name: &[u8]) -> Option<u16>
    ensures { result ≡ number_called kind name.now namings.now }
{
    let naming = namings.iter().find(|naming| naming.stands_for(kind, name))?;
    Some(naming.number)
}
