//! Which object has its copy where.
ghost use Rattle.std.specs.Prelude.{◌≡◌, ◌≤◌, ◌<◌, ◌++◌, ◌∷◌, [], length};
ghost use Rattle.machine_state.specs.Past.{used};

use arrayvec::ArrayVec;
use cap_format::CapKind;
use std::marker::Model;

/// An object that has a copy.
#[derive(Clone, Copy)]
pub struct Place {
    /// Its kind.
    pub kind: CapKind,
    /// Its number.
    pub number: u16,
    /// The number of its copy among those of its kind.
    pub place: u16,
}

impl Default for Place {
    ghost use Rattle.std.specs.Prelude.{◌≡◌};
    ghost use Rattle.cap_format.specs.declared.kind.CapKind.{CapKind};

    ghost is_default = { λ p. p ≡ record { kind = CapKind.Null; number = 0; place = 0 } };

    fn default() -> Place {
        Place {
            kind: CapKind::Null,
            number: 0,
            place: 0,
        }
    }
}

/// At most 288 places, in the order in which they were taken.
#[derive(Drop)]
pub(crate) struct Places {
    list: ArrayVec<Place, 288>,
}

impl Model for Places {
    ghost use Rattle.std.specs.Prelude.{List};
    ghost use Rattle.machine_state.specs.declared.places.Place.{Place};

    ghost Value = { List Place };

    ghost view = { λ p. p.list.items };
}

impl Places {
    pub fn new() -> Places
        ensures { result ≡ [] }
    {
        Places {
            list: ArrayVec::new(),
        }
    }

    pub fn clear(&mut self)
        ensures { self.new ≡ [] }
    {
        self.list.clear();
    }

    pub fn push(&mut self, place: Place)
        requires { length self.old < 288 }
        ensures { self.new ≡ self.old ++ place ∷ [] }
    {
        self.list.push(place);
    }

    pub fn as_slice(&self) -> &[Place]
        ensures value { result.now ≡ self.now }
        ensures bound { length self.now ≤ 288 }
    {
        self.list.as_slice()
    }

    /// How many of them are of this kind.
    pub fn used(&self, kind: CapKind) -> u16
        ensures { result ≡ used kind self.now }
    {
        let list = self.as_slice();
        let mut count = 0;
        for i in 0..list.len() {
            if list[i].kind.number() == kind.number() {
                count += 1;
            }
        }
        count
    }
}
