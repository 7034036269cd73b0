//! The capabilities of a message.
use arrayvec::ArrayVec;
use cap_format::Cap;
use std::marker::Model;

/// At most four capabilities, in the order in which they are sent.
#[derive(Drop)]
pub struct CapList {
    list: ArrayVec<Cap, 4>,
}

impl Model for CapList {
    ghost use Rattle.std.specs.Prelude.{List};
    ghost use Rattle.cap_format.specs.Capability.{Capability};

    ghost Value = { List Capability };

    ghost view = { λ l. l.list.items };
}

impl CapList {
    ghost use Rattle.std.specs.Prelude.{◌≡◌, ◌≤◌, ◌<◌, ◌++◌, ◌∷◌, [], length};

    pub fn new() -> CapList
        ensures { result ≡ [] }
    {
        CapList {
            list: ArrayVec::new(),
        }
    }

    pub fn push(&mut self, cap: Cap)
        requires { length self.old < 4 }
        ensures { self.new ≡ self.old ++ cap ∷ [] }
    {
        self.list.push(cap);
    }

    pub fn as_slice(&self) -> &[Cap]
        ensures value { result.now ≡ self.now }
        ensures bound { length self.now ≤ 4 }
    {
        self.list.as_slice()
    }
}
