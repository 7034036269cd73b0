//! The capability registers of an invocation.
use arrayvec::ArrayVec;
use std::marker::Model;

/// At most four registers, in the order in which they are named.
#[derive(Drop)]
pub struct RegisterList {
    list: ArrayVec<u8, 4>,
}

impl Model for RegisterList {
    ghost use Rattle.std.specs.Prelude.{List, ℕ};

    ghost Value = { List ℕ };

    ghost view = { λ l. l.list.items };
}

impl RegisterList {
    ghost use Rattle.std.specs.Prelude.{◌≡◌, ◌≤◌, length};

    pub fn new(registers: &[u8]) -> RegisterList
        requires { length registers.now ≤ 4 }
        ensures { result ≡ registers.now }
    {
        let mut list = ArrayVec::new();
        let _fits = list.try_extend_from_slice(registers);
        RegisterList { list }
    }

    pub fn as_slice(&self) -> &[u8]
        ensures value { result.now ≡ self.now }
        ensures bound { length self.now ≤ 4 }
    {
        self.list.as_slice()
    }
}
