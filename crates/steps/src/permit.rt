//! What opens a counter.

ghost use Rattle.std.specs.Prelude.{◌≡◌, ◌<◌};

use std::marker::Model;
use std::sync::ledger::Blank;

/// Permission to open one counter. It takes no bytes.
#[derive(Drop)]
pub struct Permit {
    blank: Blank,
}

impl Model for Permit {
    ghost use Rattle.std.specs.Prelude.{◌<◌};
    ghost use Rattle.steps.specs.Permit.{PermitValue, permit_for};

    ghost Value = { PermitValue };

    ghost view = { λ p. permit_for p.blank.name p.blank.parts };

    ghost invariant = { λ p. 0 < p.blank.parts };
}

impl Permit {
    /// A permit of a ledger of its own. The runtime does nothing here: it is asked for since `main` and tests alone
    /// are given it.
    pub fn new(_rt: &HostRuntime) -> Permit
        ensures { 0 < result.parts }
    {
        Permit {
            blank: Blank::new(1),
        }
    }

    /// The ledger, which no counter counts in yet.
    pub(crate) fn blank(self) -> Blank
        ensures name { result.name ≡ self.name }
        ensures parts { result.parts ≡ self.parts }
        ensures some { 0 < result.parts }
    {
        self.blank
    }
}
