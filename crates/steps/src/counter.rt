//! The counter.

ghost use Rattle.std.specs.Prelude.{◌≡◌, ◌+◌};
ghost use Rattle.steps.specs.Permit.{permit_for};

use crate::permit::Permit;
use std::marker::Model;
use std::sync::ledger::{Book, Ledger, Share};

/// How many steps were taken. Only `tick` changes it.
#[derive(Drop)]
pub struct Steps<L: Ledger> {
    book: Book<L>,
    share: Share<L>,
}

impl<L: Ledger> Model for Steps<L> {
    ghost use Rattle.std.specs.Prelude.{ℕ, ◌<◌};

    ghost Value = { ℕ };

    ghost view = { λ s. s.book.total };

    ghost invariant = { λ s. 0 < s.share.parts };
}

impl<L: Ledger> Steps<L> {
    /// A counter that took no step yet.
    pub fn new(permit: Permit) -> Steps<L>
        requires { permit ≡ permit_for L.name L.parts }
        ensures { result ≡ 0 }
    {
        let (book, share) = permit.blank().open::<L>();
        Steps { book, share }
    }

    /// Counts one step.
    pub fn tick(&mut self)
        ensures { self.new ≡ self.old + 1 }
    {
        self.book.add(&mut self.share, 1);
    }
}
