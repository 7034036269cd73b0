//! Edges between states, by their indices.

ghost use Rattle.std.specs.Prelude.{◌≡◌, ◌<◌, ◌^◌, ◌++◌, ◌∷◌, [], OnOk, if◌then◌else◌};

use std::alloc::{AllocError, Global};

/// Where each choice of each state leads, if that is kept: the choices of the first state first.
#[derive(Drop)]
pub(crate) struct Edges {
    pub(crate) keeps: bool,
    pub(crate) ends: Vec<u32>,
}

impl Edges {
    pub(crate) fn new(alloc: Global, keeps: bool) -> Edges
        ensures keeps { result.keeps ≡ keeps }
        ensures none { result.ends.items ≡ [] }
    {
        Edges {
            keeps,
            ends: Vec::new(alloc),
        }
    }

    /// Notes where the next choice leads.
    pub(crate) fn note(&mut self, end: usize) -> Result<(), AllocError>
        requires { end < 2 ^ 32 }
        ensures keeps { OnOk result (self.new.keeps ≡ self.old.keeps) }
        ensures ends { OnOk result (self.new.ends.items
            ≡ (if self.old.keeps then self.old.ends.items ++ end ∷ [] else self.old.ends.items)) }
    {
        if self.keeps {
            self.ends.push(end as u32)?;
        }
        Ok(())
    }
}
