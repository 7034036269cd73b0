//! What lines ask.
ghost use Rattle.std.specs.Prelude.{◌≡◌, IfOk};
ghost use Rattle.explore_program.specs.Stated.{first_asked};

use cap_format::OutOfMemory;
use object_store::Sizes;
use questions::Question;
use separation_policy::Policy;
use std::alloc::Global;

/// A question, and the policy that it may be about.
#[derive(Drop)]
pub struct Asked {
    pub question: Question,
    pub policy: Policy,
}

impl Asked {
    /// Nothing is asked yet of a machine of these sizes.
    pub fn new(alloc: Global, sizes: Sizes) -> Result<Asked, OutOfMemory>
        ensures { IfOk result (λ asked. asked ≡ first_asked sizes) }
    {
        Ok(Asked {
            question: Question::new(alloc, sizes),
            policy: Policy::new(alloc, sizes)?,
        })
    }
}
