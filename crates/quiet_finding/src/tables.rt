//! Tables of who comes to which object, as they are made and compared.
ghost use Rattle.std.specs.Prelude.{◌≡◌, ◌↔◌, false, replicate, IfOk, IsTrue};
ghost use Rattle.quiet_runs.specs.declared.reached_by.ReachedBy.TheVariants.{Nobody};
ghost use Rattle.quiet_finding.specs.Passing.{nothing_reached};

use crate::comers::Comers;
use cap_format::OutOfMemory;
use object_store::Sizes;
use quiet_runs::ReachedBy;
use std::alloc::Global;

impl Comers {
    /// Nobody comes to anything in a machine of these sizes, and nothing is held.
    pub(crate) fn nothing(alloc: Global, sizes: Sizes) -> Result<Comers, OutOfMemory>
        ensures { IfOk result (λ comers. comers ≡ nothing_reached sizes) }
    {
        Ok(Comers {
            gpts: nobody(alloc, sizes.gpts)?,
            pages: nobody(alloc, sizes.pages)?,
            named: not_named(alloc, sizes.processes)?,
            far: false,
        })
    }

    pub(crate) fn copy(&self, alloc: Global) -> Result<Comers, OutOfMemory>
        ensures { IfOk result (λ comers. comers ≡ self.now) }
    {
        Ok(Comers {
            gpts: self.gpts.to_vec(alloc)?,
            pages: self.pages.to_vec(alloc)?,
            named: self.named.to_vec(alloc)?,
            far: self.far,
        })
    }

    /// Whether the same come to each GPT.
    pub(crate) fn has_gpts_of(&self, other: &Comers) -> bool
        ensures { IsTrue result ↔ (self.now.gpts ≡ other.now.gpts) }
    {
        are_same(&self.gpts, &other.gpts)
    }
}

/// A table of so many objects to which nobody comes.
fn nobody(alloc: Global, size: u16) -> Result<Vec<ReachedBy>, OutOfMemory>
    ensures { IfOk result (λ table. table.items ≡ replicate size Nobody) }
{
    let mut table = Vec::with_capacity(alloc, size as usize)?;
    'each: for _ in 0..size {
        table.push(ReachedBy::Nobody)?;
    }
    Ok(table)
}

/// A table of so many objects of which no entry is set.
pub(crate) fn not_named(alloc: Global, size: u16) -> Result<Vec<bool>, OutOfMemory>
    ensures { IfOk result (λ table. table.items ≡ replicate size false) }
{
    let mut table = Vec::with_capacity(alloc, size as usize)?;
    'each: for _ in 0..size {
        table.push(false)?;
    }
    Ok(table)
}

/// Whether two tables are the same.
fn are_same(some: &[ReachedBy], others: &[ReachedBy]) -> bool
    ensures { IsTrue result ↔ (some.now ≡ others.now) }
{
    if some.len() != others.len() {
        return false;
    }
    'each: for i in 0..some.len() {
        if !is_same(some[i], others[i]) {
            return false;
        }
    }
    true
}

fn is_same(one: ReachedBy, other: ReachedBy) -> bool
    ensures { IsTrue result ↔ (one ≡ other) }
{
    match (one, other) {
        (ReachedBy::Nobody, ReachedBy::Nobody) => true,
        (ReachedBy::Alone(p), ReachedBy::Alone(q)) => p == q,
        (ReachedBy::Several, ReachedBy::Several) => true,
        _ => false,
    }
}
