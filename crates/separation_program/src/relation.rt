//! How one domain is related to another.
ghost use Rattle.std.specs.Prelude.{◌≡◌};
ghost use Rattle.separation_policy.specs.Closure.{IsClosure};
ghost use Rattle.separation_program.specs.Text.{related};

use separation_policy::{Closure, Policy};

/// How one domain is related to another.
#[derive(Clone, Copy)]
pub enum Relation {
    /// It reads it, by the closure.
    Reads,
    /// It may write it.
    Writes,
    /// It has it in its view.
    Views,
}

/// Whether a domain is so related to another.
pub(crate) fn related(policy: &Policy, closure: &Closure, relation: Relation, a: u8, b: u8) -> bool
    requires { IsClosure policy.now closure.now }
    ensures { result ≡ related policy.now relation a b }
{
    match relation {
        Relation::Reads => closure.sees(a, b),
        Relation::Writes => policy.may_write(a, b),
        Relation::Views => closure.views(a, b),
    }
}
