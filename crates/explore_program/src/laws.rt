//! The laws of outputs, as clauses.
ghost use Rattle.explore_program.specs.Theorem.{OneOutputLaw, OneToldLaw};

use exploration::explored_laws;

/// What is told of a question is told alike by all that answers it, but for the cycle by which a `must` can be avoided. It does
/// nothing: its contract is the laws.
pub fn output_laws()
    ensures one { OneOutputLaw }
    ensures told { OneToldLaw }
{
    explored_laws();
}
