//! The limits of a question, as a search takes them.
ghost use Rattle.std.specs.Prelude.{◌≡◌, ◌<◌, IfSome};
ghost use Rattle.exploration.specs.Explored.{limits_of};

use breadth_first::Limits;
use questions::Question;

/// How far the search for a question goes.
pub(crate) fn limits_of(question: &Question) -> Limits
    ensures value { result ≡ limits_of question.now }
    ensures some { IfSome result.states (λ most. 0 < most) }
{
    Limits {
        depth: widened(question.depth()),
        states: widened(question.states()),
    }
}

/// The same limit.
fn widened(limit: Option<u32>) -> Option<usize>
    ensures { result ≡ limit }
{
    match limit {
        Some(most) => Some(most as usize),
        None => None,
    }
}
