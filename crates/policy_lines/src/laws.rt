//! The laws of lines. The calls change nothing: what they say holds for all policies and systems.
ghost use Rattle.policy_lines.specs.Least.{MoreLaw, ThinnedLaw};
ghost use Rattle.policy_lines.specs.Needed.{NeededLaw};

use separation_check::{all_law, remedy_law};

/// Where a policy holds with some lines and no other, it holds with these among others.
pub fn more_law()
    ensures { MoreLaw }
{}

/// Of lines with which a policy holds, those that are left where each is tried by itself, and left out if the others do,
/// are enough, and no fewer are.
pub fn thinned_law()
    ensures { ThinnedLaw }
{}

/// What is found of a policy and a state whose objects have all of their places are the least lines with which it holds, or
/// all that no line allows.
pub fn needed_law()
    ensures { NeededLaw }
{
    all_law();
    remedy_law();
}
