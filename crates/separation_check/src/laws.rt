//! The laws of crossings. The calls change nothing: what they say holds for all policies and states.
ghost use Rattle.separation_check.specs.Each.{AllLaw, RemedyLaw};
ghost use Rattle.separation_check.specs.Placed.{ExactlyLaw};

/// Each crossing that is told of a state is one, none is missing, and they come in the order in which a state is printed.
pub fn all_law()
    ensures { AllLaw }
{}

/// No crossing is told of a state exactly where the policy holds of it, if its objects have all of their places. The objects
/// of a machine have them at its start, and after any run.
pub fn exactly_law()
    ensures { ExactlyLaw }
{}

/// The line that is told of a capability that crosses would allow it; where none is, no line does.
pub fn remedy_law()
    ensures { RemedyLaw }
{}
