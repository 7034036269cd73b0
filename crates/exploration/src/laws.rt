//! The laws of explorations, each as a clause.
ghost use Rattle.exploration.specs.Laws.{ExactLaw, SaysLaw, OneAnswerLaw, EveryEventLaw, ShownLaw};

/// What the answer of a search says of the machine. It does nothing: its contract is the theorem.
pub fn explored_laws()
    ensures says { SaysLaw }
    ensures exact { ExactLaw }
    ensures one_answer { OneAnswerLaw }
    ensures every_event { EveryEventLaw }
    ensures shown { ShownLaw }
{}
