//! Laws of machines at their start. The calls do nothing: what they say holds for every listing, and for every input.
ghost use Rattle.confine_command.specs.Laws.{AwakeLaw, DecidedLaw};

/// Nobody sleeps at the start of the machine that a listing boots, and no verdict on it is of a sleeper.
pub fn awake_law()
    ensures { AwakeLaw }
{}

/// What an input comes to is so of the machine that its listing boots, whether the program was run on it or not.
pub fn decided_law()
    ensures { DecidedLaw }
{}
