//! Laws of what inputs come to. The calls do nothing: their contracts are the laws.
ghost use Rattle.coyotos_cli.specs.Laws.{ConfinedLaw, SameCourseLaw};

/// Two inputs with the same statements and events come to the same, for each command that runs or counts them. It does
/// nothing: its contract is the law.
pub fn same_course_law()
    ensures { SameCourseLaw }
{}

/// What the program writes of a cut is so of the machine that the listing boots, for any bytes, whether it was run or not.
pub fn confined_law()
    ensures { ConfinedLaw }
{}
