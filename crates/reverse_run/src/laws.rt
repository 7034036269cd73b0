//! Laws of lists of calls.

ghost use Rattle.reverse_run.specs.Calls.{UndoesAll};

/// Events that are all remembered, and then as many undos, lead back to the state before them.
pub fn undoes_all()
    ensures { UndoesAll }
{}
