//! What the walk's rules come to. The call does nothing: what it says is a law for every walk.

ghost use Rattle.walk_engine.specs.Windows.{WindowLaw};

/// What windows come to are the last two cases of a walk.
pub fn window_law()
    ensures { WindowLaw }
{}
