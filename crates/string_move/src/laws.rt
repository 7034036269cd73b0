//! Laws of strings. Each is a function that does nothing, whose contract is the law.
ghost use Rattle.string_move.specs.Laws.{SpansCover, CopiesMean};

/// The spans of a string cover it exactly, each within one page, and the longest string has at most 17.
pub fn spans_cover()
    ensures { SpansCover }
{}

/// What a copy of bytes means.
pub fn copies_mean()
    ensures { CopiesMean }
{}
