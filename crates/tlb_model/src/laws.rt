//! What looking finds after a fill and after a drop. The calls do nothing: each says a law of all caches.

ghost use Rattle.tlb_model.specs.Laws.{DropLaw, FillLaw};

/// After a fill its leaf is found, and nothing else that wasn't found before.
pub fn fill_law()
    ensures { FillLaw }
{}

/// After a drop of a block none of its pages is found under that root, and all else as before.
pub fn drop_law()
    ensures { DropLaw }
{}
