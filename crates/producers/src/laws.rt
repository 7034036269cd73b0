//! The laws of producers. The calls do nothing: what each says is a law for every map of objects.

ghost use Rattle.producers.specs.Laws.{JoinLaw, KeyLaw, RegionLaw, SameKeyLaw};

/// From its producer on, an access goes as its key says.
pub fn join_law()
    ensures { JoinLaw }
{}

/// Two accesses with one key go alike from their producers on, whatever their spaces.
pub fn same_key_law()
    ensures { SameKeyLaw }
{}

/// The key is a function of what was read before the producer's slots.
pub fn key_law()
    ensures { KeyLaw }
{}

/// All addresses of a region come to the point to which one of them comes, and go on as its key says.
pub fn region_law()
    ensures { RegionLaw }
{}
