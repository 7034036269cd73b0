//! The laws of walks, on which mapping caches rest. The calls do nothing: what each says is a law
//! for every map of objects.

ghost use Rattle.walk_meaning.specs.Laws.{FrameLaw, SpaceFrameLaw, BlockLaw, PageLaw, KindLaw, ReadsLaw, SlotsLaw, PlaceLaw};

/// An access that reaches, and reads no item in which two maps differ, is the same in both.
pub fn frame_law()
    ensures { FrameLaw }
{}

/// The same where the space itself may die with the item's object, or come to life.
pub fn space_frame_law()
    ensures { SpaceFrameLaw }
{}

/// All addresses of a block read the same items up to the one that noted the block.
pub fn block_law()
    ensures { BlockLaw }
{}

/// All addresses of a page are walked alike, by the same trail.
pub fn page_law()
    ensures { PageLaw }
{}

/// The data kinds agree but for what is denied at the place, and so do the capability kinds.
pub fn kind_law()
    ensures { KindLaw }
{}

/// Each read of a trail is of an item that there may be, in a block that has the address's page.
pub fn reads_law()
    ensures { ReadsLaw }
{}

/// An access reads at most 32 slots of GPTs.
pub fn slots_law()
    ensures { SlotsLaw }
{}

/// A load that reaches, reaches a page, and one that is there. So it is with every kind of access.
pub fn place_law()
    ensures { PlaceLaw }
{}
