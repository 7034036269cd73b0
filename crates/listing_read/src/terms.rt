//! What the lines of a listing are judged by.
ghost use Rattle.std.specs.Prelude.{◌≡◌};
ghost use Rattle.object_store.specs.Sizes.{size_in};
ghost use Rattle.listing_read.specs.Terms.{has_names};

use crate::names::Names;
use cap_format::CapKind;
use object_store::Sizes;

/// The version of a listing, as its first line says it.
#[derive(Clone, Copy)]
pub enum Version {
    /// `coyotos 1`.
    One,
    /// `coyotos 2`, which has names for objects, and regions.
    Two,
}

impl Version {
    /// Whether a listing of this version may give names to objects.
    pub(crate) fn has_names(self) -> bool
        ensures { result ≡ has_names self }
    {
        matches!(self, Version::Two)
    }
}

/// What the statements of a listing are judged by, as the lines before them said it.
#[derive(Drop)]
pub struct Terms {
    pub version: Version,
    /// How many objects of each kind the machine has.
    pub sizes: Sizes,
    /// The names that were given.
    pub names: Names,
}

/// How many objects of a kind a machine of these sizes has: 0 of a kind that is none of objects.
pub fn size_of(sizes: Sizes, kind: CapKind) -> u16
    ensures { result ≡ size_in sizes kind }
{
    match kind {
        CapKind::Page => sizes.pages,
        CapKind::CapPage => sizes.cappages,
        CapKind::Gpt => sizes.gpts,
        CapKind::Process => sizes.processes,
        CapKind::Endpoint => sizes.endpoints,
        _ => 0,
    }
}
