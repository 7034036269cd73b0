//! What takes a frame of the tables.

ghost use Rattle.std.specs.Prelude.{◌≡◌};
ghost use Rattle.map_cache.specs.Key.{no_key, root_key, same_key, same_space};

use cap_format::Cap;

/// What takes a frame: a space, for its root, or a region of 1,024 pages of a space.
#[derive(Clone, Copy)]
pub struct Key {
    /// The space: a capability with its count.
    pub space: Cap,
    /// The region's number, or None for the root.
    pub region: Option<u16>,
}

impl Default for Key {
    ghost is_default = { λ key. key ≡ no_key };

    fn default() -> Key {
        Key {
            space: Cap::null(),
            region: None,
        }
    }
}

impl Key {
    /// Whether it is the root's of this space.
    pub fn is_root_of(&self, space: Cap) -> bool
        ensures { result ≡ same_key (root_key space) self.now }
    {
        self.region.is_none() && is_same(space, self.space)
    }
}

/// Whether two spaces are one.
pub fn is_same(space: Cap, other: Cap) -> bool
    ensures { result ≡ same_space space other }
{
    space == other
}
