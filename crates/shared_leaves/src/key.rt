//! What takes a frame of the tables.

ghost use Rattle.std.specs.Prelude.{◌≡◌, true};
ghost use Rattle.shared_leaves.specs.Key.{no_key, own_key, producer_key, root_key, same_key};

use cap_format::Cap;
use producers::Producer;

/// What a frame is for.
#[derive(Clone, Copy, PartialEq, Eq)]
pub enum Table {
    /// It is the root of the key's space.
    Root,
    /// It has the entries of this region of 1,024 pages of the key's space, whose walks have no producer.
    Region(u16),
    /// It has the entries of the walks that join at this producer, from whatever space: the key's is Null.
    Producer(Producer),
}

/// What takes a frame.
#[derive(Clone, Copy, PartialEq, Eq)]
pub struct Key {
    /// The space: a capability with its count.
    pub space: Cap,
    /// What the frame is for.
    pub table: Table,
}

impl Default for Key {
    ghost is_default = { λ key. key ≡ no_key };

    fn default() -> Key {
        Key::root(Cap::null())
    }
}

impl Key {
    /// The key of a space's root.
    pub fn root(space: Cap) -> Key
        ensures { result ≡ root_key space }
    {
        Key {
            space,
            table: Table::Root,
        }
    }

    /// The key of a region of a space that shares nothing.
    pub fn own(space: Cap, region: u16) -> Key
        ensures { result ≡ own_key space region }
    {
        Key {
            space,
            table: Table::Region(region),
        }
    }

    /// The key of a producer's leaf table.
    pub fn producer(producer: Producer) -> Key
        ensures { result ≡ producer_key producer }
    {
        Key {
            space: Cap::null(),
            table: Table::Producer(producer),
        }
    }

    /// Whether it is this key.
    pub fn is(&self, key: &Key) -> bool
        ensures { result ≡ same_key key.now self.now }
    {
        *key == *self
    }
}
