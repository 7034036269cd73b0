//! Keys: what is kept of a state.
ghost use Rattle.std.specs.Prelude.{◌≡◌, IsTrue, IfOk, length};

use cap_format::OutOfMemory;
use object_parts::folded;
use std::alloc::Global;
use std::hash::{Hash, Hasher};

/// A state by the numbers of its parts.
#[derive(Drop)]
pub struct Key {
    /// The number of each object's part, in a fixed order of the objects.
    pub(crate) parts: Vec<u32>,
    /// The number of the standing.
    pub(crate) standing: u32,
}

impl Key {
    ghost use Rattle.state_parts.specs.KeyLaws.{key_in};

    /// The same key once more.
    pub fn copy(&self, alloc: Global) -> Result<Key, OutOfMemory>
        ensures { IfOk result (λ copy. key_in copy ≡ key_in self.now) }
    {
        Ok(Key {
            parts: copy_numbers(alloc, self.parts.as_slice())?,
            standing: self.standing,
        })
    }
}

/// Writes numbers over as many others.
pub(crate) fn write_numbers(into: &mut Vec<u32>, numbers: &[u32])
    requires { length into.old.items ≡ length numbers.now }
    ensures { into.new.items ≡ numbers.now }
{
    into.copy_from_slice(numbers);
}

/// Whether numbers are the same.
pub(crate) fn same_numbers(a: &[u32], b: &[u32]) -> bool
    ensures { IsTrue result → a.now ≡ b.now }
{
    a == b
}

/// A copy of numbers.
pub(crate) fn copy_numbers(alloc: Global, numbers: &[u32]) -> Result<Vec<u32>, OutOfMemory>
    ensures { IfOk result (λ copy. copy.items ≡ numbers.now) }
{
    Ok(numbers.to_vec(alloc)?)
}

impl PartialEq for Key {
    ghost use Rattle.std.specs.Ordering.{on};
    ghost use Rattle.std.specs.Cmp.{decided, on_equiv, partial_equiv_from_equiv};
    ghost use Rattle.state_parts.specs.Key.{same_key};
    ghost use Rattle.state_parts.specs.KeyLaws.{key_in, key_decides};

    ghost eq = { on key_in same_key };

    ghost laws = { partial_equiv_from_equiv (on_equiv key_in (decided same_key key_decides)) };

    fn eq(&self, other: &Key) -> bool {
        self.parts == other.parts && self.standing == other.standing
    }
}

impl Eq for Key {
    ghost use Rattle.std.specs.Cmp.{decided, on_equiv};
    ghost use Rattle.state_parts.specs.Key.{same_key};
    ghost use Rattle.state_parts.specs.KeyLaws.{key_in, key_decides};

    ghost laws = { on_equiv key_in (decided same_key key_decides) };
}

impl Hash for Key {
    ghost use Rattle.std.specs.Hash.{on_Alike, same_Alike};
    ghost use Rattle.state_parts.specs.Key.{hashed_key};
    ghost use Rattle.state_parts.specs.KeyLaws.{key_in, key_decides};

    ghost hash_input = { λ key. hashed_key (key_in key) };

    ghost respects_eq = { (on_Alike key_in (same_Alike hashed_key key_decides)).fed };

    fn hash<H: Hasher>(&self, state: &mut H) {
        state.write_u64(folded(u64::from(self.standing), self.parts.as_slice()));
    }
}
