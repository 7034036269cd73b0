//! Blocks: aligned ranges of addresses.

ghost use Rattle.std.specs.Prelude.{◌≡◌, ◌≤◌, ◌*◌, ◌/◌, ◌^◌, ◌&&◌, ◌⊎◌, true, ℕ};
ghost use Rattle.guard_math.specs.Block.{IsBlock, IsWithin, around, covers, first_page, holds, page_count};

use crate::size::size;
use std::marker::Model;

/// An aligned range of `2^l2` addresses, at least a page and at most the whole space.
#[derive(Clone, Copy, PartialEq, Eq)]
pub struct Block {
    base: u32,
    l2: u8,
}

impl Model for Block {
    ghost use Rattle.guard_math.specs.Block.{BlockValue, IsBlock, block_of};

    ghost Value = { BlockValue };

    ghost view = { λ b. block_of b.base b.l2 };

    ghost invariant = { λ b. IsBlock (block_of b.base b.l2) };

    ghost inverse = { λ v. record { base = v.base; l2 = v.l2 } };
}

impl Block {
    /// The block of `2^l2` addresses, `l2` from 12 to 32, in which the address lies.
    pub fn around(address: u32, l2: u8) -> Block
        requires low { 12 ≤ l2 }
        requires high { l2 ≤ 32 }
        ensures block { result ≡ around address l2 }
        ensures range { IsBlock result }
        ensures inside { covers result address ≡ true }
    {
        Block {
            base: base_of(address, l2),
            l2,
        }
    }

    /// The lowest address, a multiple of the size.
    pub fn base(self) -> u32
        ensures value { result ≡ self.base }
        ensures range { IsBlock self }
    {
        self.base
    }

    /// The logarithm of the size in bytes: 12 is one page, 32 the whole space.
    pub fn l2(self) -> u8
        ensures value { result ≡ self.l2 }
        ensures range { IsBlock self }
    {
        self.l2
    }

    /// Whether the address is one of the block's.
    pub fn contains(self, address: u32) -> bool
        ensures { result ≡ covers self address }
    {
        self.base() <= address && u64::from(address - self.base()) < size(self.l2())
    }

    /// The addresses that both blocks have. One of the two contains the other.
    pub fn meet(self, other: Block) -> Block
        requires { IsWithin self other ⊎ IsWithin other self }
        ensures both { (address : ℕ) →
            covers result address ≡ (covers self address && covers other address) }
        ensures one { (result ≡ self) ⊎ (result ≡ other) }
        ensures range { IsBlock result }
    {
        if self.l2() <= other.l2() { self } else { other }
    }

    /// The number of the first page of 4,096 bytes.
    pub fn first_page(self) -> u32
        ensures value { result ≡ first_page self }
        ensures range { IsBlock self }
    {
        self.base() / 4096
    }

    /// How many pages there are, 1 to `2^20`.
    pub fn page_count(self) -> u32
        ensures value { result ≡ page_count self }
        ensures range { IsBlock self }
    {
        (size(self.l2()) / 4096) as u32
    }

    /// Whether a page, by its number, is one of the block's.
    pub fn holds(self, page: u32) -> bool
        ensures value { result ≡ holds self page }
        ensures range { IsBlock self }
    {
        let first = self.first_page();
        first <= page && page - first < self.page_count()
    }
}

/// The lowest address of the block of `2^l2` addresses in which the address lies.
fn base_of(address: u32, l2: u8) -> u32
    requires { l2 ≤ 32 }
    ensures { result ≡ address / 2 ^ l2 * 2 ^ l2 }
{
    let size = size(l2);
    (u64::from(address) / size * size) as u32
}
