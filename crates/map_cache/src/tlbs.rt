//! The caches of all harts.

ghost use Rattle.std.specs.Prelude.{◌≡◌, ◌≢◌, ◌<◌, ◌/◌, [], ℕ, length, replicate, IfOk};
ghost use Rattle.tlb_model.specs.Tlb.{IsTlb, filled, look, without_block};
ghost use Rattle.map_cache.specs.Cache.{tlb_at};

use guard_math::Block;
use std::alloc::{AllocError, Global};
use sv32_tables::Leaf;
use tlb_model::Tlb;

/// Caches for so many harts, which hold nothing.
pub fn empty_tlbs(alloc: Global, harts: u8) -> Result<Vec<Tlb>, AllocError>
    ensures { IfOk result (λ tlbs. tlbs.items ≡ replicate harts []) }
{
    let mut tlbs = Vec::with_capacity(alloc, harts as usize)?;
    'harts: for hart in 0..harts {
        tlbs.push(Tlb::new())?;
    }
    Ok(tlbs)
}

/// The leaf that a hart holds for the page of an address.
pub fn seek(tlbs: &mut Vec<Tlb>, hart: u8, root: u16, va: u32) -> Option<Leaf>
    requires { hart < length tlbs.old.items }
    ensures leaf { result ≡ look (tlb_at tlbs.old.items hart) root (va / 4096) }
    ensures same { tlbs.new.items ≡ tlbs.old.items }
{
    tlbs[hart as usize].seek(root, va)
}

/// A hart holds this leaf for the page of an address.
pub fn hold(tlbs: &mut Vec<Tlb>, hart: u8, root: u16, va: u32, leaf: Leaf)
    requires { hart < length tlbs.old.items }
    ensures hart { tlb_at tlbs.new.items hart
        ≡ filled (tlb_at tlbs.old.items hart) root (va / 4096) leaf }
    ensures was { IsTlb (tlb_at tlbs.old.items hart) }
    ensures others { (k : ℕ) → k ≢ hart → tlb_at tlbs.new.items k ≡ tlb_at tlbs.old.items k }
    ensures harts { length tlbs.new.items ≡ length tlbs.old.items }
{
    tlbs[hart as usize].fill(root, va, leaf);
}

/// Drops what the harts hold for the pages of a block under a root.
pub fn drop_block(tlbs: &mut Vec<Tlb>, root: u16, block: Block)
    ensures tlbs { (k : ℕ) → tlb_at tlbs.new.items k
        ≡ without_block (tlb_at tlbs.old.items k) root block }
    ensures harts { length tlbs.new.items ≡ length tlbs.old.items }
{
    'harts: for hart in 0..tlbs.len() {
        tlbs[hart].drop_block(root, block);
    }
}

/// Drops all that the harts hold.
pub fn drop_all(tlbs: &mut Vec<Tlb>)
    ensures tlbs { (k : ℕ) → tlb_at tlbs.new.items k ≡ [] }
    ensures harts { length tlbs.new.items ≡ length tlbs.old.items }
{
    'harts: for hart in 0..tlbs.len() {
        tlbs[hart].drop_all();
    }
}
