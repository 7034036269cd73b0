//! The side of each object.
ghost use Rattle.std.specs.Prelude.{◌≡◌, ◌≤◌, ◌<◌, length, IfOk};
ghost use Rattle.confinement.specs.Cut.{sides_of, side_of};
ghost use Rattle.confine_check.specs.Sides.{cut_of, all_right, with_left, left_between, lefts_in, rights_in, left_count, right_count};

use crate::block::Block;
use cap_format::{CapKind, OutOfMemory};
use confinement::CutSide;
use object_store::Sizes;
use std::alloc::Global;
use std::marker::Model;

/// One side for each object, by its kind and number.
#[derive(Drop)]
pub struct Cut {
    pages: Vec<CutSide>,
    cappages: Vec<CutSide>,
    gpts: Vec<CutSide>,
    processes: Vec<CutSide>,
    endpoints: Vec<CutSide>,
}

impl Model for Cut {
    ghost use Rattle.confinement.specs.Cut.{Sides};
    ghost use Rattle.confine_check.specs.Sides.{sides_by_kind, AreSized};

    ghost Value = { Sides };

    ghost view = { λ c. sides_by_kind c.pages.items c.cappages.items c.gpts.items
        c.processes.items c.endpoints.items };

    ghost invariant = { λ c. AreSized (sides_by_kind c.pages.items c.cappages.items c.gpts.items
        c.processes.items c.endpoints.items) };
}

impl Cut {
    /// All objects of a machine of these sizes are on the right.
    pub fn new(alloc: Global, sizes: Sizes) -> Result<Cut, OutOfMemory>
        ensures { IfOk result (λ cut. cut ≡ all_right sizes) }
    {
        Ok(Cut {
            pages: vec![in alloc; CutSide::Right; sizes.pages as usize]?,
            cappages: vec![in alloc; CutSide::Right; sizes.cappages as usize]?,
            gpts: vec![in alloc; CutSide::Right; sizes.gpts as usize]?,
            processes: vec![in alloc; CutSide::Right; sizes.processes as usize]?,
            endpoints: vec![in alloc; CutSide::Right; sizes.endpoints as usize]?,
        })
    }

    /// The sides of the objects of a kind, none where it is no kind of objects.
    fn of(&self, kind: CapKind) -> &[CutSide]
        ensures value { result.now ≡ sides_of self.now kind }
        ensures small { length result.now < 65536 }
    {
        match kind {
            CapKind::Page => &self.pages,
            CapKind::CapPage => &self.cappages,
            CapKind::Gpt => &self.gpts,
            CapKind::Process => &self.processes,
            CapKind::Endpoint => &self.endpoints,
            _ => &[],
        }
    }

    /// How many objects of a kind have a side.
    pub(crate) fn size(&self, kind: CapKind) -> usize
        ensures value { result ≡ length (sides_of self.now kind) }
        ensures small { result < 65536 }
    {
        self.of(kind).len()
    }

    /// The side of an object. One that has none is on the right.
    pub fn side_of(&self, kind: CapKind, number: u32) -> CutSide
        ensures { result ≡ side_of (cut_of self.now) kind number }
    {
        match self.of(kind).get(number as usize) {
            Some(side) => *side,
            None => CutSide::Right,
        }
    }

    /// How many objects are on the left.
    pub fn left_count(&self) -> u32
        ensures { result ≡ left_count self.now }
    {
        lefts(&self.pages)
            + lefts(&self.cappages)
            + lefts(&self.gpts)
            + lefts(&self.processes)
            + lefts(&self.endpoints)
    }

    /// How many objects are on the right.
    pub fn right_count(&self) -> u32
        ensures { result ≡ right_count self.now }
    {
        rights(&self.pages)
            + rights(&self.cappages)
            + rights(&self.gpts)
            + rights(&self.processes)
            + rights(&self.endpoints)
    }

    /// Puts objects on the left.
    pub(crate) fn put_left(&mut self, block: Block)
        requires order { block.from ≤ block.to }
        requires there { block.to < length (sides_of self.old block.kind) }
        ensures { self.new ≡ with_left self.old block }
    {
        let from = block.from as usize;
        let to = block.to as usize;
        match block.kind {
            CapKind::Page => put_between(&mut self.pages, from, to),
            CapKind::CapPage => put_between(&mut self.cappages, from, to),
            CapKind::Gpt => put_between(&mut self.gpts, from, to),
            CapKind::Process => put_between(&mut self.processes, from, to),
            CapKind::Endpoint => put_between(&mut self.endpoints, from, to),
            _ => {}
        }
    }
}

/// Puts the elements from `from` to `to` on the left.
fn put_between(sides: &mut [CutSide], from: usize, to: usize)
    requires order { from ≤ to }
    requires there { to < length sides.old }
    ensures { sides.new ≡ left_between sides.old from to }
{
    sides[from..=to].fill(CutSide::Left);
}

/// How many of these are on the left.
fn lefts(sides: &[CutSide]) -> u32
    requires { length sides.now < 65536 }
    ensures value { result ≡ lefts_in sides.now }
    ensures most { result ≤ length sides.now }
{
    sides.iter().filter(|side| **side == CutSide::Left).count() as u32
}

/// How many of these are on the right.
fn rights(sides: &[CutSide]) -> u32
    requires { length sides.now < 65536 }
    ensures value { result ≡ rights_in sides.now }
    ensures most { result ≤ length sides.now }
{
    sides.iter().filter(|side| **side == CutSide::Right).count() as u32
}
