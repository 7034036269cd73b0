//! The allocation counts of all objects.
ghost use Rattle.std.specs.Prelude.{◌≡◌, ◌<◌, ◌^◌, length, IfOk};
ghost use Rattle.object_store.specs.Store.{counts_of, recounted, new_counts};
ghost use Rattle.object_store.specs.Ranges.{AreCounts, IsWithinLimits};

use crate::sizes::Sizes;
use cap_format::{CapKind, OutOfMemory};
use std::alloc::Global;
use std::marker::Model;

/// One count for each object, by its kind and number.
#[derive(Drop)]
pub(crate) struct Counts {
    pages: Vec<u32>,
    cappages: Vec<u32>,
    gpts: Vec<u32>,
    processes: Vec<u32>,
    endpoints: Vec<u32>,
}

impl Model for Counts {
    ghost use Rattle.object_store.specs.Store.{CountsValue, counts_by_kind};
    ghost use Rattle.object_store.specs.Ranges.{AreCounts};

    ghost Value = { CountsValue };

    ghost view = { λ c. counts_by_kind c.pages.items c.cappages.items c.gpts.items
        c.processes.items c.endpoints.items };

    ghost invariant = { λ c. AreCounts (counts_by_kind c.pages.items c.cappages.items c.gpts.items
        c.processes.items c.endpoints.items) };
}

impl Counts {
    /// Count 0 for each object.
    pub fn new(alloc: Global, sizes: Sizes) -> Result<Counts, OutOfMemory>
        requires { IsWithinLimits sizes }
        ensures { IfOk result (λ counts. counts ≡ new_counts sizes) }
    {
        Ok(Counts {
            pages: vec![in alloc; 0; sizes.pages as usize]?,
            cappages: vec![in alloc; 0; sizes.cappages as usize]?,
            gpts: vec![in alloc; 0; sizes.gpts as usize]?,
            processes: vec![in alloc; 0; sizes.processes as usize]?,
            endpoints: vec![in alloc; 0; sizes.endpoints as usize]?,
        })
    }

    /// The counts of the objects of a kind, none where it is no kind of objects.
    pub fn of(&self, kind: CapKind) -> &[u32]
        ensures value { result.now ≡ counts_of self.now kind }
        ensures range { AreCounts self.now }
    {
        match kind {
            CapKind::Page => &self.pages,
            CapKind::CapPage => &self.cappages,
            CapKind::Gpt => &self.gpts,
            CapKind::Process => &self.processes,
            CapKind::Endpoint => &self.endpoints,
            _ => &[],
        }
    }

    /// Gives an object another count.
    pub fn set(&mut self, kind: CapKind, number: u16, count: u32)
        requires there { number < length (counts_of self.old kind) }
        requires fits { count < 2 ^ 20 }
        ensures { self.new ≡ recounted self.old kind number count }
    {
        let n = number as usize;
        match kind {
            CapKind::Page => self.pages[n] = count,
            CapKind::CapPage => self.cappages[n] = count,
            CapKind::Gpt => self.gpts[n] = count,
            CapKind::Process => self.processes[n] = count,
            CapKind::Endpoint => self.endpoints[n] = count,
            _ => {}
        }
    }
}
