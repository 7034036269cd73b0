//! The objects, and what their capabilities mean.
ghost use Rattle.std.specs.Prelude.{◌≡◌, ◌<◌, ◌≤◌, ◌↔◌, IsOk, IfOk, true};
ghost use Rattle.cap_format.specs.Capability.{bare, to_object};
ghost use Rattle.object_store.specs.Store.{empty_store, sizes_of, size_of, count_of, with_harts};
ghost use Rattle.object_store.specs.Meaning.{is_live, live, meaning};
ghost use Rattle.object_store.specs.Ranges.{IsRanged, IsSized, IsStore, IsWithinLimits};
ghost use Rattle.object_store.specs.Ahead.{IsBehind, NoneAhead};

mod contents;
mod copies;
mod counted;
mod items;

use crate::counts::Counts;
use crate::sizes::Sizes;
use crate::tables::table;
use cap_format::{Cap, CapKind, OutOfMemory};
pub use counted::CountSpent;
use endpoint_objects::Endpoint;
use gpt_objects::Gpt;
use page_store::{CapPage, Page};
use process_objects::Process;
use std::alloc::Global;
use std::marker::Model;

/// There is no such object.
#[derive(Clone, Copy, Debug)]
pub struct NoObject;

/// All objects of a machine.
#[derive(Drop)]
pub struct Objects {
    harts: u8,
    counts: Counts,
    gpts: Vec<Gpt>,
    pages: Vec<Page>,
    cappages: Vec<CapPage>,
    processes: Vec<Process>,
    endpoints: Vec<Endpoint>,
}

impl Model for Objects {
    ghost use Rattle.object_store.specs.Store.{Store, store_of};
    ghost use Rattle.object_store.specs.Ranges.{IsStore};

    ghost Value = { Store };

    ghost view = { λ o. store_of o.harts o.counts o.gpts.items o.pages.items o.cappages.items
        o.processes.items o.endpoints.items };

    ghost invariant = { λ o. IsStore (store_of o.harts o.counts o.gpts.items o.pages.items
        o.cappages.items o.processes.items o.endpoints.items) };
}

impl Objects {
    /// Empty objects with count 0.
    pub fn new(alloc: Global, sizes: Sizes) -> Result<Objects, OutOfMemory>
        requires { IsWithinLimits sizes }
        ensures value { IfOk result (λ objects. objects ≡ empty_store sizes) }
        ensures none_ahead { IfOk result (λ objects. NoneAhead objects) }
    {
        Ok(Objects {
            harts: sizes.harts,
            counts: Counts::new(alloc, sizes)?,
            gpts: table(alloc, sizes.gpts)?,
            pages: table(alloc, sizes.pages)?,
            cappages: table(alloc, sizes.cappages)?,
            processes: table(alloc, sizes.processes)?,
            endpoints: table(alloc, sizes.endpoints)?,
        })
    }

    pub fn sizes(&self) -> Sizes
        ensures value { result ≡ sizes_of self.now }
        ensures sized { IsStore self.now }
    {
        Sizes {
            harts: self.harts,
            pages: self.pages.len() as u16,
            cappages: self.cappages.len() as u16,
            gpts: self.gpts.len() as u16,
            processes: self.processes.len() as u16,
            endpoints: self.endpoints.len() as u16,
        }
    }

    /// The same objects are those of a machine with so many harts from now on.
    pub fn set_harts(&mut self, harts: u8)
        requires some { 1 ≤ harts }
        requires most { harts ≤ 8 }
        ensures { self.new ≡ with_harts self.old harts }
    {
        self.harts = harts;
    }

    /// Every count, header and slot is in its range, and each object has its count.
    pub fn in_ranges(&self)
        ensures ranged { IsRanged self.now.items }
        ensures sized { IsSized self.now.harts self.now.items.counts self.now.contents }
    {
        let _harts = self.harts;
    }

    /// The meaning of a capability: itself where it is live or names no object, and Null otherwise.
    pub fn live(&self, cap: Cap) -> Cap
        ensures value { result ≡ live self.now.items cap }
        ensures means { bare result ≡ meaning self.now.items cap }
        ensures is_live { is_live self.now.items result ≡ true }
        ensures behind { IsBehind self.now.items result }
    {
        let kind = cap.kind();
        if !kind.is_counted() {
            return cap;
        }
        let counts = self.counts.of(kind.object_kind());
        match counts.get(cap.object() as usize) {
            Some(count) if *count == cap.count() => cap,
            _ => Cap::null(),
        }
    }

    /// A capability to an object, without restrictions, through which all of it is seen.
    pub fn cap_to(&self, kind: CapKind, number: u32) -> Result<Cap, NoObject>
        ensures exactly { IsOk result ↔ (number < size_of self.now.items kind) }
        ensures value { IfOk result
            (λ cap. cap ≡ to_object kind number (count_of self.now.items kind number)) }
        ensures means { IfOk result (λ cap. meaning self.now.items cap ≡ to_object kind number 0) }
        ensures is_live { IfOk result (λ cap. is_live self.now.items cap ≡ true) }
        ensures behind { IfOk result (λ cap. IsBehind self.now.items cap) }
    {
        match self.counts.of(kind).get(number as usize) {
            Some(count) => Ok(Cap::to_object(kind, number as u16, *count)),
            None => Err(NoObject),
        }
    }
}
