ghost use Rattle.std.specs.Prelude.{◌≡◌, ◌==◌, ◌<◌, ◌≤◌, ◌++◌, ◌∷◌, [], length, slice_get, slice_index};
ghost use Rattle.schedules.specs.Queues.{without, first_of, rest_of, stands_in};

use arrayvec::ArrayVec;
use std::marker::Model;

/// Processes in the order in which they are served. It has room for every process of a machine.
#[derive(Drop)]
pub struct ProcessList {
    list: ArrayVec<u16, 256>,
}

impl Model for ProcessList {
    ghost use Rattle.std.specs.Prelude.{List, ℕ};

    ghost Value = { List ℕ };

    ghost view = { λ l. l.list.items };
}

impl ProcessList {
    pub fn new() -> ProcessList
        ensures { result ≡ [] }
    {
        ProcessList {
            list: ArrayVec::new(),
        }
    }

    pub fn is_empty(&self) -> bool
        ensures { result ≡ (length self.now == 0) }
    {
        self.list.is_empty()
    }

    /// The process at this place from the front, counted from 0.
    pub fn get(&self, place: u16) -> Option<u16>
        ensures value { result ≡ slice_get self.now place }
        ensures bound { length self.now ≤ 256 }
    {
        self.list.as_slice().get(place as usize).copied()
    }

    /// The process that is served first.
    pub fn first(&self) -> Option<u16>
        ensures { result ≡ first_of self.now }
    {
        if self.list.is_empty() {
            return None;
        }
        Some(self.list.as_slice()[0])
    }

    pub fn len(&self) -> usize
        ensures { result ≡ length self.now }
    {
        self.list.len()
    }

    /// The process at this place, which is one of the list's.
    pub fn at(&self, place: usize) -> u16
        requires { place < length self.now }
        ensures { result ≡ slice_index self.now place }
    {
        self.list.as_slice()[place]
    }

    pub fn contains(&self, process: u16) -> bool
        ensures { result ≡ stands_in self.now process }
    {
        self.list.as_slice().contains(&process)
    }

    /// Becomes a copy of another list.
    pub fn copy_from(&mut self, from: &ProcessList)
        ensures { self.new ≡ from.now }
    {
        self.list.clear();
        let _fits = self.list.try_extend_from_slice(from.list.as_slice());
    }

    pub fn push_last(&mut self, process: u16)
        requires { length self.old < 256 }
        ensures { self.new ≡ self.old ++ process ∷ [] }
    {
        self.list.push(process);
    }

    pub fn pop_first(&mut self) -> Option<u16>
        ensures first { result ≡ first_of self.old }
        ensures rest { self.new ≡ rest_of self.old }
    {
        if self.list.is_empty() {
            return None;
        }
        Some(self.list.remove(0))
    }

    /// Takes the process out, wherever it stands here.
    pub fn remove(&mut self, process: u16)
        ensures { self.new ≡ without process self.old }
    {
        self.list.retain(|other| *other != process);
    }
}
