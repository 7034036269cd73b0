//! What is watched.
ghost use Rattle.std.specs.Prelude.{◌≡◌, ◌++◌, [], ◌∷◌, OnOk, OnErr};
ghost use Rattle.schedules.specs.Queues.{stands_in};
ghost use Rattle.quiet_finding.specs.Watched.{watched};

use cap_format::OutOfMemory;
use std::alloc::Global;
use std::marker::Model;

/// The processes whose registers are watched, and the pages whose bytes are.
#[derive(Drop)]
pub struct Watched {
    processes: Vec<u16>,
    pages: Vec<u16>,
}

impl Model for Watched {
    ghost use Rattle.quiet_finding.specs.Watched.{WatchedValue, watched};

    ghost Value = { WatchedValue };

    ghost view = { λ w. watched w.processes.items w.pages.items };
}

impl Watched {
    /// Nothing is watched.
    pub fn new(alloc: Global) -> Watched
        ensures { result ≡ watched [] [] }
    {
        Watched {
            processes: Vec::new(alloc),
            pages: Vec::new(alloc),
        }
    }

    /// The pc and registers of a process are watched as well.
    pub fn watch_process(&mut self, p: u16) -> Result<(), OutOfMemory>
        ensures ok { OnOk result (self.new ≡ watched (self.old.processes ++ p ∷ []) self.old.pages) }
        ensures err { OnErr result (self.new ≡ self.old) }
    {
        self.processes.push(p)?;
        Ok(())
    }

    /// The bytes of a page are watched as well.
    pub fn watch_page(&mut self, n: u16) -> Result<(), OutOfMemory>
        ensures ok { OnOk result (self.new ≡ watched self.old.processes (self.old.pages ++ n ∷ [])) }
        ensures err { OnErr result (self.new ≡ self.old) }
    {
        self.pages.push(n)?;
        Ok(())
    }

    /// Whether a process is watched.
    pub fn has_process(&self, p: u16) -> bool
        ensures { result ≡ stands_in self.now.processes p }
    {
        self.processes.iter().any(|x| *x == p)
    }

    /// The pages that are watched.
    pub fn pages(&self) -> &[u16]
        ensures { result.now ≡ self.now.pages }
    {
        &self.pages
    }
}
