//! What a process does.
use crate::accept::Accept;
use cap_format::FaultCode;

/// Whether a process runs, and if not, for what it waits.
#[derive(Clone, Copy)]
pub enum State {
    Running,
    Receiving(Accept),
    /// With the code 0 it was stopped.
    Faulted { code: FaultCode, address: u32 },
}

impl State {
    ghost use Rattle.process_objects.specs.State.{IsState};

    /// Does nothing: its contract tells callers what every state keeps.
    pub fn tell_range(&self)
        ensures { IsState self.now }
    {
        if let State::Receiving(accept) = self {
            let _range = accept.caps();
        }
    }
}
