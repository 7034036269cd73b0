use crate::at::At;
use crate::place::Place;
use cap_format::FaultCode;

/// What one capability makes of a walk.
#[derive(Clone, Copy)]
pub enum Step {
    /// The walk ends here.
    Reach(Place),
    /// The walk ends in a fault, which slot 15 of this GPT handles.
    Fault(FaultCode, Option<u16>),
    /// The walk goes on with this slot (the second number) of this GPT (the first).
    Go(At, u16, u8),
}
