use cap_format::{Cap, CapKind, FaultCode, Restr};

/// Where a walk ended.
#[derive(Clone, Copy)]
pub struct Place {
    /// `Page` or `CapPage`.
    pub kind: CapKind,
    /// The object's number.
    pub number: u16,
    /// The offset in the object in bytes, below 4,096. A capability's slot is this over 16.
    pub offset: u16,
    /// All restrictions that were met on the way.
    pub restr: Restr,
}

/// Why a walk reached nothing.
#[derive(Clone, Copy)]
pub struct WalkFault {
    /// What was wrong.
    pub code: FaultCode,
    /// The capability that is asked to handle the fault first: slot 15 of the handler GPT, or None
    /// where the walk met no handler GPT.
    pub handler: Option<Cap>,
}
