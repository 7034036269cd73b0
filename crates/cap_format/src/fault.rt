//! Why a process does not run.

ghost use Rattle.std.specs.Prelude.{◌≡◌, ◌<◌};
ghost use Rattle.cap_format.specs.Codes.{fault_number};

/// The reason for which a process is faulted.
#[derive(Clone, Copy, Debug, PartialEq, Eq)]
pub enum FaultCode {
    /// No fault: it was stopped, or never ran.
    Stopped,
    InvalidDataReference,
    InvalidCapReference,
    DataAccessTypeError,
    CapAccessTypeError,
    AccessViolation,
    MalformedSpace,
    NoSchedule,
    MalformedSyscall,
    BadAlign,
    BadOpcode,
    Breakpoint,
}

impl FaultCode {
    /// The fault's number, 0 to 11.
    pub fn number(self) -> u32
        ensures value { result ≡ fault_number self }
        ensures range { result < 12 }
    {
        match self {
            FaultCode::Stopped => 0,
            FaultCode::InvalidDataReference => 1,
            FaultCode::InvalidCapReference => 2,
            FaultCode::DataAccessTypeError => 3,
            FaultCode::CapAccessTypeError => 4,
            FaultCode::AccessViolation => 5,
            FaultCode::MalformedSpace => 6,
            FaultCode::NoSchedule => 7,
            FaultCode::MalformedSyscall => 8,
            FaultCode::BadAlign => 9,
            FaultCode::BadOpcode => 10,
            FaultCode::Breakpoint => 11,
        }
    }
}
