//! Names of faults in the output.
ghost use Rattle.std.specs.Prelude.{◌≡◌, ◌≤◌, length};
ghost use Rattle.run_text.specs.Names.{fault_name};

use cap_format::FaultCode;

/// A fault's name.
pub(crate) fn fault_name(code: FaultCode) -> &'static str
    ensures name { result.now ≡ fault_name code }
    ensures len { length result.now ≤ 20 }
{
    match code {
        FaultCode::Stopped => "Stopped",
        FaultCode::InvalidDataReference => "InvalidDataReference",
        FaultCode::InvalidCapReference => "InvalidCapReference",
        FaultCode::DataAccessTypeError => "DataAccessTypeError",
        FaultCode::CapAccessTypeError => "CapAccessTypeError",
        FaultCode::AccessViolation => "AccessViolation",
        FaultCode::MalformedSpace => "MalformedSpace",
        FaultCode::NoSchedule => "NoSchedule",
        FaultCode::MalformedSyscall => "MalformedSyscall",
        FaultCode::BadAlign => "BadAlign",
        FaultCode::BadOpcode => "BadOpcode",
        FaultCode::Breakpoint => "Breakpoint",
    }
}
