//! That a system call is malformed.

/// The registers are no invocation.
#[derive(Clone, Copy, Debug)]
pub struct MalformedSyscall;
