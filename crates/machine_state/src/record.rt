//! What an event tells.
ghost use Rattle.std.specs.Prelude.{⊤};

use crate::log_bytes::LogBytes;
use cap_format::{CapKind, FaultCode};
use rv32_decode::Insn;
use walk_meaning::Kind;

/// One thing that happened.
#[derive(Drop)]
pub enum Record {
    /// An access of a process reached this page or, for the capability kinds, this capability page.
    Access {
        process: u16,
        kind: Kind,
        address: u32,
        number: u16,
    },
    /// The word that was fetched at the address `at` is this instruction.
    Insn {
        process: u16,
        at: u32,
        insn: Insn,
    },
    /// A message was delivered: `length` bytes of a string and `caps` capabilities with it.
    Message {
        from: u16,
        to: u16,
        endpoint: u16,
        payload: u32,
        words: [u32; 4],
        length: u32,
        caps: u8,
    },
    /// A process faulted. The fault was delivered to another process, or to none.
    Fault {
        process: u16,
        code: FaultCode,
        address: u32,
        to: Option<u16>,
    },
    /// A process wrote these bytes to the kernel's log.
    Log {
        process: u16,
        bytes: LogBytes,
    },
    /// An object was destroyed.
    Destroy {
        kind: CapKind,
        number: u16,
    },
    /// A process halted the machine for good.
    Halt {
        process: u16,
    },
}

impl Default for Record {
    ghost is_default = { λ _. ⊤ };

    fn default() -> Record {
        Record::Halt { process: 0 }
    }
}
