//! What can be wrong with a listing or a schedule.

use std::alloc::{AllocError, AllocFailed};

/// What is wrong with a line of a listing. Where several hold, the first of the line counts.
#[derive(Clone, Copy, Debug)]
pub enum Fault {
    /// The line has more than 512 bytes.
    LineTooLong,
    /// A byte is neither a space nor a visible character of ASCII.
    BadByte,
    /// The first line is neither `coyotos 1` nor `coyotos 2`.
    BadHeader,
    /// The second line is not `machine` with six sizes within the limits.
    BadMachine,
    /// The input ends before `end`.
    NoEnd,
    /// The first word is that of no statement.
    UnknownStatement,
    /// The statement has another number of words.
    WrongWords,
    /// A field is no number.
    BadNumber,
    /// The machine has no object of this number.
    NoObject,
    /// A field is out of its range.
    BadValue,
    /// The bytes of a page are not an even number of 2 to 128 hexadecimal digits.
    BadHex,
    /// The instruction is none of the assembler's.
    BadInstruction,
    /// The word spells no capability.
    BadCap,
    /// A guard is out of its range, or an offset is no multiple of its size.
    BadGuard,
    /// What is to be a name, or stands behind a `$`, is none.
    BadName,
    /// An earlier line gave the name.
    NameTaken,
    /// No earlier line gave the name to an object of the kind that is wanted.
    NameUnknown,
}

/// What is wrong with a line of a schedule. Where several hold, the first of the line counts.
#[derive(Clone, Copy, Debug)]
pub enum ScheduleFault {
    /// The line has more than 512 bytes.
    LineTooLong,
    /// A byte is neither a space nor a visible character of ASCII.
    BadByte,
    /// The first word is that of no event.
    UnknownEvent,
    /// The line has another number of words.
    WrongWords,
    /// A field is no number.
    BadNumber,
    /// The machine has no such hart.
    NoHart,
    /// The number of times is not from 1 to 1,000,000.
    BadRepeat,
    /// The line is not skipped, where no event may stand.
    EventInPack,
}

/// Why there is no listing.
#[derive(Clone, Copy, Debug)]
pub enum ListingFault {
    /// The first fault, and the number of its line. At the end of the input the line is the one behind the last.
    Refused { line: u32, fault: Fault },
    /// The source failed.
    ReadFault,
    /// The listing goes on behind the last byte that is read.
    TooLong,
    /// Memory ran out.
    OutOfMemory,
}

impl From<AllocError> for ListingFault {
    ghost use Rattle.std.specs.Prelude.{◌≡◌};
    ghost use Rattle.listing_read.specs.declared.fault.ListingFault.TheVariants.{OutOfMemory};

    ghost from_gives = { λ _ e. e ≡ OutOfMemory };

    fn from(_error: AllocError) -> ListingFault {
        ListingFault::OutOfMemory
    }
}

impl<T: Drop> From<AllocFailed<T>> for ListingFault {
    ghost use Rattle.std.specs.Prelude.{◌≡◌};
    ghost use Rattle.listing_read.specs.declared.fault.ListingFault.TheVariants.{OutOfMemory};

    ghost from_gives = { λ _ e. e ≡ OutOfMemory };

    fn from(_error: AllocFailed<T>) -> ListingFault {
        ListingFault::OutOfMemory
    }
}
