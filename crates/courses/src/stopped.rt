//! The exit of lines of which not all were read.
ghost use Rattle.std.specs.Prelude.{◌≡◌};
ghost use Rattle.courses.specs.Stopped.{listing_exit, replay_exit, stop_exit};
ghost use Rattle.courses.specs.declared.exit.Exit.TheVariants.{ScheduleRefused};

use crate::exit::Exit;
use listing_read::ListingFault;
use schedule_replay::{Counts, Replayed, Stop};

/// The exit where there is no listing.
pub(crate) fn listing_exit(fault: ListingFault) -> Exit
    ensures { result ≡ listing_exit fault }
{
    match fault {
        ListingFault::Refused { line, fault } => Exit::ListingRefused { line, fault },
        ListingFault::TooLong => Exit::TooLong,
        ListingFault::ReadFault => Exit::ReadFault,
        ListingFault::OutOfMemory => Exit::OutOfMemory,
    }
}

/// The exit of the lines of a schedule, or `None` where all of them were read.
pub fn schedule_exit(stop: Stop) -> Option<Exit>
    ensures { result ≡ stop_exit ScheduleRefused stop }
{
    match stop {
        Stop::End => None,
        Stop::Refused { line, fault } => Some(Exit::ScheduleRefused { line, fault }),
        Stop::TooLong => Some(Exit::TooLong),
        Stop::ReadFault => Some(Exit::ReadFault),
    }
}

/// The counts of a replay of which all lines were read and all events run, or its exit.
pub fn counts_or_exit(answer: Replayed) -> Result<Counts, Exit>
    ensures { result ≡ replay_exit answer }
{
    match answer {
        Replayed::Ended(counts) => Ok(counts),
        Replayed::Refused { line, fault } => Err(Exit::ScheduleRefused { line, fault }),
        Replayed::TooLong => Err(Exit::TooLong),
        Replayed::ReadFault => Err(Exit::ReadFault),
        Replayed::WriteFault => Err(Exit::WriteFault),
    }
}
