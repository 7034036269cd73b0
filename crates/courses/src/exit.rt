//! How the program ends.
ghost use Rattle.std.specs.Prelude.{◌≡◌};
ghost use Rattle.std.specs.Process.{exit_status};
ghost use Rattle.courses.specs.Exit.{status_of};

use image_binary::ImageWord;
use listing_read::{CutFault, Fault, PolicyFault, QuestionFault, ScheduleFault};
use std::process::ExitCode;

/// How the program ends.
#[derive(Clone, Copy)]
pub enum Exit {
    /// All was done.
    Done,
    /// The words are of no form.
    Usage,
    /// The listing was refused, at its first fault.
    ListingRefused { line: u32, fault: Fault },
    /// A line of the schedule was refused, the first that has a fault.
    ScheduleRefused { line: u32, fault: ScheduleFault },
    /// Reading failed.
    ReadFault,
    /// Writing failed.
    WriteFault,
    /// Memory ran out, with nothing written.
    OutOfMemory,
    /// The input goes on behind the last byte that is read.
    TooLong,
    /// The image was refused, at its first fault, by the offset of the field that has it.
    ImageRefused { offset: u32, fault: ImageWord },
    /// A line of the cut was refused, the first that has a fault.
    CutRefused { line: u32, fault: CutFault },
    /// A line of the policy was refused, the first that has a fault. `separation` alone ends so.
    PolicyRefused { line: u32, fault: PolicyFault },
    /// All was done, and crossings were told that the policy doesn't allow. `separation` alone ends so.
    Crossings,
    /// A line of the question was refused, the first that has a fault. `explore` alone ends so.
    QuestionRefused { line: u32, fault: QuestionFault },
    /// All was done, and a state was told that isn't as the question says. `explore` alone ends so.
    Violated,
    /// All was done that a limit of the question let be done: states are left. `explore` alone ends so.
    Open,
}

impl Exit {
    /// The status with which the program ends.
    pub fn status(&self) -> u8
        ensures { result ≡ status_of self.now }
    {
        match self {
            Exit::Done => 0,
            Exit::Usage => 1,
            Exit::ListingRefused { .. } => 2,
            Exit::ScheduleRefused { .. } => 3,
            Exit::ReadFault => 4,
            Exit::WriteFault => 5,
            Exit::OutOfMemory => 6,
            Exit::TooLong => 7,
            Exit::ImageRefused { .. } => 8,
            Exit::CutRefused { .. } => 9,
            Exit::PolicyRefused { .. } => 9,
            Exit::Crossings => 10,
            Exit::QuestionRefused { .. } => 9,
            Exit::Violated => 10,
            Exit::Open => 11,
        }
    }

    /// What `main` returns, so that the process ends with the status.
    pub fn code(&self) -> ExitCode
        ensures { exit_status result ≡ status_of self.now }
    {
        ExitCode::from(self.status())
    }
}
