//! What is written of the run of a schedule.
use coyotos_words::RunCommand;

/// What is written of the run of a schedule.
#[derive(Clone, Copy)]
pub enum ScheduleCommand {
    /// What this command of the program writes.
    Of(RunCommand),
    /// The counts of the run, in one line.
    Summary,
}
