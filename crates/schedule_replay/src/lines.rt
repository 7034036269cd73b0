//! The lines behind a listing, one after the other.
ghost use Rattle.std.specs.Prelude.{◌≡◌, ◌≢◌, ◌<◌, ◌≤◌, ◌+◌, IfOk, IfSome, OnOk, false, true};
ghost use Rattle.coy_io.specs.Limits.{input_limit};
ghost use Rattle.coy_io.specs.Causes.{Rose};
ghost use Rattle.coy_io.specs.Reader.{TellsEnd};
ghost use Rattle.listing_read.specs.Schedule.{IsTimed};
ghost use Rattle.listing_read.specs.declared.fault.ScheduleFault.TheVariants.{LineTooLong};
ghost use Rattle.judged_lines.specs.declared.stop.Stop.{Stop};
ghost use Rattle.schedule_replay.specs.Asked.{AsksNext};
ghost use Rattle.schedule_replay.specs.Scheduled.{IsNextLine, JudgesTimed};

use coy_io::{LineReader, Source};
use judged_lines::{Judge, judge_next};
use listing_read::{ScheduleFault, Timed, read_event};

/// Why there is no further line of a schedule.
pub type Stop = judged_lines::Stop<ScheduleFault>;

/// Judges the lines of a schedule, on a machine with so many harts.
#[derive(Clone, Copy)]
struct ScheduleLines {
    harts: u8,
}

impl Judge for ScheduleLines {
    type Made = ();

    type Said = Option<Timed>;

    type Fault = ScheduleFault;

    ghost judged = { λ judge. JudgesTimed judge.harts };

    ghost long = { λ _. LineTooLong };

    fn judge(&self, line: &[u8], _made: &mut ()) -> Result<Option<Timed>, ScheduleFault> {
        read_event(line, self.harts)
    }

    fn too_long(&self) -> ScheduleFault {
        ScheduleFault::LineTooLong
    }
}

/// Reads the next line, and answers what it asks for, which is nothing where the line is skipped.
pub fn next_line<S: Source>(
    lines: &mut LineReader,
    source: &mut S,
    harts: u8,
) -> Result<Option<Timed>, Stop>
    requires { lines.old.failed ≡ false }
    ensures next { IsNextLine harts lines.old lines.new
        (S.held source.old) (S.held source.new) result }
    ensures asked { AsksNext harts lines.old lines.new
        (S.held source.old) (S.held source.new) result }
    ensures timed { IfOk result (λ asked. IfSome asked (IsTimed harts)) }

    // What happens to the reader.
    ensures shorter { OnOk result (lines.new.room < lines.old.room) }
    ensures number { OnOk result (lines.new.number ≡ lines.old.number + 1) }
    ensures bound { OnOk result (lines.new.number ≤ input_limit + 1) }
    ensures going { OnOk result (lines.new.failed ≡ false) }
    ensures told { TellsEnd lines.old (S.held source.old) → TellsEnd lines.new (S.held source.new) }
    ensures end { result ≡ Err Stop.End → lines.new.ended ≡ true }

    // What happens to the source.
    ensures read { result ≡ Err Stop.ReadFault → Rose (S.faults source.old) (S.faults source.new) }
    ensures quiet { result ≢ Err Stop.ReadFault → S.faults source.new ≡ S.faults source.old }
{
    judge_next(&ScheduleLines { harts }, &mut (), lines, source)
}
