//! The lines behind a listing, where no event may stand.
ghost use Rattle.std.specs.Prelude.{◌≡◌, ◌≢◌, false, true};
ghost use Rattle.coy_io.specs.Causes.{Rose};
ghost use Rattle.coy_io.specs.Reader.{TellsEnd};
ghost use Rattle.listing_read.specs.declared.fault.ScheduleFault.TheVariants.{LineTooLong};
ghost use Rattle.judged_lines.specs.declared.stop.Stop.{Stop};
ghost use Rattle.image_commands.specs.Passed.{JudgesEventless, PassesRest};

use coy_io::{LineReader, Source};
use judged_lines::{Judge, judge_all};
use listing_read::{ScheduleFault, read_eventless};
use schedule_replay::Stop;

/// Judges lines where no event may stand: each is skipped or refused.
#[derive(Clone, Copy)]
struct EventlessLines;

impl Judge for EventlessLines {
    type Made = ();

    type Said = ();

    type Fault = ScheduleFault;

    ghost judged = { λ _. JudgesEventless };

    ghost long = { λ _. LineTooLong };

    fn judge(&self, line: &[u8], _made: &mut ()) -> Result<(), ScheduleFault> {
        read_eventless(line)
    }

    fn too_long(&self) -> ScheduleFault {
        ScheduleFault::LineTooLong
    }
}

/// Reads the lines that the reader and the source have left, and answers why there is no further line: all of them are
/// skipped, or one is refused.
pub(crate) fn pass_lines<S: Source>(lines: &mut LineReader, source: &mut S) -> Stop
    requires { lines.old.failed ≡ false }
    ensures passes { PassesRest lines.old lines.new (S.held source.old) (S.held source.new) result }
    ensures told { TellsEnd lines.old (S.held source.old) → TellsEnd lines.new (S.held source.new) }
    ensures end { result ≡ Stop.End → lines.new.ended ≡ true }
    ensures read { result ≡ Stop.ReadFault → Rose (S.faults source.old) (S.faults source.new) }
    ensures quiet { result ≢ Stop.ReadFault → S.faults source.new ≡ S.faults source.old }
{
    judge_all(&EventlessLines, &mut (), lines, source)
}
