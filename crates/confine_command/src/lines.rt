//! The lines of a cut, one after the other.
ghost use Rattle.std.specs.Prelude.{◌≡◌, ◌≢◌, false, true};
ghost use Rattle.coy_io.specs.Causes.{Rose};
ghost use Rattle.coy_io.specs.Reader.{TellsEnd};
ghost use Rattle.listing_read.specs.declared.object_fault.CutFault.TheVariants.{LineTooLong};
ghost use Rattle.confine_command.specs.Stated.{JudgesCut, StatesRest};

use confine_check::{Cut, CutFault, read_cut};
use coy_io::{LineReader, Source};
use judged_lines::{Judge, Stop, judge_all};

/// Judges the lines of a cut, and puts on the left what they name.
#[derive(Clone, Copy)]
struct CutLines;

impl Judge for CutLines {
    type Made = Cut;

    type Said = ();

    type Fault = CutFault;

    ghost judged = { λ _. JudgesCut };

    ghost long = { λ _. LineTooLong };

    fn judge(&self, line: &[u8], cut: &mut Cut) -> Result<(), CutFault> {
        read_cut(line, cut)
    }

    fn too_long(&self) -> CutFault {
        CutFault::LineTooLong
    }
}

/// Reads the lines of a cut up to where they end, and puts on the left what they name. It answers why there is no
/// further line.
pub(crate) fn read_sides<S: Source>(
    lines: &mut LineReader,
    source: &mut S,
    cut: &mut Cut,
) -> Stop<CutFault>
    requires { lines.old.failed ≡ false }
    ensures states { StatesRest cut.old cut.new lines.old
        lines.new (S.held source.old) (S.held source.new) result }
    ensures told { TellsEnd lines.old (S.held source.old) → TellsEnd lines.new (S.held source.new) }
    ensures end { result ≡ Stop.End → lines.new.ended ≡ true }
    ensures read { result ≡ Stop.ReadFault → Rose (S.faults source.old) (S.faults source.new) }
    ensures quiet { result ≢ Stop.ReadFault → S.faults source.new ≡ S.faults source.old }
{
    judge_all(&CutLines, cut, lines, source)
}
