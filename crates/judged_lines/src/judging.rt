//! The lines of an input, judged one after the other.
ghost use Rattle.std.specs.Prelude.{◌≡◌, ◌≢◌, ◌<◌, ◌≤◌, ◌+◌, OnOk, false, true};
ghost use Rattle.coy_io.specs.Limits.{input_limit};
ghost use Rattle.coy_io.specs.Causes.{Rose};
ghost use Rattle.coy_io.specs.Reader.{TellsEnd};
ghost use Rattle.judged_lines.specs.Judged.{IsAnswer, JudgesAll, JudgesNext};

use crate::judge::Judge;
use crate::stop::Stop;
use coy_io::{LineFault, LineReader, Source};

/// Reads the lines that the reader and the source have left, up to the first that is refused, and answers why there is no
/// further one. Each is judged before the next is read.
pub fn judge_all<S: Source, J: Judge<Said = ()>>(
    judge: &J,
    made: &mut J::Made,
    lines: &mut LineReader,
    source: &mut S,
) -> Stop<J::Fault>
    requires { lines.old.failed ≡ false }
    ensures judged { JudgesAll (J.judged judge.now) (J.long judge.now) made.old made.new
        lines.old lines.new (S.held source.old) (S.held source.new) result }

    // What happens to the reader.
    ensures told { TellsEnd lines.old (S.held source.old) → TellsEnd lines.new (S.held source.new) }
    ensures end { result ≡ Stop.End → lines.new.ended ≡ true }
    ensures going { result ≡ Stop.End → lines.new.failed ≡ false }

    // What happens to the source.
    ensures read { result ≡ Stop.ReadFault → Rose (S.faults source.old) (S.faults source.new) }
    ensures quiet { result ≢ Stop.ReadFault → S.faults source.new ≡ S.faults source.old }
{
    'lines: loop {
        match judge_next(judge, made, lines, source) {
            Ok(()) => {}
            Err(stop) => return stop,
        }
    }
}

/// Reads the next line and judges it. Where it is the last that the input has, the end is told by the next call.
pub fn judge_next<S: Source, J: Judge>(
    judge: &J,
    made: &mut J::Made,
    lines: &mut LineReader,
    source: &mut S,
) -> Result<J::Said, Stop<J::Fault>>
    requires { lines.old.failed ≡ false }
    ensures next { JudgesNext (J.judged judge.now) (J.long judge.now) made.old made.new
        lines.old lines.new (S.held source.old) (S.held source.new) result }

    // What happens to the reader.
    ensures shorter { OnOk result (lines.new.room < lines.old.room) }
    ensures number { OnOk result (lines.new.number ≡ lines.old.number + 1) }
    ensures bound { OnOk result (lines.new.number ≤ input_limit + 1) }
    ensures going { OnOk result (lines.new.failed ≡ false) }
    ensures told { TellsEnd lines.old (S.held source.old) → TellsEnd lines.new (S.held source.new) }
    ensures end { result ≡ Err Stop.End → lines.new.ended ≡ true }
    ensures over { result ≡ Err Stop.End → lines.new.failed ≡ false }

    // What happens to the source.
    ensures read { result ≡ Err Stop.ReadFault → Rose (S.faults source.old) (S.faults source.new) }
    ensures quiet { result ≢ Err Stop.ReadFault → S.faults source.new ≡ S.faults source.old }
{
    let number = lines.number();
    match lines.next(source) {
        Ok(Some(_)) => answer(judge, number, lines.line(), made),
        Ok(None) => Err(Stop::End),
        Err(LineFault::ReadFault) => Err(Stop::ReadFault),
        Err(LineFault::LineTooLong) => Err(refused(number, judge.too_long())),
        Err(LineFault::TooLong) => Err(Stop::TooLong),
    }
}

/// What a judge answers to the line behind so many.
fn answer<J: Judge>(
    judge: &J,
    number: u32,
    line: &[u8],
    made: &mut J::Made,
) -> Result<J::Said, Stop<J::Fault>>
    requires { number < 4294967295 }
    ensures { IsAnswer (J.judged judge.now) (number + 1) made.old line.now result made.new }
{
    match judge.judge(line, made) {
        Ok(said) => Ok(said),
        Err(fault) => Err(refused(number, fault)),
    }
}

/// The line behind so many is refused.
fn refused<F>(number: u32, fault: F) -> Stop<F>
    requires { number < 4294967295 }
    ensures { result ≡ Stop.Refused (number + 1) fault }
{
    Stop::Refused {
        line: number + 1,
        fault,
    }
}
