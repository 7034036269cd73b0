//! The lines behind a listing, with their events counted and none run.
ghost use Rattle.std.specs.Prelude.{◌≡◌, ◌≤◌, length, false, true, IfSome};
ghost use Rattle.coy_io.specs.Reader.{TellsEnd};
ghost use Rattle.listing_read.specs.Schedule.{IsTimed};
ghost use Rattle.schedule_replay.specs.Replay.{Counted, HasReasons};
ghost use Rattle.schedule_replay.specs.Scheduled.{asked_events};

use crate::counts::Counts;
use crate::lines::{Stop, next_line};
use crate::replayed::Replayed;
use crate::replaying::stop_answer;
use coy_io::{LineReader, Source};
use listing_read::Timed;

/// Counts the events of the lines that the reader and the source have left, on a machine with so many harts. None is run, and
/// the answer is never a fault of writing. The counts are those of events alone.
pub fn count_lines<S: Source>(lines: &mut LineReader, source: &mut S, harts: u8) -> Replayed
    requires { lines.old.failed ≡ false }
    ensures counted { Counted harts lines.old lines.new
        (S.held source.old) (S.held source.new) result }
    ensures reasons { HasReasons (S.faults source.old) (S.faults source.new) 0 0 result }
    ensures told { TellsEnd lines.old (S.held source.old) → TellsEnd lines.new (S.held source.new) }
    ensures end { (counts : Counts) → result ≡ Replayed.Ended counts → lines.new.ended ≡ true }
{
    let mut events: u64 = 0;
    'lines: loop {
        match next_line(lines, source, harts) {
            Ok(asked) => events += events_in(asked, harts),
            Err(stop) => return stop_answer(stop, Counts::of_events(events)),
        }
    }
}

/// How many events a line stands for.
#[tactic(auto, using(crate::proofs::Rounds::length_rounds, crate::proofs::Rounds::length_steps))]
fn events_in(asked: Option<Timed>, harts: u8) -> u64
    requires { IfSome asked (IsTimed harts) }
    ensures count { result ≡ length (asked_events harts asked) }
    ensures most { result ≤ 255000000 }
{
    match asked {
        None => 0,
        Some(Timed::Step { times, .. }) => times as u64,
        Some(Timed::Tick { .. }) => 1,
        Some(Timed::Round { times }) => times as u64 * harts as u64,
    }
}
