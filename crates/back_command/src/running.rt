//! The lines behind a listing, run as they are read, with their last events remembered.
ghost use Rattle.std.specs.Prelude.{◌≡◌, ◌≢◌, [], true, false};
ghost use Rattle.coy_io.specs.Causes.{Rose};
ghost use Rattle.coy_io.specs.Reader.{TellsEnd};
ghost use Rattle.machine_state.specs.State.{state_of};
ghost use Rattle.kernel_core.specs.Outcome.{spent};
ghost use Rattle.reverse_run.specs.History.{history_of};
ghost use Rattle.judged_lines.specs.declared.stop.Stop.{Stop};
ghost use Rattle.back_command.specs.Runs.{RunsLines};

use crate::DEPTH;
use coy_io::{LineReader, Source};
use machine_state::Records;
use reverse_run::Reversible;
use schedule_replay::{Events, Stop, next_line};
use std::sync::ledger::Ledger;
use steps::Steps;
use walk_engine::Translator;

/// Runs the events of the lines that the reader and the source have left, each line's before the next line is read, and
/// remembers the last of them. It answers why there is no further line, and takes no memory.
pub(crate) fn run_lines<T: Translator, S: Source, L: Ledger>(
    reversible: &mut Reversible<T>,
    lines: &mut LineReader,
    source: &mut S,
    fetches: &mut Steps<L>,
) -> Stop
    requires reader { lines.old.failed ≡ false }
    requires none { (history_of reversible.old).before ≡ [] }
    requires depth { reversible.old.depth ≡ DEPTH }
    ensures runs { let m = reversible.old.machine in
        RunsLines m.objects.harts (state_of m)
        (λ touches. spent T.cost T.after T.without (T.kept m.translator) touches) (history_of reversible.new)
        lines.old lines.new (S.held source.old) (S.held source.new) fetches.old fetches.new result }
    ensures told { TellsEnd lines.old (S.held source.old) → TellsEnd lines.new (S.held source.new) }
    ensures end { result ≡ Stop.End → lines.new.ended ≡ true }
    ensures read { result ≡ Stop.ReadFault → Rose (S.faults source.old) (S.faults source.new) }
    ensures quiet { result ≢ Stop.ReadFault → S.faults source.new ≡ S.faults source.old }
{
    let harts = reversible.machine().objects().sizes().harts;
    let mut records = Records::new();
    let mut left = Events::NoneLeft;
    'each: loop {
        match left.take() {
            Some(event) => {
                reversible.event_into(event, &mut records, fetches);
            }
            None => match next_line(lines, source, harts) {
                Ok(asked) => left = Events::new(harts, asked),
                Err(stop) => return stop,
            },
        }
    }
}
