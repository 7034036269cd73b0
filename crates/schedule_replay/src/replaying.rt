//! The lines behind a listing, run as they are read.
ghost use Rattle.std.specs.Prelude.{◌≡◌, false, true};
ghost use Rattle.coy_io.specs.Reader.{TellsEnd};
ghost use Rattle.untraced_steps.specs.Spared.{GainsNothing};
ghost use Rattle.schedule_replay.specs.Replay.{Replays, HasReasons, stop_answer};

use crate::counts::Counts;
use crate::events::Events;
use crate::lines::{Stop, next_line};
use crate::mode::Mode;
use crate::performing::perform;
use crate::replayed::Replayed;
use crate::telling::put_told;
use coy_io::{LineReader, Sink, Source};
use coy_text::LineBuf;
use kept_pages::PageTranslator;
use kernel_core::{Machine, Notable, Records};
use std::sync::ledger::Ledger;
use steps::Steps;

/// Runs the events of the lines that the reader and the source have left, each line's before the next line is read, and
/// writes the records that the mode names, each event's before the next event is run. It takes no memory. After a fault
/// of reading or writing the machine stands behind the events that were run.
pub fn replay<T: PageTranslator, S: Source, K: Sink, L: Ledger>(
    machine: &mut Machine<T>,
    lines: &mut LineReader,
    source: &mut S,
    mode: Mode,
    output: &mut K,
    fetches: &mut Steps<L>,
) -> Replayed
    requires { lines.old.failed ≡ false }

    // Which events were run, what was written of them, and that they and the answer are what the lines ask for. No cache
    // holds more than before but those of the harts that perform these events.
    ensures replays { (run : Replays T.kept T.cost T.after T.without mode machine.old machine.new
        lines.old lines.new (S.held source.old) (S.held source.new)
        (K.taken output.old) (K.taken output.new) fetches.old fetches.new result)
        × GainsNothing T.cache T.less run.events machine.old machine.new }
    ensures silent { mode ≡ Mode.Silent → output.new ≡ output.old }

    // Why it ends as it does.
    ensures reasons { HasReasons (S.faults source.old) (S.faults source.new)
        (K.faults output.old) (K.faults output.new) result }
    ensures told { TellsEnd lines.old (S.held source.old) → TellsEnd lines.new (S.held source.new) }
    ensures end { (counts : Counts) → result ≡ Replayed.Ended counts → lines.new.ended ≡ true }
{
    let harts = machine.objects().sizes().harts;
    let mut records = Notable {
        records: Records::new(),
    };
    let mut buffer = LineBuf::new();
    let mut counts = Counts::of_events(0);
    let mut left = Events::NoneLeft;
    'each: loop {
        match left.take() {
            Some(event) => {
                perform(
                    event,
                    &mut left,
                    mode,
                    machine,
                    &mut records,
                    &mut counts,
                    fetches,
                );
                match put_told(mode, &records.records, &mut buffer, output) {
                    Ok(()) => {}
                    Err(_) => return Replayed::WriteFault,
                }
            }
            None => match next_line(lines, source, harts) {
                Ok(asked) => left = Events::new(harts, asked),
                Err(stop) => return stop_answer(stop, counts),
            },
        }
    }
}

/// The answer where there is no further line.
pub(crate) fn stop_answer(stop: Stop, counts: Counts) -> Replayed
    ensures { result ≡ stop_answer counts stop }
{
    match stop {
        Stop::End => Replayed::Ended(counts),
        Stop::Refused { line, fault } => Replayed::Refused { line, fault },
        Stop::TooLong => Replayed::TooLong,
        Stop::ReadFault => Replayed::ReadFault,
    }
}
