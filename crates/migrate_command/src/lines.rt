//! The lines behind a listing, written as they are read.
ghost use Rattle.std.specs.Prelude.{◌≡◌, ◌≢◌, false, true};
ghost use Rattle.coy_io.specs.Causes.{HasCause, Rose};
ghost use Rattle.coy_io.specs.Reader.{TellsEnd};
ghost use Rattle.judged_lines.specs.declared.stop.Stop.{Stop};
ghost use Rattle.schedule_replay.specs.Asked.{of_line};
ghost use Rattle.statement_text.specs.Text.{events_text};
ghost use Rattle.coy_io.specs.Written.{WroteTo};
ghost use Rattle.migrate_command.specs.Migrate.{PutsLines};

use coy_io::{LineReader, Sink, Source, WriteFault, put_all};
use coy_text::LineBuf;
use listing_read::Timed;
use schedule_replay::{Stop, next_line};
use statement_text::write_event;

/// Writes the lines that the reader and the source have left, each before the next is read, and answers why there is
/// no further line.
pub(crate) fn put_lines<S: Source, K: Sink>(
    harts: u8,
    lines: &mut LineReader,
    source: &mut S,
    output: &mut K,
) -> Result<Stop, WriteFault>
    requires { lines.old.failed ≡ false }
    ensures puts { PutsLines harts lines.old lines.new (S.held source.old) (S.held source.new)
        (K.taken output.old) (K.taken output.new) result }
    ensures told { TellsEnd lines.old (S.held source.old) → TellsEnd lines.new (S.held source.new) }
    ensures end { result ≡ Ok Stop.End → lines.new.ended ≡ true }
    ensures read { result ≡ Ok Stop.ReadFault → Rose (S.faults source.old) (S.faults source.new) }
    ensures quiet { result ≢ Ok Stop.ReadFault → S.faults source.new ≡ S.faults source.old }
    ensures cause { HasCause (K.faults output.old) (K.faults output.new) result }
{
    'lines: loop {
        match next_line(lines, source, harts) {
            Ok(asked) => match put_asked(asked, output) {
                Ok(()) => {}
                Err(fault) => return Err(fault),
            },
            Err(stop) => return Ok(stop),
        }
    }
}

/// Writes the line of what was asked for, which is none where a line was skipped.
fn put_asked<K: Sink>(asked: Option<Timed>, output: &mut K) -> Result<(), WriteFault>
    ensures { WroteTo K.taken K.faults output.old output.new result (events_text (of_line asked)) }
{
    let Some(timed) = asked else {
        return Ok(());
    };
    let mut line = LineBuf::new();
    write_event(timed, &mut line);
    put_all(output, line.as_bytes())
}
