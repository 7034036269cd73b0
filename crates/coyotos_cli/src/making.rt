//! The generated text of a number, written as it is made, or run in the place of the input.
ghost use Rattle.std.specs.Prelude.{◌≡◌, ◌≢◌, false, true};
ghost use Rattle.coy_io.specs.Causes.{HasCause};
ghost use Rattle.generated_text.specs.Text.{make_text};
ghost use Rattle.coy_io.specs.Written.{Writes};
ghost use Rattle.courses.specs.Course.{ComesTo, HasEntries, cached};
ghost use Rattle.courses.specs.Ending.{EndsIn, HasCauses};
ghost use Rattle.coyotos_cli.specs.Made.{made_left};
ghost use Rattle.coyotos_cli.specs.Program.{make_course};

use courses::Exit;
use coy_io::{Sink, WriteFault, put_all};
use generated_text::MakeSource;
use schedule_commands::{ScheduleCommand, answer_schedule};
use std::alloc::Global;
use std::sync::ledger::Ledger;
use steps::Steps;

/// Writes the generated text of a number, or runs it and writes its counts.
pub(crate) fn make<K: Sink, L: Ledger>(
    alloc: Global,
    number: u32,
    summary: bool,
    output: &mut K,
    fetches: &mut Steps<L>,
) -> Exit
    ensures comes { ComesTo (K.taken output.old) (K.taken output.new) fetches.old fetches.new
        result cached (make_course number summary) }
    ensures entries { result ≡ Exit.Done → HasEntries (make_course number summary) }
    ensures usage { result ≢ Exit.Usage }
    ensures read { result ≢ Exit.ReadFault }
    ensures causes { HasCauses 0 0 (K.faults output.old) (K.faults output.new) result }
    ensures unwritten { result ≡ Exit.OutOfMemory → K.taken output.new ≡ K.taken output.old }
    ensures stays { summary ≡ false → fetches.new ≡ fetches.old }
    ensures unspent { result ≡ Exit.OutOfMemory → fetches.new ≡ fetches.old }
{
    if summary {
        return summarize(alloc, number, output, fetches);
    }
    write_text(number, output)
}

/// Runs the generated text of a number in the place of the input, and writes its counts.
fn summarize<K: Sink, L: Ledger>(
    alloc: Global,
    number: u32,
    output: &mut K,
    fetches: &mut Steps<L>,
) -> Exit
    ensures comes { ComesTo (K.taken output.old) (K.taken output.new) fetches.old fetches.new
        result cached (make_course number true) }
    ensures entries { result ≡ Exit.Done → HasEntries (make_course number true) }
    ensures usage { result ≢ Exit.Usage }
    ensures read { result ≢ Exit.ReadFault }
    ensures causes { HasCauses 0 0 (K.faults output.old) (K.faults output.new) result }
    ensures unwritten { result ≡ Exit.OutOfMemory → K.taken output.new ≡ K.taken output.old }
    ensures unspent { result ≡ Exit.OutOfMemory → fetches.new ≡ fetches.old }
{
    let mut source = MakeSource::new(number);
    answer_schedule(
        alloc,
        ScheduleCommand::Summary,
        &mut source,
        output,
        fetches,
    )
}

/// Writes the generated text of a number.
fn write_text<K: Sink>(number: u32, output: &mut K) -> Exit
    ensures { EndsIn K.taken K.faults output.old output.new result
        (record { text = make_text number; exit = Exit.Done }) }
{
    let mut source = MakeSource::new(number);
    match put_text(&mut source, output) {
        Ok(()) => Exit::Done,
        Err(_) => Exit::WriteFault,
    }
}

/// Writes the text of a source, piece by piece.
fn put_text<K: Sink>(source: &mut MakeSource, output: &mut K) -> Result<(), WriteFault>
    ensures text { Writes (K.taken output.old) (K.taken output.new) result (made_left source.old) }
    ensures cause { HasCause (K.faults output.old) (K.faults output.new) result }
{
    let mut buf = [0; 512];
    'pieces: loop {
        let count = source.fill(&mut buf);
        if count == 0 {
            return Ok(());
        }
        put_all(output, &buf[..count])?;
    }
}
