//! The end of a program that flushes its output.
ghost use Rattle.std.specs.Prelude.{◌≡◌};
ghost use Rattle.coy_io.specs.Buffered.{taken_in, gone_out};
ghost use Rattle.courses.specs.Flush.{EndsFlushed, exit_after};

use crate::exit::Exit;
use coy_io::{Sink, WriteFault, WriteSink};
use std::io::{BufWriter, Write};

/// Flushes the output behind a call that ended so, however it ended.
pub fn flush_after<W: Write + Drop>(exit: Exit, output: &mut WriteSink<BufWriter<W>>) -> Exit
    ensures { EndsFlushed (taken_in W.contents output.old) (taken_in W.contents output.new)
        (gone_out W.contents output.new) output.old.faults output.new.faults exit result }
{
    let flushed = output.flush();
    exit_after(exit, flushed)
}

/// How a program ends after a flush.
fn exit_after(exit: Exit, flushed: Result<(), WriteFault>) -> Exit
    ensures { result ≡ exit_after exit flushed }
{
    match (exit, flushed) {
        (exit, Ok(())) => exit,
        (Exit::ReadFault, Err(_)) => Exit::ReadFault,
        (_, Err(_)) => Exit::WriteFault,
    }
}
