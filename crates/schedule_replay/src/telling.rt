//! The lines of records.
ghost use Rattle.std.specs.List.{list_all};
ghost use Rattle.std.specs.Prelude.{◌≡◌, ◌≤◌, ◌++◌, OnErr, OnOk, length};
ghost use Rattle.coy_io.specs.Causes.{HasCause};
ghost use Rattle.coy_io.specs.Pieces.{AppendsSome};
ghost use Rattle.kernel_core.specs.Machine.{IsRecord};
ghost use Rattle.coy_io.specs.Written.{Writes};
ghost use Rattle.schedule_replay.specs.Leaves.{LeavesText};
ghost use Rattle.schedule_replay.specs.Told.{are_untold, is_told, line_of, lines_of};
ghost use Rattle.kernel_core.specs.Noted.{is_detail};

use crate::mode::Mode;
use coy_io::{Sink, WriteFault, put_all};
use coy_text::LineBuf;
use kernel_core::{Record, Records};
use machine_state::is_detail;
use run_text::push_record;

/// How many bytes may stand in the buffer before the line of a record.
const MOST_BEFORE: usize = 200;

/// Writes the lines of the records that the mode names, by this buffer. Where it names none, nothing is done.
pub(crate) fn put_told<K: Sink>(
    mode: Mode,
    records: &Records,
    buffer: &mut LineBuf,
    output: &mut K,
) -> Result<(), WriteFault>
    ensures text { let text = lines_of mode records.now in
        Writes (K.taken output.old) (K.taken output.new) result text }
    ensures cause { HasCause (K.faults output.old) (K.faults output.new) result }
    ensures silent { mode ≡ Mode.Silent → output.new ≡ output.old }
{
    if are_untold(mode, records.as_slice()) {
        return Ok(());
    }
    put_records(mode, records, buffer, output)
}

/// Writes the lines of the records that the mode names, as many at a time as the buffer has room for.
fn put_records<K: Sink>(
    mode: Mode,
    records: &Records,
    buffer: &mut LineBuf,
    output: &mut K,
) -> Result<(), WriteFault>
    ensures text { let text = lines_of mode records.now in
        Writes (K.taken output.old) (K.taken output.new) result text }
    ensures cause { HasCause (K.faults output.old) (K.faults output.new) result }
{
    let all = records.as_slice();
    buffer.clear();
    'each: for i in 0..all.len() {
        gather(mode, &all[i], buffer, output)?;
    }
    put_all(output, buffer.as_bytes())
}

/// Appends the line of a record, where the mode names it, to the lines that are not written yet. These are written first
/// where the next may have no room behind them.
fn gather<K: Sink>(
    mode: Mode,
    entry: &Record,
    buffer: &mut LineBuf,
    output: &mut K,
) -> Result<(), WriteFault>
    requires { IsRecord entry.now }
    ensures ok { let text = buffer.old ++ line_of mode entry.now in
        OnOk result (LeavesText (K.taken output.old) (K.taken output.new) text buffer.new) }
    ensures err { let text = buffer.old ++ line_of mode entry.now in
        OnErr result (AppendsSome (K.taken output.old) (K.taken output.new) text) }
    ensures cause { HasCause (K.faults output.old) (K.faults output.new) result }
{
    if !is_told(mode, entry) {
        return Ok(());
    }
    make_room(buffer, output)?;
    push_record(buffer, entry);
    Ok(())
}

/// Writes the lines that are not written yet where there may be no room for one more.
fn make_room<K: Sink>(buffer: &mut LineBuf, output: &mut K) -> Result<(), WriteFault>
    ensures ok { let old = K.taken output.old in let new = K.taken output.new in
        OnOk result (LeavesText old new buffer.old buffer.new) }
    ensures room { OnOk result (length buffer.new ≤ 200) }
    ensures err { let old = K.taken output.old in let new = K.taken output.new in
        OnErr result (AppendsSome old new buffer.old) }
    ensures cause { HasCause (K.faults output.old) (K.faults output.new) result }
{
    if buffer.as_bytes().len() > MOST_BEFORE {
        put_all(output, buffer.as_bytes())?;
        buffer.clear();
    }
    Ok(())
}

/// Whether this record is written.
fn is_told(mode: Mode, entry: &Record) -> bool
    ensures value { result ≡ is_told mode entry.now }
{
    match mode {
        Mode::Silent => false,
        Mode::Records => !is_detail(entry),
        Mode::Trace => true,
    }
}

/// Whether it is plain that none of these records is written: no mode that names any, or accesses and instructions alone,
/// of which a trace alone tells.
fn are_untold(mode: Mode, records: &[Record]) -> bool
    ensures { result ≡ are_untold mode records.now }
{
    match mode {
        Mode::Silent => true,
        Mode::Records => are_details(records),
        Mode::Trace => false,
    }
}

/// Whether all of these are accesses and instructions, of which a trace alone tells.
fn are_details(records: &[Record]) -> bool
    ensures { result ≡ list_all is_detail records.now }
{
    records.iter().all(|entry| is_detail(entry))
}
