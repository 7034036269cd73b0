//! Where processes stand.
ghost use Rattle.std.specs.Prelude.{◌≡◌, ◌≤◌, ◌<◌, ◌+◌, ◌-◌, ◌++◌, length, is_none, slice_get, flat_map};
ghost use Rattle.schedules.specs.Queues.{priorities, hart_of};
ghost use Rattle.run_text.specs.declared.standing.Queue.TheVariants.{Ready};
ghost use Rattle.run_text.specs.Standing.{occupant_text, hart_text, member_text, queue_name, members, queue_text, IsQueue};
ghost use Rattle.run_text.specs.State.{queue_line, harts_text, ready_text, sleepers_text};
ghost use Rattle.coy_io.specs.Written.{WroteTo};

use cap_format::PRIORITIES;
use coy_io::{Sink, WriteFault, put_bytes, put_text};
use coy_text::LineBuf;
use schedules::Queues;

/// A list of processes.
#[derive(Clone, Copy)]
pub(crate) enum Queue {
    /// The ready queue of a priority.
    Ready(u8),
    /// Those that sleep on a process.
    Sleepers(u16),
}

/// Writes the line of each hart.
pub(crate) fn put_harts<K: Sink>(
    queues: &Queues,
    harts: u8,
    line: &mut LineBuf,
    output: &mut K,
) -> Result<(), WriteFault>
    requires { harts ≤ length queues.now.harts }
    ensures { WroteTo K.taken K.faults output.old output.new result (harts_text queues.now harts) }
{
    'each: for hart in 0..harts {
        put_hart(queues, hart, line, output)?;
    }
    Ok(())
}

/// Writes the line of a hart.
fn put_hart<K: Sink>(
    queues: &Queues,
    hart: u8,
    line: &mut LineBuf,
    output: &mut K,
) -> Result<(), WriteFault>
    requires { hart < length queues.now.harts }
    ensures { WroteTo K.taken K.faults output.old output.new result
        (hart_text hart (hart_of queues.now hart)) }
{
    make_hart(line, hart, queues.on_hart(hart));
    put_bytes(line.as_bytes(), output)
}

/// Makes the line of a hart.
#[tactic(auto, unfolding(crate::specs::Standing::hart_text))]
fn make_hart(line: &mut LineBuf, hart: u8, occupant: Option<u16>)
    ensures { line.new ≡ hart_text hart occupant }
{
    line.clear();
    line.push_numbered("hart ", hart as u32);
    push_occupant(line, occupant);
    line.push_word("\n");
}

fn push_occupant(line: &mut LineBuf, occupant: Option<u16>)
    requires { length line.old ≤ 100 }
    ensures text { line.new ≡ line.old ++ occupant_text occupant }
    ensures len { length line.new ≤ length line.old + 11 }
{
    match occupant {
        Some(p) => line.push_numbered(" ", p as u32),
        None => line.push_word(" idle"),
    }
}

/// Writes the line of each ready queue that is not empty, from the highest priority down to 0.
pub(crate) fn put_ready<K: Sink>(
    queues: &Queues,
    line: &mut LineBuf,
    output: &mut K,
) -> Result<(), WriteFault>
    ensures { WroteTo K.taken K.faults output.old output.new result (ready_text queues.now) }
{
    'each: for below in 0..PRIORITIES {
        put_queue(queues, ready_queue(below), line, output)?;
    }
    Ok(())
}

/// The ready queue with so many before it.
fn ready_queue(below: u8) -> Queue
    requires { below < priorities }
    ensures { result ≡ Ready (priorities - 1 - below) }
{
    Queue::Ready(PRIORITIES - 1 - below)
}

/// Writes the line of the sleepers of each process on which others sleep.
pub(crate) fn put_sleepers<K: Sink>(
    queues: &Queues,
    processes: u16,
    line: &mut LineBuf,
    output: &mut K,
) -> Result<(), WriteFault>
    requires { processes ≤ length queues.now.sleepers }
    ensures { WroteTo K.taken K.faults output.old output.new result
        (sleepers_text queues.now processes) }
{
    'each: for on in 0..processes {
        put_queue(queues, Queue::Sleepers(on), line, output)?;
    }
    Ok(())
}

/// Writes the line of a list of processes, process by process, unless it is empty.
fn put_queue<K: Sink>(
    queues: &Queues,
    queue: Queue,
    line: &mut LineBuf,
    output: &mut K,
) -> Result<(), WriteFault>
    requires { IsQueue queues.now queue }
    ensures { WroteTo K.taken K.faults output.old output.new result (queue_line queues.now queue) }
{
    if is_empty(queues, queue) {
        return Ok(());
    }
    put_name(queue, line, output)?;
    put_members(queues, queue, line, output)?;
    put_text("\n", output)
}

/// Writes the front of the line of a list of processes.
fn put_name<K: Sink>(queue: Queue, line: &mut LineBuf, output: &mut K) -> Result<(), WriteFault>
    ensures { WroteTo K.taken K.faults output.old output.new result (queue_name queue) }
{
    make_name(line, queue);
    put_bytes(line.as_bytes(), output)
}

fn make_name(line: &mut LineBuf, queue: Queue)
    ensures { line.new ≡ queue_name queue }
{
    line.clear();
    match queue {
        Queue::Ready(priority) => line.push_numbered("ready ", priority as u32),
        Queue::Sleepers(on) => line.push_numbered("sleepers ", on as u32),
    }
}

/// Whether no process is in a list of processes.
fn is_empty(queues: &Queues, queue: Queue) -> bool
    requires { IsQueue queues.now queue }
    ensures { result ≡ is_none (slice_get (members queues.now queue) 0) }
{
    member(queues, queue, 0).is_none()
}

/// The process at place `n` of a list of processes, counted from 0.
fn member(queues: &Queues, queue: Queue, n: u16) -> Option<u16>
    requires { IsQueue queues.now queue }
    ensures value { result ≡ slice_get (members queues.now queue) n }
    ensures bound { length (members queues.now queue) ≤ 256 }
{
    match queue {
        Queue::Ready(priority) => queues.ready_at(priority, n),
        Queue::Sleepers(on) => queues.sleeper_at(on, n),
    }
}

/// Writes the processes of a list, each behind a space.
fn put_members<K: Sink>(
    queues: &Queues,
    queue: Queue,
    line: &mut LineBuf,
    output: &mut K,
) -> Result<(), WriteFault>
    requires { IsQueue queues.now queue }
    ensures { WroteTo K.taken K.faults output.old output.new result
        (flat_map member_text (members queues.now queue)) }
{
    let mut place = 0;
    'each: while let Some(p) = member(queues, queue, place) {
        put_member(p, line, output)?;
        place += 1;
    }
    Ok(())
}

/// Writes a process of a list.
fn put_member<K: Sink>(p: u16, line: &mut LineBuf, output: &mut K) -> Result<(), WriteFault>
    ensures { WroteTo K.taken K.faults output.old output.new result (member_text p) }
{
    line.clear();
    line.push_numbered(" ", p as u32);
    put_bytes(line.as_bytes(), output)
}
