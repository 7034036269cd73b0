//! The records of an event.
ghost use Rattle.std.specs.Prelude.{◌≡◌, IsTrue, false};
ghost use Rattle.rv32_decode.specs.InRange.{InRange};
ghost use Rattle.machine_state.specs.declared.record.Record.TheVariants.{Access, Insn as InsnRead};

use crate::record::Record;
use arrayvec::ArrayVec;
use rv32_decode::Insn;
use std::marker::Model;
use walk_meaning::Kind;

/// How many records a list takes.
const MOST_RECORDS: usize = 64;

/// At most 64 records, in the order in which they arose.
///
/// A record has room for the bytes of a log, and clearing that room costs more than an instruction. So what was cleared
/// stays in the list, and the records of an access and of an instruction are written over one of their own kind.
#[derive(Drop)]
pub struct Records {
    /// The records, and behind them what is left of earlier ones.
    list: ArrayVec<Record, MOST_RECORDS>,
    /// How many records there are.
    count: usize,
}

impl Model for Records {
    ghost use Rattle.std.specs.Prelude.{List, ◌≤◌, length, take};
    ghost use Rattle.machine_state.specs.declared.record.Record.{Record};

    ghost Value = { List Record };

    ghost view = { λ r. take r.count r.list.items };

    ghost use Rattle.std.specs.List.{All};
    ghost use Rattle.machine_state.specs.Machine.{IsRecord};

    ghost invariant = { λ r. (All IsRecord r.list.items) × (r.count ≤ length r.list.items) };
}

impl Records {
    ghost use Rattle.std.specs.List.{All};
    ghost use Rattle.machine_state.specs.Machine.{IsRecord};
    ghost use Rattle.machine_state.specs.Room.{most_records};
    ghost use Rattle.std.specs.Prelude.{◌≡◌, ◌↔◌, ◌≤◌, ◌<◌, ◌++◌, ◌∷◌, [], length};

    pub fn new() -> Records
        ensures { result ≡ [] }
    {
        Records {
            list: ArrayVec::new(),
            count: 0,
        }
    }

    pub fn push(&mut self, entry: Record)
        requires room { length self.old < most_records }
        requires range { IsRecord entry }
        ensures { self.new ≡ self.old ++ entry ∷ [] }
    {
        if self.count < self.list.len() {
            self.list[self.count] = entry;
        } else {
            self.list.push(entry);
        }
        self.count += 1;
    }

    /// Appends the record of an access, as `push` would.
    pub fn push_access(&mut self, process: u16, kind: Kind, address: u32, number: u16)
        requires room { length self.old < most_records }
        ensures { self.new ≡ self.old ++ Access process kind address number ∷ [] }
    {
        if self.count < self.list.len()
            && set_access(&mut self.list[self.count], process, kind, address, number)
        {
            self.count += 1;
        } else {
            self.push(Record::Access {
                process,
                kind,
                address,
                number,
            });
        }
    }

    /// Appends the record of an instruction, as `push` would.
    pub fn push_insn(&mut self, process: u16, at: u32, insn: Insn)
        requires room { length self.old < most_records }
        requires range { InRange insn }
        ensures { self.new ≡ self.old ++ InsnRead process at insn ∷ [] }
    {
        if self.count < self.list.len() && set_insn(&mut self.list[self.count], process, at, insn) {
            self.count += 1;
        } else {
            self.push(Record::Insn { process, at, insn });
        }
    }

    /// Takes all records out.
    pub fn clear(&mut self)
        ensures { self.new ≡ [] }
    {
        self.count = 0;
    }

    pub fn is_empty(&self) -> bool
        ensures { IsTrue result ↔ (self.now ≡ []) }
    {
        self.count == 0
    }

    pub fn as_slice(&self) -> &[Record]
        ensures value { result.now ≡ self.now }
        ensures bound { length self.now ≤ most_records }
        ensures range { All IsRecord self.now }
    {
        &self.list.as_slice()[..self.count]
    }
}

/// Writes the record of an access over one of an access; else nothing changes.
fn set_access(entry: &mut Record, process: u16, kind: Kind, address: u32, number: u16) -> bool
    ensures written { IsTrue result → entry.new ≡ Access process kind address number }
    ensures same { result ≡ false → entry.new ≡ entry.old }
{
    match entry {
        Record::Access {
            process: p,
            kind: k,
            address: a,
            number: n,
        } => {
            *p = process;
            *k = kind;
            *a = address;
            *n = number;
            true
        }
        _ => false,
    }
}

/// Writes the record of an instruction over one of an instruction; else nothing changes.
fn set_insn(entry: &mut Record, process: u16, at: u32, insn: Insn) -> bool
    ensures written { IsTrue result → entry.new ≡ InsnRead process at insn }
    ensures same { result ≡ false → entry.new ≡ entry.old }
{
    match entry {
        Record::Insn {
            process: p,
            at: a,
            insn: i,
        } => {
            *p = process;
            *a = at;
            *i = insn;
            true
        }
        _ => false,
    }
}
