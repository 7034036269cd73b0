//! Who is told what happens.
ghost use Rattle.std.specs.Prelude.{◌≡◌};
ghost use Rattle.machine_state.specs.Noted.{is_detail, untraced};

use crate::record::Record;
use crate::records::Records;
use rv32_decode::Insn;
use walk_meaning::Kind;

/// Is told each record as it arises, and keeps of it what it likes.
///
/// What it keeps of a record is a function of its own choice, so that a part of an event says exactly what every observer
/// has behind it.
pub trait Observer {
    ghost use Rattle.std.specs.Prelude.{List, ◌≡◌, ◌≤◌, ◌+◌, ◌++◌, length};
    ghost use Rattle.rv32_decode.specs.InRange.{InRange};
    ghost use Rattle.machine_state.specs.declared.record.Record.{Record};
    ghost use Rattle.machine_state.specs.declared.record.Record.TheVariants.{Access, Insn as InsnRead};
    ghost use Rattle.machine_state.specs.Machine.{IsRecord};
    ghost use Rattle.machine_state.specs.Room.{HasRoom};

    /// What it has kept.
    ghost told: { Self → List Record };

    /// What it keeps of a record.
    ghost notes: { Record → List Record };

    /// An access of a process reached this page or capability page.
    fn access(&mut self, process: u16, kind: Kind, address: u32, number: u16)
        requires room { HasRoom 1 (told self.old) }
        ensures told { told self.new ≡ told self.old ++ notes (Access process kind address number) }
        ensures most { length (told self.new) ≤ length (told self.old) + 1 };

    /// The word at this address is this instruction.
    fn insn(&mut self, process: u16, at: u32, insn: Insn)
        requires room { HasRoom 1 (told self.old) }
        requires range { InRange insn }
        ensures told { told self.new ≡ told self.old ++ notes (InsnRead process at insn) }
        ensures most { length (told self.new) ≤ length (told self.old) + 1 };

    /// Anything that happens.
    fn tell(&mut self, entry: Record)
        requires room { HasRoom 1 (told self.old) }
        requires range { IsRecord entry }
        ensures told { told self.new ≡ told self.old ++ notes entry }
        ensures most { length (told self.new) ≤ length (told self.old) + 1 };
}

/// A trace: all is kept.
impl Observer for Records {
    ghost use Rattle.std.specs.Prelude.{◌∷◌, []};

    ghost told = { λ r. r };

    ghost notes = { λ entry. entry ∷ [] };

    #[inline(always)]
    fn access(&mut self, process: u16, kind: Kind, address: u32, number: u16) {
        self.push_access(process, kind, address, number);
    }

    #[inline(always)]
    fn insn(&mut self, process: u16, at: u32, insn: Insn) {
        self.push_insn(process, at, insn);
    }

    #[inline(always)]
    fn tell(&mut self, entry: Record) {
        self.push(entry);
    }
}

/// Keeps all but accesses and instructions, of which a trace alone tells.
#[derive(Drop)]
pub struct Notable {
    pub records: Records,
}

impl Observer for Notable {
    ghost use Rattle.std.specs.Prelude.{◌∷◌, []};

    ghost told = { λ n. n.records };

    ghost notes = { λ entry. untraced (entry ∷ []) };

    #[inline(always)]
    fn access(&mut self, _process: u16, _kind: Kind, _address: u32, _number: u16) {}

    #[inline(always)]
    fn insn(&mut self, _process: u16, _at: u32, _insn: Insn) {}

    #[inline(always)]
    fn tell(&mut self, entry: Record) {
        if !is_detail(&entry) {
            self.records.push(entry);
        }
    }
}

/// Whether this is an access or an instruction, of which a trace alone tells.
pub fn is_detail(entry: &Record) -> bool
    ensures { result ≡ is_detail entry.now }
{
    matches!(entry, Record::Access { .. } | Record::Insn { .. })
}
