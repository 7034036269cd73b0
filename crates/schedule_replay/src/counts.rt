//! What a run is counted by.
ghost use Rattle.std.specs.Prelude.{◌≡◌, ◌≤◌, ◌+◌, ◌^◌, ◌∷◌, [], ℕ, length};
ghost use Rattle.schedule_replay.specs.Counts.{and_more, events_alone, AreAtMost};

use kernel_core::Record;

/// How many events there were, and how many records of four kinds.
#[derive(Clone, Copy)]
pub struct Counts {
    pub events: u64,
    /// Messages that were delivered.
    pub messages: u64,
    /// Faults, whether they were heard or not.
    pub faults: u64,
    /// System calls that logged bytes.
    pub logs: u64,
    /// Objects that were destroyed.
    pub destroys: u64,
}

impl Counts {
    /// So many events, and no record.
    pub(crate) fn of_events(events: u64) -> Counts
        ensures { result ≡ events_alone events }
    {
        Counts {
            events,
            messages: 0,
            faults: 0,
            logs: 0,
            destroys: 0,
        }
    }
}

/// The counts after so many events more, which told these records.
pub(crate) fn count_events(counts: Counts, events: u32, records: &[Record]) -> Counts
    requires room { AreAtMost (2 ^ 62) counts }
    requires few { length records.now ≤ 64 }
    ensures value { result ≡ and_more counts events records.now }
    ensures most { (most : ℕ) → AreAtMost most counts → AreAtMost (most + events + 64) result }
{
    let mut counts = counts;
    counts.events += events as u64;
    'each: for i in 0..records.len() {
        counts = count_record(counts, &records[i]);
    }
    counts
}

/// The counts with one record more.
#[tactic(auto, unfolding(crate::specs::Counts::how_many))]
fn count_record(counts: Counts, entry: &Record) -> Counts
    requires room { AreAtMost (2 ^ 63) counts }
    ensures value { result ≡ and_more counts 0 (entry.now ∷ []) }
    ensures most { (most : ℕ) → AreAtMost most counts → AreAtMost (most + 1) result }
{
    let mut counts = counts;
    match entry {
        Record::Message { .. } => counts.messages += 1,
        Record::Fault { .. } => counts.faults += 1,
        Record::Log { .. } => counts.logs += 1,
        Record::Destroy { .. } => counts.destroys += 1,
        Record::Access { .. } | Record::Insn { .. } | Record::Halt { .. } => {}
    }
    counts
}
