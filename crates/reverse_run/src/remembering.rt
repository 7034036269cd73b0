//! Remembering what an event may change, before it is performed.
ghost use Rattle.std.specs.Prelude.{◌≡◌, ◌+◌, ◌<◌, ◌≤◌, ◌≢◌, ◌∷◌, [], ℕ, length};
ghost use Rattle.cap_format.specs.declared.kind.CapKind.{CapKind};
ghost use Rattle.cap_format.specs.declared.kind.CapKind.TheVariants.{Page, Gpt, Process};
ghost use Rattle.object_store.specs.Store.{size_of, sizes_of};
ghost use Rattle.object_store.specs.Object.{object_name, IsAmong};
ghost use Rattle.object_store.specs.Saved.{slots_copied};
ghost use Rattle.string_move.specs.Move.{page_names};
ghost use Rattle.machine_state.specs.State.{state_of};
ghost use Rattle.machine_state.specs.Machine.{hart_in};
ghost use Rattle.machine_state.specs.Past.{names_in, used, same_kind, IsFor, Holds};
ghost use Rattle.kernel_core.specs.Event.{event_of};
ghost use Rattle.event_reach.specs.Reach.{names_of};
ghost use Rattle.event_reach.specs.Looked.{Looked};
ghost use Rattle.event_reach.specs.Plain.{plain_names, IsThere};
ghost use Rattle.reverse_run.specs.Remembered.{StandsFor, LeadsBack, Remembers, HasPlace, AtMostOneGpt};
ghost use Rattle.reverse_run.specs.Reads.{a_copy, a_past, a_memento};

use crate::memento::Memento;
use cap_format::CapKind;
use event_reach::{PlainInsn, Reach, plain_of_event, reach_of_event};
use machine_state::{Event, Machine, Past};
use std::sync::ledger::Ledger;
use steps::Steps;
use string_move::Pieces;
use walk_engine::Translator;

/// Remembers what an event may change: of a plain instruction its process and the page of its store, and of any other
/// event all that `remember` does. The machine stays as it is, and so does what its translator keeps.
///
/// It walks as the event will, but not to a page that is kept.
pub(crate) fn keep_event<T: Translator, L: Ledger>(
    machine: &mut Machine<T>,
    e: Event,
    kept: &mut Memento,
    fetches: &mut Steps<L>,
)
    requires hart { hart_in e < machine.old.objects.harts }
    requires sizes { IsFor kept.old.past (sizes_of machine.old.objects) }
    ensures back { let after = (event_of (state_of machine.old) e).state in
        LeadsBack kept.new machine.old after }
    ensures remembers { let changed = (event_of (state_of machine.old) e).changed in
        Remembers kept.new.past machine.old.objects changed }
    ensures looked { Looked T.kept T.cache (hart_in e) machine.old machine.new }
    ensures few { AtMostOneGpt kept.new.past }
    ensures least { fetches.old ≤ fetches.new }
    ensures most { fetches.new ≤ fetches.old + a_memento }
{
    match plain_of_event(machine, e, fetches) {
        Some(plain) => {
            kept.whole = false;
            keep_plain(machine, plain, &mut kept.past, fetches);
        }
        None => {
            kept.whole = true;
            remember(machine, e, &mut kept.past, fetches);
        }
    }
}

/// Keeps what a plain instruction changes, and no other object: the process that performs it, and the page of its store.
fn keep_plain<T: Translator, L: Ledger>(
    machine: &Machine<T>,
    plain: PlainInsn,
    past: &mut Past,
    fetches: &mut Steps<L>,
)
    requires there { IsThere machine.now.objects plain }
    requires sizes { IsFor past.old (sizes_of machine.now.objects) }
    ensures sizes { IsFor past.new (sizes_of machine.now.objects) }
    ensures holds { Holds past.new machine.now.objects }
    ensures names { names_in past.new ≡ plain_names plain }
    ensures queues { past.new.queues ≡ past.old.queues }
    ensures halted { past.new.halted ≡ past.old.halted }
    ensures few { AtMostOneGpt past.new }
    ensures unread { fetches.new ≡ fetches.old }
{
    past.forget_objects();
    past.keep(machine, CapKind::Process, plain.process, fetches);
    match plain.page {
        None => {}
        Some(page) => past.keep(machine, CapKind::Page, page, fetches),
    }
}

/// The past then stands for the machine's present state, and for objects among which is each of which the event changes
/// what is stored or the count. All processes are, since an event may wake any number of them.
///
/// It walks as the event will.
pub fn remember<T: Translator, L: Ledger>(
    machine: &Machine<T>,
    e: Event,
    past: &mut Past,
    fetches: &mut Steps<L>,
)
    requires hart { hart_in e < machine.now.objects.harts }
    requires sizes { IsFor past.old (sizes_of machine.now.objects) }
    ensures stands { StandsFor past.new machine.now }
    ensures remembers { let changed = (event_of (state_of machine.now) e).changed in
        Remembers past.new machine.now.objects changed }
    ensures few { AtMostOneGpt past.new }
    ensures least { fetches.old ≤ fetches.new }
    ensures most { fetches.new ≤ fetches.old + a_past }
{
    past.begin(machine);
    keep_processes(machine, past, fetches);
    let reach = reach_of_event(machine, e, fetches);
    keep_reach(machine, &reach, past, fetches);
}

/// Keeps all processes.
fn keep_processes<T: Translator, L: Ledger>(
    machine: &Machine<T>,
    past: &mut Past,
    fetches: &mut Steps<L>,
)
    requires none { past.old.places ≡ [] }
    requires stands { StandsFor past.old machine.now }
    ensures stands { StandsFor past.new machine.now }
    ensures all { (n : ℕ) → n < size_of machine.now.objects.items Process →
        IsAmong Process n (names_in past.new) }
    ensures others { (k : CapKind) → k ≢ Process → used k past.new.places ≡ 0 }
    ensures count { length past.new.places ≤ 256 }
    ensures unread { fetches.new ≡ fetches.old }
{
    let processes = machine.objects().sizes().processes;
    'each: for p in 0..processes {
        past.keep(machine, CapKind::Process, p, fetches);
    }
}

/// Keeps what an event may change besides processes.
fn keep_reach<T: Translator, L: Ledger>(
    machine: &Machine<T>,
    reach: &Reach,
    past: &mut Past,
    fetches: &mut Steps<L>,
)
    requires stands { StandsFor past.old machine.now }
    requires others { (k : CapKind) → k ≢ Process → used k past.old.places ≡ 0 }
    requires count { length past.old.places ≤ 256 }
    ensures stands { StandsFor past.new machine.now }
    ensures more { (kind : CapKind) (n : ℕ) → IsAmong kind n (names_in past.old) →
        IsAmong kind n (names_in past.new) }
    ensures kept { Remembers past.new machine.now.objects (names_of reach.now) }
    ensures few { AtMostOneGpt past.new }
    ensures least { fetches.old ≤ fetches.new }
    ensures most { fetches.new ≤ fetches.old + a_copy }
{
    match reach {
        Reach::Nothing => {}
        Reach::Object(kind, number) => keep_object(machine, *kind, *number, past, fetches),
        Reach::Message { endpoint, into } => {
            let number = u32::from(*endpoint);
            keep_object(machine, CapKind::Endpoint, number, past, fetches);
            keep_pages(machine, into, past, fetches);
        }
    }
}

/// Keeps the pages of pieces.
fn keep_pages<T: Translator, L: Ledger>(
    machine: &Machine<T>,
    pieces: &Pieces,
    past: &mut Past,
    fetches: &mut Steps<L>,
)
    requires stands { StandsFor past.old machine.now }
    requires none { used Page past.old.places ≡ 0 }
    requires count { length past.old.places ≤ 257 }
    ensures stands { StandsFor past.new machine.now }
    ensures more { (kind : CapKind) (n : ℕ) → IsAmong kind n (names_in past.old) →
        IsAmong kind n (names_in past.new) }
    ensures kept { Remembers past.new machine.now.objects (page_names pieces.now) }
    ensures others { (k : CapKind) → k ≢ Page →
        used k past.new.places ≤ used k past.old.places }
    ensures unread { fetches.new ≡ fetches.old }
{
    let list = pieces.as_slice();
    'each: for i in 0..list.len() {
        let number = u32::from(list[i].page);
        keep_object(machine, CapKind::Page, number, past, fetches);
    }
}

/// Keeps an object, if there is one of this number.
fn keep_object<T: Translator, L: Ledger>(
    machine: &Machine<T>,
    kind: CapKind,
    number: u32,
    past: &mut Past,
    fetches: &mut Steps<L>,
)
    requires stands { StandsFor past.old machine.now }
    requires place { HasPlace kind past.old.places }
    requires count { length past.old.places < 288 }
    ensures stands { StandsFor past.new machine.now }
    ensures more { (k : CapKind) (n : ℕ) → IsAmong k n (names_in past.old) →
        IsAmong k n (names_in past.new) }
    ensures kept { Remembers past.new machine.now.objects (object_name kind number ∷ []) }
    ensures used { (k : CapKind) →
        used k past.new.places ≤ used k past.old.places + same_kind kind k }
    ensures count { length past.new.places ≤ length past.old.places + 1 }
    ensures least { fetches.old ≤ fetches.new }
    ensures most { fetches.new ≤ fetches.old + slots_copied kind }
{
    let objects = machine.objects();
    // Sizes that are read tell that a number of an object is small.
    let _sizes = objects.sizes();
    match objects.cap_to(kind, number) {
        Ok(_) => past.keep(machine, kind, number as u16, fetches),
        Err(_) => {}
    }
}
