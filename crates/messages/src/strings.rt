//! Strings: the accesses to their spans.
ghost use Rattle.std.specs.Prelude.{◌≡◌, ◌<◌, ◌≤◌, ◌+◌, ◌^◌, true, None, length};
ghost use Rattle.std.specs.List.{All};
ghost use Rattle.cap_format.specs.declared.kind.CapKind.TheVariants.{Process};
ghost use Rattle.object_store.specs.Store.{size_of};
ghost use Rattle.object_store.specs.Meaning.{meaning};
ghost use Rattle.string_move.specs.Spans.{spans, IsInOnePage};
ghost use Rattle.string_move.specs.Move.{ArePieces, size_of_pieces};
ghost use Rattle.walk_meaning.specs.Walk.{is_data};
ghost use Rattle.machine_state.specs.State.{state_of, IsOnHart};
ghost use Rattle.machine_state.specs.Came.{Came};
ghost use Rattle.machine_state.specs.Room.{HasRoom, string_room};
ghost use Rattle.messages.specs.Strings.{side, side_outcome, string_fault_map};

use crate::string_fault::StringFault;
use machine_state::{Machine, Observer};
use std::sync::ledger::Ledger;
use steps::Steps;
use string_move::{Piece, Pieces, Spans, cut};
use walk_engine::Translator;
use walk_meaning::Kind;

/// What the accesses to a string find.
#[derive(Drop)]
pub struct Found {
    /// The pieces of pages that they reach, up to the first access that faults.
    pub pieces: Pieces,
    /// That access, if there is one.
    pub fault: Option<StringFault>,
}

/// Accesses a string of at most 65,536 bytes span by span, up to the first that faults, by the space of process `q` and
/// on the hart of process `p`.
pub fn access_string<T: Translator, O: Observer, L: Ledger>(
    machine: &mut Machine<T>,
    p: u16,
    q: u16,
    kind: Kind,
    at: u32,
    size: u32,
    observer: &mut O,
    fetches: &mut Steps<L>,
) -> Found
    requires there { p < size_of machine.old.objects.items Process }
    requires space { q < size_of machine.old.objects.items Process }
    requires on_hart { IsOnHart machine.old.queues p }
    requires data { is_data kind ≡ true }
    requires longest { size ≤ 65536 }
    requires ends { at + size ≤ 2 ^ 32 }
    requires room { HasRoom string_room (O.told observer.old) }
    ensures pieces { let side = side (state_of machine.old) q kind (spans at size) in
        result.pieces ≡ side.pieces }
    ensures fault { let side = side (state_of machine.old) q kind (spans at size) in
        string_fault_map (meaning machine.new.objects.items) result.fault ≡ side.fault }
    ensures there { ArePieces machine.new.objects.items result.pieces }
    ensures within { size_of_pieces result.pieces ≤ size }
    ensures whole { result.fault ≡ None → size_of_pieces result.pieces ≡ size }
    ensures came { let s = state_of machine.old in
        let outcome = side_outcome s (side s q kind (spans at size)) in
        Came T.Translator O.Observer p outcome
        machine.old observer.old fetches.old machine.new observer.new fetches.new }
    ensures objects { machine.new.objects ≡ machine.old.objects }
    ensures queues { machine.new.queues ≡ machine.old.queues }
    ensures most { length (O.told observer.new) ≤ length (O.told observer.old) + string_room }
{
    let spans = cut(at, size);
    access_spans(machine, p, q, kind, &spans, observer, fetches)
}

/// Accesses the spans of a string in their order, up to the first that faults.
fn access_spans<T: Translator, O: Observer, L: Ledger>(
    machine: &mut Machine<T>,
    p: u16,
    q: u16,
    kind: Kind,
    spans: &Spans,
    observer: &mut O,
    fetches: &mut Steps<L>,
) -> Found
    requires there { p < size_of machine.old.objects.items Process }
    requires space { q < size_of machine.old.objects.items Process }
    requires on_hart { IsOnHart machine.old.queues p }
    requires data { is_data kind ≡ true }
    requires in_pages { All IsInOnePage spans.now }
    requires room { HasRoom (length spans.now) (O.told observer.old) }
    ensures pieces { result.pieces ≡ (side (state_of machine.old) q kind spans.now).pieces }
    ensures fault { let items = machine.new.objects.items in
        string_fault_map (meaning items) result.fault ≡ (side (state_of machine.old) q kind spans.now).fault }
    ensures there { ArePieces machine.new.objects.items result.pieces }
    ensures came { let s = state_of machine.old in
        let outcome = side_outcome s (side s q kind spans.now) in
        Came T.Translator O.Observer p outcome
        machine.old observer.old fetches.old machine.new observer.new fetches.new }
    ensures objects { machine.new.objects ≡ machine.old.objects }
    ensures queues { machine.new.queues ≡ machine.old.queues }
    ensures most { length (O.told observer.new) ≤ length (O.told observer.old) + length spans.now }
{
    let mut pieces = Pieces::new();
    let list = spans.as_slice();
    'each: for span in list {
        match machine.access_for(p, q, span.address, kind, fetches) {
            Ok(hit) => {
                observer.access(q, kind, span.address, hit.page);
                pieces.push(Piece {
                    page: hit.page,
                    at: hit.offset,
                    len: span.size,
                });
            }
            Err(why) => {
                let address = span.address;
                return Found {
                    pieces,
                    fault: Some(StringFault { address, why }),
                };
            }
        }
    }
    Found {
        pieces,
        fault: None,
    }
}
