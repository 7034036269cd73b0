//! Strings: the pieces of pages that the accesses to their spans reach.
ghost use Rattle.std.specs.Prelude.{◌≡◌, ◌<◌, ◌≤◌, ◌+◌, ◌^◌, ◌*◌, true, length};
ghost use Rattle.cap_format.specs.declared.kind.CapKind.TheVariants.{Process};
ghost use Rattle.object_store.specs.Store.{size_of};
ghost use Rattle.object_store.specs.Meaning.{meaning};
ghost use Rattle.string_move.specs.Spans.{spans};
ghost use Rattle.walk_meaning.specs.Walk.{is_data};
ghost use Rattle.machine_state.specs.State.{state_of};
ghost use Rattle.messages.specs.Strings.{side, string_fault_map};
ghost use Rattle.event_reach.specs.Reads.{a_walk, a_string};

use machine_state::Machine;
use messages::{Found, StringFault};
use std::sync::ledger::Ledger;
use steps::Steps;
use string_move::{Piece, Pieces, Spans, cut};
use walk_engine::Translator;
use walk_meaning::Kind;

/// What the accesses to a string of at most 65,536 bytes will find, by the space of process `q`.
pub(crate) fn walk_string<T: Translator, L: Ledger>(
    machine: &Machine<T>,
    q: u16,
    kind: Kind,
    at: u32,
    size: u32,
    fetches: &mut Steps<L>,
) -> Found
    requires there { q < size_of machine.now.objects.items Process }
    requires data { is_data kind ≡ true }
    requires longest { size ≤ 65536 }
    requires ends { at + size ≤ 2 ^ 32 }
    ensures pieces { result.pieces ≡ (side (state_of machine.now) q kind (spans at size)).pieces }
    ensures fault { let f = meaning machine.now.objects.items in
        string_fault_map f result.fault ≡ (side (state_of machine.now) q kind (spans at size)).fault }
    ensures least { fetches.old ≤ fetches.new }
    ensures most { fetches.new ≤ fetches.old + a_string }
{
    walk_spans(machine, q, kind, &cut(at, size), fetches)
}

/// The same, by the spans of the string.
fn walk_spans<T: Translator, L: Ledger>(
    machine: &Machine<T>,
    q: u16,
    kind: Kind,
    spans: &Spans,
    fetches: &mut Steps<L>,
) -> Found
    requires there { q < size_of machine.now.objects.items Process }
    requires data { is_data kind ≡ true }
    ensures pieces { result.pieces ≡ (side (state_of machine.now) q kind spans.now).pieces }
    ensures fault { let f = meaning machine.now.objects.items in
        string_fault_map f result.fault ≡ (side (state_of machine.now) q kind spans.now).fault }
    ensures least { fetches.old ≤ fetches.new }
    ensures most { fetches.new ≤ fetches.old + a_walk * length spans.now }
{
    let mut pieces = Pieces::new();
    let list = spans.as_slice();
    'each: for span in list {
        match machine.walk_data(q, span.address, kind, fetches) {
            Ok(hit) => pieces.push(Piece {
                page: hit.page,
                at: hit.offset,
                len: span.size,
            }),
            Err(why) => {
                let address = span.address;
                return Found {
                    pieces,
                    fault: Some(StringFault { address, why }),
                };
            }
        }
    }
    Found {
        pieces,
        fault: None,
    }
}
