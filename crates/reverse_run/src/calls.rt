//! Lists of calls, one after the other.
ghost use Rattle.std.specs.Prelude.{◌≡◌, ◌≤◌, ◌+◌};
ghost use Rattle.std.specs.List.{All};
ghost use Rattle.reverse_run.specs.History.{history_of};
ghost use Rattle.reverse_run.specs.Calls.{after_call, history_after, IsOfHart};
ghost use Rattle.event_reach.specs.FreshWalks.{WalksAtMost};
ghost use Rattle.reverse_run.specs.Reads.{most_for, most_in};

use crate::call::Call;
use crate::reversible::Reversible;
use machine_state::Records;
use std::sync::ledger::Ledger;
use steps::Steps;
use walk_engine::Translator;

/// Makes the calls in their order. The history is then that of these calls; what a call answers is what its own contract says
/// of the history before it.
///
/// Over a translator that never fetches more for an access than a fresh walk reads, they read at most as many slots as the
/// walks of their events do, and so many for each event and for each undo. Whatever is kept after an undo, it is so.
pub fn make_calls<T: Translator, L: Ledger>(
    reversible: &mut Reversible<T>,
    calls: &[Call],
    fetches: &mut Steps<L>,
)
    requires harts { All (IsOfHart reversible.old.machine.objects.harts) calls.now }
    ensures history { let depth = reversible.old.depth in
        history_of reversible.new ≡ history_after depth (history_of reversible.old) calls.now }
    ensures depth { reversible.new.depth ≡ reversible.old.depth }
    ensures harts { reversible.new.machine.objects.harts ≡ reversible.old.machine.objects.harts }
    ensures least { fetches.old ≤ fetches.new }
    ensures most { let depth = reversible.old.depth in
        WalksAtMost T.cost →
        fetches.new ≤ fetches.old + most_in depth (history_of reversible.old) calls.now }
{
    let mut records = Records::new();
    'each: for i in 0..calls.len() {
        make_call(reversible, calls[i], &mut records, fetches);
    }
}

/// Makes one call.
fn make_call<T: Translator, L: Ledger>(
    reversible: &mut Reversible<T>,
    call: Call,
    records: &mut Records,
    fetches: &mut Steps<L>,
)
    requires { IsOfHart reversible.old.machine.objects.harts call }
    ensures history { history_of reversible.new ≡
        after_call reversible.old.depth (history_of reversible.old) call }
    ensures depth { reversible.new.depth ≡ reversible.old.depth }
    ensures harts { reversible.new.machine.objects.harts ≡ reversible.old.machine.objects.harts }
    ensures least { fetches.old ≤ fetches.new }
    ensures most { WalksAtMost T.cost →
        fetches.new ≤ fetches.old + most_for (history_of reversible.old) call }
{
    match call {
        Call::Perform(e) => {
            reversible.event_into(e, records, fetches);
        }
        Call::Undo => {
            reversible.undo(fetches);
        }
    }
}
