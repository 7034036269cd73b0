//! The last events of a run, undone one after the other.
ghost use Rattle.std.specs.Prelude.{◌≡◌, ◌≤◌, ◌+◌, ◌*◌, min};
ghost use Rattle.reverse_run.specs.History.{history_of, remembered};
ghost use Rattle.reverse_run.specs.Reads.{an_undo};
ghost use Rattle.back_command.specs.Runs.{undos};

use reverse_run::Reversible;
use std::sync::ledger::Ledger;
use steps::Steps;
use walk_engine::Translator;

/// Undoes so many events, or all that are remembered where they are fewer. It answers how many were undone.
pub(crate) fn undo_last<T: Translator, L: Ledger>(
    reversible: &mut Reversible<T>,
    number: u32,
    fetches: &mut Steps<L>,
) -> u16
    ensures count { result ≡ min number (remembered (history_of reversible.old)) }
    ensures after { history_of reversible.new ≡ undos result (history_of reversible.old) }
    ensures least { fetches.old ≤ fetches.new }
    ensures most { fetches.new ≤ fetches.old + an_undo * result }
{
    let count = smaller(number, reversible.remembered());
    'each: for n in 0..count {
        reversible.undo(fetches);
    }
    count
}

/// The smaller of two numbers.
fn smaller(number: u32, most: u16) -> u16
    ensures { result ≡ min number most }
{
    if number < u32::from(most) {
        return number as u16;
    }
    most
}
