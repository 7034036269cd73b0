//! Whether a step is quiet.
ghost use Rattle.std.specs.Prelude.{◌≡◌, ◌<◌, ◌≤◌, ◌+◌, Some};
ghost use Rattle.std.specs.List.{list_any};
ghost use Rattle.cap_format.specs.declared.kind.CapKind.TheVariants.{Process};
ghost use Rattle.object_store.specs.Store.{size_of};
ghost use Rattle.schedules.specs.Queues.{hart_of};
ghost use Rattle.machine_state.specs.State.{state_of};
ghost use Rattle.quiet_runs.specs.Finding.{is_own, is_quiet, is_secluded, is_watched};
ghost use Rattle.quiet_finding.specs.Reaching.{IsReaching};
ghost use Rattle.quiet_finding.specs.Walks.{AreKeptOn};
ghost use Rattle.quiet_finding.specs.Watched.{watch_of};

use crate::accesses::is_own;
use crate::instructions::is_quiet_next;
use crate::reaching::Reaching;
use crate::walks::KeptWalks;
use crate::watched::Watched;
use machine_state::Machine;
use std::sync::ledger::Ledger;
use steps::Steps;
use walk_engine::Translator;

/// Whether the next step of a hart is quiet, for one who watches this: nobody else can tell it from no step at all.
///
/// No translator is asked: the walks of the step are made afresh, but for those that are kept. What is kept after it holds of the
/// process on the hart; it holds after the step too, where that is quiet (`held_law`).
#[tactic(auto, unfolding(quiet_runs::specs::Finding::is_quiet))]
pub fn is_quiet<T: Translator, L: Ledger>(
    machine: &Machine<T>,
    hart: u8,
    reaching: &Reaching,
    watched: &Watched,
    walks: &mut KeptWalks,
    fetches: &mut Steps<L>,
) -> bool
    requires hart { hart < machine.now.objects.harts }
    requires reaching { IsReaching (state_of machine.now).store reaching.now }
    requires walks { AreKeptOn (state_of machine.now) hart walks.old }
    ensures value { result ≡ is_quiet (watch_of watched.now) (state_of machine.now) hart }
    ensures walks { AreKeptOn (state_of machine.now) hart walks.new }
    ensures least { fetches.old ≤ fetches.new }
    ensures most { fetches.new ≤ fetches.old + 64 }
{
    if machine.halted() {
        return false;
    }
    let Some(p) = machine.on_hart(hart) else {
        return false;
    };
    is_secluded(machine, p, hart, reaching)
        && !is_watched(machine, p, reaching, watched)
        && is_quiet_next(machine, p, reaching, walks, fetches)
}

/// Whether the process on a hart has its own to itself: it runs there, and nowhere else.
fn is_secluded<T: Translator>(machine: &Machine<T>, p: u16, hart: u8, reaching: &Reaching) -> bool
    requires there { p < size_of machine.now.objects.items Process }
    requires on_hart { hart_of machine.now.queues hart ≡ Some p }
    requires reaching { IsReaching (state_of machine.now).store reaching.now }
    ensures { result ≡ is_secluded (state_of machine.now) p hart }
{
    machine.objects().in_ranges();
    machine.tell_kept();
    machine.tell_alone(hart, p);
    if reaching.names_process(p) {
        return false;
    }
    !reaching.is_far_reaching()
}

/// Whether one of these pages is.
fn owns_one<T: Translator>(machine: &Machine<T>, p: u16, pages: &[u16], reaching: &Reaching) -> bool
    requires { IsReaching (state_of machine.now).store reaching.now }
    ensures { result ≡ list_any (is_own (state_of machine.now) p) pages.now }
{
    pages.iter().any(|n| is_own(machine, p, *n, reaching))
}

/// Whether what a process does is watched: its registers, or a page of its own.
fn is_watched<T: Translator>(
    machine: &Machine<T>,
    p: u16,
    reaching: &Reaching,
    watched: &Watched,
) -> bool
    requires { IsReaching (state_of machine.now).store reaching.now }
    ensures { result ≡ is_watched (watch_of watched.now) (state_of machine.now) p }
{
    if watched.has_process(p) {
        return true;
    }
    owns_one(machine, p, watched.pages(), reaching)
}
