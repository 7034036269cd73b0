//! Whether a policy holds.
ghost use Rattle.std.specs.Prelude.{◌≡◌, ◌≤◌, ◌+◌, ◌*◌, ◌↔◌, length, IfOk, IsTrue, OnErr};
ghost use Rattle.cap_format.specs.declared.kind.CapKind.TheVariants.{Gpt};
ghost use Rattle.object_store.specs.Store.{size_of};
ghost use Rattle.machine_state.specs.State.{state_of};
ghost use Rattle.policy_lines.specs.Permission.{IsMade, without};
ghost use Rattle.policy_lines.specs.Unused.{holds_in};

use crate::permission::Permission;
use cap_format::OutOfMemory;
use machine_state::Machine;
use separation_check::crossings;
use separation_policy::Policy;
use std::alloc::Global;
use std::sync::ledger::Ledger;
use steps::Steps;
use walk_engine::Translator;

/// Whether a policy holds of a machine.
pub(crate) fn holds<T: Translator, L: Ledger>(
    alloc: Global,
    machine: &Machine<T>,
    policy: &Policy,
    fetches: &mut Steps<L>,
) -> Result<bool, OutOfMemory>
    ensures value { IfOk result (λ yes. yes ≡ holds_in policy.now (state_of machine.now)) }
    ensures counted { IfOk result (λ yes. fetches.new ≡
        fetches.old + 16 * size_of machine.now.objects.items Gpt) }
    ensures err { OnErr result (fetches.new ≡ fetches.old) }
    ensures most { fetches.new ≤ fetches.old + 16 * size_of machine.now.objects.items Gpt }
{
    let found = crossings(alloc, machine, policy, fetches)?;
    Ok(found.crossings.is_empty())
}

/// Whether it would hold without one of its lines. The policy is as before.
pub(crate) fn holds_without<T: Translator, L: Ledger>(
    alloc: Global,
    machine: &Machine<T>,
    policy: &mut Policy,
    line: Permission,
    fetches: &mut Steps<L>,
) -> Result<bool, OutOfMemory>
    requires { IsMade (length policy.old.domains) line }
    ensures value { IfOk result (λ yes. yes
        ≡ holds_in (without policy.old line) (state_of machine.now)) }
    ensures same { policy.new ≡ policy.old }
    ensures counted { IfOk result (λ yes. fetches.new ≡
        fetches.old + 16 * size_of machine.now.objects.items Gpt) }
    ensures err { OnErr result (fetches.new ≡ fetches.old) }
    ensures most { fetches.new ≤ fetches.old + 16 * size_of machine.now.objects.items Gpt }
{
    policy.len();
    let domain = line.domain();
    let before = policy.rights(domain);
    policy.set_rights(domain, line.out_of(before));
    let held = holds(alloc, machine, policy, fetches);
    policy.set_rights(domain, before);
    held
}
