//! Lines of a policy that it doesn't need.
ghost use Rattle.std.specs.Prelude.{◌≡◌, ◌≤◌, ◌+◌, ◌*◌, ◌↔◌, length, IfOk, OnErr};
ghost use Rattle.std.specs.List.{Contains};
ghost use Rattle.cap_format.specs.declared.kind.CapKind.TheVariants.{Gpt};
ghost use Rattle.object_store.specs.Store.{size_of};
ghost use Rattle.machine_state.specs.State.{state_of};
ghost use Rattle.confinement.specs.Acts.{system_of};
ghost use Rattle.policy_lines.specs.Passages.{ReadsWhole};
ghost use Rattle.policy_lines.specs.Permission.{channels_of};
ghost use Rattle.policy_lines.specs.Unused.{IsUnused, unused_in};

use crate::holding::holds_without;
use crate::listing::{channels, push_if};
use crate::permission::Permission;
use cap_format::OutOfMemory;
use confine_check::tell_full;
use machine_state::Machine;
use separation_policy::Policy;
use std::alloc::Global;
use std::sync::ledger::Ledger;
use steps::Steps;
use walk_engine::Translator;

/// The lines `reads` and `writes` of a policy without which it would hold of a machine, each by itself: first `reads`, then
/// `writes`, each by the one domain's number and then by the other's. The policy is as before. Each slot of a GPT is read
/// once for each line that is tried.
pub fn unused<T: Translator, L: Ledger>(
    alloc: Global,
    machine: &Machine<T>,
    policy: &mut Policy,
    fetches: &mut Steps<L>,
) -> Result<Vec<Permission>, OutOfMemory>
    ensures value { IfOk result (λ found. found.items
        ≡ unused_in policy.old (state_of machine.now)) }
    ensures each { IfOk result (λ found. (line : Permission) → Contains found.items line ↔
        IsUnused policy.old (system_of (state_of machine.now)) line) }
    ensures same { policy.new ≡ policy.old }
    ensures counted { IfOk result (λ found. fetches.new ≡
        fetches.old + 16 * size_of machine.now.objects.items Gpt * length (channels_of policy.old)) }
    ensures err { OnErr result (ReadsWhole (16 * size_of machine.now.objects.items Gpt)
        (length (channels_of policy.old)) fetches.old fetches.new) }
    ensures most { fetches.new ≤
        fetches.old + 16 * size_of machine.now.objects.items Gpt * length (channels_of policy.old) }
{
    tell_full(machine.objects());
    all_unused(alloc, machine, policy, fetches)
}

/// The same, by what is decided.
fn all_unused<T: Translator, L: Ledger>(
    alloc: Global,
    machine: &Machine<T>,
    policy: &mut Policy,
    fetches: &mut Steps<L>,
) -> Result<Vec<Permission>, OutOfMemory>
    ensures value { IfOk result (λ found. found.items
        ≡ unused_in policy.old (state_of machine.now)) }
    ensures same { policy.new ≡ policy.old }
    ensures counted { IfOk result (λ found. fetches.new ≡
        fetches.old + 16 * size_of machine.now.objects.items Gpt * length (channels_of policy.old)) }
    ensures err { OnErr result (ReadsWhole (16 * size_of machine.now.objects.items Gpt)
        (length (channels_of policy.old)) fetches.old fetches.new) }
    ensures most { fetches.new ≤
        fetches.old + 16 * size_of machine.now.objects.items Gpt * length (channels_of policy.old) }
{
    let lines = channels(alloc, policy)?;
    let mut found = Vec::new(alloc);
    'each: for i in 0..lines.len() {
        let line = lines[i];
        let yes = holds_without(alloc, machine, policy, line, fetches)?;
        push_if(&mut found, line, yes)?;
    }
    Ok(found)
}
