//! The least lines with which a policy holds.
ghost use Rattle.std.specs.Prelude.{◌≡◌, ◌<◌, ◌≤◌, ◌+◌, ◌*◌, ◌++◌, [], drop, length, map, IfOk, OnErr};
ghost use Rattle.std.specs.List.{All};
ghost use Rattle.cap_format.specs.declared.kind.CapKind.TheVariants.{Gpt};
ghost use Rattle.object_store.specs.Store.{size_of};
ghost use Rattle.machine_state.specs.State.{state_of};
ghost use Rattle.separation_policy.specs.Making.{bare_policy};
ghost use Rattle.separation_check.specs.Crossings.{forbidden_in, meant_crossing};
ghost use Rattle.policy_lines.specs.Passages.{ReadsWhole};
ghost use Rattle.policy_lines.specs.Permission.{IsMade, lines_of};
ghost use Rattle.policy_lines.specs.Unused.{holds_in};
ghost use Rattle.policy_lines.specs.Least.{only, thinned};
ghost use Rattle.policy_lines.specs.Needed.{named_by, needed_value, needed_in, passages_in, IsNeeded};

use crate::allowing::{allow_all, allow_only};
use crate::holding::holds;
use crate::listing::{line_at, lines, push_if};
use crate::naming::{barred, named_by};
use crate::needed::Needed;
use crate::permission::Permission;
use cap_format::OutOfMemory;
use confine_check::tell_full;
use machine_state::Machine;
use separation_check::{Crossing, all_law, crossings, remedy_law};
use separation_policy::Policy;
use std::alloc::Global;
use std::sync::ledger::Ledger;
use steps::Steps;
use walk_engine::Translator;

/// The least lines with which the policy of these domains and objects holds of a machine, whatever lines it has; or all that
/// no line allows, if there is such. Of the lines that would allow what crosses, each is tried in its order, and left out if
/// the others are enough. The policy has no lines afterwards, in every outcome. Each slot of a GPT is read once, and once more
/// for each line that is tried; at most so often where memory is wanting.
pub fn least<T: Translator, L: Ledger>(
    alloc: Global,
    machine: &Machine<T>,
    policy: &mut Policy,
    fetches: &mut Steps<L>,
) -> Result<Needed, OutOfMemory>
    ensures value { IfOk result (λ needed. needed_value needed
        ≡ needed_in policy.old (state_of machine.now)) }
    ensures least { IfOk result (λ needed.
        IsNeeded policy.old (state_of machine.now) (needed_value needed)) }
    ensures after { policy.new ≡ bare_policy policy.old }
    ensures counted { IfOk result (λ needed. fetches.new ≡
        fetches.old + 16 * size_of machine.now.objects.items Gpt * passages_in policy.old (state_of machine.now)) }
    ensures err { OnErr result (ReadsWhole (16 * size_of machine.now.objects.items Gpt)
        (passages_in policy.old (state_of machine.now)) fetches.old fetches.new) }
    ensures most { fetches.new ≤
        fetches.old + 16 * size_of machine.now.objects.items Gpt * passages_in policy.old (state_of machine.now) }
{
    tell_full(machine.objects());
    all_law();
    remedy_law();
    let needed = find_needed(alloc, machine, policy, fetches);
    policy.clear();
    needed
}

/// The same by what is searched. The policy keeps its domains and objects.
fn find_needed<T: Translator, L: Ledger>(
    alloc: Global,
    machine: &Machine<T>,
    policy: &mut Policy,
    fetches: &mut Steps<L>,
) -> Result<Needed, OutOfMemory>
    ensures value { IfOk result (λ needed. needed_value needed
        ≡ needed_in policy.old (state_of machine.now)) }
    ensures bare { bare_policy policy.new ≡ bare_policy policy.old }
    ensures counted { IfOk result (λ needed. fetches.new ≡
        fetches.old + 16 * size_of machine.now.objects.items Gpt * passages_in policy.old (state_of machine.now)) }
    ensures err { OnErr result (ReadsWhole (16 * size_of machine.now.objects.items Gpt)
        (passages_in policy.old (state_of machine.now)) fetches.old fetches.new) }
    ensures most { fetches.new ≤
        fetches.old + 16 * size_of machine.now.objects.items Gpt * passages_in policy.old (state_of machine.now) }
{
    let found = bare_crossings(alloc, machine, policy, fetches)?;
    let those = barred(alloc, policy.len(), &found)?;
    if !those.is_empty() {
        return Ok(Needed::Barred(those));
    }
    let kept = find_least(alloc, machine, policy, &found, fetches)?;
    Ok(Needed::Lines(kept))
}

/// All that crosses where no domain may do anything beyond itself. The policy has no lines afterwards.
fn bare_crossings<T: Translator, L: Ledger>(
    alloc: Global,
    machine: &Machine<T>,
    policy: &mut Policy,
    fetches: &mut Steps<L>,
) -> Result<Vec<Crossing>, OutOfMemory>
    ensures means { IfOk result (λ found. map meant_crossing found.items ≡
        forbidden_in (bare_policy policy.old) (state_of machine.now)) }
    ensures after { policy.new ≡ bare_policy policy.old }
    ensures counted { IfOk result (λ found. fetches.new ≡
        fetches.old + 16 * size_of machine.now.objects.items Gpt) }
    ensures err { OnErr result (fetches.new ≡ fetches.old) }
    ensures most { fetches.new ≤ fetches.old + 16 * size_of machine.now.objects.items Gpt }
{
    policy.clear();
    let found = crossings(alloc, machine, policy, fetches)?;
    Ok(found.crossings)
}

/// The least of the lines that would allow this. The policy keeps its domains and objects.
fn find_least<T: Translator, L: Ledger>(
    alloc: Global,
    machine: &Machine<T>,
    policy: &mut Policy,
    found: &[Crossing],
    fetches: &mut Steps<L>,
) -> Result<Vec<Permission>, OutOfMemory>
    ensures value { let all = lines_of
        (only policy.old (named_by (length policy.old.domains) found.now)) in
        IfOk result (λ kept. kept.items ≡
        thinned (λ some. holds_in (only policy.old some) (state_of machine.now)) [] all) }
    ensures bare { bare_policy policy.new ≡ bare_policy policy.old }
    ensures counted { let all = lines_of
        (only policy.old (named_by (length policy.old.domains) found.now)) in
        IfOk result (λ kept. fetches.new ≡
        fetches.old + 16 * size_of machine.now.objects.items Gpt * length all) }
    ensures err { let all = lines_of (only policy.old
        (named_by (length policy.old.domains) found.now)) in
        OnErr result (ReadsWhole (16 * size_of machine.now.objects.items Gpt) (length all)
        fetches.old fetches.new) }
    ensures most { let all = lines_of (only policy.old
        (named_by (length policy.old.domains) found.now)) in
        fetches.new ≤ fetches.old + 16 * size_of machine.now.objects.items Gpt * length all }
{
    let named = named_by(alloc, policy.len(), found)?;
    allow_only(policy, &named);
    let all = lines(alloc, policy)?;
    thin(alloc, machine, policy, &all, fetches)
}

/// Of these lines those that are left where each is tried in their order, and left out if the others are enough. The policy
/// keeps its domains and objects.
fn thin<T: Translator, L: Ledger>(
    alloc: Global,
    machine: &Machine<T>,
    policy: &mut Policy,
    lines: &[Permission],
    fetches: &mut Steps<L>,
) -> Result<Vec<Permission>, OutOfMemory>
    requires { All (IsMade (length policy.old.domains)) lines.now }
    ensures value { IfOk result (λ kept. kept.items ≡
        thinned (λ some. holds_in (only policy.old some) (state_of machine.now)) [] lines.now) }
    ensures bare { bare_policy policy.new ≡ bare_policy policy.old }
    ensures counted { IfOk result (λ kept. fetches.new ≡
        fetches.old + 16 * size_of machine.now.objects.items Gpt * length lines.now) }
    ensures err { OnErr result (ReadsWhole (16 * size_of machine.now.objects.items Gpt)
        (length lines.now) fetches.old fetches.new) }
    ensures most { fetches.new ≤
        fetches.old + 16 * size_of machine.now.objects.items Gpt * length lines.now }
{
    let mut kept = Vec::new(alloc);
    'each: for i in 0..lines.len() {
        let enough = holds_with(alloc, machine, policy, &kept, behind(lines, i), fetches)?;
        push_if(&mut kept, line_at(lines, i), !enough)?;
    }
    Ok(kept)
}

/// The lines behind one of a list.
fn behind(lines: &[Permission], i: usize) -> &[Permission]
    requires { i < length lines.now }
    ensures { result.now ≡ drop (i + 1) lines.now }
{
    &lines[i + 1..]
}

/// Whether a policy holds of a machine with these lines, and those, and no other. It has them afterwards.
fn holds_with<T: Translator, L: Ledger>(
    alloc: Global,
    machine: &Machine<T>,
    policy: &mut Policy,
    kept: &[Permission],
    rest: &[Permission],
    fetches: &mut Steps<L>,
) -> Result<bool, OutOfMemory>
    requires kept { All (IsMade (length policy.old.domains)) kept.now }
    requires rest { All (IsMade (length policy.old.domains)) rest.now }
    ensures value { IfOk result (λ yes. yes
        ≡ holds_in (only policy.old (kept.now ++ rest.now)) (state_of machine.now)) }
    ensures after { policy.new ≡ only policy.old (kept.now ++ rest.now) }
    ensures counted { IfOk result (λ yes. fetches.new ≡
        fetches.old + 16 * size_of machine.now.objects.items Gpt) }
    ensures err { OnErr result (fetches.new ≡ fetches.old) }
    ensures most { fetches.new ≤ fetches.old + 16 * size_of machine.now.objects.items Gpt }
{
    allow_only(policy, kept);
    allow_all(policy, rest);
    holds(alloc, machine, policy, fetches)
}
