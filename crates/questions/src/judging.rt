//! One machine, judged by reading it.
ghost use Rattle.std.specs.Prelude.{◌≡◌, ◌<◌, ◌≤◌, ◌+◌, ◌*◌, ◌||◌, not, false, length, slice_index_or, [], IsTrue};
ghost use Rattle.std.specs.List.{All, list_any, position, sum_by};
ghost use Rattle.cap_format.specs.declared.kind.CapKind.TheVariants.{Gpt};
ghost use Rattle.object_store.specs.Store.{size_of, sizes_of};
ghost use Rattle.machine_state.specs.State.{state_of};
ghost use Rattle.questions.specs.Atom.{IsAtomOf, all_hold, atom_holds, crosses, is_of_policy};
ghost use Rattle.separation_policy.specs.Closure.{IsClosure};
ghost use Rattle.questions.specs.Question.{IsPropertyOf, IsIndifferent, MakesNoDifference, any_holds, are_about_policy, atoms_in, count_atoms, fails, first_failing, first_holds, holds, is_about_policy, property_of};

use crate::asks::Asks;
use crate::atom::{Atom, Condition};
use crate::conditions::condition_holds;
use crate::crossing::{crosses, tell_uncrossed};
use crate::property::{Group, Property};
use crate::question::Question;
use machine_state::Machine;
use separation_policy::{Closure, Policy};
use std::sync::ledger::Ledger;
use steps::Steps;
use walk_engine::Translator;

/// Whether it makes no difference to a question whether the policy holds of a machine, after whatever events: none of its
/// properties is about the policy, or it holds. Once it does, it holds after any events.
pub fn is_indifferent<T: Translator, L: Ledger>(
    question: &Question,
    policy: &Policy,
    closure: &Closure,
    machine: &Machine<T>,
    fetches: &mut Steps<L>,
) -> bool
    requires { IsClosure policy.now closure.now }
    ensures value { result ≡
        (not (list_any is_about_policy question.now.properties) || not (crosses policy.now (state_of machine.now))) }
    ensures indifferent { IsTrue result
        → IsIndifferent question.now policy.now (state_of machine.now) }
    ensures unasked { list_any is_about_policy question.now.properties ≡ false →
        fetches.new ≡ fetches.old }
    ensures least { fetches.old ≤ fetches.new }
    ensures most { fetches.new ≤ fetches.old + 16 * size_of machine.now.objects.items Gpt }
{
    !ask_policy(question.properties()) || !crosses(machine, policy, closure, fetches)
}

/// The first `never` of a question that fails in the state of a machine, by its number among the properties. The policy is
/// looked at only where it may make a difference (not `indifferent`): then each slot of a GPT is read once at most, and for
/// each atom the slots of one GPT.
pub fn first_failing<T: Translator, L: Ledger>(
    question: &Question,
    policy: &Policy,
    closure: &Closure,
    indifferent: bool,
    machine: &Machine<T>,
    fetches: &mut Steps<L>,
) -> Option<usize>
    requires sizes { question.now.sizes ≡ sizes_of machine.now.objects }
    requires closure { IsClosure policy.now closure.now }
    requires indifferent { IsTrue indifferent →
        IsIndifferent question.now policy.now (state_of machine.now) }
    ensures value { result ≡ first_failing question.now policy.now (state_of machine.now) }
    ensures least { fetches.old ≤ fetches.new }
    ensures most { fetches.new ≤ fetches.old + 16 * size_of machine.now.objects.items Gpt
        + 16 * sum_by atoms_in question.now.properties }
    ensures few { IsTrue indifferent → fetches.new ≤ fetches.old
        + 16 * sum_by atoms_in question.now.properties }
{
    let properties = question.properties();
    if indifferent {
        tell_uncrossed(machine, policy);
        return failing(properties, false, machine, fetches);
    }
    let crossing = crosses(machine, policy, closure, fetches);
    failing(properties, crossing, machine, fetches)
}

/// Whether a property of a question holds of the state of a machine: all atoms of one of its groups do. The policy is looked
/// at only where it may make a difference (not `indifferent`), and one of these groups is about it.
pub fn holds<T: Translator, L: Ledger>(
    question: &Question,
    policy: &Policy,
    closure: &Closure,
    indifferent: bool,
    machine: &Machine<T>,
    property: usize,
    fetches: &mut Steps<L>,
) -> bool
    requires sizes { question.now.sizes ≡ sizes_of machine.now.objects }
    requires closure { IsClosure policy.now closure.now }
    requires indifferent { IsTrue indifferent →
        IsIndifferent question.now policy.now (state_of machine.now) }
    requires there { property < length question.now.properties }
    ensures value { result ≡ holds question.now policy.now (state_of machine.now) property }
    ensures least { fetches.old ≤ fetches.new }
    ensures most { let asked = slice_index_or question.now.properties property
        (property_of 0 Asks.Never []) in
        fetches.new ≤ fetches.old + 16 * size_of machine.now.objects.items Gpt + 16 * atoms_in asked }
    ensures few { let asked = slice_index_or question.now.properties property
        (property_of 0 Asks.Never []) in
        IsTrue indifferent → fetches.new ≤ fetches.old + 16 * atoms_in asked }
{
    groups_hold(
        question.properties()[property].groups(),
        policy,
        closure,
        indifferent,
        machine,
        fetches,
    )
}

/// Whether all atoms of one of the first groups of a property hold of the state of a machine. The policy is looked at as by
/// `holds`.
pub fn first_holds<T: Translator, L: Ledger>(
    question: &Question,
    policy: &Policy,
    closure: &Closure,
    indifferent: bool,
    machine: &Machine<T>,
    property: usize,
    fetches: &mut Steps<L>,
) -> bool
    requires sizes { question.now.sizes ≡ sizes_of machine.now.objects }
    requires closure { IsClosure policy.now closure.now }
    requires indifferent { IsTrue indifferent →
        IsIndifferent question.now policy.now (state_of machine.now) }
    requires there { property < length question.now.properties }
    ensures value { result ≡ first_holds question.now policy.now (state_of machine.now) property }
    ensures least { fetches.old ≤ fetches.new }
    ensures most { let asked = slice_index_or question.now.properties property
        (property_of 0 Asks.Never []) in
        fetches.new ≤ fetches.old + 16 * size_of machine.now.objects.items Gpt + 16 * count_atoms asked.first }
    ensures few { let asked = slice_index_or question.now.properties property
        (property_of 0 Asks.Never []) in
        IsTrue indifferent → fetches.new ≤ fetches.old + 16 * count_atoms asked.first }
{
    groups_hold(
        question.properties()[property].first(),
        policy,
        closure,
        indifferent,
        machine,
        fetches,
    )
}

/// Whether all atoms of one of some groups do.
fn groups_hold<T: Translator, L: Ledger>(
    groups: &[Group],
    policy: &Policy,
    closure: &Closure,
    indifferent: bool,
    machine: &Machine<T>,
    fetches: &mut Steps<L>,
) -> bool
    requires range { All (All (IsAtomOf (sizes_of machine.now.objects))) groups.now }
    requires closure { IsClosure policy.now closure.now }
    requires indifferent { IsTrue indifferent →
        MakesNoDifference (are_about_policy groups.now) policy.now (state_of machine.now) }
    ensures value { result ≡
        any_holds (crosses policy.now (state_of machine.now)) (state_of machine.now) groups.now }
    ensures least { fetches.old ≤ fetches.new }
    ensures most { fetches.new ≤ fetches.old + 16 * size_of machine.now.objects.items Gpt
        + 16 * count_atoms groups.now }
    ensures few { IsTrue indifferent → fetches.new ≤ fetches.old + 16 * count_atoms groups.now }
{
    if indifferent {
        tell_uncrossed(machine, policy);
        return any_holds(groups, false, machine, fetches);
    }
    if are_about_policy(groups) {
        let crossing = crosses(machine, policy, closure, fetches);
        return any_holds(groups, crossing, machine, fetches);
    }
    any_holds(groups, false, machine, fetches)
}

/// Whether one of the properties is about the policy.
fn ask_policy(properties: &[Property]) -> bool
    ensures { result ≡ list_any is_about_policy properties.now }
{
    properties.iter().any(|property| is_about_policy(property))
}

/// Whether a property is.
fn is_about_policy(property: &Property) -> bool
    ensures { result ≡ is_about_policy property.now }
{
    are_about_policy(property.first()) || are_about_policy(property.groups())
}

/// Whether one of the atoms of some groups is.
fn are_about_policy(groups: &[Group]) -> bool
    ensures { result ≡ are_about_policy groups.now }
{
    groups.iter().any(|group| group_about(group))
}

/// Whether one of the atoms of a group is.
fn group_about(group: &Group) -> bool
    ensures { result ≡ list_any is_of_policy group.now }
{
    group
        .atoms()
        .iter()
        .any(|atom| matches!(atom.condition, Condition::Crossing))
}

/// The first `never` that fails in the state of a machine.
fn failing<T: Translator, L: Ledger>(
    properties: &[Property],
    crossing: bool,
    machine: &Machine<T>,
    fetches: &mut Steps<L>,
) -> Option<usize>
    requires { All (IsPropertyOf (sizes_of machine.now.objects)) properties.now }
    ensures value { result ≡ position (fails crossing (state_of machine.now)) properties.now }
    ensures least { fetches.old ≤ fetches.new }
    ensures most { fetches.new ≤ fetches.old + 16 * sum_by atoms_in properties.now }
{
    'each: for i in 0..properties.len() {
        if fails(&properties[i], crossing, machine, fetches) {
            return Some(i);
        }
    }
    None
}

/// Whether a property is a `never` that fails.
fn fails<T: Translator, L: Ledger>(
    property: &Property,
    crossing: bool,
    machine: &Machine<T>,
    fetches: &mut Steps<L>,
) -> bool
    requires { IsPropertyOf (sizes_of machine.now.objects) property.now }
    ensures value { result ≡ fails crossing (state_of machine.now) property.now }
    ensures least { fetches.old ≤ fetches.new }
    ensures most { fetches.new ≤ fetches.old + 16 * atoms_in property.now }
{
    matches!(property.asks(), Asks::Never)
        && any_holds(property.groups(), crossing, machine, fetches)
}

/// Whether all atoms of one of the groups hold of the state of a machine, in which the policy doesn't hold if `crossing`.
fn any_holds<T: Translator, L: Ledger>(
    groups: &[Group],
    crossing: bool,
    machine: &Machine<T>,
    fetches: &mut Steps<L>,
) -> bool
    requires { All (All (IsAtomOf (sizes_of machine.now.objects))) groups.now }
    ensures value { result ≡ any_holds crossing (state_of machine.now) groups.now }
    ensures least { fetches.old ≤ fetches.new }
    ensures most { fetches.new ≤ fetches.old + 16 * count_atoms groups.now }
{
    'each: for i in 0..groups.len() {
        if all_hold(groups[i].atoms(), crossing, machine, fetches) {
            return true;
        }
    }
    false
}

/// Whether all atoms of a list do.
fn all_hold<T: Translator, L: Ledger>(
    atoms: &[Atom],
    crossing: bool,
    machine: &Machine<T>,
    fetches: &mut Steps<L>,
) -> bool
    requires { All (IsAtomOf (sizes_of machine.now.objects)) atoms.now }
    ensures value { result ≡ all_hold crossing (state_of machine.now) atoms.now }
    ensures least { fetches.old ≤ fetches.new }
    ensures most { fetches.new ≤ fetches.old + 16 * length atoms.now }
{
    'each: for atom in atoms {
        if !atom_holds(atom, crossing, machine, fetches) {
            return false;
        }
    }
    true
}

/// Whether one does.
fn atom_holds<T: Translator, L: Ledger>(
    atom: &Atom,
    crossing: bool,
    machine: &Machine<T>,
    fetches: &mut Steps<L>,
) -> bool
    requires { IsAtomOf (sizes_of machine.now.objects) atom.now }
    ensures value { result ≡ atom_holds crossing (state_of machine.now) atom.now }
    ensures least { fetches.old ≤ fetches.new }
    ensures most { fetches.new ≤ fetches.old + 16 }
{
    let holds = condition_holds(&atom.condition, crossing, machine, fetches);
    if atom.negated { !holds } else { holds }
}
