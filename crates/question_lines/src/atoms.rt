//! The atoms of a line.
ghost use Rattle.std.specs.Prelude.{◌≡◌, ◌≤◌, length, IfOk, IfErr, OnOk};
ghost use Rattle.std.specs.List.{All};
ghost use Rattle.questions.specs.Atom.{IsAtomOf};
ghost use Rattle.question_lines.specs.AtomLine.{atom_from, atoms_from, groups_from, negated_from, plain_from};
ghost use Rattle.question_lines.specs.Parts.{IsPushed};
ghost use Rattle.question_lines.specs.QuestionLine.{IsUntaken};

use crate::conditions::condition;
use crate::fault::Untaken;
use crate::phrase::Phrase;
use object_store::Sizes;
use questions::{Atom, Group};
use std::alloc::Global;

/// The groups of some words, with `or` between them.
pub(crate) fn groups(alloc: Global, sizes: Sizes, words: &Phrase<'_>) -> Result<Vec<Group>, Untaken>
    ensures value { IfOk result (λ groups. groups_from sizes words.now ≡ Ok groups.items) }
    ensures range { IfOk result (λ groups. All (All (IsAtomOf sizes)) groups.items) }
    ensures untaken { IfErr result (IsUntaken (groups_from sizes words.now)) }
{
    let mut groups = Vec::new(alloc);
    let _count = words.count();
    let mut at = 0;
    'parts: loop {
        let rest = words.behind(at);
        let count = rest.before(b"or".as_slice());
        match push_group(alloc, sizes, &rest.first(count), &mut groups) {
            Ok(()) => {}
            Err(untaken) => return Err(untaken),
        }
        if count == rest.count() {
            return Ok(groups);
        }
        at += count + 1;
    }
}

/// Puts down the group that some words are.
fn push_group(
    alloc: Global,
    sizes: Sizes,
    words: &Phrase<'_>,
    groups: &mut Vec<Group>,
) -> Result<(), Untaken>
    requires { All (All (IsAtomOf sizes)) groups.old.items }
    ensures value { OnOk result
        (IsPushed (atoms_from sizes words.now) groups.old.items groups.new.items) }
    ensures range { OnOk result (All (All (IsAtomOf sizes)) groups.new.items) }
    ensures untaken { IfErr result (IsUntaken (atoms_from sizes words.now)) }
{
    match atoms(alloc, sizes, words) {
        Ok(atoms) => match groups.push(Group::new(atoms)) {
            Ok(()) => Ok(()),
            Err(_) => Err(Untaken::OutOfMemory),
        },
        Err(untaken) => Err(untaken),
    }
}

/// The atoms of some words, with `and` between them.
fn atoms(alloc: Global, sizes: Sizes, words: &Phrase<'_>) -> Result<Vec<Atom>, Untaken>
    ensures value { IfOk result (λ atoms. atoms_from sizes words.now ≡ Ok atoms.items) }
    ensures range { IfOk result (λ atoms. All (IsAtomOf sizes) atoms.items) }
    ensures untaken { IfErr result (IsUntaken (atoms_from sizes words.now)) }
{
    let mut atoms = Vec::new(alloc);
    let _count = words.count();
    let mut at = 0;
    'parts: loop {
        let rest = words.behind(at);
        let count = rest.before(b"and".as_slice());
        match push_atom(alloc, sizes, &rest.first(count), &mut atoms) {
            Ok(()) => {}
            Err(untaken) => return Err(untaken),
        }
        if count == rest.count() {
            return Ok(atoms);
        }
        at += count + 1;
    }
}

/// Puts down the atom that some words are.
fn push_atom(
    alloc: Global,
    sizes: Sizes,
    words: &Phrase<'_>,
    atoms: &mut Vec<Atom>,
) -> Result<(), Untaken>
    requires { All (IsAtomOf sizes) atoms.old.items }
    ensures value { OnOk result
        (IsPushed (atom_from sizes words.now) atoms.old.items atoms.new.items) }
    ensures range { OnOk result (All (IsAtomOf sizes) atoms.new.items) }
    ensures untaken { IfErr result (IsUntaken (atom_from sizes words.now)) }
{
    match atom(alloc, sizes, words) {
        Ok(atom) => match atoms.push(atom) {
            Ok(()) => Ok(()),
            Err(_) => Err(Untaken::OutOfMemory),
        },
        Err(untaken) => Err(untaken),
    }
}

/// The atom that some words are.
#[tactic(auto, unfolding(crate::specs::AtomLine::atom_from))]
fn atom(alloc: Global, sizes: Sizes, words: &Phrase<'_>) -> Result<Atom, Untaken>
    ensures value { IfOk result (λ atom. atom_from sizes words.now ≡ Ok atom) }
    ensures range { IfOk result (IsAtomOf sizes) }
    ensures untaken { IfErr result (IsUntaken (atom_from sizes words.now)) }
{
    if words.word(0) == b"not".as_slice() {
        return negated(alloc, sizes, words);
    }
    plain(alloc, sizes, words)
}

#[tactic(auto, unfolding(crate::specs::AtomLine::negated_from))]
fn negated(alloc: Global, sizes: Sizes, words: &Phrase<'_>) -> Result<Atom, Untaken>
    requires { 1 ≤ length words.now }
    ensures value { IfOk result (λ atom. negated_from sizes words.now ≡ Ok atom) }
    ensures range { IfOk result (IsAtomOf sizes) }
    ensures untaken { IfErr result (IsUntaken (negated_from sizes words.now)) }
{
    match condition(alloc, sizes, &words.behind(1)) {
        Ok(condition) => Ok(Atom {
            negated: true,
            condition,
        }),
        Err(untaken) => Err(untaken),
    }
}

#[tactic(auto, unfolding(crate::specs::AtomLine::plain_from))]
fn plain(alloc: Global, sizes: Sizes, words: &Phrase<'_>) -> Result<Atom, Untaken>
    ensures value { IfOk result (λ atom. plain_from sizes words.now ≡ Ok atom) }
    ensures range { IfOk result (IsAtomOf sizes) }
    ensures untaken { IfErr result (IsUntaken (plain_from sizes words.now)) }
{
    match condition(alloc, sizes, words) {
        Ok(condition) => Ok(Atom {
            negated: false,
            condition,
        }),
        Err(untaken) => Err(untaken),
    }
}
