//! What a question looks at besides capabilities, states of processes and who stands where.
ghost use Rattle.std.specs.Prelude.{◌≡◌, ◌++◌, flat_map, IfOk, OnOk};
ghost use Rattle.quiet_finding.specs.Watched.{watched};
ghost use Rattle.questions.specs.Question.{pages_in, processes_in, watched_by, watched_in, watched_of};
ghost use Rattle.questions.specs.Term.{operand_pages, operand_processes, read_by};

use crate::operand::Operand;
use crate::term::{Term, Tree};
use crate::{Atom, Condition, Group, Property};
use cap_format::OutOfMemory;
use quiet_finding::Watched;
use std::alloc::Global;

/// The processes whose pc or registers properties look at, and the pages whose bytes they do.
pub fn watched_in(alloc: Global, properties: &[Property]) -> Result<Watched, OutOfMemory>
    ensures { IfOk result (λ all. all
        ≡ watched (watched_in processes_in properties.now) (watched_in pages_in properties.now)) }
{
    let mut all = Watched::new(alloc);
    'each: for i in 0..properties.len() {
        watch_property(&mut all, &properties[i])?;
    }
    Ok(all)
}

/// Those that a property looks at: in its first groups, and in the others.
fn watch_property(all: &mut Watched, property: &Property) -> Result<(), OutOfMemory>
    ensures { OnOk result (all.new
        ≡ watched (all.old.processes ++ watched_of processes_in property.now)
        (all.old.pages ++ watched_of pages_in property.now)) }
{
    watch_groups(all, property.first())?;
    watch_groups(all, property.groups())
}

/// Those that groups of atoms look at.
fn watch_groups(all: &mut Watched, groups: &[Group]) -> Result<(), OutOfMemory>
    ensures { OnOk result (all.new
        ≡ watched (all.old.processes ++ flat_map (watched_by processes_in) groups.now)
        (all.old.pages ++ flat_map (watched_by pages_in) groups.now)) }
{
    'each: for i in 0..groups.len() {
        watch_all(all, groups[i].atoms())?;
    }
    Ok(())
}

/// Those that atoms look at.
fn watch_all(all: &mut Watched, atoms: &[Atom]) -> Result<(), OutOfMemory>
    ensures { OnOk result (all.new
        ≡ watched (all.old.processes ++ watched_by processes_in atoms.now)
        (all.old.pages ++ watched_by pages_in atoms.now)) }
{
    'each: for i in 0..atoms.len() {
        watch(all, &atoms[i].condition)?;
    }
    Ok(())
}

/// Those that a condition looks at.
fn watch(all: &mut Watched, condition: &Condition) -> Result<(), OutOfMemory>
    ensures { OnOk result (all.new
        ≡ watched (all.old.processes ++ processes_in condition.now)
        (all.old.pages ++ pages_in condition.now)) }
{
    match condition {
        Condition::Pc { process, .. } => all.watch_process(*process),
        Condition::Register { process, .. } => all.watch_process(*process),
        Condition::Word { page, .. } => all.watch_page(*page),
        Condition::Compares { first, second, .. } => watch_both(all, first, second),
        _ => Ok(()),
    }
}

/// Those that two terms look at.
fn watch_both(all: &mut Watched, first: &Term, second: &Term) -> Result<(), OutOfMemory>
    ensures { OnOk result (all.new
        ≡ watched (all.old.processes ++ (read_by operand_processes first.now
        ++ read_by operand_processes second.now))
        (all.old.pages ++ (read_by operand_pages first.now ++ read_by operand_pages second.now))) }
{
    watch_term(first, all)?;
    watch_term(second, all)
}

/// Those that a term looks at.
fn watch_term(term: &Term, all: &mut Watched) -> Result<(), OutOfMemory>
    ensures { OnOk result (all.new
        ≡ watched (all.old.processes ++ read_by operand_processes term.now)
        (all.old.pages ++ read_by operand_pages term.now)) }
{
    match &term.tree {
        Tree::Leaf(operand) => watch_operand(all, *operand),
        Tree::Node(_, first, second) => {
            watch_term(first, all)?;
            watch_term(second, all)
        }
    }
}

/// Those that an operand looks at.
fn watch_operand(all: &mut Watched, operand: Operand) -> Result<(), OutOfMemory>
    ensures { OnOk result (all.new
        ≡ watched (all.old.processes ++ operand_processes operand)
        (all.old.pages ++ operand_pages operand)) }
{
    match operand {
        Operand::Register { process, .. } => all.watch_process(process),
        Operand::Pc { process } => all.watch_process(process),
        Operand::Bytes { page, .. } => all.watch_page(page),
        _ => Ok(()),
    }
}
