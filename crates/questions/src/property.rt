//! What a line of a question asks.
ghost use Rattle.std.specs.Prelude.{◌≡◌};
ghost use Rattle.questions.specs.declared.asks.Asks.TheVariants.{MustAfter};
ghost use Rattle.questions.specs.Question.{property_of, property_with};

use crate::asks::Asks;
use crate::atom::Atom;
use std::alloc::Global;
use std::marker::Model;

/// Atoms that hold together. A clause sees the list of them.
#[derive(Drop)]
pub struct Group {
    atoms: Vec<Atom>,
}

impl Model for Group {
    ghost use Rattle.std.specs.Prelude.{List};
    ghost use Rattle.questions.specs.declared.atom.Atom.{Atom};

    ghost Value = { List Atom };

    ghost use Rattle.questions.specs.contracts.term.Term as terms;
    ghost use Rattle.std.specs.Coded.{codes};

    ghost coded = { Prim.hlevel (codes, terms.the_row.coded) };

    ghost view = { λ g. g.atoms.items };
}

impl Group {
    /// These atoms.
    pub fn new(atoms: Vec<Atom>) -> Group
        ensures { result ≡ atoms.items }
    {
        Group { atoms }
    }

    /// The atoms, in the order of the line.
    pub fn atoms(&self) -> &[Atom]
        ensures { result.now ≡ self.now }
    {
        &self.atoms
    }
}

/// What a line asks of the states in which all atoms of one of some groups hold, and from which states on.
#[derive(Drop)]
pub struct Property {
    line: u32,
    asks: Asks,
    first: Vec<Group>,
    groups: Vec<Group>,
}

impl Model for Property {
    ghost use Rattle.questions.specs.Question.{PropertyValue, property_with};

    ghost Value = { PropertyValue };

    ghost use Rattle.questions.specs.contracts.term.Term as terms;
    ghost use Rattle.std.specs.Coded.{codes};

    ghost coded = { Prim.hlevel (codes, terms.the_row.coded) };

    ghost view = { λ p. property_with p.line p.asks p.first.items p.groups.items };
}

impl Property {
    /// What the line of this number asks of all states, or from the start.
    pub fn new(alloc: Global, line: u32, asks: Asks, groups: Vec<Group>) -> Property
        ensures { result ≡ property_of line asks groups.items }
    {
        Property {
            line,
            asks,
            first: Vec::new(alloc),
            groups,
        }
    }

    /// What the line of this number asks from the states on in which one of the first groups holds.
    pub fn must_after(line: u32, first: Vec<Group>, groups: Vec<Group>) -> Property
        ensures { result ≡ property_with line MustAfter first.items groups.items }
    {
        Property {
            line,
            asks: Asks::MustAfter,
            first,
            groups,
        }
    }

    /// The number of its line.
    pub fn line(&self) -> u32
        ensures { result ≡ self.now.line }
    {
        self.line
    }

    pub fn asks(&self) -> Asks
        ensures { result ≡ self.now.asks }
    {
        self.asks
    }

    /// The groups of which one holds where it is asked, in the order of the line: none unless it asks `MustAfter`.
    pub fn first(&self) -> &[Group]
        ensures { result.now ≡ self.now.first }
    {
        &self.first
    }

    /// The groups of which one holds, in the order of the line.
    pub fn groups(&self) -> &[Group]
        ensures { result.now ≡ self.now.groups }
    {
        &self.groups
    }
}
