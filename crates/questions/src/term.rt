//! A term: a number of 32 bits that is read of a state.
ghost use Rattle.std.specs.Prelude.{◌≡◌, IfOk};
ghost use Rattle.questions.specs.Term.TermValue.{Leaf, Node};

use crate::operand::{Operand, Operator};
use cap_format::OutOfMemory;
use std::alloc::Global;
use std::marker::Model;

/// An operand, or what an operator makes of two terms.
#[derive(Drop)]
#[cycle(term)]
pub struct Term {
    pub(crate) tree: Tree,
}

/// The two forms of a term.
#[derive(Drop)]
#[cycle(term)]
pub(crate) enum Tree {
    Leaf(Operand),
    Node(Operator, Box<Term>, Box<Term>),
}

impl Model for Term {
    ghost use Rattle.questions.specs.Term.{TermValue};

    ghost Value = { TermValue };

    ghost use Rattle.questions.specs.TermCode.{term_coded};

    ghost coded = { term_coded };

    ghost use Rattle.questions.specs.TermTree.{tree_value, term_size};

    ghost view = { λ t. tree_value t.tree };

    ghost size = { term_size };

    ghost use Rattle.std.proofs.Common.{arith};

    ghost size_decreases = { λ a h. Prim.grind arith };
}

impl Term {
    pub fn leaf(operand: Operand) -> Term
        ensures { result ≡ Leaf operand }
    {
        Term {
            tree: Tree::Leaf(operand),
        }
    }

    pub fn node(
        alloc: Global,
        operator: Operator,
        first: Term,
        second: Term,
    ) -> Result<Term, OutOfMemory>
        ensures { IfOk result (λ term. term ≡ Node operator first second) }
    {
        let first = Box::new(alloc, first)?;
        let second = Box::new(alloc, second)?;
        Ok(Term {
            tree: Tree::Node(operator, first, second),
        })
    }
}
