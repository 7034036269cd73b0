//! The states of a machine as a space.
ghost use Rattle.std.specs.Prelude.{◌≡◌, ◌+◌, ◌≤◌, IfOk};
ghost use Rattle.std.specs.List.{All};
ghost use Rattle.object_store.specs.Store.{sizes_of};
ghost use Rattle.questions.specs.Choice.{AreChoices, IsChoiceOf, counted_path};
ghost use Rattle.questions.specs.Question.{choices_of, watch_for};
ghost use Rattle.exploration.specs.Slots.{telling_slots};

use breadth_first::Space;
use cap_format::OutOfMemory;
use machine_state::Records;
use questions::{Choice, Question, first_failing, first_holds, holds, watched_in};
use quiet_finding::Watched;
use separation_policy::{Closure, Policy, integrity};
use state_choices::{Looks, chosen, counted};
use state_parts::{Key, States};
use std::alloc::{AllocError, Global};
use std::marker::Model;
use std::sync::ledger::Ledger;
use steps::Steps;

/// The states that a machine can come to by the choices of a question.
#[derive(Drop)]
pub(crate) struct MachineSpace<'a> {
    pub(crate) alloc: Global,
    pub(crate) question: &'a Question,
    pub(crate) policy: &'a Policy,
    pub(crate) closure: Closure,
    /// Whether the policy holds is known to make no difference: nothing asked is about it, or it holds at the start, and so in
    /// all states that follow.
    pub(crate) indifferent: bool,
    pub(crate) choices: Vec<Choice>,
    pub(crate) watched: Watched,
    pub(crate) looks: Looks,
    pub(crate) states: States,
    /// The key of the state from which the choices start.
    pub(crate) start: Key,
    /// What the last event told.
    pub(crate) records: Records,
}

impl<'a> Model for MachineSpace<'a> {
    ghost use Rattle.state_parts.specs.Space.{state_in};
    ghost use Rattle.exploration.specs.machine_space.Space.{IsSpace, SpaceValue};

    ghost Value = { SpaceValue };

    ghost use Rattle.questions.specs.contracts.term.Term as terms;
    ghost use Rattle.std.specs.Coded.{codes};

    ghost coded = { Prim.hlevel (codes, terms.the_row.coded) };

    ghost view = { λ s. record { question = s.question.now; policy = s.policy.now; indifferent = s.indifferent; states = s.states; start = state_in s.states.tables s.start } };

    ghost invariant = { λ s. IsSpace s.question.now s.policy.now s.indifferent s.closure s.choices.items s.watched s.states.tables s.start };
}

impl<'a> MachineSpace<'a> {
    /// The choices of these numbers, made one after the other from the start, with their steps counted.
    pub(crate) fn counted_from_start<L: Ledger>(
        &mut self,
        question: &Question,
        path: &[u32],
        fetches: &mut Steps<L>,
    ) -> Result<Vec<Choice>, OutOfMemory>
        requires sizes { sizes_of self.old.start.store ≡ question.now.sizes }
        requires path { AreChoices (choices_of question.now) path.now }
        ensures counted { IfOk result (λ counted. counted.items ≡ counted_path
            (watch_for question.now.properties) (choices_of question.now) self.old.start path.now) }
        ensures range { IfOk result (λ counted. All (IsChoiceOf question.now.sizes.harts) counted.items) }
        ensures least { fetches.old ≤ fetches.new }
        ensures most { fetches.new ≤ fetches.old
            + telling_slots question.now self.old.start path.now }
    {
        let choices = question.choices(self.alloc)?;
        let watched = watched_in(self.alloc, question.properties())?;
        self.states.go(&self.start, fetches)?;
        counted(
            self.alloc,
            &mut self.states,
            choices.as_slice(),
            path,
            &watched,
            &mut self.looks,
            &mut self.records,
            fetches,
        )
    }
}

impl<'a> Space for MachineSpace<'a> {
    ghost use Rattle.std.specs.Prelude.{◌≡◌};
    ghost use Rattle.machine_state.specs.State.{State, state_of};
    ghost use Rattle.state_parts.specs.Space.{state_in};
    ghost use Rattle.state_parts.specs.SameLaws.{state_decides};
    ghost use Rattle.state_parts.proofs.Alike.{keys_alike};
    ghost use Rattle.exploration.specs.machine_space.Space.{IsHeld, searched_of};

    type Key = Key;

    ghost State = { State };

    ghost system = { λ space. searched_of space.question space.policy space.start };

    ghost held = { λ space key. IsHeld space.question space.policy space.indifferent space.states.tables key };

    ghost means = { λ space key. state_in space.states.tables key };

    ghost stands = { λ space s. state_of space.states.machine ≡ s };

    ghost alike = { λ space a b held held_too. keys_alike space.states.tables a b held.held held_too.held };

    ghost decides = { λ space. state_decides };

    fn choices(&self) -> u32 {
        self.choices.len() as u32
    }

    fn start<L: Ledger>(&mut self, fetches: &mut Steps<L>) -> Result<Key, AllocError> {
        let Ok(()) = self.states.go(&self.start, fetches) else {
            return Err(AllocError);
        };
        let Ok(key) = self.start.copy(self.alloc) else {
            return Err(AllocError);
        };
        Ok(key)
    }

    fn successor<L: Ledger>(
        &mut self,
        from: &Key,
        choice: u32,
        fetches: &mut Steps<L>,
    ) -> Result<Key, AllocError> {
        let choice = self.choices[choice as usize];
        integrity();
        let Ok(key) = chosen(
            self.alloc,
            &mut self.states,
            from,
            choice,
            &self.watched,
            &mut self.looks,
            &mut self.records,
            fetches,
        ) else {
            return Err(AllocError);
        };
        Ok(key)
    }

    fn violated<L: Ledger>(
        &mut self,
        _key: &Key,
        fetches: &mut Steps<L>,
    ) -> Result<Option<usize>, AllocError> {
        Ok(first_failing(
            self.question,
            self.policy,
            &self.closure,
            self.indifferent,
            self.states.machine(),
            fetches,
        ))
    }

    fn passes<L: Ledger>(
        &mut self,
        key: &Key,
        test: usize,
        fetches: &mut Steps<L>,
    ) -> Result<bool, AllocError> {
        let Ok(()) = self.states.go(key, fetches) else {
            return Err(AllocError);
        };
        Ok(holds(
            self.question,
            self.policy,
            &self.closure,
            self.indifferent,
            self.states.machine(),
            test,
            fetches,
        ))
    }

    fn is_first<L: Ledger>(
        &mut self,
        key: &Key,
        test: usize,
        fetches: &mut Steps<L>,
    ) -> Result<bool, AllocError> {
        let Ok(()) = self.states.go(key, fetches) else {
            return Err(AllocError);
        };
        Ok(first_holds(
            self.question,
            self.policy,
            &self.closure,
            self.indifferent,
            self.states.machine(),
            test,
            fetches,
        ))
    }
}
