//! What the states of a machine are asked by.
ghost use Rattle.std.specs.Prelude.{◌≡◌, ◌<◌, ◌^◌, length, IfOk};
ghost use Rattle.std.specs.List.{All};
ghost use Rattle.separation_policy.specs.Closure.{IsClosure};
ghost use Rattle.quiet_finding.specs.Watched.{watch_of};
ghost use Rattle.questions.specs.Choice.{IsChoiceOf};
ghost use Rattle.questions.specs.Question.{choices_of, watch_for};

use cap_format::OutOfMemory;
use questions::{Choice, Question, watched_in};
use quiet_finding::Watched;
use separation_policy::{Closure, Policy};
use std::alloc::Global;

/// What is made once of a question and its policy, by which each state is asked.
#[derive(Drop)]
pub(crate) struct Asked {
    pub(crate) closure: Closure,
    pub(crate) choices: Vec<Choice>,
    pub(crate) watched: Watched,
}

/// What is made of a question and its policy. An error is want of memory, or there were 2^32 choices or more.
pub(crate) fn asked_of(
    alloc: Global,
    question: &Question,
    policy: &Policy,
) -> Result<Asked, OutOfMemory>
    ensures closes { IfOk result (λ asked. IsClosure policy.now asked.closure) }
    ensures given { IfOk result (λ asked. asked.choices.items ≡ choices_of question.now) }
    ensures range { IfOk result (λ asked. All (IsChoiceOf question.now.sizes.harts) asked.choices.items) }
    ensures few { IfOk result (λ asked. length asked.choices.items < 2 ^ 32) }
    ensures watches { IfOk result (λ asked. watch_of asked.watched ≡ watch_for question.now.properties) }
{
    let choices = question.choices(alloc)?;
    if choices.len() > u32::MAX as usize {
        return Err(OutOfMemory);
    }
    let closure = Closure::new(alloc, policy)?;
    let watched = watched_in(alloc, question.properties())?;
    Ok(Asked {
        closure,
        choices,
        watched,
    })
}
