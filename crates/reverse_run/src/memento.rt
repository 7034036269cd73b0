//! What is remembered of one event.
use machine_state::Past;
use std::marker::Model;

/// What is remembered of one event. Where it is not whole, its objects alone count: the queues with the harts, and whether
/// the machine was halted, are as they are behind the event.
#[derive(Drop)]
pub(crate) struct Memento {
    /// It stays where it is when this is moved.
    pub past: Box<Past>,
    pub whole: bool,
}

impl Model for Memento {
    ghost use Rattle.reverse_run.specs.Remembered.{MementoValue};

    ghost Value = { MementoValue };

    ghost view = { λ k. record { past = k.past.value; whole = k.whole } };
}
