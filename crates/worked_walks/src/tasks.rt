//! What the tests do on the machine of a listing.

use crate::cuts::{find, find_and_step, take_all};
use crate::starts::machine_of;
use crate::walks::check_rows;
use kernel_core::Machine;
use std::alloc::Global;
use std::process::Abort;
use std::sync::ledger::Ledger;
use steps::Steps;
use walk_engine::Translator;

/// What is done on a machine.
#[derive(Clone, Copy)]
pub enum Task<'a> {
    /// It walks as these rows say.
    Walk(&'a str),
    /// Over the cut of these lines what is wanted is found, which is the second.
    Find((&'a str, &'a str)),
    /// It steps, and a sleeper is found.
    Sleep,
    /// Two processes take turns that a cut keeps apart.
    Turn,
}

/// Does a task on a machine.
fn perform_on<T: Translator, L: Ledger>(
    rt: &impl Abort,
    alloc: Global,
    machine: &mut Machine<T>,
    task: Task<'_>,
    fetches: &mut Steps<L>,
) {
    match task {
        Task::Walk(rows) => check_rows(rt, alloc, machine, rows, fetches),
        Task::Find(asked) => find(rt, alloc, machine, asked, fetches),
        Task::Sleep => find_and_step(rt, alloc, machine, fetches),
        Task::Turn => take_all(rt, alloc, machine, fetches),
    }
}

/// Does a task on the machine of a listing.
pub fn perform_task<L: Ledger>(
    rt: &impl Abort,
    alloc: Global,
    listing: &str,
    task: Task<'_>,
    fetches: &mut Steps<L>,
) {
    let mut machine = machine_of(rt, alloc, listing);
    perform_on(rt, alloc, &mut machine, task, fetches);
}
