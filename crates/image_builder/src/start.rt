//! The start of a machine.
ghost use Rattle.std.specs.Prelude.{◌≡◌, ℕ, ◌<◌, ◌+◌, ◌≤◌, false, IfOk, if◌then◌else◌, length, slice_index_or};
ghost use Rattle.cap_format.specs.declared.kind.CapKind.TheVariants.{Process};
ghost use Rattle.object_store.specs.Store.{sizes_of, size_of, empty_store};
ghost use Rattle.machine_state.specs.State.{state_of};
ghost use Rattle.machine_state.specs.Setters.{ready};
ghost use Rattle.image_builder.specs.Given.{listed, final_counts};
ghost use Rattle.image_builder.specs.Assigned.{empty_with};
ghost use Rattle.image_builder.specs.Boot.{objects_of, is_running, made_ready, booted, StoppedFrom};

use crate::statements::{assign, assign_count, note_running};
use cap_format::OutOfMemory;
use listing_read::Listing;
use machine_state::Machine;
use object_store::Objects;
use std::alloc::{AllocError, Global};
use walk_engine::Translator;

/// The machine that a listing describes. Later statements win over earlier ones, every capability has its object's
/// final count, and the processes that run are made ready in the order of their numbers. All memory of the machine is
/// taken here.
pub fn boot<T: Translator>(
    alloc: Global,
    listing: &Listing,
    translator: T,
) -> Result<Machine<T>, OutOfMemory>
    requires fresh { T.fresh translator }
    requires harts { listing.now.sizes.harts ≤ T.harts translator }
    ensures sizes { IfOk result (λ machine. sizes_of machine.objects ≡ listing.now.sizes) }
    ensures state { IfOk result (λ machine. state_of machine ≡ booted listing.now) }
    ensures translator { IfOk result (λ machine. machine.translator ≡ translator) }
{
    let mut objects = Objects::new(alloc, listing.sizes())?;
    assign_counts(&mut objects, listing);
    assign_all(&mut objects, listing);
    let running = running(alloc, listing)?;
    let mut machine = Machine::new(alloc, objects, translator)?;
    start_all(&mut machine, running.as_slice());
    Ok(machine)
}

/// Assigns all counts.
fn assign_counts(objects: &mut Objects, listing: &Listing)
    requires { objects.old ≡ empty_store listing.now.sizes }
    ensures { let l = listing.now in
        objects.new ≡ empty_with l.sizes (final_counts l.sizes l.statements) }
{
    'each: for statement in listing.statements() {
        assign_count(objects, statement);
    }
}

/// Assigns all but counts and whether processes run.
fn assign_all(objects: &mut Objects, listing: &Listing)
    requires { let l = listing.now in
        objects.old ≡ empty_with l.sizes (final_counts l.sizes l.statements) }
    ensures { objects.new ≡ objects_of listing.now }
{
    'each: for statement in listing.statements() {
        assign(objects, statement);
    }
}

/// Which processes run: for each what its last `process` statement says.
fn running(alloc: Global, listing: &Listing) -> Result<Vec<bool>, AllocError>
    ensures { let l = listing.now in
        IfOk result (λ runs. runs.items ≡ listed l.sizes.processes (λ p. is_running l p)) }
{
    let mut all = vec![in alloc; false; listing.sizes().processes as usize]?;
    'each: for statement in listing.statements() {
        note_running(&mut all, statement);
    }
    Ok(all)
}

/// Starts the processes that run, in the order of their numbers.
fn start_all<T: Translator>(machine: &mut Machine<T>, running: &[bool])
    requires running { length running.now ≡ size_of machine.old.objects.items Process }
    requires stopped { StoppedFrom 0 machine.old.objects }
    ensures state { let runs = λ (p : ℕ). slice_index_or running.now p false in
        state_of machine.new ≡ made_ready runs (length running.now) (state_of machine.old) }
    ensures translator { machine.new.translator ≡ machine.old.translator }
    ensures sizes { sizes_of machine.new.objects ≡ sizes_of machine.old.objects }
{
    let processes = machine.objects().sizes().processes;
    'each: for p in 0..processes {
        start_if(machine, running, p);
    }
}

/// Starts a process where it runs.
#[tactic(auto, using(crate::proofs::Ready::stopped_after))]
fn start_if<T: Translator>(machine: &mut Machine<T>, running: &[bool], p: u16)
    requires running { length running.now ≡ size_of machine.old.objects.items Process }
    requires there { p < size_of machine.old.objects.items Process }
    requires stopped { StoppedFrom p machine.old.objects }
    ensures state { let s = state_of machine.old in
        state_of machine.new ≡ (if slice_index_or running.now p false then ready s p else s) }
    ensures translator { machine.new.translator ≡ machine.old.translator }
    ensures stopped { StoppedFrom (p + 1) machine.new.objects }
    ensures sizes { sizes_of machine.new.objects ≡ sizes_of machine.old.objects }
{
    if running[p as usize] {
        machine.start(p);
    }
}
