//! The machine, and what can be read of it.
ghost use Rattle.std.specs.Prelude.{◌≡◌, ◌≢◌, ℕ, ◌<◌, ◌≤◌, [], ◌∷◌, false, Some, IfOk, OnOk, OnErr, length};
ghost use Rattle.cap_format.specs.declared.kind.CapKind.TheVariants.{Process};
ghost use Rattle.object_store.specs.Store.{size_of, sizes_of, process_at, with_harts};
ghost use Rattle.object_store.specs.Meaning.{map_of};
ghost use Rattle.object_store.specs.Ahead.{NoneAhead};
ghost use Rattle.machine_state.specs.Machine.{NoneRuns};
ghost use Rattle.machine_state.specs.State.{state_of};
ghost use Rattle.machine_state.specs.Home.{at_home};
ghost use Rattle.machine_state.specs.Setters.{leave, ready, halted};
ghost use Rattle.machine_state.specs.Outcome.{process_name};
ghost use Rattle.machine_state.specs.Came.{Leaves};
ghost use Rattle.schedules.specs.Queues.{hart_of};
ghost use Rattle.schedules.specs.Standing.{empty_queues};
ghost use Rattle.schedules.specs.Ready.{Agrees, runs_of, places_due};

use cap_format::OutOfMemory;
use decoded_words::Decoder;
use object_store::Objects;
use schedules::Queues;
use std::alloc::Global;
use std::marker::Model;
use string_move::Scratch;
use walk_engine::Translator;

/// Objects, queues, harts and a translator, with room for the bytes of a string and for instructions that are kept by
/// their words. All its memory is taken when it is made.
#[derive(Drop)]
pub struct Machine<T: Translator> {
    pub(crate) objects: Objects,
    pub(crate) queues: Queues,
    pub(crate) halted: bool,
    pub(crate) translator: T,
    pub(crate) scratch: Scratch,
    pub(crate) decoder: Decoder,
}

impl<T: Translator> Model for Machine<T> {
    ghost use Rattle.std.specs.Prelude.{◌≤◌};
    ghost use Rattle.object_store.specs.Meaning.{map_of};
    ghost use Rattle.machine_state.specs.Machine.{MachineValue, IsMachine};

    ghost Value = { MachineValue T };

    ghost view = { λ m. record { objects = m.objects; queues = m.queues; halted = m.halted; translator = m.translator } };

    ghost invariant = { λ m. (T.coherent m.translator (map_of m.objects.items)) × (m.objects.harts ≤ T.harts m.translator) × IsMachine m.objects m.queues };
}

impl<T: Translator> Machine<T> {
    /// A machine with these objects, of which no process runs, with no process on any hart, empty queues and lists, and
    /// not halted.
    pub fn new(alloc: Global, objects: Objects, translator: T) -> Result<Machine<T>, OutOfMemory>
        requires coherent { T.coherent translator (map_of objects.items) }
        requires harts { objects.harts ≤ T.harts translator }
        requires stopped { NoneRuns objects }
        requires behind { NoneAhead objects }
        ensures objects { IfOk result (λ machine. machine.objects ≡ objects) }
        ensures queues { let processes = size_of objects.items Process in
            IfOk result (λ machine. machine.queues ≡ empty_queues processes objects.harts) }
        ensures halted { IfOk result (λ machine. machine.halted ≡ false) }
        ensures translator { IfOk result (λ machine. machine.translator ≡ translator) }
    {
        objects.in_ranges();
        let queues = Queues::new(alloc, objects.sizes())?;
        let scratch = Scratch::new(alloc)?;
        Ok(Machine {
            objects,
            queues,
            halted: false,
            translator,
            scratch,
            decoder: Decoder::new(),
        })
    }

    pub fn objects(&self) -> &Objects
        ensures { result.now ≡ self.now.objects }
    {
        &self.objects
    }

    pub fn queues(&self) -> &Queues
        ensures value { result.now ≡ self.now.queues }
        ensures processes { let processes = size_of self.now.objects.items Process in
            length self.now.queues.sleepers ≡ processes }
        ensures harts { length self.now.queues.harts ≡ self.now.objects.harts }
    {
        &self.queues
    }

    /// Does nothing: its contract tells what every machine keeps. A process that runs stands in exactly one place and any
    /// other in none, and no capability is ahead of its object.
    pub fn tell_kept(&self)
        ensures agrees { Agrees (runs_of self.now.objects self.now.queues) }
        ensures behind { NoneAhead self.now.objects }
        ensures coherent { T.coherent self.now.translator (map_of self.now.objects.items) }
    {
        let _halted = self.halted;
    }

    /// Does nothing: its contract tells that a process that stands on a hart stands on no other.
    pub fn tell_alone(&self, hart: u8, p: u16)
        requires there { p < size_of self.now.objects.items Process }
        requires on_hart { hart_of self.now.queues hart ≡ Some p }
        ensures { (k : ℕ) → k ≢ hart → hart_of self.now.queues k ≢ Some p }
    {
        let _halted = self.halted;
        let _place = (hart, p);
    }

    /// Whether a process halted the machine.
    pub fn halted(&self) -> bool
        ensures { result ≡ self.now.halted }
    {
        self.halted
    }

    pub fn translator(&self) -> &T
        ensures { result.now ≡ self.now.translator }
    {
        &self.translator
    }

    /// Makes a process ready, which leaves the place where it stands, if any.
    #[tactic(auto, using(crate::proofs::Changed::sizes_left))]
    pub fn start(&mut self, p: u16)
        requires { p < size_of self.old.objects.items Process }
        ensures state { state_of self.new ≡ ready (leave (state_of self.old) p) p }
        ensures stopped { places_due (process_at self.old.objects p).state ≡ 0 →
            state_of self.new ≡ ready (state_of self.old) p }
        ensures leaves { Leaves (process_name p ∷ []) self.old self.new }
        ensures sizes { sizes_of self.new.objects ≡ sizes_of self.old.objects }
        ensures translator { self.new.translator ≡ self.old.translator }
    {
        self.requeue(p);
    }

    /// There are so many harts from now on, and each process that is on one is on that of its own number, which has to be one of
    /// them. Accesses are translated by another translator, which has as many. Where memory is wanting, all stays as it is.
    pub fn move_home(&mut self, alloc: Global, many: u8, translator: T) -> Result<(), OutOfMemory>
        requires some { 1 ≤ many }
        requires most { many ≤ 8 }
        requires each { (hart p : ℕ) → hart_of self.old.queues hart ≡ Some p → p < many }
        requires coherent { T.coherent translator (map_of self.old.objects.items) }
        requires harts { many ≤ T.harts translator }
        ensures state { OnOk result (state_of self.new ≡ at_home many (state_of self.old)) }
        ensures objects { OnOk result (self.new.objects ≡ with_harts self.old.objects many) }
        ensures translator { OnOk result (self.new.translator ≡ translator) }
        ensures before { OnErr result (self.new ≡ self.old) }
    {
        self.queues.move_home(alloc, many)?;
        self.objects.set_harts(many);
        self.translator = translator;
        Ok(())
    }

    /// The machine is halted for good.
    pub fn halt(&mut self)
        ensures state { state_of self.new ≡ halted (state_of self.old) }
        ensures objects { self.new.objects ≡ self.old.objects }
        ensures queues { self.new.queues ≡ self.old.queues }
        ensures translator { self.new.translator ≡ self.old.translator }
    {
        self.halted = true;
    }
}
