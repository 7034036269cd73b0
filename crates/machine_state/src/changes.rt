//! The changes of processes and queues of which events are made. Each does one thing.
ghost use Rattle.std.specs.Prelude.{◌≡◌, ◌<◌, ◌≤◌, ◌%◌, [], ◌∷◌, IfSome};
ghost use Rattle.cap_format.specs.declared.kind.CapKind.TheVariants.{Process};
ghost use Rattle.process_objects.specs.Process.{capreg_of};
ghost use Rattle.object_store.specs.Store.{size_of, process_at};
ghost use Rattle.object_store.specs.Meaning.{meaning};
ghost use Rattle.object_store.specs.Ahead.{IsBehind};
ghost use Rattle.schedules.specs.Queues.{hart_of};
ghost use Rattle.schedules.specs.Ready.{places_due};
ghost use Rattle.rv32_user.specs.Registers.{with_register};
ghost use Rattle.machine_state.specs.State.{state_of, process, pc_of};
ghost use Rattle.machine_state.specs.Setters.{set_pc, set_registers, set_capreg, advance, leave, ready, yielded, dispatch, ticked};
ghost use Rattle.machine_state.specs.Outcome.{process_name, names_on};
ghost use Rattle.machine_state.specs.Came.{Leaves};

use crate::machine::Machine;
use cap_format::Cap;
use walk_engine::Translator;

impl<T: Translator> Machine<T> {
    /// The process leaves its place and is made ready.
    #[tactic(auto, using(object_store::proofs::Stays::stays_process))]
    pub fn requeue(&mut self, p: u16)
        requires there { p < size_of self.old.objects.items Process }
        ensures state { state_of self.new ≡ ready (leave (state_of self.old) p) p }
        ensures stopped { places_due (process_at self.old.objects p).state ≡ 0 →
            state_of self.new ≡ ready (state_of self.old) p }
        ensures leaves { Leaves (process_name p ∷ []) self.old self.new }
        ensures translator { self.new.translator ≡ self.old.translator }
    {
        self.queues.leave(p);
        self.queues.make_ready(&mut self.objects, p);
    }

    /// The process of the hart, which takes one where it has none.
    pub fn dispatch(&mut self, hart: u8) -> Option<u16>
        requires { hart < self.old.objects.harts }
        ensures process { result ≡ hart_of self.new.queues hart }
        ensures there { IfSome result (λ p. p < size_of self.new.objects.items Process) }
        ensures state { state_of self.new ≡ dispatch (state_of self.old) hart }
        ensures objects { self.new.objects ≡ self.old.objects }
        ensures translator { self.new.translator ≡ self.old.translator }
    {
        let _taken = self.queues.dispatch(hart);
        self.queues.on_hart(hart)
    }

    /// The process of the hart.
    pub fn on_hart(&self, hart: u8) -> Option<u16>
        requires { hart < self.now.objects.harts }
        ensures process { result ≡ hart_of self.now.queues hart }
        ensures there { IfSome result (λ p. p < size_of self.now.objects.items Process) }
    {
        self.queues.on_hart(hart)
    }

    /// The process of the hart, if any, goes to the end of its queue.
    #[tactic(auto, using(object_store::proofs::Stays::stays_same))]
    pub fn tick(&mut self, hart: u8)
        requires { hart < self.old.objects.harts }
        ensures state { let s = state_of self.old in
            state_of self.new ≡ ticked s (hart_of s.queues hart) }
        ensures leaves { Leaves (names_on (hart_of self.old.queues hart)) self.old self.new }
        ensures translator { self.new.translator ≡ self.old.translator }
    {
        if let Some(p) = self.on_hart(hart) {
            self.requeue(p);
        }
    }

    /// The process goes on behind its instruction, and to the end of its queue.
    #[tactic(auto, using(object_store::proofs::Stays::stays_then))]
    pub fn give_way(&mut self, p: u16)
        requires { p < size_of self.old.objects.items Process }
        ensures state { state_of self.new ≡ yielded (state_of self.old) p }
        ensures leaves { Leaves (process_name p ∷ []) self.old self.new }
        ensures translator { self.new.translator ≡ self.old.translator }
    {
        self.advance(p);
        self.requeue(p);
    }

    pub fn pc(&self, p: u16) -> u32
        requires { p < size_of self.now.objects.items Process }
        ensures value { result ≡ pc_of (state_of self.now) p }
        ensures aligned { result % 4 ≡ 0 }
    {
        self.objects.process(p).pc()
    }

    #[tactic(auto, using(object_store::proofs::Stays::stays_process))]
    pub fn set_pc(&mut self, p: u16, pc: u32)
        requires there { p < size_of self.old.objects.items Process }
        requires aligned { pc % 4 ≡ 0 }
        ensures state { state_of self.new ≡ set_pc (state_of self.old) p pc }
        ensures leaves { Leaves (process_name p ∷ []) self.old self.new }
        ensures translator { self.new.translator ≡ self.old.translator }
        ensures queues { self.new.queues ≡ self.old.queues }
    {
        self.objects.process_mut(p).set_pc(pc);
    }

    /// The process goes on behind its instruction.
    pub fn advance(&mut self, p: u16)
        requires there { p < size_of self.old.objects.items Process }
        ensures state { state_of self.new ≡ advance (state_of self.old) p }
        ensures leaves { Leaves (process_name p ∷ []) self.old self.new }
        ensures translator { self.new.translator ≡ self.old.translator }
        ensures queues { self.new.queues ≡ self.old.queues }
    {
        let pc = self.pc(p);
        self.set_pc(p, pc.wrapping_add(4));
    }

    /// The registers x0 to x31, where they stand.
    pub fn registers(&self, p: u16) -> &[u32; 32]
        requires { p < size_of self.now.objects.items Process }
        ensures { result.now ≡ (process (state_of self.now) p).regs }
    {
        self.objects.process(p).registers()
    }

    /// A word goes to a register; what goes to x0 is lost.
    #[tactic(auto, using(object_store::proofs::Stays::stays_process))]
    pub fn set_register(&mut self, p: u16, to: u8, word: u32)
        requires there { p < size_of self.old.objects.items Process }
        requires register { to < 32 }
        ensures state { let s = state_of self.old in
            state_of self.new ≡ set_registers s p (with_register (process s p).regs to word) }
        ensures leaves { Leaves (process_name p ∷ []) self.old self.new }
        ensures translator { self.new.translator ≡ self.old.translator }
        ensures queues { self.new.queues ≡ self.old.queues }
    {
        self.objects.process_mut(p).set_reg(to, word);
    }

    /// What a capability register holds, as it is stored.
    pub fn capability(&self, p: u16, i: u8) -> Cap
        requires there { p < size_of self.now.objects.items Process }
        requires register { i ≤ 31 }
        ensures means { let s = state_of self.now in
            meaning self.now.objects.items result ≡ capreg_of (process s p) i }
        ensures behind { IsBehind self.now.objects.items result }
    {
        self.objects.process(p).capreg(i)
    }

    /// A capability goes to a register.
    #[tactic(auto, using(object_store::proofs::Stays::stays_process))]
    pub fn give_capability(&mut self, p: u16, to: u8, cap: Cap)
        requires there { p < size_of self.old.objects.items Process }
        requires register { to ≤ 31 }
        requires behind { IsBehind self.old.objects.items cap }
        ensures state { let meant = meaning self.old.objects.items cap in
            state_of self.new ≡ set_capreg (state_of self.old) p to meant }
        ensures leaves { Leaves (process_name p ∷ []) self.old self.new }
        ensures translator { self.new.translator ≡ self.old.translator }
        ensures queues { self.new.queues ≡ self.old.queues }
    {
        self.objects.process_mut(p).set_capreg(to, cap);
    }
}
