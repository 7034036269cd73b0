//! A process.
ghost use Rattle.std.specs.Prelude.{◌≡◌, ◌≤◌, ◌%◌};
ghost use Rattle.cap_format.specs.Capability.{IsCapability};
ghost use Rattle.process_objects.specs.State.{IsState};
ghost use Rattle.process_objects.specs.Process.{IsProcess, reg_of, reg_set, capreg_of, slot_of, with_pc, with_reg, with_regs, with_capreg, with_slot, with_state, empty_process};

use crate::state::State;
use cap_format::{Cap, FaultCode};
use std::marker::Model;

/// A user machine's registers, the capabilities that it holds, and what it does.
#[derive(Drop)]
pub struct Process {
    pc: u32,
    regs: [u32; 32],
    capregs: [Cap; 32],
    slots: [Cap; 3],
    state: State,
}

impl Model for Process {
    ghost use Rattle.process_objects.specs.Process.{ProcessValue, IsProcess, process_of};

    ghost Value = { ProcessValue };

    ghost view = { λ p. process_of p.pc p.regs p.capregs p.slots p.state };

    ghost invariant = { λ p. IsProcess (process_of p.pc p.regs p.capregs p.slots p.state) };
}

impl Process {
    pub fn new() -> Process
        ensures empty { result ≡ empty_process }
        ensures range { IsProcess result }
    {
        let null = Cap::null();
        Process {
            pc: 0,
            regs: [0; 32],
            capregs: [null; 32],
            slots: [null; 3],
            state: State::Faulted {
                code: FaultCode::Stopped,
                address: 0,
            },
        }
    }

    /// Does nothing: its contract tells callers what every process keeps.
    pub fn tell_range(&self)
        ensures { IsProcess self.now }
    {
        let _pc = self.pc;
    }

    /// The address of the next instruction, a multiple of 4.
    pub fn pc(&self) -> u32
        ensures value { result ≡ self.now.pc }
        ensures aligned { result % 4 ≡ 0 }
        ensures range { IsProcess self.now }
    {
        self.pc
    }

    pub fn set_pc(&mut self, pc: u32)
        requires { pc % 4 ≡ 0 }
        ensures pc { self.new ≡ with_pc self.old pc }
        ensures range { IsProcess self.new }
    {
        self.pc = pc;
    }

    /// Register x`i`.
    pub fn reg(&self, i: u8) -> u32
        requires { i ≤ 31 }
        ensures value { result ≡ reg_of self.now i }
        ensures range { IsProcess self.now }
    {
        self.regs[i as usize]
    }

    /// Writes register x`i`; x0 stays 0.
    pub fn set_reg(&mut self, i: u8, v: u32)
        requires { i ≤ 31 }
        ensures reg { self.new ≡ with_reg self.old i v }
        ensures whole { self.new ≡ with_regs self.old (reg_set self.old.regs i v) }
        ensures range { IsProcess self.new }
    {
        if i != 0 {
            self.regs[i as usize] = v;
        }
    }

    /// All registers, x0 first.
    pub fn regs(&self) -> [u32; 32]
        ensures value { result ≡ self.now.regs }
        ensures range { IsProcess self.now }
    {
        self.regs
    }

    /// All registers, x0 first, where they stand.
    pub fn registers(&self) -> &[u32; 32]
        ensures value { result.now ≡ self.now.regs }
        ensures range { IsProcess self.now }
    {
        &self.regs
    }

    /// Writes all registers; x0 stays 0.
    pub fn set_regs(&mut self, regs: &[u32; 32])
        ensures regs { self.new ≡ with_regs self.old regs.now }
        ensures range { IsProcess self.new }
    {
        self.regs = *regs;
        self.regs[0] = 0;
    }

    /// Capability register c`i`.
    pub fn capreg(&self, i: u8) -> Cap
        requires { i ≤ 31 }
        ensures value { result ≡ capreg_of self.now i }
        ensures cap_range { IsCapability result }
        ensures range { IsProcess self.now }
    {
        self.capregs[i as usize]
    }

    /// Writes capability register c`i`; c0 stays Null.
    pub fn set_capreg(&mut self, i: u8, cap: Cap)
        requires { i ≤ 31 }
        ensures capreg { self.new ≡ with_capreg self.old i cap }
        ensures range { IsProcess self.new }
    {
        // A capability that is read tells its ranges.
        let _kind = cap.kind();
        let index = i as usize;
        if index != 0 {
            self.capregs[index] = cap;
        }
    }

    /// Slot 0 holds the space, 1 the schedule, 2 the fault handler.
    pub fn slot(&self, i: u8) -> Cap
        requires { i ≤ 2 }
        ensures value { result ≡ slot_of self.now i }
        ensures cap_range { IsCapability result }
        ensures range { IsProcess self.now }
    {
        self.slots[i as usize]
    }

    pub fn set_slot(&mut self, i: u8, cap: Cap)
        requires { i ≤ 2 }
        ensures slot { self.new ≡ with_slot self.old i cap }
        ensures range { IsProcess self.new }
    {
        // A capability that is read tells its ranges.
        let _kind = cap.kind();
        self.slots[i as usize] = cap;
    }

    pub fn state(&self) -> State
        ensures value { result ≡ self.now.state }
        ensures state_range { IsState result }
        ensures range { IsProcess self.now }
    {
        self.state
    }

    pub fn set_state(&mut self, state: State)
        ensures state { self.new ≡ with_state self.old state }
        ensures range { IsProcess self.new }
    {
        state.tell_range();
        self.state = state;
    }

    /// Becomes a copy of another process.
    pub fn copy_from(&mut self, from: &Process)
        ensures copy { self.new ≡ from.now }
    {
        self.pc = from.pc;
        self.regs = from.regs;
        self.capregs = from.capregs;
        self.slots = from.slots;
        self.state = from.state;
    }
}
