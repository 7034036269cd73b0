//! What a receiver takes.
ghost use Rattle.std.specs.Prelude.{◌≡◌, ◌+◌, ◌≤◌, ◌^◌, ℕ, slice_index};
ghost use Rattle.process_objects.specs.Accept.{IsAccept, accept_of};

use crate::wait::Wait;
use std::marker::Model;

/// What a receiver waits for, and where a message goes that reaches it.
#[derive(Clone, Copy)]
pub struct Accept {
    wait: Wait,
    caps: u8,
    regs: [u8; 4],
    at: u32,
    bound: u32,
}

impl Model for Accept {
    ghost use Rattle.process_objects.specs.Accept.{AcceptValue, IsAccept, accept_of};

    ghost Value = { AcceptValue };

    ghost view = { λ a. accept_of a.wait a.caps a.regs a.at a.bound };

    ghost invariant = { λ a. IsAccept (accept_of a.wait a.caps a.regs a.at a.bound) };

    ghost inverse = { λ v. record { wait = v.wait; caps = v.caps; regs = v.regs; at = v.at; bound = v.bound } };
}

impl Accept {
    /// The first `caps` of `regs` are the registers, in the order of the capabilities.
    pub fn new(wait: Wait, caps: u8, regs: [u8; 4], at: u32, bound: u32) -> Accept
        requires caps { caps ≤ 4 }
        requires regs { (i : ℕ) → slice_index regs i ≤ 31 }
        requires unused { (i : ℕ) → caps ≤ i → slice_index regs i ≡ 0 }
        requires buffer { at + bound ≤ 2 ^ 32 }
        ensures { result ≡ accept_of wait caps regs at bound }
    {
        Accept {
            wait,
            caps,
            regs,
            at,
            bound,
        }
    }

    pub fn wait(self) -> Wait
        ensures value { result ≡ self.wait }
        ensures range { IsAccept self }
    {
        self.wait
    }

    /// How many capabilities are taken, at most 4.
    pub fn caps(self) -> u8
        ensures value { result ≡ self.caps }
        ensures range { IsAccept self }
    {
        self.caps
    }

    /// The registers that the capabilities go to, each at most 31.
    pub fn regs(self) -> [u8; 4]
        ensures value { result ≡ self.regs }
        ensures range { IsAccept self }
    {
        self.regs
    }

    /// The address of the first byte of the string's buffer.
    pub fn at(self) -> u32
        ensures value { result ≡ self.at }
        ensures range { IsAccept self }
    {
        self.at
    }

    /// How many bytes of a string are taken.
    pub fn bound(self) -> u32
        ensures value { result ≡ self.bound }
        ensures range { IsAccept self }
    {
        self.bound
    }
}
