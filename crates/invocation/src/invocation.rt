//! An invocation.
ghost use Rattle.std.specs.Prelude.{◌≡◌};
ghost use Rattle.invocation.specs.Invocation.{IsInvocation};

use crate::register_list::RegisterList;
use process_objects::Accept;
use std::marker::Model;

/// What the registers of a process ask for.
#[derive(Drop)]
pub struct Invocation {
    pub(crate) capreg: u8,
    pub(crate) send: bool,
    pub(crate) receive: bool,
    pub(crate) nonblocking: bool,
    pub(crate) sent: RegisterList,
    pub(crate) accept: Accept,
    pub(crate) words: [u32; 4],
    pub(crate) at: u32,
    pub(crate) length: u32,
}

impl Model for Invocation {
    ghost use Rattle.invocation.specs.Invocation.{InvocationValue, IsInvocation};

    ghost Value = { InvocationValue };

    ghost view = { λ i. record { capreg = i.capreg; send = i.send; receive = i.receive; nonblocking = i.nonblocking; sent = i.sent; accept = i.accept; words = i.words; at = i.at; length = i.length } };

    ghost invariant = { λ i. IsInvocation (record { capreg = i.capreg; send = i.send; receive = i.receive; nonblocking = i.nonblocking; sent = i.sent; accept = i.accept; words = i.words; at = i.at; length = i.length }) };
}

impl Invocation {
    /// The capability register that is invoked.
    pub fn capreg(&self) -> u8
        ensures value { result ≡ self.now.capreg }
        ensures range { IsInvocation self.now }
    {
        self.capreg
    }

    /// Whether there is a send phase.
    pub fn send(&self) -> bool
        ensures value { result ≡ self.now.send }
        ensures range { IsInvocation self.now }
    {
        self.send
    }

    /// Whether there is a receive phase.
    pub fn receive(&self) -> bool
        ensures value { result ≡ self.now.receive }
        ensures range { IsInvocation self.now }
    {
        self.receive
    }

    /// Whether the send phase is given up where the recipient is busy.
    pub fn nonblocking(&self) -> bool
        ensures value { result ≡ self.now.nonblocking }
        ensures range { IsInvocation self.now }
    {
        self.nonblocking
    }

    /// The capability registers sent, in their order.
    pub fn sent(&self) -> &RegisterList
        ensures value { result.now ≡ self.now.sent }
        ensures range { IsInvocation self.now }
    {
        &self.sent
    }

    /// What is accepted: by the receive phase, and by the register of a kernel reply.
    pub fn accept(&self) -> Accept
        ensures value { result ≡ self.now.accept }
        ensures range { IsInvocation self.now }
    {
        self.accept
    }

    /// w1 to w4.
    pub fn words(&self) -> [u32; 4]
        ensures value { result ≡ self.now.words }
        ensures range { IsInvocation self.now }
    {
        self.words
    }

    /// The address of the first byte of the string sent, 0 without a send phase.
    pub fn at(&self) -> u32
        ensures value { result ≡ self.now.at }
        ensures range { IsInvocation self.now }
    {
        self.at
    }

    /// How many bytes of the string are sent, at most 65,536 and 0 without a send phase.
    pub fn length(&self) -> u32
        ensures value { result ≡ self.now.length }
        ensures range { IsInvocation self.now }
    {
        self.length
    }
}
