//! The fields of an invocation in the registers of a process.
ghost use Rattle.std.specs.Prelude.{◌≡◌, ◌+◌, ◌≤◌, ◌<◌, ◌^◌};
ghost use Rattle.invocation.specs.Invocation.{bits, bit, invoked_register, sends, receives, is_nonblocking, sent_count, accepted_count, asked_wait};

use process_objects::Wait;

/// The `count` bits of a word from bit `low` on.
pub(crate) fn bits(word: u32, low: u32, count: u32) -> u32
    requires within { low + count ≤ 32 }
    requires some { 0 < count }
    ensures value { result ≡ bits word low count }
    ensures below { result < 2 ^ count }
{
    (u64::from(word >> low) % (1u64 << count)) as u32
}

fn bit(word: u32, i: u32) -> bool
    requires { i < 32 }
    ensures { result ≡ bit word i }
{
    bits(word, i, 1) == 1
}

pub(crate) fn invoked_register(regs: &[u32; 32]) -> u8
    ensures value { result ≡ invoked_register regs.now }
    ensures register { result ≤ 31 }
{
    bits(regs[10], 0, 5) as u8
}

pub(crate) fn sends(regs: &[u32; 32]) -> bool
    ensures { result ≡ sends regs.now }
{
    bit(regs[10], 5)
}

pub(crate) fn receives(regs: &[u32; 32]) -> bool
    ensures { result ≡ receives regs.now }
{
    bit(regs[10], 6)
}

pub(crate) fn is_nonblocking(regs: &[u32; 32]) -> bool
    ensures { result ≡ is_nonblocking regs.now }
{
    bit(regs[10], 7)
}

pub(crate) fn sent_count(regs: &[u32; 32]) -> u8
    ensures value { result ≡ sent_count regs.now }
    ensures most { result < 8 }
{
    bits(regs[10], 16, 3) as u8
}

pub(crate) fn accepted_count(regs: &[u32; 32]) -> u8
    ensures value { result ≡ accepted_count regs.now }
    ensures most { result < 8 }
{
    bits(regs[10], 19, 3) as u8
}

pub(crate) fn asked_wait(regs: &[u32; 32]) -> Wait
    ensures { result ≡ asked_wait regs.now }
{
    if bit(regs[10], 8) {
        Wait::Closed(regs[22])
    } else {
        Wait::Open
    }
}
