//! Reading an invocation from the registers of a process.
ghost use Rattle.std.specs.Prelude.{◌≡◌, ◌≤◌, ◌<◌, ◌-◌, ◌++◌, false, nat_lt, length, replicate, slice_index, take, if◌then◌else◌};
ghost use Rattle.std.specs.List.{All, list_any};
ghost use Rattle.std.specs.Int.{w32, to_le_bytes};
ghost use Rattle.process_objects.specs.Accept.{IsAccept};
ghost use Rattle.invocation.specs.Invocation.{IsString, parsed, acceptance, sends, sent_registers, is_malformed, is_no_string, names_no_register, sets_reserved_bits, has_no_phase, has_too_many, sends_no_string, accepts_no_string};

use crate::fields::{
    accepted_count, asked_wait, bits, invoked_register, is_nonblocking, receives, sends, sent_count,
};
use crate::invocation::Invocation;
use crate::malformed::MalformedSyscall;
use crate::register_list::RegisterList;
use process_objects::{Accept, Wait};

/// How many bytes a string has at most.
pub const LONGEST_STRING: u32 = 65536;

/// The invocation that these registers ask for.
pub fn parse(regs: &[u32; 32]) -> Result<Invocation, MalformedSyscall>
    ensures { result ≡ parsed regs.now }
{
    if is_malformed(regs) {
        return Err(MalformedSyscall);
    }
    let (at, length) = sent_string(regs);
    Ok(Invocation {
        capreg: invoked_register(regs),
        send: sends(regs),
        receive: receives(regs),
        nonblocking: is_nonblocking(regs),
        sent: sent(regs),
        accept: acceptance(regs),
        words: [regs[11], regs[12], regs[13], regs[14]],
        at,
        length,
    })
}

/// The capability registers sent, by registers that are not malformed.
fn sent(regs: &[u32; 32]) -> RegisterList
    requires { is_malformed regs.now ≡ false }
    ensures value { result ≡ sent_registers regs.now }
    ensures four { length result ≤ 4 }
    ensures registers { All (λ register. register ≤ 31) result }
{
    let bytes = regs[18].to_le_bytes();
    RegisterList::new(&bytes[..sent_count(regs) as usize])
}

/// The address and length of the string sent, by registers that are not malformed.
fn sent_string(regs: &[u32; 32]) -> (u32, u32)
    requires { is_malformed regs.now ≡ false }
    ensures at { result.0 ≡ (if sends regs.now then slice_index regs.now 15 else 0) }
    ensures length { result.1 ≡ (if sends regs.now then slice_index regs.now 16 else 0) }
    ensures string { IsString result.0 result.1 }
{
    if sends(regs) {
        (regs[15], regs[16])
    } else {
        (0, 0)
    }
}

/// What is accepted, by registers that are not malformed.
fn acceptance(regs: &[u32; 32]) -> Accept
    requires { is_malformed regs.now ≡ false }
    ensures value { result ≡ acceptance regs.now }
    ensures range { IsAccept result }
    ensures buffer { IsString result.at result.bound }
{
    let count = accepted_count(regs);
    let bytes = regs[19].to_le_bytes();
    let registers = padded(&bytes[..count as usize]);
    let accept = if receives(regs) {
        Accept::new(asked_wait(regs), count, registers, regs[20], regs[21])
    } else {
        Accept::new(Wait::Open, count, registers, 0, 0)
    };
    // What accepts tells its ranges.
    let _count = accept.caps();
    accept
}

/// These registers, and 0 for each that is not named.
fn padded(registers: &[u8]) -> [u8; 4]
    requires { length registers.now ≤ 4 }
    ensures { result ≡ registers.now ++ replicate (4 - length registers.now) 0 }
{
    let mut padded = [0; 4];
    padded[..registers.len()].copy_from_slice(registers);
    padded
}

/// Whether one of the six points holds.
#[tactic(auto, unfolding(crate::specs::Invocation::is_malformed))]
fn is_malformed(regs: &[u32; 32]) -> bool
    ensures { result ≡ is_malformed regs.now }
{
    sets_reserved_bits(regs)
        || has_no_phase(regs)
        || has_too_many(regs)
        || names_no_register(regs)
        || sends_no_string(regs)
        || accepts_no_string(regs)
}

fn sets_reserved_bits(regs: &[u32; 32]) -> bool
    ensures { result ≡ sets_reserved_bits regs.now }
{
    bits(regs[10], 9, 7) != 0 || bits(regs[10], 22, 10) != 0
}

fn has_no_phase(regs: &[u32; 32]) -> bool
    ensures { result ≡ has_no_phase regs.now }
{
    !sends(regs) && !receives(regs)
}

fn has_too_many(regs: &[u32; 32]) -> bool
    ensures { result ≡ has_too_many regs.now }
{
    sent_count(regs) > 4 || accepted_count(regs) > 4
}

fn names_no_register(regs: &[u32; 32]) -> bool
    ensures { result ≡ names_no_register regs.now }
{
    one_is_none(regs[18], sent_count(regs)) || one_is_none(regs[19], accepted_count(regs))
}

/// Whether one of the first `count` bytes of a word, from the lowest on, is no register.
fn one_is_none(word: u32, count: u8) -> bool
    ensures { result ≡ list_any (nat_lt 31) (take count (to_le_bytes w32 word)) }
{
    word.to_le_bytes()
        .iter()
        .take(count as usize)
        .any(|register| *register > 31)
}

fn sends_no_string(regs: &[u32; 32]) -> bool
    ensures { result ≡ sends_no_string regs.now }
{
    sends(regs) && is_no_string(regs[15], regs[16])
}

fn accepts_no_string(regs: &[u32; 32]) -> bool
    ensures { result ≡ accepts_no_string regs.now }
{
    receives(regs) && is_no_string(regs[20], regs[21])
}

/// Whether a string would be too long, or would end behind the last address.
fn is_no_string(at: u32, size: u32) -> bool
    ensures { result ≡ is_no_string at size }
{
    size > LONGEST_STRING || u64::from(at) + u64::from(size) > 0x1_0000_0000
}
