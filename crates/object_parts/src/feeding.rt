//! What is hashed of an object.
ghost use Rattle.std.specs.Prelude.{◌≡◌, ◌<◌, ◌≤◌, ◌+◌, ◌*◌, fold, length};
ghost use Rattle.std.specs.Hash as fed;
ghost use Rattle.object_parts.specs.Part.{mixed, two_at, folded, eight_at, folded_bytes, hashed_caps};

use page_store::{CapPage, Page};
use process_objects::Process;
use std::hash::Hasher;

/// Feeds a page with its count.
pub(crate) fn feed_page<H: Hasher>(count: u32, page: &Page, state: &mut H)
    ensures { state.new ≡ fold H.write state.old (fed.u64 (folded_bytes count page.now 512)) }
{
    state.write_u64(folded_page(count, page));
}

fn folded_page(count: u32, page: &Page) -> u64
    ensures { result ≡ folded_bytes count page.now 512 }
{
    folded_bytes(u64::from(count), page.bytes())
}

/// A number with the bytes of a page folded into it, eight at a time.
fn folded_bytes(start: u64, bytes: &[u8; 4096]) -> u64
    ensures { result ≡ folded_bytes start bytes.now 512 }
{
    let mut sum = start;
    for i in 0..512usize {
        sum = mixed(sum, eight_at(bytes, i));
    }
    sum
}

fn eight_at(bytes: &[u8; 4096], i: usize) -> u64
    requires { i < 512 }
    ensures { result ≡ eight_at bytes.now i }
{
    let at = 8 * i;
    u64::from_le_bytes([
        bytes[at],
        bytes[at + 1],
        bytes[at + 2],
        bytes[at + 3],
        bytes[at + 4],
        bytes[at + 5],
        bytes[at + 6],
        bytes[at + 7],
    ])
}

/// A number with one more folded into it. Numbers that differ a little, wherever they stand, give different ones.
fn mixed(sum: u64, number: u64) -> u64
    ensures { result ≡ mixed sum number }
{
    sum.wrapping_mul(0xd134_2543_de82_ef95).wrapping_add(number)
}

/// Two numbers as one, the lower first.
fn two_at(numbers: &[u32], i: usize) -> u64
    requires { 2 * i + 1 < length numbers.now }
    ensures { result ≡ two_at numbers.now i }
{
    let at = 2 * i;
    u64::from(numbers[at]) + 0x1_0000_0000 * u64::from(numbers[at + 1])
}

/// A number with others folded into it, two at a time.
pub fn folded(start: u64, numbers: &[u32]) -> u64
    ensures { result ≡ folded start numbers.now }
{
    let count = numbers.len();
    let mut sum = start;
    for i in 0..count / 2 {
        sum = mixed(sum, two_at(numbers, i));
    }
    if count % 2 == 1 {
        return mixed(sum, u64::from(numbers[count - 1]));
    }
    sum
}

pub(crate) fn feed_cap_page<H: Hasher>(page: &CapPage, state: &mut H)
    ensures { state.new ≡ fold H.write state.old (hashed_caps page.now) }
{
    page.tell_range();
    for i in 0..=255 {
        state.write_u32(page.get(i).object());
    }
}

/// Feeds the pc and the registers of a process.
pub(crate) fn feed_front<H: Hasher>(process: &Process, state: &mut H)
    ensures { state.new ≡ fold H.write state.old (fed.u64 (folded process.now.pc process.now.regs)) }
{
    state.write_u64(folded(u64::from(process.pc()), process.registers()));
}
