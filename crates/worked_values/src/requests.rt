//! Capabilities, requests and replies, as the words of a row.
ghost use Rattle.std.specs.Prelude.{◌<◌};

use crate::rows::{byte, check, check_numbers, hex, letter, short};
use bitflags::Flags;
use cap_format::{Cap, CapKind, Guard, Item, Reply, Request, Restr};
use std::process::Abort;

/// The capability whose type number, object, restrictions, l2g, match and slot begin at word `n`. An entry has its
/// payload in place of the match.
pub fn cap_at(rt: &impl Abort, row: &str, n: usize) -> Cap
    requires { n < 100 }
{
    let kind = CapKind::from_number(hex(rt, row, n)).expect(rt, "a kind");
    let restr = Restr::from_bits_retain(byte(rt, row, n + 2));
    let second = hex(rt, row, n + 4);
    let (matches, payload) = match kind {
        CapKind::Entry => (0, second),
        _ => (second, 0),
    };
    let guard = Guard::new(byte(rt, row, n + 3), matches).expect(rt, "a guard");
    let (object, slot) = (hex(rt, row, n + 1), byte(rt, row, n + 5));
    Cap::try_new(kind, restr, 0, guard, object, payload, slot).expect(rt, "a capability")
}

/// The capability of a type number, an object and a count, which has no restriction and a page's guard.
pub fn plain(rt: &impl Abort, kind: u32, object: u32, count: u32) -> Cap {
    let kind = CapKind::from_number(kind).expect(rt, "a kind");
    let cap = Cap::try_new(kind, Restr::empty(), count, Guard::page(), object, 0, 0);
    cap.expect(rt, "a capability")
}

/// The request whose four words begin at word `n`. Behind them and a bar stand the type number and the object of
/// the capability sent.
pub fn request_at(rt: &impl Abort, row: &str, n: usize) -> Request
    requires { n < 50 }
{
    let (first, second) = (hex(rt, row, n), hex(rt, row, n + 1));
    let (third, fourth) = (hex(rt, row, n + 2), hex(rt, row, n + 3));
    Request {
        words: [first, second, third, fourth],
        sent: plain(rt, hex(rt, row, n + 5), hex(rt, row, n + 6), 0),
    }
}

/// The item at word `n`: `h`, the type number and the number of an object; `s`, the number of a GPT and a slot; or
/// none.
fn item_at(rt: &impl Abort, row: &str, n: usize) -> Option<Item>
    requires { n < 100 }
{
    match letter(row, n) {
        b'-' => None,
        b's' => Some(Item::Slot(short(rt, row, n + 1), byte(rt, row, n + 2))),
        _ => {
            let kind = CapKind::from_number(hex(rt, row, n + 1)).expect(rt, "a kind");
            Some(Item::Header(kind, short(rt, row, n + 2)))
        }
    }
}

/// The capability at word `n`, or none.
pub fn given_at(rt: &impl Abort, row: &str, n: usize) -> Option<Cap>
    requires { n < 100 }
{
    if letter(row, n) == b'-' {
        return None;
    }
    Some(cap_at(rt, row, n))
}

/// Fails with the row, unless its reply is this one, whose code and three words begin at word `n`. Behind bars stand
/// the capability that it gives, or none, and the item that it changed, or none.
pub fn check_reply(rt: &impl Abort, reply: Reply, row: &str, n: usize)
    requires { n < 50 }
{
    check(rt, reply.code.number() == hex(rt, row, n), row);
    check_numbers(rt, &reply.words, row, n + 1);
    check(rt, reply.cap == given_at(rt, row, n + 5), row);
    check(rt, reply.changed == item_at(rt, row, n + 12), row);
}
