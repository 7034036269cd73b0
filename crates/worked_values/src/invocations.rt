//! Registers that are an invocation or are malformed, worked out by hand from the rules.
use crate::rows::{check, check_numbers, hex, number};
use invocation::{Invocation, parse};
use process_objects::Wait;
use std::process::Abort;

/// x10, x15, x16 and x18 to x21, and 1 for an invocation, 0 for a malformed call. Each point at its edge: the last
/// value that passes and the first that fails.
const EDGES: &str = "\
21 0 0 0 0 0 0 1 a send phase
121 0 0 0 0 0 0 1 point 1: bit 8 is the closed wait
221 0 0 0 0 0 0 0 point 1: bit 9
8021 0 0 0 0 0 0 0 point 1: bit 15
10021 0 0 0 0 0 0 1 point 1: bit 16 is of a number
200021 0 0 0 0 0 0 1 point 1: bit 21 is of a number
400021 0 0 0 0 0 0 0 point 1: bit 22
80000021 0 0 0 0 0 0 0 point 1: bit 31
1f 0 0 0 0 0 0 0 point 2: no phase
9f 0 0 0 0 0 0 0 point 2: NB alone
3f 0 0 0 0 0 0 1 point 2: SP
5f 0 0 0 0 0 0 1 point 2: RP
40021 0 0 0 0 0 0 1 point 3: four sent
50021 0 0 0 0 0 0 0 point 3: five sent
200040 0 0 0 0 0 0 1 point 3: four accepted
280040 0 0 0 0 0 0 0 point 3: five accepted
10021 0 0 1f 0 0 0 1 point 4: register 31 is sent
10021 0 0 20 0 0 0 0 point 4: register 32 is sent
10021 0 0 201f 0 0 0 1 point 4: the second byte is not of the number
40021 0 0 1f1f1f1f 0 0 0 1 point 4: four times register 31
40021 0 0 201f1f1f 0 0 0 0 point 4: the fourth is none
10040 0 0 ff 0 0 0 0 point 4: also without a send phase
80021 0 0 0 1f 0 0 1 point 4: register 31 accepts
80021 0 0 0 20 0 0 0 point 4: register 32 accepts, also without a receive phase
21 0 10000 0 0 0 0 1 point 5: 65536 bytes
21 0 10001 0 0 0 0 0 point 5: 65537 bytes
21 ffff0000 10000 0 0 0 0 1 point 5: up to the last address
21 ffff0001 10000 0 0 0 0 0 point 5: behind the last address
40 ffff0001 10001 0 0 0 0 1 point 5: not without a send phase
40 0 0 0 0 0 10000 1 point 6: 65536 bytes
40 0 0 0 0 0 10001 0 point 6: 65537 bytes
40 0 0 0 0 ffff0000 10000 1 point 6: up to the last address
40 0 0 0 0 ffff0001 10000 0 point 6: behind the last address
21 0 0 0 0 ffff0001 10001 1 point 6: not without a receive phase";

/// The registers of a row.
fn registers(rt: &impl Abort, row: &str) -> [u32; 32] {
    let mut regs = [0; 32];
    regs[10] = hex(rt, row, 0);
    regs[15] = hex(rt, row, 1);
    regs[16] = hex(rt, row, 2);
    regs[18] = hex(rt, row, 3);
    regs[19] = hex(rt, row, 4);
    regs[20] = hex(rt, row, 5);
    regs[21] = hex(rt, row, 6);
    regs
}

#[test]
fn each_point_of_malformed_calls_has_its_edge(rt: HostRuntime) {
    for row in EDGES.lines() {
        let is_call = parse(&registers(&rt, row)).is_ok();
        check(&rt, is_call == (hex(&rt, row, 7) == 1), row);
    }
}

/// The call that uses every field, with this x10.
fn parsed(rt: &impl Abort, x10: u32) -> Invocation {
    let mut regs = [0; 32];
    regs[10] = x10;
    regs[11] = 0x11;
    regs[12] = 0x22;
    regs[13] = 0x33;
    regs[14] = 0x44;
    regs[15] = 0x1000;
    regs[16] = 0x20;
    regs[18] = 0xffff_0504;
    regs[19] = 0xff08_0706;
    regs[20] = 0x2000;
    regs[21] = 0x30;
    regs[22] = 0x99;
    parse(&regs).expect(rt, "an invocation")
}

/// x10 of the call that uses every field. Then 1 for each flag (it sends, it receives, it doesn't wait), its register,
/// how many capabilities it accepts, where the string that is sent begins and how long it is, where one may be received
/// and how long that may be, and its words. Last the id that it waits for, or none.
const CALLS: &str = "\
1a01e3 1 1 1 3 3 1000 20 2000 30 11 22 33 44 99 it sends and receives
1a00c3 0 1 1 3 3 0 0 2000 30 11 22 33 44 - a call that only receives sends no string
1a0123 1 0 0 3 3 1000 20 0 0 11 22 33 44 - a call that only sends receives no string";

/// The row's call has the fields of the row.
fn check_call(rt: &impl Abort, call: &Invocation, row: &str) {
    let accept = call.accept();
    let fields = [
        u32::from(call.send()),
        u32::from(call.receive()),
        u32::from(call.nonblocking()),
        u32::from(call.capreg()),
        u32::from(accept.caps()),
        call.at(),
        call.length(),
        accept.at(),
        accept.bound(),
    ];
    check_numbers(rt, &fields, row, 1);
    check_numbers(rt, &call.words(), row, 10);
    let id = match accept.wait() {
        Wait::Open => None,
        Wait::Closed(id) => Some(id),
    };
    check(rt, id == number(rt, row, 14), row);
    check(rt, accept.regs() == [6, 7, 8, 0], row);
    check(rt, call.sent().as_slice() == [4, 5].as_slice(), row);
}

#[test]
fn each_field_is_read_from_its_register(rt: HostRuntime) {
    for row in CALLS.lines() {
        check_call(&rt, &parsed(&rt, hex(&rt, row, 0)), row);
    }
}
