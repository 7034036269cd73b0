//! Who answers an entry, and what a message leaves of its receiver and of its endpoint, worked out by hand from the
//! rules. The messages are sent one after the other on one machine, so that a later row meets what an earlier one left.
ghost use Rattle.std.specs.Prelude.{◌<◌};

use crate::requests::plain;
use crate::rows::{byte, check, check_numbers, hex, letter, short};
use cap_format::{Cap, CapKind, FaultCode};
use endpoint_objects::Endpoint;
use invocation::{Callee, CapList, Message, deliver, target};
use object_store::{Objects, Sizes};
use process_objects::{Accept, Process, State, Wait};
use std::process::Abort;

const SIZES: Sizes = Sizes {
    harts: 1,
    pages: 0,
    cappages: 0,
    gpts: 0,
    processes: 4,
    endpoints: 11,
};

/// An endpoint, the type number, the object and the count of its recipient, its id, its payload, and 1 where that has
/// to match.
const ENDPOINTS: &str = "\
0 8 0 0 9 5 1
1 8 1 0 7 5 0
2 8 1 0 8 5 0
3 8 3 0 1 ffffffff 1
4 8 2 0 7 6 1
5 8 4 0 7 5 0
6 8 0 1 7 5 0
7 8 2 0 7 ffffffff 1
8 8 2 0 7 5 0
a 9 3 0 7 5 0";

/// The endpoint, the count and the payload of an entry. Then who answers it: open (`o`), busy (`b`), dead (`d`) or the
/// kernel asked through Null (`k`), and the process that is open or busy.
const ANSWERS: &str = "\
0 0 5 | o 0 | it receives from all
0 0 6 | d 0 | another payload than the endpoint's: before the recipient is looked at
1 0 6 | o 1 | it receives from this id, and no payload has to match
2 0 5 | b 1 | it receives from another id
8 0 5 | b 2 | it was stopped
9 0 0 | d 0 | no recipient
a 0 5 | d 0 | a schedule answers nothing
6 0 5 | d 0 | the recipient is not live
7 0 5 | d 0 | another payload, though its process would be busy
7 0 ffffffff | b 2 | its payload
0 1 5 | k 0 | an entry that is not live is Null";

/// The same, where how many capabilities are sent, of Range, Discrim, KernLog and SysCtl, 1 where the string was cut,
/// and its length stand before who answers. The process is looked at afterwards: x10 to x16 and x22, the type numbers
/// of what c0, c5, c6 and c7 hold, and the payload of the endpoint.
const ROWS: &str = "\
0 0 4 | 3 1 600 | d 0 | 10a 10b 10c 10d 10e 10f 110 116 | 0 0 0 d | 5 another payload, though its process receives
0 0 5 | 3 1 600 | o 0 | 20101 11 22 33 44 5 600 9 | 0 b 0 d | 6 two are taken, and c5 keeps the later one; cut
0 0 5 | 1 0 0 | d 0 | 20101 11 22 33 44 5 600 9 | 0 b 0 d | 6 the payload has risen
0 0 6 | 1 0 0 | o 0 | 10001 11 22 33 44 6 0 9 | 0 a 0 d | 7 one is sent
1 0 99 | 4 0 10000 | o 1 | 30001 11 22 33 44 99 10000 7 | 0 0 b c | 5 three are taken, what goes to c0 is dropped
2 0 5 | 4 1 600 | b 1 | 30001 11 22 33 44 99 10000 7 | 0 0 b c | 5 it receives from another id
3 0 ffffffff | 2 1 1 | o 3 | 101 11 22 33 44 ffffffff 1 1 | 0 0 0 d | 0 none is taken; the payload after the last is 0
3 0 0 | 0 0 0 | o 3 | 1 11 22 33 44 0 0 1 | 0 0 0 d | 1 none is sent
4 0 5 | 4 1 600 | d 2 | 10a 10b 10c 10d 10e 10f 110 116 | 0 0 0 d | 6 another payload, though its process is busy
4 0 6 | 4 1 600 | b 2 | 10a 10b 10c 10d 10e 10f 110 116 | 0 0 0 d | 6 its payload, which doesn't rise where it is busy
5 0 5 | 4 1 600 | d 2 | 10a 10b 10c 10d 10e 10f 110 116 | 0 0 0 d | 5 no process";

/// Makes the row's endpoint.
fn put_endpoint(rt: &impl Abort, objects: &mut Objects, row: &str) {
    let number = short(rt, row, 0);
    assert!(rt; number < objects.sizes().endpoints);
    *objects.endpoint_mut(number) = Endpoint {
        recipient: plain(rt, hex(rt, row, 1), hex(rt, row, 2), hex(rt, row, 3)),
        id: hex(rt, row, 4),
        payload: hex(rt, row, 5),
        matching: letter(row, 6) == b'1',
    };
}

/// Registers that can be told from one another: x1 holds 101 (hexadecimal), and so on.
fn numbered() -> [u32; 32] {
    let mut regs = [0; 32];
    for i in 1..32_u8 {
        regs[i as usize] = 0x100 + u32::from(i);
    }
    regs
}

/// Process `p` with numbered registers, SysCtl in c7, and this state.
fn prepare(rt: &impl Abort, objects: &mut Objects, p: u16, state: State) {
    assert!(rt; p < objects.sizes().processes);
    let process = objects.process_mut(p);
    process.set_regs(&numbered());
    process.set_capreg(7, Cap::plain(CapKind::SysCtl));
    process.set_state(state);
}

/// The machine of the rows: process 0 takes two capabilities, both into c5; process 1 waits for id 7 and takes three;
/// process 2 was stopped; process 3 takes none. There is no process 4.
fn prepare_all(rt: &impl Abort, objects: &mut Objects) {
    let twice = Accept::new(Wait::Open, 2, [5, 5, 0, 0], 0, 0);
    let closed = Accept::new(Wait::Closed(7), 3, [0, 6, 7, 0], 0, 0);
    let none = Accept::new(Wait::Open, 0, [0; 4], 0, 0);
    let stopped = State::Faulted {
        code: FaultCode::Stopped,
        address: 0,
    };
    prepare(rt, objects, 0, State::Receiving(twice));
    prepare(rt, objects, 1, State::Receiving(closed));
    prepare(rt, objects, 2, stopped);
    prepare(rt, objects, 3, State::Receiving(none));
    for row in ENDPOINTS.lines() {
        put_endpoint(rt, objects, row);
    }
}

/// The row's entry.
fn entry(rt: &impl Abort, row: &str) -> Cap {
    let (endpoint, count) = (short(rt, row, 0), hex(rt, row, 1));
    assert!(rt; endpoint < 1024 && count < 2);
    Cap::entry(endpoint, count, hex(rt, row, 2))
}

/// Who has to answer, as the row says from word `n` on.
fn answer(rt: &impl Abort, row: &str, n: usize) -> Callee
    requires { n < 100 }
{
    let process = short(rt, row, n + 1);
    match letter(row, n) {
        b'o' => Callee::Open {
            endpoint: short(rt, row, 0),
            process,
        },
        b'b' => Callee::Busy(process),
        b'd' => Callee::Dead,
        _ => Callee::Kernel(Cap::null()),
    }
}

/// The row's first capabilities of Range, Discrim, KernLog and SysCtl, whose type numbers follow one another.
fn sent(rt: &impl Abort, row: &str) -> CapList {
    let mut caps = CapList::new();
    for kind in 10..10 + u32::from(byte(rt, row, 4)) {
        assert!(rt; caps.as_slice().len() < 4);
        caps.push(plain(rt, kind, 0, 0));
    }
    caps
}

/// The row's message.
fn message(rt: &impl Abort, row: &str) -> Message {
    Message {
        words: [0x11, 0x22, 0x33, 0x44],
        payload: hex(rt, row, 2),
        length: hex(rt, row, 6),
        cut: letter(row, 5) == b'1',
        caps: sent(rt, row),
    }
}

/// Sends the row's message through its entry, and compares who answers it.
fn send(rt: &impl Abort, objects: &mut Objects, row: &str) {
    let callee = target(objects, entry(rt, row));
    check(rt, callee == answer(rt, row, 8), row);
    if let Callee::Open { endpoint, process } = callee {
        deliver(objects, endpoint, process, message(rt, row));
    }
}

/// The row has x10 to x16 of a process from word 11 on, and x22 behind them. Any other register is as it was.
fn check_registers(rt: &impl Abort, process: &Process, row: &str) {
    for i in 0..32_u8 {
        let wanted = match i {
            0 => 0,
            10..=16 => hex(rt, row, i as usize + 1),
            22 => hex(rt, row, 18),
            _ => 0x100 + u32::from(i),
        };
        check(rt, process.reg(i) == wanted, row);
    }
}

/// The type numbers of what c0, c5, c6 and c7 of a process hold.
fn kinds(process: &Process) -> [u32; 4] {
    [
        u32::from(process.capreg(0).kind().number()),
        u32::from(process.capreg(5).kind().number()),
        u32::from(process.capreg(6).kind().number()),
        u32::from(process.capreg(7).kind().number()),
    ]
}

/// Compares the row's process and endpoint with what they have to be.
fn compare(rt: &impl Abort, objects: &Objects, row: &str) {
    let (endpoint, p) = (short(rt, row, 0), short(rt, row, 9));
    let sizes = objects.sizes();
    assert!(rt; endpoint < sizes.endpoints && p < sizes.processes);
    let process = objects.process(p);
    check_registers(rt, process, row);
    check_numbers(rt, &kinds(process), row, 20);
    check_numbers(rt, &[objects.endpoint(endpoint).payload], row, 25);
}

/// Each entry has the answer of its row; and what is no entry is asked of the kernel.
fn check_answers(rt: &impl Abort, objects: &Objects) {
    let range = Cap::plain(CapKind::Range);
    check(rt, target(objects, range) == Callee::Kernel(range), "Range");
    for row in ANSWERS.lines() {
        let callee = target(objects, entry(rt, row));
        check(rt, callee == answer(rt, row, 4), row);
    }
}

#[test]
fn a_delivery_leaves_the_receiver_and_the_endpoint_as_its_row_says(rt: HostRuntime) {
    let mut objects = Objects::new(rt.alloc(), SIZES).expect(&rt, "memory");
    prepare_all(&rt, &mut objects);
    check_answers(&rt, &objects);
    for row in ROWS.lines() {
        send(&rt, &mut objects, row);
        compare(&rt, &objects, row);
    }
}
