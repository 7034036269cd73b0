//! Every kind of line that is printed, written out by hand from the format.
ghost use Rattle.std.specs.Prelude.{◌≡◌, ◌<◌, length};
ghost use Rattle.object_store.specs.Store.{size_of};
ghost use Rattle.kernel_core.specs.Machine.{IsRecord};
ghost use Rattle.steps.specs.Permit.{permit_for};

use crate::rows::{byte, cap_bytes, check_text};
use cap_format::{Cap, CapKind, FaultCode, decode};
use coy_io::{MemSink, put_all};
use coy_text::LineBuf;
use endpoint_objects::Endpoint;
use gpt_objects::GptHeader;
use kernel_core::{LogBytes, Record};
use object_store::{Objects, Sizes};
use page_store::CapPage;
use process_objects::{Accept, Process, State, Wait};
use run_text::{put_front, put_objects, record_line};
use rv32_decode::Insn;
use schedules::Queues;
use std::alloc::Global;
use std::marker::Brand;
use std::process::Abort;
use std::sync::ledger::Ledger;
use steps::{Permit, Steps};
use walk_meaning::Kind;

/// A sink that takes all bytes of a call.
fn sink(rt: &impl Abort, alloc: Global) -> MemSink {
    MemSink::new(alloc, 4096, Vec::new(alloc), 4096).expect(rt, "memory")
}

fn put_record(rt: &impl Abort, entry: Record, output: &mut MemSink)
    requires { IsRecord entry }
{
    let mut line = LineBuf::new();
    record_line(&entry, &mut line);
    put_all(output, line.as_bytes()).expect(rt, "memory");
}

/// An access of a process, its address, and the number of what it reached.
fn put_access(
    rt: &impl Abort,
    output: &mut MemSink,
    process: u16,
    kind: Kind,
    address: u32,
    number: u16,
) {
    let entry = Record::Access {
        process,
        kind,
        address,
        number,
    };
    put_record(rt, entry, output);
}

/// A fault of a process, its address, and who hears it.
fn put_fault(
    rt: &impl Abort,
    output: &mut MemSink,
    process: u16,
    code: FaultCode,
    address: u32,
    to: Option<u16>,
) {
    let entry = Record::Fault {
        process,
        code,
        address,
        to,
    };
    put_record(rt, entry, output);
}

fn put_accesses_and_faults(rt: &impl Abort, output: &mut MemSink) {
    put_access(rt, output, 0, Kind::Fetch, 0, 0);
    put_access(rt, output, 1, Kind::Load, 0x1004, 4095);
    put_access(rt, output, 255, Kind::Store, 0xffff_fffc, 7);
    put_access(rt, output, 12, Kind::CapLoad, 0x2010, 255);
    put_access(rt, output, 3, Kind::CapStore, 0x2ff0, 10);
    put_fault(rt, output, 1, FaultCode::NoSchedule, 16, Some(0));
    put_fault(rt, output, 2, FaultCode::InvalidDataReference, 0x1004, None);
}

fn put_message(rt: &impl Abort, output: &mut MemSink) {
    let entry = Record::Message {
        from: 0,
        to: 1,
        endpoint: 2,
        payload: 0x2a,
        words: [0x61, 7, 0, 0xffff_ffff],
        length: 65536,
        caps: 4,
    };
    put_record(rt, entry, output);
}

fn put_others(rt: &impl Abort, output: &mut MemSink) {
    let insn = Insn::Add {
        rd: 6,
        rs1: 6,
        rs2: 11,
    };
    let entry = Record::Insn {
        process: 2,
        at: 16,
        insn,
    };
    put_record(rt, entry, output);
    let entry = Record::Destroy {
        kind: CapKind::CapPage,
        number: 17,
    };
    put_record(rt, entry, output);
    put_record(rt, Record::Halt { process: 9 }, output);
    let mut bytes = LogBytes::new();
    bytes.push(0x68);
    bytes.push(0);
    bytes.push(0xff);
    put_record(rt, Record::Log { process: 3, bytes }, output);
}

#[test]
fn each_kind_of_record_has_its_line(rt: HostRuntime) {
    let mut output = sink(&rt, rt.alloc());
    put_accesses_and_faults(&rt, &mut output);
    put_message(&rt, &mut output);
    put_others(&rt, &mut output);
    check_text(&rt, output.bytes.as_slice(), RECORDS, "records");
}

const RECORDS: &str = "\
fetch 0 00000000 page 0
load 1 00001004 page 4095
store 255 fffffffc page 7
capload 12 00002010 cappage 255
capstore 3 00002ff0 cappage 10
fault 1 NoSchedule 00000010 to 0
fault 2 InvalidDataReference 00001004 unheard
msg 0 1 endpoint=2 payload=0000002a words=00000061,00000007,00000000,ffffffff len=65536 caps=4
insn 2 00000010 add x6 x6 x11
destroy cappage 17
halt 9
log 3 6800ff
";

/// Two harts, two of each kind of object, and eight processes.
const SIZES: Sizes = Sizes {
    harts: 2,
    pages: 2,
    cappages: 2,
    gpts: 2,
    processes: 8,
    endpoints: 2,
};

/// Makes a process ready that has a schedule of this priority.
fn start(queues: &mut Queues, objects: &mut Objects, p: u16, priority: u8)
    requires there { p < length queues.old.sleepers }
    requires sizes { length queues.old.sleepers ≡ size_of objects.old.items CapKind.Process }
    requires priority { priority < 8 }
    ensures sleepers { length queues.new.sleepers ≡ length queues.old.sleepers }
    ensures harts { length queues.new.harts ≡ length queues.old.harts }
    ensures processes { size_of objects.new.items CapKind.Process ≡
        size_of objects.old.items CapKind.Process }
{
    objects.process_mut(p).set_slot(1, Cap::schedule(priority));
    queues.leave(p);
    queues.make_ready(objects, p);
}

/// Process 2 is on hart 0, 4 and 6 are ready behind each other, 7 alone, and 5 and 3 sleep on 1.
fn start_all(queues: &mut Queues, objects: &mut Objects)
    requires there { 7 < length queues.old.sleepers }
    requires hart { 0 < length queues.old.harts }
    requires sizes { length queues.old.sleepers ≡ size_of objects.old.items CapKind.Process }
    ensures sleepers { length queues.new.sleepers ≡ length queues.old.sleepers }
    ensures harts { length queues.new.harts ≡ length queues.old.harts }
{
    start(queues, objects, 4, 3);
    start(queues, objects, 2, 6);
    start(queues, objects, 6, 3);
    start(queues, objects, 7, 5);
    queues.dispatch(0);
    queues.leave(5);
    queues.sleep(5, 1);
    queues.leave(3);
    queues.sleep(3, 1);
}

#[test]
fn harts_queues_and_sleepers_have_their_lines(rt: HostRuntime) {
    let what = "the front";
    let mut objects = Objects::new(rt.alloc(), SIZES).expect(&rt, what);
    let mut queues = Queues::new(rt.alloc(), SIZES).expect(&rt, what);
    start_all(&mut queues, &mut objects);
    let mut output = sink(&rt, rt.alloc());
    put_front(&queues, SIZES, true, &mut LineBuf::new(), &mut output).expect(&rt, what);
    check_text(&rt, output.bytes.as_slice(), FRONT, what);
}

const FRONT: &str = "\
state
hart 0 2
hart 1 idle
ready 5 7
ready 3 4 6
sleepers 1 5 3
halted
";

/// Slots of a capability page in hexadecimal behind their bytes, a capability of each kind among them. Slot 2 has page
/// 1 with count 4.
const SLOTS: &str = "\
c1570000 0c100000 01000000 00000000 1
01400000 0c000000 01000000 00000000 2
42000000 0c000000 00000000 00000000 3
03000000 20000000 01000000 00000000 4
04000000 0c000000 00500000 00000000 5
05000000 0c000000 00500000 03000000 6
06000000 00000000 01000000 00000000 7
07000000 efbeadde 00000000 00000000 8
08000000 00000000 05000000 00000000 9
09000000 00000000 07000000 00000000 a
0a000000 00000000 00000000 00000000 b
0b000000 00000000 00000000 00000000 c
0c000000 00000000 00000000 00000000 d
0d000000 00000000 00000000 00000000 e
01000000 0dc0ab00 00000000 00000000 ff";

fn fill_cappage(rt: &impl Abort, page: &mut CapPage) {
    for row in SLOTS.lines() {
        let cap = decode(&cap_bytes(rt, row)).expect(rt, row);
        page.set(byte(rt, row, 4), cap);
    }
}

/// The first page is written at both ends, the second is empty but for its count, which is 5. The second GPT holds a
/// capability to page 1 whose count is 4.
fn fill_memory(rt: &impl Abort, objects: &mut Objects) {
    let sizes = objects.sizes();
    assert!(rt; sizes.pages >= 2 && sizes.cappages >= 1 && sizes.gpts >= 2);
    objects.set_count(CapKind::Page, 1, 5);
    objects.page_mut(0).write(16, &[1, 2]);
    objects.page_mut(0).write(4095, &[0xab]);
    fill_cappage(rt, objects.cappage_mut(0));
    objects.set_gpt_header(0, GptHeader::new(16, true, true));
    objects.set_gpt_header(1, GptHeader::new(31, false, true));
    objects.set_gpt_slot(0, 15, Cap::entry(0, 0, 0x2a));
    objects.set_gpt_slot(1, 14, Cap::to_object(CapKind::Page, 1, 4));
}

/// The recipient of the second endpoint has another count than the process.
fn fill_endpoints(rt: &impl Abort, objects: &mut Objects) {
    assert!(rt; objects.sizes().endpoints >= 2);
    let server = Cap::to_object(CapKind::Process, 1, 0);
    fill_endpoint(objects.endpoint_mut(0), server, 0x77, 5, true);
    let gone = Cap::to_object(CapKind::Process, 1, 9);
    fill_endpoint(objects.endpoint_mut(1), gone, 1, 0, false);
}

fn fill_endpoint(endpoint: &mut Endpoint, recipient: Cap, id: u32, payload: u32, matching: bool) {
    endpoint.recipient = recipient;
    endpoint.id = id;
    endpoint.payload = payload;
    endpoint.matching = matching;
}

/// Processes that wait, for anyone or for one endpoint, and one at a fault. A process with a register alone is not
/// empty, so it has its statement, and so has one with a capability alone.
fn fill_processes(rt: &impl Abort, objects: &mut Objects) {
    assert!(rt; objects.sizes().processes >= 8);
    fill_process(objects.process_mut(0), State::Running);
    let open = Accept::new(Wait::Open, 0, [0; 4], 0, 0);
    let closed = Accept::new(Wait::Closed(0x77), 2, [5, 31, 0, 0], 0x1a00, 4096);
    let fault = State::Faulted {
        code: FaultCode::BadAlign,
        address: 0x1002,
    };
    objects.process_mut(1).set_state(State::Receiving(open));
    objects.process_mut(2).set_state(State::Receiving(closed));
    objects.process_mut(3).set_state(fault);
    objects.process_mut(4).set_reg(5, 1);
    objects
        .process_mut(5)
        .set_capreg(31, Cap::plain(CapKind::KernLog));
    objects.set_count(CapKind::Process, 7, 1_048_575);
}

fn fill_process(process: &mut Process, state: State) {
    process.set_pc(0x1004);
    process.set_reg(1, 0x1000);
    process.set_reg(31, 0xffff_ffff);
    process.set_slot(0, Cap::to_object(CapKind::Gpt, 0, 0));
    process.set_slot(1, Cap::schedule(3));
    process.set_slot(2, Cap::entry(1, 0, 0xbeef));
    process.set_capreg(1, Cap::plain(CapKind::Range));
    process.set_capreg(2, Cap::to_object(CapKind::Page, 1, 4));
    process.set_state(state);
}

/// Writes all objects under a counter that nobody reads.
fn put_all_objects<L: Ledger>(
    rt: &impl Abort,
    objects: &Objects,
    output: &mut MemSink,
    permit: Permit,
)
    requires ledger { permit ≡ permit_for L.name L.parts }
{
    let mut fetches = Steps::<L>::new(permit);
    put_objects(objects, &mut LineBuf::new(), output, &mut fetches).expect(rt, "memory");
}

#[test]
fn each_object_that_is_not_empty_has_its_lines(rt: HostRuntime) {
    let what = "the objects";
    let mut objects = Objects::new(rt.alloc(), SIZES).expect(&rt, what);
    fill_memory(&rt, &mut objects);
    fill_endpoints(&rt, &mut objects);
    fill_processes(&rt, &mut objects);
    let mut output = sink(&rt, rt.alloc());
    put_all_objects::<Brand>(&rt, &objects, &mut output, Permit::new(&rt));
    check_text(&rt, output.bytes.as_slice(), OBJECTS, what);
}

const OBJECTS: &str = "\
page 0 010 01020000000000000000000000000000
page 0 ff0 000000000000000000000000000000ab
count page 1 5
cap 0 1 page:1@12/00001+rxwon
cap 0 3 cappage:0@12/00000+r
cap 0 4 gpt:1@32/00000
cap 0 5 window:00005000@12/00000
cap 0 6 local:3:00005000@12/00000
cap 0 7 endpoint:1
cap 0 8 entry:0:deadbeef
cap 0 9 process:5
cap 0 10 schedule:7
cap 0 11 range
cap 0 12 discrim
cap 0 13 kernlog
cap 0 14 sysctl
cap 0 255 page:0@13/00abc
gpt 0 16 ha bg
slot 0 15 entry:0:0000002a
gpt 1 31 bg
endpoint 0 process:1 00000077 00000005 match
endpoint 1 null 00000001 00000000 plain
process 0 00001004 gpt:0@32/00000 schedule:3 entry:1:0000beef run
reg 0 1 00001000
reg 0 31 ffffffff
capreg 0 1 range
process 1 00000000 null null null waiting open 0 0 0 0 0 00000000 0
process 2 00000000 null null null waiting 00000077 2 5 31 0 0 00001a00 4096
process 3 00000000 null null null faulted BadAlign 00001002
process 4 00000000 null null null stop
reg 4 5 00000001
process 5 00000000 null null null stop
capreg 5 31 kernlog
count process 7 1048575
";
