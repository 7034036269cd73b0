//! The generated text, by lengths and digests of the same text made by another program, and a
//! start worked out by hand.

use crate::rows::{Calls, WHOLE, check, source_of};
use coy_io::{LineReader, Source};
use generated_text::MakeSource;
use image_builder::boot;
use kernel_core::Machine;
use listing_read::{Listing, Statement, read_listing};
use object_store::Sizes;
use process_objects::State;
use std::alloc::Global;
use std::process::Abort;
use walk_engine::Plain;

/// How long the text of a number is, and the number that its bytes are in base 31, modulo 2^32.
fn measured(n: u32) -> (u64, u32) {
    let mut source = MakeSource::new(n);
    let mut length: u64 = 0;
    let mut digest: u32 = 0;
    let mut bytes = [0; 100];
    for _ in 0..1000 {
        let Ok(count) = source.take(&mut bytes) else {
            return (0, 0);
        };
        for byte in &bytes[..count] {
            digest = digest.wrapping_mul(31).wrapping_add(*byte as u32);
        }
        length = length.wrapping_add(count as u64);
    }
    (length, digest)
}

/// The text of a number has this length in bytes and this digest.
fn check_measured(rt: &impl Abort, n: u32, length: u64, digest: u32) {
    assert!(rt; measured(n) == (length, digest), "text of {n}");
}

#[test]
fn the_generated_text_has_its_length_and_digest(rt: HostRuntime) {
    check_measured(&rt, 0, 779, 0xd7e4_a709);
    check_measured(&rt, 62, 48977, 0x4c62_d585);
    check_measured(&rt, 64, 1515, 0xcf51_7c0b);
    check_measured(&rt, 65, 2252, 0xbecc_0d8b);
    check_measured(&rt, 4_294_967_295, 2990, 0x2f03_bc76);
}

/// Three processes, of which the last statements let 0 and 2 run, and a capability to page 1, whose
/// count in the end is 5.
const LISTING: &str = "coyotos 1
machine 1 2 0 0 3 0
process 2 0 null schedule:3 null run
process 1 4 null schedule:3 null run
process 0 8 null schedule:3 null run
capreg 0 1 page:1@12/0
process 1 c null schedule:3 null stop
count page 1 4
count page 1 5
end
";

/// The listing of that text, in pieces of seven bytes.
fn read_pieces(rt: &impl Abort, alloc: Global) -> Listing {
    let calls = Calls { piece: 7, ..WHOLE };
    let mut source = source_of(rt, alloc, LISTING.as_bytes(), calls, LISTING);
    read_listing(alloc, &mut LineReader::new(), &mut source).expect(rt, LISTING)
}

/// The machine of a listing.
fn started(rt: &impl Abort, alloc: Global, listing: &Listing) -> Machine<Plain> {
    assert!(rt; listing.sizes().harts <= 8);
    boot(alloc, listing, Plain::new()).expect(rt, LISTING)
}

/// Whether a machine stands as that text says.
fn stands_as_said(machine: &Machine<Plain>) -> bool {
    let objects = machine.objects();
    let queues = machine.queues();
    objects.sizes().processes == 3
        && objects.process(0).capreg(1).count() == 5
        && objects.process(1).pc() == 12
        && matches!(objects.process(1).state(), State::Faulted { .. })
        && queues.ready_at(3, 0) == Some(0)
        && queues.ready_at(3, 1) == Some(2)
        && queues.ready_at(3, 2).is_none()
}

#[test]
fn a_machine_starts_as_its_listing_says(rt: HostRuntime) {
    let listing = read_pieces(&rt, rt.alloc());
    let machine = started(&rt, rt.alloc(), &listing);
    check(&rt, stands_as_said(&machine), LISTING);
}

#[test]
fn a_listing_is_made_statement_by_statement(rt: HostRuntime) {
    let sizes = Sizes {
        harts: 1,
        pages: 0,
        cappages: 0,
        gpts: 0,
        processes: 1,
        endpoints: 0,
    };
    let register = Statement::Reg {
        number: 0,
        index: 5,
        value: 7,
    };
    let what = "a register that is set";
    let mut listing = Listing::new(rt.alloc(), sizes);
    listing.push(register).expect(&rt, what);
    let machine = started(&rt, rt.alloc(), &listing);
    let objects = machine.objects();
    let stands = objects.sizes().processes == 1 && objects.process(0).reg(5) == 7;
    check(&rt, stands, what);
}
