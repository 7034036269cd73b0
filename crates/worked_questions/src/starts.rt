//! A machine, and what is asked of it.

use coy_io::{LineReader, SureSource};
use image_builder::boot;
use kernel_core::Machine;
use listing_read::read_listing;
use std::alloc::Global;
use std::process::Abort;
use walk_engine::Plain;

/// The machine of a listing, at its start.
pub fn machine_of(rt: &impl Abort, alloc: Global, text: &str) -> Machine<Plain> {
    let bytes = text.as_bytes().to_vec(alloc).expect(rt, text);
    let mut source = SureSource { bytes, at: 0 };
    let listing = read_listing(alloc, &mut LineReader::new(), &mut source).expect(rt, text);
    boot(alloc, &listing, Plain::new()).expect(rt, text)
}

/// What stands in front of the row's bars, and the text in them.
pub fn barred<'a>(rt: &impl Abort, row: &'a str) -> (&'a str, &'a str) {
    let (front, rest) = row.split_once(" |").expect(rt, row);
    (front, rest.strip_suffix("|").expect(rt, row))
}
