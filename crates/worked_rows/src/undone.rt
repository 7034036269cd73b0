//! The inputs of whole machines, undone event by event to their start, and their listings by way of an image.
use crate::rows::{Answer, WHOLE, ask, check, listing_of};
use std::alloc::Global;
use std::process::Abort;
use std::sync::ledger::Ledger;
use steps::Steps;

/// Whether behind its first line a text is this state. Where the most events were undone that are remembered, the
/// state may be a later one.
fn tells_state(text: &str, state: &str) -> bool {
    match text.split_once('\n') {
        Some((told, rest)) => told == "back 256" || rest == state,
        None => false,
    }
}

/// Whether the run of an input is undone to the start of its listing.
pub(crate) fn is_undone<L: Ledger>(
    rt: &impl Abort,
    alloc: Global,
    input: &str,
    fetches: &mut Steps<L>,
) -> bool {
    let undone = ask(rt, alloc, "back 256", input.as_bytes(), WHOLE, fetches);
    let start = listing_of(input).as_bytes();
    let start = ask(rt, alloc, "run", start, WHOLE, fetches);
    let text = str::from_utf8(undone.text.as_slice()).expect(rt, input);
    let state = str::from_utf8(start.text.as_slice()).expect(rt, input);
    tells_state(text, state)
}

/// What `unpack` answers to the image that `pack` makes of a listing.
fn unpacked<L: Ledger>(
    rt: &impl Abort,
    alloc: Global,
    listing: &str,
    fetches: &mut Steps<L>,
) -> Answer {
    let image = ask(rt, alloc, "pack", listing.as_bytes(), WHOLE, fetches);
    check(rt, image.status == 0, listing);
    ask(rt, alloc, "unpack", image.text.as_slice(), WHOLE, fetches)
}

/// Whether an image is written of an input's listing, whose listing is the migrated text of the input's.
pub(crate) fn is_packed<L: Ledger>(
    rt: &impl Abort,
    alloc: Global,
    input: &str,
    fetches: &mut Steps<L>,
) -> bool {
    let listing = listing_of(input);
    let text = unpacked(rt, alloc, listing, fetches);
    check(rt, text.status == 0, listing);
    let wanted = ask(rt, alloc, "migrate", listing.as_bytes(), WHOLE, fetches);
    text.text.as_slice() == wanted.text.as_slice()
}
