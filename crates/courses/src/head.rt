//! The listing of an input.
ghost use Rattle.std.specs.Prelude.{◌≡◌, ◌+◌, false, IfOk, IfErr, OnOk};
ghost use Rattle.coy_io.specs.Reader.{TellsEnd, ahead, new_reader};
ghost use Rattle.listing_read.specs.declared.place.Place.TheVariants.{Header};
ghost use Rattle.listing_read.specs.Listing.{IsListed};
ghost use Rattle.listing_read.specs.Reads.{GivesListing};
ghost use Rattle.courses.specs.Head.{EndsUnlisted};
ghost use Rattle.courses.specs.Wanting.{StandsAtListing};

use crate::ending::conclude;
use crate::exit::Exit;
use crate::stopped::listing_exit;
use coy_io::{LineReader, Sink, Source};
use listing_read::{Listing, read_listing};
use std::alloc::Global;

/// Reads the listing of an input. Where there is none, its refusal is told, and the call ends with the exit that is
/// answered. The reader is new; afterwards it stands behind the line `end`.
pub fn read_head<S: Source, K: Sink>(
    alloc: Global,
    lines: &mut LineReader,
    input: &mut S,
    output: &mut K,
) -> Result<Listing, Exit>
    requires { lines.old ≡ new_reader }

    // The listing, and what was given of the lines.
    ensures listed { let old = ahead lines.old (S.held input.old) in
        let new = ahead lines.new (S.held input.new) in
        IfOk result (λ listing. IsListed Header (lines.old.number + 1) old listing lines.new.number new) }
    ensures given { IfOk result (λ listing. lines.new.ended ≡ false →
        GivesListing lines.old lines.new (S.held input.old) (S.held input.new) listing) }
    ensures reader { OnOk result (lines.new.failed ≡ false) }
    ensures told { OnOk result (TellsEnd lines.new (S.held input.new)) }
    ensures standing { OnOk result (StandsAtListing (S.held input.old) (S.held input.new)) }
    ensures silent { OnOk result (output.new ≡ output.old) }
    ensures quiet { OnOk result (S.faults input.new ≡ S.faults input.old) }

    // How a call ends that has no listing.
    ensures ended { IfErr result (λ exit. EndsUnlisted S.held S.faults K.taken K.faults
        input.old input.new output.old output.new exit) }
    ensures wanting { IfErr result (λ exit. exit ≡ Exit.OutOfMemory →
        StandsAtListing (S.held input.old) (S.held input.new)) }
{
    match read_listing(alloc, lines, input) {
        Ok(listing) => Ok(listing),
        Err(fault) => Err(conclude(listing_exit(fault), output)),
    }
}
