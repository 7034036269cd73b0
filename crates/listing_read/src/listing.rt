//! A listing whole.
ghost use Rattle.std.specs.Prelude.{◌≡◌, ◌≢◌, ◌≤◌, ◌<◌, ◌+◌, ◌^◌, ◌∷◌, [], length, true, false, OnOk, OnErr, IfOk, IfErr};
ghost use Rattle.std.specs.List.{All};
ghost use Rattle.coy_text.specs.Words.{words_of};
ghost use Rattle.coy_io.specs.Causes.{Rose};
ghost use Rattle.coy_io.specs.Reader.{ahead, TellsEnd};
ghost use Rattle.object_store.specs.Ranges.{IsWithinLimits};
ghost use Rattle.listing_read.specs.declared.place.Place.TheVariants.{Header};
ghost use Rattle.listing_read.specs.Statement.{IsStatement, IsTyped, saying, silent};
ghost use Rattle.listing_read.specs.Listing.{IsListed, IsCause, is_end};
ghost use Rattle.listing_read.specs.Reads.{ReadsLine, IsStopped, GivesListing, GivesFront, GivesBefore};

use crate::fault::{Fault, ListingFault};
use crate::place::{Place, Said, judge};
use crate::statement::Statement;
use crate::typed::statement_is_typed;
use cap_format::OutOfMemory;
use coy_io::{LineFault, LineReader, Source};
use object_store::Sizes;
use std::alloc::Global;
use std::marker::Model;

/// The sizes of a machine, and what it holds at the start.
#[derive(Drop)]
pub struct Listing {
    sizes: Sizes,
    statements: Vec<Statement>,
}

impl Model for Listing {
    ghost use Rattle.listing_read.specs.Statement.{IsListing, ListingValue};

    ghost Value = { ListingValue };

    ghost view = { λ l. record { sizes = l.sizes; statements = l.statements.items } };

    ghost invariant = { λ l. IsListing (record { sizes = l.sizes; statements = l.statements.items }) };
}

impl Listing {
    /// A listing that says nothing of a machine of these sizes.
    pub fn new(alloc: Global, sizes: Sizes) -> Listing
        requires { IsWithinLimits sizes }
        ensures { result ≡ silent sizes }
    {
        Listing {
            sizes,
            statements: Vec::new(alloc),
        }
    }

    /// Adds a statement behind the others.
    pub fn push(&mut self, statement: Statement) -> Result<(), OutOfMemory>
        requires said { IsStatement self.old.sizes statement }
        requires few { length self.old.statements + 1 < 2 ^ 32 }
        ensures ok { OnOk result (self.new ≡ saying self.old statement) }
        ensures err { OnErr result (self.new ≡ self.old) }
    {
        statement_is_typed(&statement);
        self.statements.push(statement)?;
        Ok(())
    }

    pub fn sizes(&self) -> Sizes
        ensures value { result ≡ self.now.sizes }
        ensures limits { IsWithinLimits result }
    {
        self.sizes
    }

    /// The statements in the order of their lines, fewer than 2^32.
    pub fn statements(&self) -> &[Statement]
        ensures value { result.now ≡ self.now.statements }
        ensures range { All (IsStatement self.now.sizes) self.now.statements }
        ensures typed { All IsTyped self.now.statements }
        ensures few { length self.now.statements < 2 ^ 32 }
    {
        self.statements.as_slice()
    }
}

/// Reads a listing up to its line `end`. The reader is new; afterwards it stands behind that line.
/// Where memory is wanting, it stands behind a line of the listing.
pub fn read_listing<S: Source>(
    alloc: Global,
    lines: &mut LineReader,
    source: &mut S,
) -> Result<Listing, ListingFault>
    requires { lines.old.failed ≡ false }

    // What the lines to come make, where they are known.
    ensures listed { let old = ahead lines.old (S.held source.old) in
        let new = ahead lines.new (S.held source.new) in
        IfOk result (λ listing. IsListed Header (lines.old.number + 1) old listing lines.new.number new) }
    ensures fault { let old = ahead lines.old (S.held source.old) in
        IfErr result (λ fault. IsCause fault Header (lines.old.number + 1) old) }

    // The lines given, and that no byte of others was lost.
    ensures given { IfOk result (λ listing. lines.new.ended ≡ false →
        GivesListing lines.old lines.new (S.held source.old) (S.held source.new) listing) }
    ensures front { result ≡ Err ListingFault.ReadFault →
        GivesFront lines.old lines.new (S.held source.old) (S.held source.new) }

    // The line given last is that of `end`, or memory was wanting in the listing: no line behind it was given.
    ensures last { OnOk result
        (GivesBefore lines.old lines.new (S.held source.old) (S.held source.new)) }
    ensures memory { result ≡ Err ListingFault.OutOfMemory →
        GivesBefore lines.old lines.new (S.held source.old) (S.held source.new) }

    // What happens to the reader and to the source.
    ensures told { TellsEnd lines.old (S.held source.old) → TellsEnd lines.new (S.held source.new) }
    ensures end { OnOk result (is_end (words_of lines.new.line) ≡ true) }
    ensures reader { OnOk result (lines.new.failed ≡ false) }
    ensures read { result ≡ Err ListingFault.ReadFault →
        Rose (S.faults source.old) (S.faults source.new) }
    ensures quiet { result ≢ Err ListingFault.ReadFault →
        S.faults source.new ≡ S.faults source.old }
{
    let mut place = Place::Header;
    let mut statements = Vec::new(alloc);
    'lines: loop {
        let number = next_line(&place, lines, source)?;
        match judge(alloc, &place, lines.line()) {
            Ok(Said::Nothing) => {}
            Ok(Said::Opens(next)) => place = next,
            Ok(Said::Calls(naming)) => place.call(alloc, naming)?,
            Ok(Said::Says(statement)) => {
                statement_is_typed(&statement);
                statements.push(statement)?;
            }
            Ok(Said::Ends(sizes)) => return Ok(Listing { sizes, statements }),
            Err(fault) => return Err(refused(number, fault)),
        }
    }
}

/// Goes on to the next line, which has this place, and answers its number.
#[tactic(auto, using(crate::proofs::Causes::cause_at_end, crate::proofs::Causes::cause_long, crate::proofs::Causes::cause_past, crate::proofs::Causes::cause_read))]
fn next_line<S: Source>(
    place: &Place,
    lines: &mut LineReader,
    source: &mut S,
) -> Result<u32, ListingFault>
    requires { lines.old.failed ≡ false }
    ensures reads { let old = S.held source.old in let new = S.held source.new in
        OnOk result (ReadsLine lines.old lines.new old new) }
    ensures stopped { result ≡ Err ListingFault.ReadFault →
        IsStopped lines.old lines.new (S.held source.old) (S.held source.new) }
    ensures fault { let old = ahead lines.old (S.held source.old) in
        IfErr result (λ fault. IsCause fault place.now (lines.old.number + 1) old) }
    ensures memory { result ≢ Err ListingFault.OutOfMemory }
    ensures told { TellsEnd lines.old (S.held source.old) → TellsEnd lines.new (S.held source.new) }
    ensures number { IfOk result (λ number. number ≡ lines.old.number + 1) }
    ensures bound { IfOk result (λ number. number < 2 ^ 32) }
    ensures shorter { OnOk result (lines.new.room < lines.old.room) }
    ensures reader { OnOk result (lines.new.failed ≡ false) }
    ensures read { result ≡ Err ListingFault.ReadFault →
        Rose (S.faults source.old) (S.faults source.new) }
    ensures quiet { result ≢ Err ListingFault.ReadFault →
        S.faults source.new ≡ S.faults source.old }
{
    let number = lines.number() + 1;
    match lines.next(source) {
        Ok(Some(_)) => Ok(number),
        Ok(None) => Err(refused(number, place.fault_at_end())),
        Err(LineFault::LineTooLong) => Err(refused(number, Fault::LineTooLong)),
        Err(LineFault::TooLong) => Err(ListingFault::TooLong),
        Err(LineFault::ReadFault) => Err(ListingFault::ReadFault),
    }
}

fn refused(line: u32, fault: Fault) -> ListingFault
    ensures { result ≡ ListingFault.Refused line fault }
{
    ListingFault::Refused { line, fault }
}
