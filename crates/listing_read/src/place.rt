//! What a line says in its place.
ghost use Rattle.std.specs.Prelude.{◌≡◌, true, bytes_eq, codes, IfOk, OnOk, IfSome};
ghost use Rattle.coy_text.specs.Words.{words_of, field};
ghost use Rattle.object_store.specs.Ranges.{IsWithinLimits};
ghost use Rattle.listing_read.specs.declared.place.Place.TheVariants.{Header, Machine, Statements};
ghost use Rattle.listing_read.specs.Machine.{version_named, version_of, machine_of};
ghost use Rattle.listing_read.specs.Listing.{header_line, machine_line, end_line, says_line, calls_line, stating_line, further_line, judged, fault_at_end, place_with, EndsAt, IsPlace, IsSaid};

use crate::fault::Fault;
use crate::fields::has_words;
use crate::names::{Names, Naming};
use crate::statement::Statement;
use crate::statements::{naming, statement};
use crate::terms::{Terms, Version};
use cap_format::{CAPPAGES, ENDPOINTS, GPTS, HARTS, PAGES, PROCESSES};
use cap_words::number_to;
use coy_text::{LineWords, is_skipped, is_visible};
use object_store::Sizes;
use std::alloc::{AllocError, Global};

/// What the next line that is not skipped has to be.
#[derive(Drop)]
pub enum Place {
    /// The first.
    Header,
    /// The second, of a listing of this version.
    Machine(Version),
    /// A statement or the end, judged by these terms.
    Statements(Terms),
}

/// What a line says.
#[derive(Drop)]
pub enum Said {
    /// It is skipped.
    Nothing,
    /// The next place.
    Opens(Place),
    /// A name for an object.
    Calls(Naming),
    /// A statement.
    Says(Statement),
    /// The listing ends, of a machine of these sizes.
    Ends(Sizes),
}

impl Place {
    /// The fault where the input ends here.
    pub(crate) fn fault_at_end(&self) -> Fault
        ensures { result ≡ fault_at_end self.now }
    {
        match self {
            Place::Header => Fault::BadHeader,
            Place::Machine(_) => Fault::BadMachine,
            Place::Statements(_) => Fault::NoEnd,
        }
    }

    /// Goes on behind a line that gave a name, which stands among the statements.
    pub(crate) fn call(&mut self, alloc: Global, naming: Naming) -> Result<(), AllocError>
        ensures { OnOk result (self.new ≡ place_with naming self.old) }
    {
        match self {
            Place::Statements(terms) => terms.names.push(alloc, naming),
            _ => Ok(()),
        }
    }
}

/// What a line of at most 512 bytes says in its place.
#[tactic(auto, unfolding(crate::specs::Listing::judged))]
pub(crate) fn judge(alloc: Global, place: &Place, line: &[u8]) -> Result<Said, Fault>
    requires { IsPlace place.now }
    ensures value { result ≡ judged place.now line.now }
    ensures range { IfOk result (IsSaid place.now) }
    ensures end { EndsAt result (words_of line.now) }
{
    if !is_visible(line) {
        return Err(Fault::BadByte);
    }
    if is_skipped(line) {
        return Ok(Said::Nothing);
    }
    let words = LineWords::of(line);
    match place {
        Place::Header => header(&words),
        Place::Machine(version) => opened(alloc, *version, &words),
        Place::Statements(terms) => further(terms, &words),
    }
}

#[tactic(auto, unfolding(crate::specs::Listing::header_line))]
fn header(words: &LineWords<'_>) -> Result<Said, Fault>
    ensures value { result ≡ header_line words.now }
    ensures range { IfOk result (IsSaid Header) }
    ensures end { EndsAt result words.now }
{
    match version(words) {
        Some(version) => Ok(Said::Opens(Place::Machine(version))),
        None => Err(Fault::BadHeader),
    }
}

/// The version that the first line names.
#[tactic(auto, unfolding(crate::specs::Machine::version_of))]
fn version(words: &LineWords<'_>) -> Option<Version>
    ensures { result ≡ version_of words.now }
{
    if words.count() != 2 || words.word(0) != b"coyotos".as_slice() {
        return None;
    }
    version_named(words.word(1))
}

fn version_named(word: &[u8]) -> Option<Version>
    ensures { result ≡ version_named word.now }
{
    if word == b"1".as_slice() {
        return Some(Version::One);
    }
    if word == b"2".as_slice() {
        return Some(Version::Two);
    }
    None
}

#[tactic(auto, unfolding(crate::specs::Listing::machine_line))]
fn opened(alloc: Global, version: Version, words: &LineWords<'_>) -> Result<Said, Fault>
    ensures value { result ≡ machine_line version words.now }
    ensures range { IfOk result (IsSaid (Machine version)) }
    ensures end { EndsAt result words.now }
{
    match machine_sizes(words) {
        Some(sizes) => Ok(Said::Opens(Place::Statements(Terms {
            version,
            sizes,
            names: Names::new(alloc),
        }))),
        None => Err(Fault::BadMachine),
    }
}

/// The sizes that the line `machine` gives, where they are within the limits.
#[tactic(auto, unfolding(crate::specs::Machine::machine_of))]
fn machine_sizes(words: &LineWords<'_>) -> Option<Sizes>
    ensures value { result ≡ machine_of words.now }
    ensures range { IfSome result IsWithinLimits }
{
    if words.count() != 7 || words.word(0) != b"machine".as_slice() {
        return None;
    }
    let harts = number_to(u32::from(HARTS), words.word(1))?;
    if harts < 1 {
        return None;
    }
    Some(Sizes {
        harts: harts as u8,
        pages: number_to(u32::from(PAGES), words.word(2))? as u16,
        cappages: number_to(u32::from(CAPPAGES), words.word(3))? as u16,
        gpts: number_to(u32::from(GPTS), words.word(4))? as u16,
        processes: number_to(u32::from(PROCESSES), words.word(5))? as u16,
        endpoints: number_to(u32::from(ENDPOINTS), words.word(6))? as u16,
    })
}

#[tactic(auto, unfolding(crate::specs::Listing::further_line))]
fn further(terms: &Terms, words: &LineWords<'_>) -> Result<Said, Fault>
    requires { IsWithinLimits terms.now.sizes }
    ensures value { result ≡ further_line terms.now words.now }
    ensures range { IfOk result (IsSaid (Statements terms.now)) }
    ensures end { EndsAt result words.now }
{
    if words.word(0) == b"end".as_slice() {
        return ended(terms, words);
    }
    stating(terms, words)
}

#[tactic(auto, unfolding(crate::specs::Listing::stating_line))]
fn stating(terms: &Terms, words: &LineWords<'_>) -> Result<Said, Fault>
    requires { IsWithinLimits terms.now.sizes }
    ensures value { result ≡ stating_line terms.now words.now }
    ensures range { IfOk result (IsSaid (Statements terms.now)) }
    ensures end { EndsAt result words.now }
{
    if terms.version.has_names() && words.word(0) == b"name".as_slice() {
        return naming_said(terms, words);
    }
    stated(terms, words)
}

#[tactic(auto, unfolding(crate::specs::Listing::calls_line))]
fn naming_said(terms: &Terms, words: &LineWords<'_>) -> Result<Said, Fault>
    ensures value { result ≡ calls_line terms.now words.now }
    ensures range { IfOk result (IsSaid (Statements terms.now)) }
    ensures end { EndsAt result words.now }
{
    Ok(Said::Calls(naming(terms, words)?))
}

#[tactic(auto, unfolding(crate::specs::Listing::end_line))]
fn ended(terms: &Terms, words: &LineWords<'_>) -> Result<Said, Fault>
    requires { bytes_eq (field words.now 0) (codes "end") ≡ true }
    ensures value { result ≡ end_line terms.now words.now }
    ensures range { IfOk result (IsSaid (Statements terms.now)) }
    ensures end { EndsAt result words.now }
{
    has_words(words, 1)?;
    Ok(Said::Ends(terms.sizes))
}

#[tactic(auto, unfolding(crate::specs::Listing::says_line))]
fn stated(terms: &Terms, words: &LineWords<'_>) -> Result<Said, Fault>
    requires { IsWithinLimits terms.now.sizes }
    ensures value { result ≡ says_line terms.now words.now }
    ensures range { IfOk result (IsSaid (Statements terms.now)) }
    ensures end { EndsAt result words.now }
{
    Ok(Said::Says(statement(terms, words)?))
}
