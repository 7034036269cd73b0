//! Laws: what is written is read again.
//!
//! There is no code here. Each function has a law as its contract.
ghost use Rattle.statement_text.specs.Laws.{CapabilitiesAreRead, StatementsAreRead, TextsAreListed, NothingIsListed, BothAreListed, ListedIsListing, EventsAreRead, MigratedIsRead};

/// The word of a capability is read as that capability, in a machine that has what it names, in either version and
/// whatever names there are. No word shows a count, so the capability that is read has count 0.
pub fn capabilities_are_read()
    ensures { CapabilitiesAreRead }
{}

/// The line of a statement is read as that statement, in each version that may say it, and whatever names there are.
pub fn statements_are_read()
    ensures { StatementsAreRead }
{}

/// Texts that are read as statements say them one behind the other, wherever they stand among the statements of a
/// listing; the two lines in front of them and the line `end` behind them make their listing.
pub fn texts_are_listed()
    ensures nothing { NothingIsListed }
    ensures one { TextsAreListed }
    ensures both { BothAreListed }
    ensures whole { ListedIsListing }
{}

/// The law *Migration*: what is written of a listing and of the events of a schedule is read as the same statements and
/// events, where it has no more bytes than an input may have.
pub fn migrated_is_read()
    ensures events { EventsAreRead }
    ensures listing { MigratedIsRead }
{}
