//! What the words that `clap` took ask for.
ghost use Rattle.std.specs.Prelude.{◌≡◌};
ghost use Rattle.clap.specs.Words.{first_of, rows_of, found_of, subcommand_rows_of};
ghost use Rattle.coyotos_words.specs.Matches.{text_in, asked, walk_asked, make_asked, back_asked};

use crate::command::{BARE_COMMANDS, Command};
use crate::places::{access_asked, bare_named, number_asked, undone_asked};
use clap::ArgMatches;

/// What the form that was entered asks for, by its places.
pub(crate) fn asked(matches: &ArgMatches<'_>) -> Option<Command>
    ensures { result ≡ asked (subcommand_rows_of matches.now) }
{
    let (word, places) = matches.subcommand()?;
    if word == "walk" {
        return walk_asked(places);
    }
    if word == "make" {
        return make_asked(places);
    }
    if word == "back" {
        return back_asked(places);
    }
    bare_named(&BARE_COMMANDS, word)
}

fn walk_asked(places: &ArgMatches<'_>) -> Option<Command>
    ensures { result ≡ walk_asked (rows_of (found_of places.now)) }
{
    access_asked(
        found(places, "process"),
        found(places, "kind"),
        found(places, "address"),
    )
}

fn make_asked(places: &ArgMatches<'_>) -> Option<Command>
    ensures { result ≡ make_asked (rows_of (found_of places.now)) }
{
    number_asked(found(places, "number"), found(places, "summary"))
}

fn back_asked(places: &ArgMatches<'_>) -> Option<Command>
    ensures { result ≡ back_asked (rows_of (found_of places.now)) }
{
    undone_asked(found(places, "number"))
}

/// The word in a place, as it was given.
#[tactic(auto, using(crate::proofs::Rows::first_value_rows))]
fn found<'a>(places: &ArgMatches<'a>, id: &str) -> Option<&'a str>
    ensures { text_in result ≡ first_of id.now (rows_of (found_of places.now)) }
{
    places.get_str(id)
}
