//! What stands in the places of a form.
ghost use Rattle.std.specs.Prelude.{◌≡◌, map};
ghost use Rattle.coyotos_words.specs.Command.{bare_named, process_named, kind_named, access_named, made_of, undone_of};
ghost use Rattle.coyotos_words.specs.Matches.{text_in, access_asked, number_asked, undone_asked};

use crate::command::{Command, RunCommand};
use coy_text::{read_dec, read_hex};
use walk_meaning::Kind;

/// What a form of one word asks for.
pub(crate) fn bare_named(table: &[(&'static str, Command)], word: &str) -> Option<Command>
    ensures { result ≡ bare_named (map (λ e. (e.0.now, e.1)) table.now) word.now }
{
    for entry in table {
        if word == entry.0 {
            return Some(entry.1);
        }
    }
    None
}

/// What `walk` asks for.
pub(crate) fn access_asked(
    process: Option<&str>,
    kind: Option<&str>,
    address: Option<&str>,
) -> Option<Command>
    ensures { result ≡ access_asked (text_in process.entry) (text_in kind.entry)
        (text_in address.entry) }
{
    access(process?, kind?, address?)
}

fn access(process: &str, kind: &str, address: &str) -> Option<Command>
    ensures { result ≡ access_named process.now kind.now address.now }
{
    let process = read_process(process)?;
    let kind = read_kind(kind)?;
    let address = read_hex(address.as_bytes()).ok()?;
    Some(Command::Schedule(RunCommand::Walk {
        process,
        kind,
        address,
    }))
}

fn read_process(word: &str) -> Option<u8>
    ensures { result ≡ process_named word.now }
{
    let number = read_dec(word.as_bytes()).ok()?;
    u8::try_from(number).ok()
}

fn read_kind(word: &str) -> Option<Kind>
    ensures { result ≡ kind_named word.now }
{
    match word {
        "fetch" => Some(Kind::Fetch),
        "load" => Some(Kind::Load),
        "store" => Some(Kind::Store),
        "capload" => Some(Kind::CapLoad),
        "capstore" => Some(Kind::CapStore),
        _ => None,
    }
}

/// What `make` asks for.
pub(crate) fn number_asked(number: Option<&str>, summary: Option<&str>) -> Option<Command>
    ensures { result ≡ number_asked (text_in number.entry) (text_in summary.entry) }
{
    let number = number?;
    match summary {
        None => made(number, false),
        Some(word) if word == "summary" => made(number, true),
        Some(_) => None,
    }
}

fn made(number: &str, summary: bool) -> Option<Command>
    ensures { result ≡ made_of number.now summary }
{
    let number = read_dec(number.as_bytes()).ok()?;
    Some(Command::Make { number, summary })
}

/// What `back` asks for.
pub(crate) fn undone_asked(number: Option<&str>) -> Option<Command>
    ensures { result ≡ undone_asked (text_in number.entry) }
{
    undone(number?)
}

fn undone(number: &str) -> Option<Command>
    ensures { result ≡ undone_of number.now }
{
    let number = read_dec(number.as_bytes()).ok()?;
    Some(Command::Back { number })
}
