//! The words of a call.
ghost use Rattle.std.specs.Prelude.{◌≡◌, ◌∷◌, [], drop, map, string_bytes, IfOk, Some};
ghost use Rattle.std.specs.Vec.Iter.{into_iter_items};
ghost use Rattle.program_entry.specs.Words.{given_words};

use std::alloc::{AllocError, Global};
use std::env::Args;
use std::io;
use std::io::ErrorKind;

/// The words behind the program's name, by what the system gave for its arguments. Where one of them is not UTF-8, they
/// are one empty word, which is of no form. An error where there was no memory for them.
pub fn words_of(alloc: Global, args: io::Result<Args>) -> Result<Vec<String>, AllocError>
    ensures { IfOk result (λ words. given_words args ≡ Some (map string_bytes words.items)) }
{
    match args {
        Ok(args) => behind_the_name(alloc, args),
        Err(error) => match error.kind() {
            ErrorKind::OutOfMemory => Err(AllocError),
            _ => one_empty(alloc),
        },
    }
}

/// The arguments but for the first.
fn behind_the_name(alloc: Global, args: Args) -> Result<Vec<String>, AllocError>
    ensures { IfOk result (λ words. words.items ≡ drop 1 (into_iter_items args)) }
{
    let mut args = args;
    let _name = args.next();
    let mut words = Vec::new(alloc);
    'each: loop {
        match args.next() {
            Some(word) => words.push(word)?,
            None => return Ok(words),
        }
    }
}

/// One word, which is empty.
fn one_empty(alloc: Global) -> Result<Vec<String>, AllocError>
    ensures { IfOk result (λ words. map string_bytes words.items ≡ [] ∷ []) }
{
    let mut words = Vec::new(alloc);
    words.push(String::new(alloc))?;
    Ok(words)
}
