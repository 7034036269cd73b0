//! Names that stand for numbers of objects.
ghost use Rattle.std.specs.Prelude.{◌≡◌, ◌≤◌, true, Some, option_map, length};
ghost use Rattle.std.specs.List.{list_all};
ghost use Rattle.cap_words.specs.Name.{is_small, is_name_byte, is_name, name_of, called};

use arrayvec::ArrayVec;
use std::marker::Model;

/// A name: a lower-case letter and then at most 15 lower-case letters, digits or `_`. A clause sees its bytes.
#[derive(Drop)]
pub struct Name {
    letters: ArrayVec<u8, 16>,
}

impl Model for Name {
    ghost use Rattle.std.specs.Prelude.{List, ℕ};

    ghost Value = { List ℕ };

    ghost view = { λ n. n.letters.items };
}

impl Name {
    pub fn as_slice(&self) -> &[u8]
        ensures { result.now ≡ self.now }
    {
        self.letters.as_slice()
    }
}

/// The name that a word is. `None` where it is none.
#[tactic(auto, unfolding(crate::specs::Name::name_of))]
pub fn read_name(word: &[u8]) -> Option<Name>
    ensures { result ≡ name_of word.now }
{
    if !is_name(word) {
        return None;
    }
    letters_of(word)
}

/// The name of these letters. `None` where they are more than a name has.
fn letters_of(word: &[u8]) -> Option<Name>
    ensures few { length word.now ≤ 16 → result ≡ Some word.now }
{
    let mut letters = ArrayVec::new();
    match letters.try_extend_from_slice(word) {
        Ok(()) => Some(Name { letters }),
        Err(_) => None,
    }
}

fn is_name(word: &[u8]) -> bool
    ensures value { result ≡ is_name word.now }
    ensures few { result ≡ true → length word.now ≤ 16 }
{
    match word {
        [] => false,
        [first, rest @ ..] => is_small(*first) && rest.len() <= 15 && are_name_bytes(rest),
    }
}

fn is_small(byte: u8) -> bool
    ensures { result ≡ is_small byte }
{
    b'a' <= byte && byte <= b'z'
}

fn are_name_bytes(word: &[u8]) -> bool
    ensures { result ≡ list_all is_name_byte word.now }
{
    word.iter().all(|byte| is_name_byte(*byte))
}

fn is_name_byte(byte: u8) -> bool
    ensures { result ≡ is_name_byte byte }
{
    is_small(byte) || (b'0' <= byte && byte <= b'9') || byte == b'_'
}

/// What stands behind the `$` of a word that begins with one, where there may be names.
pub fn called(names: bool, word: &[u8]) -> Option<&[u8]>
    ensures { option_map (λ name. name.now) result ≡ called names word.now }
{
    match word {
        [b'$', name @ ..] if names => Some(name),
        _ => None,
    }
}
