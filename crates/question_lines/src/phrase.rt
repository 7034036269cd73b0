//! Words of a line that stand together.
ghost use Rattle.std.specs.Prelude.{◌≡◌, ◌≤◌, suc, length, take, drop};
ghost use Rattle.coy_text.specs.Words.{words_of, field};
ghost use Rattle.question_lines.specs.Parts.{before};

use coy_text::{word, word_count, words_from};
use std::marker::Model;

/// The first words of a text, as many as stand together. A clause sees the list of them.
#[derive(Drop)]
pub struct Phrase<'a> {
    text: &'a [u8],
    count: usize,
}

impl<'a> Model for Phrase<'a> {
    ghost use Rattle.std.specs.Prelude.{List, ℕ, ◌≤◌, length, take};
    ghost use Rattle.coy_text.specs.Words.{words_of};

    ghost Value = { List (List ℕ) };

    ghost view = { λ p. take p.count (words_of p.text.now) };

    ghost invariant = { λ p. p.count ≤ length (words_of p.text.now) };
}

impl<'a> Phrase<'a> {
    /// All words of a text.
    pub(crate) fn of(text: &'a [u8]) -> Phrase<'a>
        ensures { result ≡ words_of text.now }
    {
        Phrase {
            text,
            count: word_count(text),
        }
    }

    /// How many there are.
    pub(crate) fn count(&self) -> usize
        ensures { result ≡ length self.now }
    {
        self.count
    }

    /// Word `n`, from 0, which is empty where there are no more.
    pub(crate) fn word(&self, n: usize) -> &'a [u8]
        ensures { result.now ≡ field self.now n }
    {
        if n < self.count {
            return word(self.text, n);
        }
        &[]
    }

    /// The first `n` words.
    pub(crate) fn first(&self, n: usize) -> Phrase<'a>
        requires { n ≤ length self.now }
        ensures { result ≡ take n self.now }
    {
        Phrase {
            text: self.text,
            count: n,
        }
    }

    /// The words behind the first `n`.
    pub(crate) fn behind(&self, n: usize) -> Phrase<'a>
        requires { n ≤ length self.now }
        ensures { result ≡ drop n self.now }
    {
        Phrase {
            text: words_from(self.text, n),
            count: self.count - n,
        }
    }

    /// The words behind the first that is this one, none where there is none.
    pub(crate) fn behind_word(&self, separator: &[u8]) -> Phrase<'a>
        ensures { result ≡ drop (suc (before separator.now self.now)) self.now }
    {
        let before = self.before(separator);
        if before == self.count() {
            return self.behind(before);
        }
        self.behind(before + 1)
    }

    /// How many words stand before the first that is this one.
    pub(crate) fn before(&self, separator: &[u8]) -> usize
        ensures value { result ≡ before separator.now self.now }
        ensures most { result ≤ length self.now }
    {
        let count = self.count();
        'words: for i in 0..count {
            if self.word(i) == separator {
                return i;
            }
        }
        count
    }
}
