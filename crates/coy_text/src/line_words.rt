//! A line that is cut into its words once.
ghost use Rattle.std.specs.Prelude.{◌≡◌, length, drop};
ghost use Rattle.coy_text.specs.Words.{words_of, field};

use crate::words::{next_word, word, word_count, words_from};
use arrayvec::ArrayVec;
use std::marker::Model;

/// The words of a line, which one pass finds. A clause sees the list of them. The first eight are kept, which is more
/// than most lines have, and the others are looked for behind these.
#[derive(Drop)]
pub struct LineWords<'a> {
    line: &'a [u8],
    first: ArrayVec<&'a [u8], 8>,
    rest: &'a [u8],
}

impl<'a> Model for LineWords<'a> {
    ghost use Rattle.std.specs.Prelude.{ℕ, List, ◌≡◌, ◌++◌, map};
    ghost use Rattle.coy_text.specs.Words.{words_of};

    ghost Value = { List (List ℕ) };

    ghost view = { λ w. words_of w.line.now };

    ghost invariant = { λ w. words_of w.line.now
        ≡ map (λ word. word.now) w.first.items ++ words_of w.rest.now };
}

impl<'a> LineWords<'a> {
    /// Cuts a line into its words.
    pub fn of(line: &'a [u8]) -> LineWords<'a>
        ensures { result ≡ words_of line.now }
    {
        let mut first = ArrayVec::new();
        let mut rest = line;
        'words: while !first.is_full() {
            let (word, behind) = next_word(rest);
            if word.is_empty() {
                break;
            }
            first.push(word);
            rest = behind;
        }
        LineWords { line, first, rest }
    }

    /// How many there are.
    #[tactic(auto, using(crate::proofs::Cuts::count_bound))]
    pub fn count(&self) -> usize
        ensures { result ≡ length self.now }
    {
        self.first.len() + word_count(self.rest)
    }

    /// Word `n`, from 0, which is empty where the line has no more.
    pub fn word(&self, n: usize) -> &'a [u8]
        ensures { result.now ≡ field self.now n }
    {
        let first = self.first.as_slice();
        if n < first.len() {
            return first[n];
        }
        word(self.rest, n - first.len())
    }

    /// What follows the first `n` words of the line, which is empty where the line has no more.
    pub fn behind(&self, n: usize) -> &'a [u8]
        ensures { words_of result.now ≡ drop n self.now }
    {
        words_from(self.line, n)
    }
}
