//! The table of decoded words.
ghost use Rattle.std.specs.Prelude.{◌≡◌, ◌<◌, ◌↔◌, IfOk, IsErr, Some, None};
ghost use Rattle.rv32_decode.specs.InRange.{InRange};
ghost use Rattle.rv32_decode.specs.Table.{insn_at};

use crate::entry::Entry;
use rv32_decode::{Illegal, Insn, decode};
use std::marker::Model;

/// How many words there is room for.
const PLACES: usize = 256;

/// Decodes words, and keeps 256 of them at most with their instructions: each has one place, where the word that came last
/// stands. It takes no memory but its own.
#[derive(Drop)]
pub struct Decoder {
    entries: [Entry; PLACES],
}

impl Model for Decoder {
    ghost use Rattle.std.specs.Prelude.{ℕ};
    ghost use Rattle.std.specs.List.{All};
    ghost use Rattle.decoded_words.specs.Entry.{IsDecoded};

    ghost Value = { ℕ };

    ghost view = { λ d. 0 };

    ghost invariant = { λ d. All IsDecoded d.entries };
}

impl Decoder {
    /// One that keeps the word of ECALL alone.
    pub fn new() -> Decoder
        ensures { result ≡ 0 }
    {
        let ecall = Entry {
            word: 0x0000_0073,
            insn: Insn::Ecall,
        };
        Decoder {
            entries: [ecall; PLACES],
        }
    }

    /// The instruction that a word says, as `rv32_decode::decode` gives it.
    ///
    /// # Errors
    ///
    /// `Illegal` where the word is of no row of the instruction table.
    pub fn decode(&mut self, word: u32) -> Result<Insn, Illegal>
        ensures ok { IfOk result (λ insn. insn_at word ≡ Some insn) }
        ensures illegal { IsErr result ↔ (insn_at word ≡ None) }
        ensures in_range { IfOk result InRange }
    {
        let place = place_of(word);
        let entry = self.entries[place];
        if entry.word == word {
            return Ok(entry.insn);
        }
        let insn = decode(word)?;
        self.entries[place] = Entry { word, insn };
        Ok(insn)
    }
}

/// The place of a word: the highest eight bits of its product with an odd number, in which all its fields take part.
fn place_of(word: u32) -> usize
    ensures { result < 256 }
{
    (word.wrapping_mul(0x9e37_79b1) >> 24) as usize
}
