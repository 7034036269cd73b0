//! The pieces of a string.
use crate::piece::Piece;
use arrayvec::ArrayVec;
use std::marker::Model;

/// At most 18 pieces, in the order of their addresses.
#[derive(Drop)]
pub struct Pieces {
    list: ArrayVec<Piece, 18>,
}

impl Model for Pieces {
    ghost use Rattle.std.specs.Prelude.{List};
    ghost use Rattle.string_move.specs.declared.piece.Piece.{Piece};

    ghost Value = { List Piece };

    ghost view = { λ p. p.list.items };
}

impl Pieces {
    ghost use Rattle.std.specs.Prelude.{◌≡◌, ◌≤◌, ◌<◌, ◌++◌, ◌∷◌, [], length};
    ghost use Rattle.string_move.specs.Move.{size_of_pieces};

    pub fn new() -> Pieces
        ensures { result ≡ [] }
    {
        Pieces {
            list: ArrayVec::new(),
        }
    }

    pub fn push(&mut self, piece: Piece)
        requires { length self.old < 18 }
        ensures { self.new ≡ self.old ++ piece ∷ [] }
    {
        self.list.push(piece);
    }

    pub fn as_slice(&self) -> &[Piece]
        ensures value { result.now ≡ self.now }
        ensures bound { length self.now ≤ 18 }
    {
        self.list.as_slice()
    }

    /// How many bytes they have together.
    pub fn size(&self) -> u32
        ensures { result ≡ size_of_pieces self.now }
    {
        self.as_slice()
            .iter()
            .map(|piece| u32::from(piece.len))
            .sum()
    }
}
