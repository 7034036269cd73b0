//! Bytes in pages: those that move with a message, and those that go to the kernel's log.
ghost use Rattle.std.specs.Prelude.{◌≡◌, ◌≤◌, ◌+◌, ◌++◌, length};
ghost use Rattle.string_move.specs.Move.{IsPiece, ArePieces, size_of_pieces, piece_bytes, gathered, copied, page_names};
ghost use Rattle.machine_state.specs.State.{state_of};
ghost use Rattle.machine_state.specs.Setters.{set_store};
ghost use Rattle.machine_state.specs.Came.{Leaves};

use crate::log_bytes::LogBytes;
use crate::machine::Machine;
use string_move::{Piece, Pieces, copy};
use walk_engine::Translator;

impl<T: Translator> Machine<T> {
    /// Writes the bytes of `from`, as far as `to` goes, to `to`. All are read before any is written.
    pub fn move_string(&mut self, from: &Pieces, to: &Pieces)
        requires from_there { ArePieces self.old.objects.items from.now }
        requires to_there { ArePieces self.old.objects.items to.now }
        requires enough { size_of_pieces to.now ≤ size_of_pieces from.now }
        requires longest { size_of_pieces to.now ≤ 65536 }
        ensures state { let s = state_of self.old in
            state_of self.new ≡ set_store s (copied s.store from.now to.now) }
        ensures leaves { Leaves (page_names to.now) self.old self.new }
        ensures processes { self.new.objects.contents.processes ≡
            self.old.objects.contents.processes }
        ensures queues { self.new.queues ≡ self.old.queues }
        ensures translator { self.new.translator ≡ self.old.translator }
    {
        copy(&mut self.objects, from, to, &mut self.scratch);
    }

    /// The bytes of pieces that have at most 256 together.
    pub fn log_bytes(&self, pieces: &Pieces) -> LogBytes
        requires there { ArePieces self.now.objects.items pieces.now }
        requires most { size_of_pieces pieces.now ≤ 256 }
        ensures { result ≡ gathered (state_of self.now).store pieces.now }
    {
        let mut bytes = LogBytes::new();
        for piece in pieces.as_slice() {
            self.append_piece(*piece, &mut bytes);
        }
        bytes
    }

    /// Appends the bytes of a piece.
    fn append_piece(&self, piece: Piece, bytes: &mut LogBytes)
        requires there { IsPiece self.now.objects.items piece }
        requires room { length bytes.old + piece.len ≤ 256 }
        ensures value { bytes.new ≡ bytes.old ++ piece_bytes (state_of self.now).store piece }
        ensures size { length bytes.new ≡ length bytes.old + piece.len }
    {
        let mut room = [0; 256];
        let part = &mut room[..piece.len as usize];
        self.objects.page(piece.page).read(piece.at, part);
        bytes.append(part);
    }
}
