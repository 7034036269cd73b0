//! Moving the bytes of a string from pages to pages.
ghost use Rattle.std.specs.Prelude.{◌≡◌, ◌≤◌, length, take};
ghost use Rattle.object_store.specs.Store.{Store};
ghost use Rattle.object_store.specs.Meaning.{state_map};
ghost use Rattle.object_store.specs.Ahead.{NoneAhead};
ghost use Rattle.object_store.specs.Object.{Stays};
ghost use Rattle.string_move.specs.Move.{ArePieces, size_of_pieces, gathered, scattered, copied, page_names};

use crate::piece::Piece;
use crate::pieces::Pieces;
use crate::scratch::Scratch;
use object_store::Objects;

/// Writes the bytes of `from`, as far as `to` goes, to `to`. All are read before any is written, so the pieces may
/// overlap.
pub fn copy(objects: &mut Objects, from: &Pieces, to: &Pieces, scratch: &mut Scratch)
    requires from_there { ArePieces objects.old.items from.now }
    requires to_there { ArePieces objects.old.items to.now }
    requires enough { size_of_pieces to.now ≤ size_of_pieces from.now }
    requires longest { size_of_pieces to.now ≤ 65536 }
    ensures after { objects.new ≡ copied objects.old from.now to.now }
    ensures items { objects.new.items ≡ objects.old.items }
    ensures harts { objects.new.harts ≡ objects.old.harts }
    ensures stays { Stays (page_names to.now) objects.old objects.new }
    ensures means { state_map objects.new ≡ copied (state_map objects.old) from.now to.now }
    ensures none_ahead { NoneAhead objects.old → NoneAhead objects.new }
{
    carry(objects, from, to, &mut scratch.bytes);
}

/// Does so through `room`, which is as long as the longest string.
fn carry(objects: &mut Objects, from: &Pieces, to: &Pieces, room: &mut [u8])
    requires from_there { ArePieces objects.old.items from.now }
    requires to_there { ArePieces objects.old.items to.now }
    requires enough { size_of_pieces to.now ≤ size_of_pieces from.now }
    requires room { size_of_pieces to.now ≤ length room.old }
    ensures { objects.new ≡ copied objects.old from.now to.now }
{
    let bytes = &mut room[..to.size() as usize];
    gather(objects, from.as_slice(), bytes);
    scatter(objects, to.as_slice(), bytes);
}

/// Fills `room` with the first bytes of these pieces.
fn gather(objects: &Objects, from: &[Piece], room: &mut [u8])
    requires there { ArePieces objects.now.items from.now }
    requires enough { length room.old ≤ size_of_pieces from.now }
    ensures { room.new ≡ take (length room.old) (gathered objects.now from.now) }
{
    let mut filled = 0;
    for piece in from {
        let end = room.len().min(filled + piece.len as usize);
        objects
            .page(piece.page)
            .read(piece.at, &mut room[filled..end]);
        filled = end;
    }
}

/// Writes these bytes to the pieces, in their order.
fn scatter(objects: &mut Objects, to: &[Piece], bytes: &[u8])
    requires there { ArePieces objects.old.items to.now }
    requires enough { size_of_pieces to.now ≤ length bytes.now }
    ensures { objects.new ≡ scattered objects.old to.now bytes.now }
{
    let mut at = 0;
    for piece in to {
        let end = at + piece.len as usize;
        objects
            .page_mut(piece.page)
            .write(piece.at, &bytes[at..end]);
        at = end;
    }
}
