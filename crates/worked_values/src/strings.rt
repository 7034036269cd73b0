//! Strings: how they are cut at pages, and how their bytes move, worked out by hand.
ghost use Rattle.string_move.specs.Move.{ArePieces};

use crate::rows::{byte, check, check_numbers, hex, letter, short};
use object_store::{Objects, Sizes};
use std::alloc::Global;
use std::process::Abort;
use string_move::{Piece, Pieces, Scratch, Spans, copy, cut};

const SIZES: Sizes = Sizes {
    harts: 1,
    pages: 18,
    cappages: 0,
    gpts: 0,
    processes: 0,
    endpoints: 0,
};

/// The address and the length of a string, into how many spans it is cut, and address and size of the first span and of
/// the last one.
const CUTS: &str = "\
fff 10000 11 fff 1 10000 fff
1000 10000 10 1000 1000 10000 1000
1001 10000 11 1001 fff 11000 1
ffff0000 10000 10 ffff0000 1000 fffff000 1000
ffffffff 1 1 ffffffff 1 ffffffff 1
ffe 2 1 ffe 2 ffe 2
ffe 3 2 ffe 2 1000 1
5 0 0 0 0 0 0 no span";

/// How many spans, and address and size of the first and of the last.
fn ends(spans: &Spans) -> [u32; 5] {
    let spans = spans.as_slice();
    match (spans.first(), spans.last()) {
        (Some(first), Some(last)) => [
            spans.len() as u32,
            first.address,
            u32::from(first.size),
            last.address,
            u32::from(last.size),
        ],
        _ => [0; 5],
    }
}

/// The row's string is cut as the row says.
fn check_cut(rt: &impl Abort, row: &str) {
    let (at, size) = (hex(rt, row, 0), hex(rt, row, 1));
    assert!(rt; size <= 65536 && u64::from(at) + u64::from(size) <= 1 << 32);
    check_numbers(rt, &ends(&cut(at, size)), row, 2);
}

#[test]
fn a_string_is_cut_at_each_page(rt: HostRuntime) {
    for row in CUTS.lines() {
        check_cut(&rt, row);
    }
}

/// One piece more, of a page that is there.
fn add(rt: &impl Abort, objects: &Objects, pieces: &mut Pieces, piece: Piece)
    requires { ArePieces objects.now.items pieces.old }
    ensures { ArePieces objects.now.items pieces.new }
{
    assert!(rt; piece.page < objects.sizes().pages);
    assert!(rt; u32::from(piece.at) + u32::from(piece.len) <= 4096);
    assert!(rt; pieces.as_slice().len() < 18);
    pieces.push(piece);
}

/// What is done to pages and seen of them, a row after the other. `put`: a page, an offset, and the byte that is
/// written there. `move`: between bars the pieces that are moved and those to which they are, page, offset and length
/// of each. `see`: a page, an offset, and the eight bytes that are there.
///
/// Each page gets its number and 1 as its first byte, and its number and 80 (hexadecimal) as its last. The longest
/// string from the last byte of page 0 on, 17 pieces, moves up by one page. Then page 3 begins with 1 2 3 4 5 6 7 8.
const ROWS: &str = "\
put 0 0 1
put 0 fff 80
put 1 0 2
put 1 fff 81
put 2 0 3
put 2 fff 82
put 3 0 4
put 3 fff 83
put 4 0 5
put 4 fff 84
put 5 0 6
put 5 fff 85
put 6 0 7
put 6 fff 86
put 7 0 8
put 7 fff 87
put 8 0 9
put 8 fff 88
put 9 0 a
put 9 fff 89
put a 0 b
put a fff 8a
put b 0 c
put b fff 8b
put c 0 d
put c fff 8c
put d 0 e
put d fff 8d
put e 0 f
put e fff 8e
put f 0 10
put f fff 8f
put 10 0 11
put 10 fff 90
put 11 0 12
put 11 fff 91
move|0 fff 1,1 0 1000,2 0 1000,3 0 1000,4 0 1000,5 0 1000,6 0 1000,7 0 1000,\
8 0 1000,9 0 1000,a 0 1000,b 0 1000,c 0 1000,d 0 1000,e 0 1000,f 0 1000,10 0 fff|\
1 fff 1,2 0 1000,3 0 1000,4 0 1000,5 0 1000,6 0 1000,7 0 1000,\
8 0 1000,9 0 1000,a 0 1000,b 0 1000,c 0 1000,d 0 1000,e 0 1000,f 0 1000,10 0 1000,11 0 fff|
see 0 0 1 0 0 0 0 0 0 0
see 0 ff8 0 0 0 0 0 0 0 80 it isn't written
see 1 0 2 0 0 0 0 0 0 0
see 1 ff8 0 0 0 0 0 0 0 80 its last byte is the string's first
see 2 0 2 0 0 0 0 0 0 0
see 2 ff8 0 0 0 0 0 0 0 81
see 3 0 3 0 0 0 0 0 0 0
see 3 ff8 0 0 0 0 0 0 0 82
see f 0 f 0 0 0 0 0 0 0
see f ff8 0 0 0 0 0 0 0 8e
see 10 0 10 0 0 0 0 0 0 0
see 10 ff8 0 0 0 0 0 0 0 8f
see 11 0 11 0 0 0 0 0 0 0
see 11 ff8 0 0 0 0 0 0 0 91 the string ends before its last byte
put 3 0 1
put 3 1 2
put 3 2 3
put 3 3 4
put 3 4 5
put 3 5 6
put 3 6 7
put 3 7 8
move|3 0 6|3 2 6| a move byte by byte would repeat the first two
see 3 0 1 2 1 2 3 4 5 6
see 4 4 0 0 0 0 0 0 0 0
move|3 0 4,3 4 4|3 4 4,3 0 4| a move byte by byte, or piece by piece, would lose one of them
see 3 0 3 4 5 6 1 2 1 2
see 4 4 0 0 0 0 0 0 0 0
move|3 0 4,3 4 4|3 1 3,4 7 2| fewer bytes than there are, two of them to another page
see 3 0 3 3 4 5 1 2 1 2
see 4 4 0 0 0 6 1 0 0 0";

/// The pieces of a text, page, offset and length of each, with a comma between any two.
fn pieces(rt: &impl Abort, objects: &Objects, text: &str) -> Pieces
    ensures { ArePieces objects.now.items result }
{
    let mut pieces = Pieces::new();
    for piece in text.split(',') {
        let page = short(rt, piece, 0);
        let (at, len) = (short(rt, piece, 1), short(rt, piece, 2));
        add(rt, objects, &mut pieces, Piece { page, at, len });
    }
    pieces
}

/// Moves the bytes of the pieces of one text to those of another.
fn carry(rt: &impl Abort, alloc: Global, objects: &mut Objects, from: &str, to: &str) {
    let from = pieces(rt, objects, from);
    let to = pieces(rt, objects, to);
    let size = to.size();
    assert!(rt; size <= 65536 && size <= from.size());
    let mut room = Scratch::new(alloc).expect(rt, "memory");
    copy(objects, &from, &to, &mut room);
}

/// Writes the row's byte.
fn put(rt: &impl Abort, objects: &mut Objects, row: &str) {
    let (page, at) = (short(rt, row, 1), short(rt, row, 2));
    assert!(rt; page < objects.sizes().pages && at < 4096);
    objects.page_mut(page).write(at, &[byte(rt, row, 3)]);
}

/// Fails with the row, unless its eight bytes are there.
fn see(rt: &impl Abort, objects: &Objects, row: &str) {
    let (page, at) = (short(rt, row, 1), short(rt, row, 2));
    assert!(rt; page < objects.sizes().pages && at <= 4088);
    let mut bytes = [0; 8];
    objects.page(page).read(at, &mut bytes);
    for (i, found) in bytes.iter().enumerate() {
        check(rt, *found == byte(rt, row, 3 + i), row);
    }
}

/// Does what the row says.
fn perform(rt: &impl Abort, alloc: Global, objects: &mut Objects, row: &str) {
    match letter(row, 0) {
        b'p' => put(rt, objects, row),
        b's' => see(rt, objects, row),
        _ => {
            let (_, pieces) = row.split_once('|').expect(rt, "a bar");
            let (from, rest) = pieces.split_once('|').expect(rt, "a bar");
            let (to, _) = rest.split_once('|').expect(rt, "a bar");
            carry(rt, alloc, objects, from, to);
        }
    }
}

#[test]
fn pieces_that_overlap_are_read_before_any_is_written(rt: HostRuntime) {
    let mut objects = Objects::new(rt.alloc(), SIZES).expect(&rt, "memory");
    for row in ROWS.lines() {
        perform(&rt, rt.alloc(), &mut objects, row);
    }
}
