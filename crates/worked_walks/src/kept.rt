//! Objects with a translator that is told of every change, so that it stays coherent, and the rows that change them and
//! access them.
ghost use Rattle.std.specs.Prelude.{◌≡◌, ◌<◌, true};
ghost use Rattle.object_store.specs.Meaning.{map_of};
ghost use Rattle.object_store.specs.Ahead.{NoneAhead};
ghost use Rattle.walk_meaning.specs.Walk.{is_data};

use crate::rows::{byte, check, hex, letter, short};
use bitflags::Flags;
use cap_format::{Cap, CapKind, Guard, Restr};
use gpt_objects::GptHeader;
use object_store::{Objects, Sizes};
use std::marker::Model;
use std::process::Abort;
use std::sync::ledger::Ledger;
use steps::Steps;
use walk_engine::{Hit, Translator};
use walk_meaning::{Kind, WalkFault};

/// Three pages and 31 GPTs, for two harts.
pub const SIZES: Sizes = Sizes {
    harts: 2,
    pages: 3,
    cappages: 0,
    gpts: 31,
    processes: 0,
    endpoints: 0,
};

/// Objects, and a translator for two harts.
#[derive(Drop)]
pub struct Kept<T: Translator> {
    objects: Objects,
    translator: T,
}

impl<T: Translator> Model for Kept<T> {
    ghost use Rattle.std.specs.Prelude.{◌≡◌};
    ghost use Rattle.object_store.specs.Store.{Store};
    ghost use Rattle.object_store.specs.Meaning.{map_of};
    ghost use Rattle.object_store.specs.Ahead.{NoneAhead};

    ghost Value = { Store };

    ghost view = { λ k. k.objects };

    ghost invariant = { λ k. T.coherent k.translator (map_of k.objects.items) × (T.harts k.translator ≡ 2) × NoneAhead k.objects };
}

impl<T: Translator> Kept<T> {
    /// These objects, with a translator that is coherent with them.
    pub fn new(objects: Objects, translator: T) -> Kept<T>
        requires coherent { T.coherent translator (map_of objects.items) }
        requires harts { T.harts translator ≡ 2 }
        requires behind { NoneAhead objects }
    {
        Kept {
            objects,
            translator,
        }
    }

    pub fn translator(&self) -> &T
        ensures { T.harts result.now ≡ 2 }
    {
        &self.translator
    }

    /// A GPT has slots of this size.
    fn set_size(&mut self, rt: &impl Abort, gpt: u16, l2v: u8) {
        assert!(rt; gpt < self.objects.sizes().gpts && 12 <= l2v && l2v <= 31);
        let header = GptHeader::new(l2v, false, false);
        let item = self.objects.set_gpt_header(gpt, header);
        self.translator.invalidate(item);
    }

    /// A slot of a GPT holds an object.
    fn set_slot(&mut self, rt: &impl Abort, gpt: u16, i: u8, cap: Cap) {
        assert!(rt; gpt < self.objects.sizes().gpts && i < 16);
        let cap = self.objects.live(cap);
        let item = self.objects.set_gpt_slot(gpt, i, cap);
        self.translator.invalidate(item);
    }

    /// A page is destroyed.
    fn destroy(&mut self, rt: &impl Abort, page: u16) {
        assert!(rt; page < self.objects.sizes().pages);
        match self.objects.destroy(CapKind::Page, page) {
            Ok(item) => self.translator.invalidate(item),
            Err(_) => panic!(rt; "it was destroyed too often"),
        }
    }

    /// An access of a hart.
    fn access<L: Ledger>(
        &mut self,
        hart: u8,
        space: Cap,
        address: u32,
        kind: Kind,
        fetches: &mut Steps<L>,
    ) -> Result<Hit, WalkFault>
        requires hart { hart < 2 }
        requires data { is_data kind ≡ true }
    {
        let objects = &self.objects;
        self.translator
            .translate(objects, hart, space, address, kind, fetches)
    }
}

/// The capability whose type number, object, restrictions, l2g, match and count begin at word `n`.
fn cap_at(rt: &impl Abort, row: &str, n: usize) -> Cap
    requires { n < 100 }
{
    let kind = if byte(rt, row, n) == 1 {
        CapKind::Page
    } else {
        CapKind::Gpt
    };
    let restr = Restr::from_bits_retain(byte(rt, row, n + 2));
    let guard = Guard::new(byte(rt, row, n + 3), hex(rt, row, n + 4)).ok();
    let guard = guard.expect(rt, "a guard");
    let (object, count) = (hex(rt, row, n + 1), hex(rt, row, n + 5));
    Cap::try_new(kind, restr, count, guard, object, 0, 0).expect(rt, "a capability")
}

/// The space that is named at word `n`. `a` is GPT 0, `b` the same through RO, `c` page 1, and `d` the same page after it
/// was destroyed. `e` is GPT 1, and `f` and `g` are GPT 2 behind a guard of 16 with match 0 and 1.
pub fn space(rt: &impl Abort, row: &str, n: usize) -> Cap {
    let words = match letter(row, n) {
        b'a' => "3 0 0 20 0 0",
        b'b' => "3 0 1 20 0 0",
        b'c' => "1 1 0 c 0 0",
        b'd' => "1 1 0 c 0 1",
        b'e' => "3 1 0 20 0 0",
        b'f' => "3 2 0 10 0 0",
        _ => "3 2 0 10 1 0",
    };
    cap_at(rt, words, 0)
}

/// Where the row's access ends: the page that is reached, or f0 (hexadecimal) and the fault.
fn reach<T: Translator, L: Ledger>(
    rt: &impl Abort,
    kept: &mut Kept<T>,
    row: &str,
    kind: Kind,
    fetches: &mut Steps<L>,
) -> u32
    requires { is_data kind ≡ true }
{
    let hart = byte(rt, row, 2);
    assert!(rt; hart < 2);
    let (space, address) = (space(rt, row, 3), hex(rt, row, 4));
    match kept.access(hart, space, address, kind, fetches) {
        Ok(hit) => u32::from(hit.page),
        Err(fault) => 0xf0 + fault.code.number(),
    }
}

/// The row's loads, each of which has to reach.
fn fill<T: Translator, L: Ledger>(
    rt: &impl Abort,
    kept: &mut Kept<T>,
    row: &str,
    fetches: &mut Steps<L>,
) {
    let (hart, space, shift) = (byte(rt, row, 2), space(rt, row, 3), hex(rt, row, 6));
    assert!(rt; hart < 2 && shift < 32);
    for n in hex(rt, row, 4)..=hex(rt, row, 5) {
        let hit = kept.access(hart, space, n << shift, Kind::Load, fetches);
        check(rt, hit.is_ok(), row);
    }
}

/// The row's slots, from the first to the last, hold its capability.
fn tie<T: Translator>(rt: &impl Abort, kept: &mut Kept<T>, row: &str) {
    let (gpt, cap) = (short(rt, row, 2), cap_at(rt, row, 5));
    for i in byte(rt, row, 3)..=byte(rt, row, 4) {
        kept.set_slot(rt, gpt, i, cap);
    }
}

/// Does what the row says, if it says a change or an access, and what that came to. The verb is word 1: `load` and
/// `store` with a hart, a space and an address. `fill` with a hart and a space: loads at the numbers from the first to the
/// last, times two to the power behind them. `zone` with a GPT and the logarithm of the size of its slots. `tie`: from a
/// slot of a GPT up to another all hold the capability of these words. `cut`: a slot of a GPT holds nothing. `destroy`
/// with a page.
pub fn perform<T: Translator, L: Ledger>(
    rt: &impl Abort,
    kept: &mut Kept<T>,
    row: &str,
    fetches: &mut Steps<L>,
) -> Option<u32> {
    match letter(row, 1) {
        b'l' => return Some(reach(rt, kept, row, Kind::Load, fetches)),
        b's' => return Some(reach(rt, kept, row, Kind::Store, fetches)),
        b'f' => fill(rt, kept, row, fetches),
        b't' => tie(rt, kept, row),
        b'z' => kept.set_size(rt, short(rt, row, 2), byte(rt, row, 3)),
        b'c' => kept.set_slot(rt, short(rt, row, 2), byte(rt, row, 3), Cap::null()),
        b'd' => kept.destroy(rt, short(rt, row, 2)),
        _ => {}
    }
    None
}
