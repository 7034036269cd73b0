//! The places of items, by which the records of each are found.

ghost use Rattle.std.specs.Prelude.{◌≡◌, ◌<◌, ◌↔◌, IsTrue};
ghost use Rattle.cap_format.specs.Item.{IsItem};
ghost use Rattle.depend_table.specs.Place.{first_place, place_of};

use cap_format::{CapKind, GPT_SLOTS, GPTS, Item};

/// One place for each header of an object and for each slot of a GPT.
pub const PLACES: usize = 23_040;

/// The first place of the slots, behind all headers.
const FIRST_SLOT: usize = 6_656;

/// Whether there is such an item.
pub fn is_item(item: Item) -> bool
    ensures { IsTrue result ↔ IsItem item }
{
    match item {
        Item::Header(kind, number) => kind.is_object() && u64::from(number) < kind.object_limit(),
        Item::Slot(gpt, slot) => gpt < GPTS && slot < GPT_SLOTS,
    }
}

/// Where the item stands among all items.
pub fn place_of(item: Item) -> usize
    requires { IsItem item }
    ensures place { result ≡ place_of item }
    ensures range { result < PLACES }
{
    match item {
        Item::Header(kind, number) => first_place(kind) + number as usize,
        Item::Slot(gpt, slot) => FIRST_SLOT + gpt as usize * GPT_SLOTS as usize + slot as usize,
    }
}

fn first_place(kind: CapKind) -> usize
    ensures { result ≡ first_place kind }
{
    match kind {
        CapKind::CapPage => 4096,
        CapKind::Gpt => 4352,
        CapKind::Endpoint => 5376,
        CapKind::Process => 6400,
        _ => 0,
    }
}
