//! The parts of objects that have a line each: rows, slots and registers.
ghost use Rattle.std.specs.Prelude.{◌≡◌, ◌≤◌, ◌<◌, ◌+◌, ◌*◌, ◌++◌, length, OnOk};
ghost use Rattle.cap_format.specs.declared.kind.CapKind.TheVariants.{Page, CapPage, Gpt, Process};
ghost use Rattle.cap_format.specs.Capability.{bare};
ghost use Rattle.gpt_objects.specs.Gpt.{slot_of};
ghost use Rattle.page_store.specs.Page.{bytes_at};
ghost use Rattle.page_store.specs.CapPage.{cap_at};
ghost use Rattle.process_objects.specs.Process.{reg_of, capreg_of};
ghost use Rattle.object_store.specs.Store.{size_of, gpt_at, page_at, cappage_at, process_at};
ghost use Rattle.object_store.specs.Meaning.{map_of, state_map};
ghost use Rattle.run_text.specs.Objects.{row_text, owner, parts_in, part_text, parts_text, reads};
ghost use Rattle.coy_io.specs.Written.{WroteTo};

use crate::statements::{push_register, push_row, push_slot};
use cap_format::Cap;
use coy_io::{Sink, WriteFault, put_bytes};
use coy_text::LineBuf;
use object_store::Objects;
use std::sync::ledger::Ledger;
use steps::Steps;

/// What has a line of its own in an object, unless it is empty.
#[derive(Clone, Copy)]
pub(crate) enum Part {
    /// Sixteen bytes of a page.
    Row,
    /// A slot of a capability page.
    PageSlot,
    /// A slot of a GPT.
    GptSlot,
    /// A register of a process.
    Register,
    /// A capability register of a process.
    CapRegister,
}

/// How many of these an object has.
fn parts_in(part: Part) -> u16
    ensures { result ≡ parts_in part }
{
    match part {
        Part::Row | Part::PageSlot => 256,
        Part::GptSlot => 16,
        Part::Register | Part::CapRegister => 32,
    }
}

/// Writes the lines of all such parts of an object. Each slot of a GPT is read once.
pub(crate) fn put_parts<K: Sink, L: Ledger>(
    objects: &Objects,
    part: Part,
    n: u16,
    line: &mut LineBuf,
    output: &mut K,
    fetches: &mut Steps<L>,
) -> Result<(), WriteFault>
    requires { n < size_of objects.now.items (owner part) }
    ensures wrote { WroteTo K.taken K.faults output.old output.new result
        (parts_text (state_map objects.now) part n) }
    ensures counted { OnOk result (fetches.new ≡ fetches.old + reads part * parts_in part) }
    ensures most { fetches.new ≤ fetches.old + reads part * parts_in part }
{
    'each: for i in 0..parts_in(part) {
        put_part(objects, part, n, i as u8, line, output, fetches)?;
    }
    Ok(())
}

/// Writes the line of a part, if it has one.
fn put_part<K: Sink, L: Ledger>(
    objects: &Objects,
    part: Part,
    n: u16,
    i: u8,
    line: &mut LineBuf,
    output: &mut K,
    fetches: &mut Steps<L>,
) -> Result<(), WriteFault>
    requires there { n < size_of objects.now.items (owner part) }
    requires part { i < parts_in part }
    ensures wrote { WroteTo K.taken K.faults output.old output.new result
        (part_text (state_map objects.now) part n i) }
    ensures counted { fetches.new ≡ fetches.old + reads part }
{
    make_part(objects, part, n, i, line, fetches);
    put_bytes(line.as_bytes(), output)
}

/// Makes the line of a part, which is empty where the part is.
#[tactic(auto, unfolding(crate::specs::Objects::part_text))]
fn make_part<L: Ledger>(
    objects: &Objects,
    part: Part,
    n: u16,
    i: u8,
    line: &mut LineBuf,
    fetches: &mut Steps<L>,
)
    requires there { n < size_of objects.now.items (owner part) }
    requires part { i < parts_in part }
    ensures text { line.new ≡ part_text (state_map objects.now) part n i }
    ensures counted { fetches.new ≡ fetches.old + reads part }
{
    line.clear();
    match part {
        Part::Row => push_row_of(line, objects, n, i),
        Part::PageSlot => push_slot(line, "cap", n, i, cap_in_page(objects, n, i)),
        Part::GptSlot => push_slot(line, "slot", n, i, cap_in_gpt(objects, n, i, fetches)),
        Part::Register => push_register(line, n, i, register(objects, n, i)),
        Part::CapRegister => push_slot(line, "capreg", n, i, cap_in_register(objects, n, i)),
    }
}

/// Appends row `i` of a page, unless all its bytes are 0.
fn push_row_of(line: &mut LineBuf, objects: &Objects, n: u16, i: u8)
    requires room { length line.old ≤ 100 }
    requires there { n < size_of objects.now.items Page }
    ensures { line.new ≡ line.old ++
        row_text n (16 * i) (bytes_at (page_at objects.now n) (16 * i) 16) }
{
    let at = 16 * i as u16;
    let mut bytes = [0; 16];
    objects.page(n).read(at, &mut bytes);
    push_row(line, n, at, &bytes);
}

/// What a slot of a capability page means.
#[tactic(auto, using(crate::proofs::Meanings::cap_means))]
fn cap_in_page(objects: &Objects, n: u16, slot: u8) -> Cap
    requires { n < size_of objects.now.items CapPage }
    ensures { bare result ≡ cap_at (cappage_at (state_map objects.now) n) slot }
{
    objects.live(objects.cappage(n).get(slot))
}

/// What a slot of a GPT means.
#[tactic(auto, using(crate::proofs::Meanings::slot_means))]
fn cap_in_gpt<L: Ledger>(objects: &Objects, n: u16, slot: u8, fetches: &mut Steps<L>) -> Cap
    requires there { n < size_of objects.now.items Gpt }
    requires slot { slot < 16 }
    ensures value { bare result ≡ slot_of (gpt_at (map_of objects.now.items) n) slot }
    ensures counted { fetches.new ≡ fetches.old + 1 }
{
    objects.live(objects.gpt_slot(n, slot, fetches))
}

/// A register of a process.
#[tactic(auto, using(crate::proofs::Meanings::process_means))]
fn register(objects: &Objects, n: u16, i: u8) -> u32
    requires there { n < size_of objects.now.items Process }
    requires register { i ≤ 31 }
    ensures { result ≡ reg_of (process_at (state_map objects.now) n) i }
{
    objects.process(n).reg(i)
}

/// What a capability register of a process means.
#[tactic(auto, using(crate::proofs::Meanings::register_means))]
fn cap_in_register(objects: &Objects, n: u16, i: u8) -> Cap
    requires there { n < size_of objects.now.items Process }
    requires register { i ≤ 31 }
    ensures { bare result ≡ capreg_of (process_at (state_map objects.now) n) i }
{
    objects.live(objects.process(n).capreg(i))
}
