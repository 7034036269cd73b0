//! Where processes fetched last, by which the next instruction is guessed. Nothing depends on a guess being right.
ghost use Rattle.std.specs.Prelude.{◌≡◌, ◌<◌, ◌%◌, length, replicate, IfOk};
ghost use Rattle.cap_format.specs.declared.kind.CapKind.TheVariants.{Process};
ghost use Rattle.object_store.specs.Store.{size_of};

use cap_format::OutOfMemory;
use machine_state::{Machine, Record, Records};
use map_cache::MapCache;
use std::alloc::Global;
use walk_engine::Hit;
use walk_meaning::Kind;

/// A page that was fetched from, and the page of addresses at which it was.
#[derive(Clone, Copy)]
pub(crate) struct Fetched {
    /// An address divided by 4,096; 2^20 where nothing was fetched yet.
    addresses: u32,
    page: u16,
    /// The pc at which an instruction last was none that changes its process alone, though it seemed to be one: a fault that
    /// waits is met there again and again. 1 where there was none.
    stumbled: u32,
}

/// For so many processes, of which none fetched yet.
pub(crate) fn nothing_fetched(alloc: Global, processes: u16) -> Result<Vec<Fetched>, OutOfMemory>
    ensures { IfOk result (λ fetched. fetched.items
        ≡ replicate processes (record { addresses = 1048576; page = 0; stumbled = 1 })) }
{
    let mut fetched = Vec::new(alloc);
    for _ in 0..processes {
        fetched.push(Fetched {
            addresses: 1_048_576,
            page: 0,
            stumbled: 1,
        })?;
    }
    Ok(fetched)
}

/// Whether the next instruction of a process seems to be none that calls the kernel, by the word that stands where it
/// fetched last.
pub(crate) fn seems_plain(machine: &Machine<MapCache>, p: u16, fetched: &[Fetched]) -> bool
    requires { p < size_of machine.now.objects.items Process }
{
    match fetched.get(p as usize) {
        Some(last) => {
            let pc = machine.pc(p);
            last.addresses == pc / 4096 && last.stumbled != pc && !is_call(machine, last.page, pc)
        }
        None => false,
    }
}

/// Whether the word in a page at an address, a multiple of 4, is of the instructions that call the kernel.
fn is_call(machine: &Machine<MapCache>, page: u16, pc: u32) -> bool
    requires { pc % 4 ≡ 0 }
{
    if page >= machine.objects().sizes().pages {
        return true;
    }
    let hit = Hit {
        page,
        offset: (pc % 4096) as u16,
    };
    machine.number_at(hit, 4) % 128 == 0x73
}

/// Notes where a process fetched, by the records of its event.
pub(crate) fn note_fetch(fetched: &mut Vec<Fetched>, records: &Records)
    ensures { length fetched.new.items ≡ length fetched.old.items }
{
    if let Some(
        Record::Access {
            process,
            kind: Kind::Fetch,
            address,
            number,
        },
    ) = records.as_slice().first()
    {
        let p = *process as usize;
        if p < fetched.len() {
            fetched[p] = Fetched {
                addresses: *address / 4096,
                page: *number,
                stumbled: fetched[p].stumbled,
            };
        }
    }
}

/// Notes where the instruction of a process was none that it seemed to be.
pub(crate) fn note_stumble(fetched: &mut Vec<Fetched>, p: u16, pc: u32)
    ensures { length fetched.new.items ≡ length fetched.old.items }
{
    let p = p as usize;
    if p < fetched.len() {
        fetched[p].stumbled = pc;
    }
}
