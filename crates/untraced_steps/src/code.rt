//! Steps of one process in one page of its code, which is held as long as it is kept.
ghost use Rattle.std.specs.Prelude.{◌≡◌, ◌≢◌, ◌<◌, ◌≤◌, ◌/◌, ℕ, [], false, Some, IfSome, replicate};
ghost use Rattle.cap_format.specs.declared.kind.CapKind.TheVariants.{Process};
ghost use Rattle.object_store.specs.Store.{size_of};
ghost use Rattle.schedules.specs.Queues.{hart_of};
ghost use Rattle.machine_state.specs.declared.event.Event.TheVariants.{Step};
ghost use Rattle.machine_state.specs.State.{state_of, space_of};
ghost use Rattle.kernel_core.specs.Event.{event_of};
ghost use Rattle.untraced_steps.specs.KeptSteps.{CameIf, IsCode};
ghost use Rattle.untraced_steps.specs.Untraced.{RanUntraced};

use crate::kept::perform_kept;
use kept_pages::PageTranslator;
use kernel_core::Machine;
use walk_engine::Hit;
use walk_meaning::{Kind, page_law};

/// A page of a process's code.
#[derive(Clone, Copy)]
struct Code {
    /// The number of its addresses divided by 4,096.
    page: u32,
    /// The page in which fetches from it end.
    frame: u16,
}

/// Performs steps of a hart whose accesses are all kept, at most so many, and answers how many.
///
/// It is not inlined, so that its loop and that of its caller each have the registers of the processor to themselves.
#[inline(never)]
pub(crate) fn run_kept<T: PageTranslator>(machine: &mut Machine<T>, hart: u8, limit: u32) -> u32
    requires hart { hart < machine.old.objects.harts }
    ensures most { result ≤ limit }
    ensures ran { (fetches : ℕ) →
        RanUntraced T.kept T.cost T.after T.without (replicate result (Step hart))
        machine.old fetches machine.new [] fetches }
    ensures caches { (k : ℕ) → k ≢ hart →
        T.cache machine.new.translator k ≡ T.cache machine.old.translator k }
{
    if machine.halted() {
        return 0;
    }
    let Some(p) = machine.on_hart(hart) else {
        return 0;
    };
    let Some(code) = find_code(machine, hart, p) else {
        return 0;
    };
    run_page(machine, hart, p, code, limit)
}

/// The page of a process's pc, where it is kept.
fn find_code<T: PageTranslator>(machine: &mut Machine<T>, hart: u8, p: u16) -> Option<Code>
    requires there { p < size_of machine.old.objects.items Process }
    requires hart { hart < machine.old.objects.harts }
    ensures code { let s = state_of machine.old in
        let kept = T.kept machine.old.translator in
        IfSome result (λ code.
        IsCode T.cost T.after kept s.store.items (space_of s p) code.page code.frame) }
    ensures state { state_of machine.new ≡ state_of machine.old }
    ensures kept { T.kept machine.new.translator ≡ T.kept machine.old.translator }
    ensures caches { (k : ℕ) → k ≢ hart →
        T.cache machine.new.translator k ≡ T.cache machine.old.translator k }
{
    page_law();
    machine.objects().in_ranges();
    let _space = machine.space(p).kind();
    let pc = machine.pc(p);
    let hit = machine.access_kept(hart, p, pc, Kind::Fetch)?;
    Some(Code {
        page: pc / 4096,
        frame: hit.page,
    })
}

/// Performs steps of a process in one page of its code whose accesses are all kept, at most so many, and answers how many.
fn run_page<T: PageTranslator>(
    machine: &mut Machine<T>,
    hart: u8,
    p: u16,
    code: Code,
    limit: u32,
) -> u32
    requires there { p < size_of machine.old.objects.items Process }
    requires hart { hart < machine.old.objects.harts }
    requires here { hart_of machine.old.queues hart ≡ Some p }
    requires running { machine.old.halted ≡ false }
    requires code { let s = state_of machine.old in
        let kept = T.kept machine.old.translator in
        IsCode T.cost T.after kept s.store.items (space_of s p) code.page code.frame }
    ensures most { result ≤ limit }
    ensures ran { (fetches : ℕ) →
        RanUntraced T.kept T.cost T.after T.without (replicate result (Step hart))
        machine.old fetches machine.new [] fetches }
    ensures caches { (k : ℕ) → k ≢ hart →
        T.cache machine.new.translator k ≡ T.cache machine.old.translator k }
{
    let mut done = 0;
    'steps: while done < limit {
        let is_kept = step_kept(machine, hart, p, code);
        if !is_kept {
            return done;
        }
        done += 1;
    }
    done
}

/// Performs a step of a process in this page of its code where its accesses are kept, and answers whether it did.
#[inline(always)]
fn step_kept<T: PageTranslator>(machine: &mut Machine<T>, hart: u8, p: u16, code: Code) -> bool
    requires there { p < size_of machine.old.objects.items Process }
    requires hart { hart < machine.old.objects.harts }
    requires here { hart_of machine.old.queues hart ≡ Some p }
    requires running { machine.old.halted ≡ false }
    requires code { let s = state_of machine.old in
        let kept = T.kept machine.old.translator in
        IsCode T.cost T.after kept s.store.items (space_of s p) code.page code.frame }
    ensures came { CameIf T.kept T.cost T.after T.without result p
        (event_of (state_of machine.old) (Step hart)) machine.old machine.new }
    ensures caches { (k : ℕ) → k ≢ hart →
        T.cache machine.new.translator k ≡ T.cache machine.old.translator k }
{
    let pc = machine.pc(p);
    if pc / 4096 != code.page {
        return false;
    }
    let hit = Hit {
        page: code.frame,
        offset: (pc % 4096) as u16,
    };
    let word = machine.number_at(hit, 4);
    let Ok(insn) = machine.decode(word) else {
        return false;
    };
    perform_kept(machine, hart, p, insn)
}
