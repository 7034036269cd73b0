//! Instructions that access what is kept, and of which nothing is told.
ghost use Rattle.std.specs.Prelude.{◌≡◌, ◌≢◌, ℕ, ◌<◌, ◌≤◌, ◌*◌, ◌^◌, ◌%◌, ◌==◌, true, Some};
ghost use Rattle.cap_format.specs.declared.kind.CapKind.TheVariants.{Process};
ghost use Rattle.object_store.specs.Store.{size_of};
ghost use Rattle.schedules.specs.Queues.{hart_of};
ghost use Rattle.rv32_decode.specs.InRange.{InRange};
ghost use Rattle.rv32_user.specs.Size.{IsSize};
ghost use Rattle.machine_state.specs.State.{state_of, space_of};
ghost use Rattle.kernel_core.specs.Instruction.{perform};
ghost use Rattle.kernel_core.specs.LoadStore.{load, store};
ghost use Rattle.untraced_steps.specs.KeptSteps.{CameIf};

use kept_pages::PageTranslator;
use kernel_core::Machine;
use rv32_decode::Insn;
use rv32_user::{Effect, evaluate, extended};
use walk_meaning::Kind;

/// Performs this instruction where it goes on, and what it loads or stores is kept. It answers whether it did.
#[inline(always)]
#[tactic(auto, unfolding(kernel_core::specs::Instruction::perform))]
pub(crate) fn perform_kept<T: PageTranslator>(
    machine: &mut Machine<T>,
    hart: u8,
    p: u16,
    insn: Insn,
) -> bool
    requires there { p < size_of machine.old.objects.items Process }
    requires hart { hart < machine.old.objects.harts }
    requires insn { InRange insn }
    ensures came { CameIf T.kept T.cost T.after T.without result p
        (perform (state_of machine.old) p insn) machine.old machine.new }
    ensures caches { (k : ℕ) → k ≢ hart →
        T.cache machine.new.translator k ≡ T.cache machine.old.translator k }
{
    let pc = machine.pc(p);
    let outcome = evaluate(machine.registers(p), pc, insn);
    match outcome.effect {
        Effect::Next(next) => {
            machine.set_register(p, outcome.rd, outcome.value);
            machine.set_pc(p, next);
            true
        }
        Effect::Load {
            at,
            size,
            signed,
            rd,
        } => load_kept(machine, hart, p, at, size, signed, rd),
        Effect::Store { at, size, value } => store_kept(machine, hart, p, at, size, value),
        _ => false,
    }
}

/// A load, where its address is aligned and its page is kept. It answers whether it did.
#[inline(always)]
#[tactic(auto, unfolding(kernel_core::specs::LoadStore::load, rv32_user::specs::Step::loaded))]
fn load_kept<T: PageTranslator>(
    machine: &mut Machine<T>,
    hart: u8,
    p: u16,
    at: u32,
    size: u8,
    signed: bool,
    rd: u8,
) -> bool
    requires there { p < size_of machine.old.objects.items Process }
    requires hart { hart < machine.old.objects.harts }
    requires size { IsSize size }
    requires register { rd < 32 }
    ensures came { CameIf T.kept T.cost T.after T.without result p
        (load (state_of machine.old) p at size signed rd) machine.old machine.new }
    ensures caches { (k : ℕ) → k ≢ hart →
        T.cache machine.new.translator k ≡ T.cache machine.old.translator k }
{
    if !is_aligned(at, size) {
        return false;
    }
    let Some(hit) = machine.access_kept(hart, p, at, Kind::Load) else {
        return false;
    };
    let value = machine.number_at(hit, size);
    machine.set_register(p, rd, extended(size, signed, value));
    machine.advance(p);
    true
}

/// A store, where its address is aligned and its page is kept. It answers whether it did.
#[inline(always)]
#[tactic(auto, unfolding(kernel_core::specs::LoadStore::store))]
fn store_kept<T: PageTranslator>(
    machine: &mut Machine<T>,
    hart: u8,
    p: u16,
    at: u32,
    size: u8,
    value: u32,
) -> bool
    requires there { p < size_of machine.old.objects.items Process }
    requires hart { hart < machine.old.objects.harts }
    requires size { IsSize size }
    requires fits { value < 2 ^ (8 * size) }
    ensures came { CameIf T.kept T.cost T.after T.without result p
        (store (state_of machine.old) p at size value) machine.old machine.new }
    ensures caches { (k : ℕ) → k ≢ hart →
        T.cache machine.new.translator k ≡ T.cache machine.old.translator k }
{
    if !is_aligned(at, size) {
        return false;
    }
    let Some(hit) = machine.access_kept(hart, p, at, Kind::Store) else {
        return false;
    };
    machine.write_number(hit, size, value);
    machine.advance(p);
    true
}

/// Whether an address is a multiple of the size, 1, 2 or 4, of what is accessed there.
fn is_aligned(at: u32, size: u8) -> bool
    requires { IsSize size }
    ensures { result ≡ (at % size == 0) }
{
    at % size as u32 == 0
}
