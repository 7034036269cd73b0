//! Whether an instruction is quiet.
ghost use Rattle.std.specs.Prelude.{◌≡◌, ◌<◌, ◌≤◌, ◌+◌, ◌%◌, ◌==◌};
ghost use Rattle.cap_format.specs.declared.kind.CapKind.TheVariants.{Process};
ghost use Rattle.object_store.specs.Store.{size_of};
ghost use Rattle.rv32_decode.specs.InRange.{InRange};
ghost use Rattle.rv32_decode.specs.Table.{insn_at};
ghost use Rattle.rv32_user.specs.Size.{IsSize};
ghost use Rattle.rv32_user.specs.Step.{effect_of};
ghost use Rattle.machine_state.specs.State.{state_of, process, pc_of};
ghost use Rattle.quiet_runs.specs.Finding.{is_quiet_effect, is_quiet_next, is_quiet_word};
ghost use Rattle.quiet_finding.specs.Reaching.{IsReaching};
ghost use Rattle.quiet_finding.specs.Walks.{AreKept};

use crate::accesses::{is_quiet_access, quiet_hit};
use crate::reaching::Reaching;
use crate::walks::KeptWalks;
use machine_state::Machine;
use rv32_decode::Insn;
use rv32_user::{Effect, evaluate};
use std::sync::ledger::Ledger;
use steps::Steps;
use walk_engine::Translator;
use walk_meaning::Kind;

/// Whether the instruction that a process performs next is quiet: its fetch, then what the word says.
pub(crate) fn is_quiet_next<T: Translator, L: Ledger>(
    machine: &Machine<T>,
    p: u16,
    reaching: &Reaching,
    walks: &mut KeptWalks,
    fetches: &mut Steps<L>,
) -> bool
    requires there { p < size_of machine.now.objects.items Process }
    requires reaching { IsReaching (state_of machine.now).store reaching.now }
    requires walks { AreKept (state_of machine.now) p walks.old }
    ensures value { result ≡ is_quiet_next (state_of machine.now) p }
    ensures walks { AreKept (state_of machine.now) p walks.new }
    ensures least { fetches.old ≤ fetches.new }
    ensures most { fetches.new ≤ fetches.old + 64 }
{
    let pc = machine.pc(p);
    match quiet_hit(
        machine,
        p,
        pc,
        Kind::Fetch,
        &mut walks.fetch,
        reaching,
        fetches,
    ) {
        Some(hit) => {
            let word = machine.number_at(hit, 4);
            is_quiet_word(machine, p, word, reaching, walks, fetches)
        }
        None => false,
    }
}

/// The same of the word that was fetched.
fn is_quiet_word<T: Translator, L: Ledger>(
    machine: &Machine<T>,
    p: u16,
    word: u32,
    reaching: &Reaching,
    walks: &mut KeptWalks,
    fetches: &mut Steps<L>,
) -> bool
    requires there { p < size_of machine.now.objects.items Process }
    requires reaching { IsReaching (state_of machine.now).store reaching.now }
    requires walks { AreKept (state_of machine.now) p walks.old }
    ensures value { result ≡ is_quiet_word (state_of machine.now) p (insn_at word) }
    ensures walks { AreKept (state_of machine.now) p walks.new }
    ensures least { fetches.old ≤ fetches.new }
    ensures most { fetches.new ≤ fetches.old + 32 }
{
    match walks.decoder.decode(word) {
        Ok(insn) => is_quiet_insn(machine, p, insn, reaching, walks, fetches),
        Err(_) => false,
    }
}

/// The same of an instruction.
fn is_quiet_insn<T: Translator, L: Ledger>(
    machine: &Machine<T>,
    p: u16,
    insn: Insn,
    reaching: &Reaching,
    walks: &mut KeptWalks,
    fetches: &mut Steps<L>,
) -> bool
    requires there { p < size_of machine.now.objects.items Process }
    requires insn { InRange insn }
    requires reaching { IsReaching (state_of machine.now).store reaching.now }
    requires walks { AreKept (state_of machine.now) p walks.old }
    ensures value { let s = state_of machine.now in
        result ≡ is_quiet_effect s p (effect_of (process s p).regs (pc_of s p) insn) }
    ensures walks { AreKept (state_of machine.now) p walks.new }
    ensures least { fetches.old ≤ fetches.new }
    ensures most { fetches.new ≤ fetches.old + 32 }
{
    let outcome = evaluate(machine.registers(p), machine.pc(p), insn);
    match outcome.effect {
        Effect::Next(_) => true,
        Effect::Load { at, size, .. } => {
            is_aligned(at, size)
                && is_quiet_access(
                    machine,
                    p,
                    at,
                    Kind::Load,
                    &mut walks.load,
                    reaching,
                    fetches,
                )
        }
        Effect::Store { at, size, .. } => {
            is_aligned(at, size)
                && is_quiet_access(
                    machine,
                    p,
                    at,
                    Kind::Store,
                    &mut walks.store,
                    reaching,
                    fetches,
                )
        }
        _ => false,
    }
}

fn is_aligned(at: u32, size: u8) -> bool
    requires { IsSize size }
    ensures { result ≡ (at % size == 0) }
{
    at % u32::from(size) == 0
}
