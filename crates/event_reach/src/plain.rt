//! Plain instructions: those that change no more than the process that performs them and the page of a store.
ghost use Rattle.std.specs.Prelude.{◌≡◌, ◌<◌, ◌≤◌, ◌+◌, IfSome};
ghost use Rattle.cap_format.specs.declared.kind.CapKind.TheVariants.{Process};
ghost use Rattle.object_store.specs.Store.{size_of};
ghost use Rattle.rv32_decode.specs.InRange.{InRange};
ghost use Rattle.rv32_decode.specs.Table.{insn_at};
ghost use Rattle.rv32_user.specs.Size.{IsSize};
ghost use Rattle.rv32_user.specs.Step.{effect_of};
ghost use Rattle.machine_state.specs.State.{state_of, process, pc_of};
ghost use Rattle.machine_state.specs.Machine.{hart_in};
ghost use Rattle.kernel_core.specs.Event.{event_of};
ghost use Rattle.event_reach.specs.Looked.{Looked};
ghost use Rattle.event_reach.specs.Plain.{plain_load, plain_store, plain_effect, plain_word, plain_instruction, plain_by, plain_of, plain_names, ChangesAlone, IsThere};
ghost use Rattle.event_reach.specs.Reads.{a_walk, a_plain_look};

use crate::accesses::reach_page;
use machine_state::{Event, Machine};
use rv32_decode::Insn;
use rv32_user::{Effect, evaluate};
use std::sync::ledger::Ledger;
use steps::Steps;
use walk_engine::Translator;
use walk_meaning::Kind;

/// What a plain instruction changes.
#[derive(Clone, Copy)]
pub struct PlainInsn {
    /// The process that performs it, of which the registers and the pc change.
    pub process: u16,
    /// The page of its store, if it is a store.
    pub page: Option<u16>,
}

/// The plain instruction that an event performs, if it does. Then it changes no more than that says.
///
/// The machine stays as it is, and so does what its translator keeps. A page that is kept is not walked to; to any other it
/// walks as the event will, and counts the slots that it reads.
pub fn plain_of_event<T: Translator, L: Ledger>(
    machine: &mut Machine<T>,
    e: Event,
    fetches: &mut Steps<L>,
) -> Option<PlainInsn>
    requires { hart_in e < machine.old.objects.harts }
    ensures value { result ≡ plain_of (state_of machine.old) e }
    ensures there { IfSome result (IsThere machine.old.objects) }
    ensures alone { let s = state_of machine.old in
        IfSome result (λ plain. ChangesAlone s (event_of s e) (plain_names plain)) }
    ensures looked { Looked T.kept T.cache (hart_in e) machine.old machine.new }
    ensures least { fetches.old ≤ fetches.new }
    ensures most { fetches.new ≤ fetches.old + a_plain_look }
{
    if machine.halted() {
        return None;
    }
    plain_by_event(machine, e, fetches)
}

/// The same of a machine that is not halted.
fn plain_by_event<T: Translator, L: Ledger>(
    machine: &mut Machine<T>,
    e: Event,
    fetches: &mut Steps<L>,
) -> Option<PlainInsn>
    requires { hart_in e < machine.old.objects.harts }
    ensures value { result ≡ plain_by (state_of machine.old) e }
    ensures there { IfSome result (IsThere machine.old.objects) }
    ensures looked { Looked T.kept T.cache (hart_in e) machine.old machine.new }
    ensures least { fetches.old ≤ fetches.new }
    ensures most { fetches.new ≤ fetches.old + a_plain_look }
{
    match e {
        Event::Step(hart) => match machine.on_hart(hart) {
            Some(p) => plain_of_instruction(machine, hart, p, fetches),
            None => None,
        },
        Event::Tick(_) => None,
    }
}

/// One instruction of a process: its fetch, then what the word says.
#[tactic(auto, unfolding(crate::specs::Plain::plain_instruction))]
fn plain_of_instruction<T: Translator, L: Ledger>(
    machine: &mut Machine<T>,
    hart: u8,
    p: u16,
    fetches: &mut Steps<L>,
) -> Option<PlainInsn>
    requires hart { hart < machine.old.objects.harts }
    requires there { p < size_of machine.old.objects.items Process }
    ensures value { result ≡ plain_instruction (state_of machine.old) p }
    ensures there { IfSome result (IsThere machine.old.objects) }
    ensures looked { Looked T.kept T.cache hart machine.old machine.new }
    ensures least { fetches.old ≤ fetches.new }
    ensures most { fetches.new ≤ fetches.old + a_plain_look }
{
    let pc = machine.pc(p);
    match reach_page(machine, hart, p, pc, Kind::Fetch, fetches) {
        Some(hit) => {
            let word = machine.number_at(hit, 4);
            plain_of_word(machine, hart, p, word, fetches)
        }
        None => None,
    }
}

/// The word that was fetched.
fn plain_of_word<T: Translator, L: Ledger>(
    machine: &mut Machine<T>,
    hart: u8,
    p: u16,
    word: u32,
    fetches: &mut Steps<L>,
) -> Option<PlainInsn>
    requires hart { hart < machine.old.objects.harts }
    requires there { p < size_of machine.old.objects.items Process }
    ensures value { result ≡ plain_word (state_of machine.old) p (insn_at word) }
    ensures there { IfSome result (IsThere machine.old.objects) }
    ensures looked { Looked T.kept T.cache hart machine.old machine.new }
    ensures least { fetches.old ≤ fetches.new }
    ensures most { fetches.new ≤ fetches.old + a_walk }
{
    match machine.decode(word) {
        Ok(insn) => plain_of_insn(machine, hart, p, insn, fetches),
        Err(_) => None,
    }
}

/// What an instruction leaves to be done.
fn plain_of_insn<T: Translator, L: Ledger>(
    machine: &mut Machine<T>,
    hart: u8,
    p: u16,
    insn: Insn,
    fetches: &mut Steps<L>,
) -> Option<PlainInsn>
    requires hart { hart < machine.old.objects.harts }
    requires there { p < size_of machine.old.objects.items Process }
    requires insn { InRange insn }
    ensures value { let s = state_of machine.old in
        result ≡ plain_effect s p (effect_of (process s p).regs (pc_of s p) insn) }
    ensures there { IfSome result (IsThere machine.old.objects) }
    ensures looked { Looked T.kept T.cache hart machine.old machine.new }
    ensures least { fetches.old ≤ fetches.new }
    ensures most { fetches.new ≤ fetches.old + a_walk }
{
    let outcome = evaluate(machine.registers(p), machine.pc(p), insn);
    match outcome.effect {
        Effect::Next(_) => Some(PlainInsn {
            process: p,
            page: None,
        }),
        Effect::Load { at, size, .. } => plain_of_load(machine, hart, p, at, size, fetches),
        Effect::Store { at, size, .. } => plain_of_store(machine, hart, p, at, size, fetches),
        _ => None,
    }
}

/// A load changes its process alone.
#[tactic(auto, unfolding(crate::specs::Plain::plain_load))]
fn plain_of_load<T: Translator, L: Ledger>(
    machine: &mut Machine<T>,
    hart: u8,
    p: u16,
    at: u32,
    size: u8,
    fetches: &mut Steps<L>,
) -> Option<PlainInsn>
    requires hart { hart < machine.old.objects.harts }
    requires there { p < size_of machine.old.objects.items Process }
    requires size { IsSize size }
    ensures value { result ≡ plain_load (state_of machine.old) p at size }
    ensures there { IfSome result (IsThere machine.old.objects) }
    ensures looked { Looked T.kept T.cache hart machine.old machine.new }
    ensures least { fetches.old ≤ fetches.new }
    ensures most { fetches.new ≤ fetches.old + a_walk }
{
    if at % u32::from(size) != 0 {
        return None;
    }
    match reach_page(machine, hart, p, at, Kind::Load, fetches) {
        Some(_) => Some(PlainInsn {
            process: p,
            page: None,
        }),
        None => None,
    }
}

/// A store changes the page that its walk reaches as well.
#[tactic(auto, unfolding(crate::specs::Plain::plain_store))]
fn plain_of_store<T: Translator, L: Ledger>(
    machine: &mut Machine<T>,
    hart: u8,
    p: u16,
    at: u32,
    size: u8,
    fetches: &mut Steps<L>,
) -> Option<PlainInsn>
    requires hart { hart < machine.old.objects.harts }
    requires there { p < size_of machine.old.objects.items Process }
    requires size { IsSize size }
    ensures value { result ≡ plain_store (state_of machine.old) p at size }
    ensures there { IfSome result (IsThere machine.old.objects) }
    ensures looked { Looked T.kept T.cache hart machine.old machine.new }
    ensures least { fetches.old ≤ fetches.new }
    ensures most { fetches.new ≤ fetches.old + a_walk }
{
    if at % u32::from(size) != 0 {
        return None;
    }
    match reach_page(machine, hart, p, at, Kind::Store, fetches) {
        Some(hit) => Some(PlainInsn {
            process: p,
            page: Some(hit.page),
        }),
        None => None,
    }
}
