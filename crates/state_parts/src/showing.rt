//! What the records of an event show to have been performed.
ghost use Rattle.std.specs.Prelude.{◌≡◌};
ghost use Rattle.std.specs.Option.{option_copied};
ghost use Rattle.state_parts.specs.Shown.{shown_load, shown_store, shown_plain};

use event_reach::PlainInsn;
use machine_state::{Record, Records};
use rv32_user::{Effect, evaluate};

/// The plain instruction that the records of an event show, of a process with these registers and this pc before it.
#[tactic(auto, unfolding(crate::specs::Shown::shown_plain))]
pub(crate) fn plain_shown(records: &Records, p: u16, regs: &[u32; 32], pc: u32) -> Option<PlainInsn>
    ensures { result ≡ shown_plain p regs.now pc records.now }
{
    let list = records.as_slice();
    let next = list.get(2);
    match list.get(1) {
        Some(Record::Insn { insn, .. }) => match evaluate(regs, pc, *insn).effect {
            Effect::Next(_) => Some(PlainInsn {
                process: p,
                page: None,
            }),
            Effect::Load { .. } => load_shown(p, next),
            Effect::Store { .. } => store_shown(p, next),
            _ => None,
        },
        _ => None,
    }
}

/// A load is shown by the record of its access.
fn load_shown(p: u16, next: Option<&Record>) -> Option<PlainInsn>
    ensures { result ≡ shown_load p (option_copied next.entry) }
{
    match next {
        Some(Record::Access { .. }) => Some(PlainInsn {
            process: p,
            page: None,
        }),
        _ => None,
    }
}

/// So is a store, with its page.
fn store_shown(p: u16, next: Option<&Record>) -> Option<PlainInsn>
    ensures { result ≡ shown_store p (option_copied next.entry) }
{
    match next {
        Some(Record::Access { number, .. }) => Some(PlainInsn {
            process: p,
            page: Some(*number),
        }),
        _ => None,
    }
}
