//! What is told of a machine and a cut.
ghost use Rattle.std.specs.Prelude.{ℕ, ◌≡◌, ◌≢◌, ◌+◌, []};
ghost use Rattle.kernel_core.specs.State.{state_of};
ghost use Rattle.confine_check.specs.Breach.{breach_in};
ghost use Rattle.confine_check.specs.declared.verdict.Verdict.TheVariants.{Sleeper};
ghost use Rattle.confine_command.specs.Confine.{told, reads, cut_text, confined_text, breach_text, NobodySleeps};
ghost use Rattle.courses.specs.Ending.{EndsIn};

use cap_format::{Cap, CapKind};
use cap_words::{kind_word, push_capability};
use confine_check::{Cut, Verdict, confined};
use courses::{Exit, end_with};
use coy_io::Sink;
use coy_text::LineBuf;
use kernel_core::Machine;
use std::sync::ledger::Ledger;
use steps::Steps;
use walk_engine::Translator;

/// Tells whether a cut holds of a machine on which nobody sleeps, or what breaks it.
pub(crate) fn tell<T: Translator, K: Sink, L: Ledger>(
    machine: &Machine<T>,
    cut: &Cut,
    output: &mut K,
    fetches: &mut Steps<L>,
) -> Exit
    requires { NobodySleeps machine.now.queues }
    ensures ends { EndsIn K.taken K.faults output.old output.new result
        (told (state_of machine.now) cut.now) }
    ensures counted { fetches.new ≡ fetches.old + reads (state_of machine.now) cut.now }
{
    let verdict = confined(machine, cut, fetches);
    let mut line = LineBuf::new();
    push_verdict(cut, verdict, &mut line);
    end_with(line.as_bytes(), Exit::Done, output)
}

/// Makes the line of a verdict that is of no sleeper.
fn push_verdict(cut: &Cut, verdict: Verdict, line: &mut LineBuf)
    requires empty { line.old ≡ [] }
    requires awake { (p : ℕ) → verdict ≢ Sleeper p }
    ensures { line.new ≡ cut_text cut.now (breach_in verdict) }
{
    match verdict {
        Verdict::Yes => push_counts(cut, line),
        Verdict::Capability {
            kind,
            number,
            place,
            cap,
        } => push_breach(kind, number, place, cap, line),
        Verdict::Sleeper { .. } => unreachable!(),
    }
}

/// Makes the line of a cut that holds.
#[tactic(auto, unfolding(crate::specs::Confine::confined_text), using(coy_text::proofs::NumeralLaws::length_decimal))]
fn push_counts(cut: &Cut, line: &mut LineBuf)
    requires { line.old ≡ [] }
    ensures { line.new ≡ confined_text cut.now }
{
    line.push_word("confined left=");
    line.push_dec(cut.left_count() as u64);
    line.push_word(" right=");
    line.push_dec(cut.right_count() as u64);
    line.push_word("\n");
}

/// Makes the line of a capability that breaks a cut.
#[tactic(auto, unfolding(crate::specs::Confine::breach_text), using(coy_text::proofs::NumeralLaws::length_decimal))]
fn push_breach(kind: CapKind, number: u16, place: u16, cap: Cap, line: &mut LineBuf)
    requires { line.old ≡ [] }
    ensures { line.new ≡ breach_text kind number place cap }
{
    line.push_word("breach ");
    line.push_word(kind_word(kind));
    line.push_word(" ");
    line.push_dec(number as u64);
    line.push_word(" ");
    line.push_dec(place as u64);
    line.push_word(" ");
    push_capability(line, cap);
    line.push_word("\n");
}
