//! The lines of a policy, one after the other.
ghost use Rattle.std.specs.Prelude.{◌≡◌, ◌≢◌, ◌<◌, ◌↔◌, false};
ghost use Rattle.coy_io.specs.Causes.{Rose};
ghost use Rattle.coy_io.specs.Reader.{TellsEnd};
ghost use Rattle.listing_read.specs.declared.object_fault.PolicyFault.TheVariants.{LineTooLong};
ghost use Rattle.separation_program.specs.Stated.{without_end, JudgesPolicyLine, StatesRest};

use coy_io::{LineReader, Source};
use judged_lines::{Judge, Stop, judge_next};
use separation_lines::{Next, PolicyFault, read_listed};
use separation_policy::Policy;

/// Judges the lines of a policy, and takes in what they say. It tells what the next line belongs to.
#[derive(Clone, Copy)]
struct PolicyLines;

impl Judge for PolicyLines {
    type Made = Policy;

    type Said = Next;

    type Fault = PolicyFault;

    ghost judged = { λ _. JudgesPolicyLine };

    ghost long = { λ _. LineTooLong };

    fn judge(&self, line: &[u8], policy: &mut Policy) -> Result<Next, PolicyFault> {
        read_listed(line, policy)
    }

    fn too_long(&self) -> PolicyFault {
        PolicyFault::LineTooLong
    }
}

/// Reads the lines of a policy up to its line `end`, and takes in what they say. It answers why there is no further line of it:
/// `End` where it is over, and where the input is over before, that the line behind the last is refused.
pub(crate) fn read_policies<S: Source>(
    lines: &mut LineReader,
    source: &mut S,
    policy: &mut Policy,
) -> Stop<PolicyFault>
    requires { lines.old.failed ≡ false }
    ensures states { StatesRest policy.old policy.new lines.old lines.new
        (S.held source.old) (S.held source.new) result }
    ensures going { result ≡ Stop.End → lines.new.failed ≡ false }
    ensures told { TellsEnd lines.old (S.held source.old) → TellsEnd lines.new (S.held source.new) }
    ensures read { result ≡ Stop.ReadFault → Rose (S.faults source.old) (S.faults source.new) }
    ensures quiet { result ≢ Stop.ReadFault → S.faults source.new ≡ S.faults source.old }
{
    'lines: loop {
        match judge_next(&PolicyLines, policy, lines, source) {
            Ok(Next::Policy) => {}
            Ok(Next::Schedule) => return Stop::End,
            Err(stop) => return without_end(stop, lines.number()),
        }
    }
}

/// Why there is no further line of a policy, behind so many of which none ends it.
fn without_end(stop: Stop<PolicyFault>, number: u32) -> Stop<PolicyFault>
    requires { number < 4294967295 }
    ensures value { result ≡ without_end number stop }
    ensures refused { result ≢ Stop.End }
    ensures read { result ≡ Stop.ReadFault ↔ stop ≡ Stop.ReadFault }
{
    match stop {
        Stop::End => Stop::Refused {
            line: number + 1,
            fault: PolicyFault::NoEnd,
        },
        other => other,
    }
}
