//! What is told of a policy that holds: each domain with what it has and may do.
ghost use Rattle.std.specs.Prelude.{◌≡◌, ◌≤◌, ◌<◌, ◌+◌, ◌++◌, [], length};
ghost use Rattle.coy_io.specs.Written.{WroteTo};
ghost use Rattle.separation_policy.specs.Closure.{IsClosure};
ghost use Rattle.separation_program.specs.Text.{count_text, counts_text, domain_text, domains_text, marks_text, relations_text, said_if, separated_by};

use crate::names::{put_name, put_related};
use crate::relation::Relation;
use crate::unused::put_unused;
use coy_io::{Sink, WriteFault, put_bytes, put_text};
use coy_text::LineBuf;
use policy_lines::Permission;
use separation_check::Marks;
use separation_policy::{Closure, Policy};

/// Writes how many domains there are, a line for each, and one for each line of the policy that is unused.
#[tactic(auto, unfolding(crate::specs::Text::separated_by))]
pub(crate) fn put_separated<K: Sink>(
    policy: &Policy,
    closure: &Closure,
    marks: Marks,
    unused: &[Permission],
    output: &mut K,
) -> Result<(), WriteFault>
    requires { IsClosure policy.now closure.now }
    ensures { WroteTo K.taken K.faults output.old output.new result
        (separated_by policy.now marks unused.now) }
{
    put_count(policy.len() as u8, output)?;
    put_domains(policy, closure, marks, output)?;
    put_unused(policy, unused, output)
}

/// Writes how many domains there are.
fn put_count<K: Sink>(count: u8, output: &mut K) -> Result<(), WriteFault>
    ensures { WroteTo K.taken K.faults output.old output.new result (count_text count) }
{
    let mut line = LineBuf::new();
    push_count(count, &mut line);
    put_bytes(line.as_bytes(), output)
}

#[tactic(auto, unfolding(crate::specs::Text::count_text), using(coy_text::proofs::NumeralLaws::length_decimal))]
fn push_count(count: u8, line: &mut LineBuf)
    requires { line.old ≡ [] }
    ensures { line.new ≡ count_text count }
{
    line.push_word("separated domains=");
    line.push_dec(count as u64);
    line.push_word("\n");
}

/// Writes the line of each domain.
fn put_domains<K: Sink>(
    policy: &Policy,
    closure: &Closure,
    marks: Marks,
    output: &mut K,
) -> Result<(), WriteFault>
    requires { IsClosure policy.now closure.now }
    ensures { WroteTo K.taken K.faults output.old output.new result
        (domains_text policy.now marks) }
{
    'each: for domain in 0..policy.len() as u8 {
        put_domain(policy, closure, marks, domain, output)?;
    }
    Ok(())
}

/// Writes the line of a domain.
#[tactic(auto, unfolding(crate::specs::Text::domain_text))]
fn put_domain<K: Sink>(
    policy: &Policy,
    closure: &Closure,
    marks: Marks,
    domain: u8,
    output: &mut K,
) -> Result<(), WriteFault>
    requires { IsClosure policy.now closure.now }
    ensures { WroteTo K.taken K.faults output.old output.new result
        (domain_text policy.now marks domain) }
{
    put_text("domain ", output)?;
    put_name(policy, domain, output)?;
    put_counts(policy, domain, output)?;
    put_relations(policy, closure, domain, output)?;
    put_marks(marks, domain, output)
}

/// Writes whom a domain reads, whom it writes, and whom its view has.
#[tactic(auto, unfolding(crate::specs::Text::relations_text))]
fn put_relations<K: Sink>(
    policy: &Policy,
    closure: &Closure,
    domain: u8,
    output: &mut K,
) -> Result<(), WriteFault>
    requires { IsClosure policy.now closure.now }
    ensures { WroteTo K.taken K.faults output.old output.new result
        (relations_text policy.now domain) }
{
    put_related(policy, closure, Relation::Reads, domain, output)?;
    put_text(" writes=", output)?;
    put_related(policy, closure, Relation::Writes, domain, output)?;
    put_text(" view=", output)?;
    put_related(policy, closure, Relation::Views, domain, output)
}

/// Writes how many objects and processes a domain has.
fn put_counts<K: Sink>(policy: &Policy, domain: u8, output: &mut K) -> Result<(), WriteFault>
    ensures { WroteTo K.taken K.faults output.old output.new result
        (counts_text policy.now domain) }
{
    let mut line = LineBuf::new();
    push_counts(policy, domain, &mut line);
    put_bytes(line.as_bytes(), output)
}

#[tactic(auto, unfolding(crate::specs::Text::counts_text), using(coy_text::proofs::NumeralLaws::length_decimal))]
fn push_counts(policy: &Policy, domain: u8, line: &mut LineBuf)
    requires { line.old ≡ [] }
    ensures { line.new ≡ counts_text policy.now domain }
{
    line.push_word(" objects=");
    line.push_dec(policy.object_count(domain) as u64);
    line.push_word(" processes=");
    line.push_dec(policy.process_count(domain) as u64);
    line.push_word(" reads=");
}

/// Writes whether an object of a domain holds SysCtl or KernLog, and ends the line.
fn put_marks<K: Sink>(marks: Marks, domain: u8, output: &mut K) -> Result<(), WriteFault>
    ensures { WroteTo K.taken K.faults output.old output.new result
        (marks_text marks domain) }
{
    let mut line = LineBuf::new();
    push_marks(marks, domain, &mut line);
    put_bytes(line.as_bytes(), output)
}

#[tactic(auto, unfolding(crate::specs::Text::marks_text))]
fn push_marks(marks: Marks, domain: u8, line: &mut LineBuf)
    requires { line.old ≡ [] }
    ensures { line.new ≡ marks_text marks domain }
{
    push_if(marks.halts.contains(domain), " halts", line);
    push_if(marks.logs.contains(domain), " logs", line);
    line.push_word("\n");
}

fn push_if(said: bool, word: &str, line: &mut LineBuf)
    requires room { length line.old ≤ 100 }
    requires short { length word.now ≤ 100 }
    ensures text { line.new ≡ line.old ++ said_if said word.now }
    ensures len { length line.new ≤ length line.old + length word.now }
{
    if said {
        line.push_word(word);
    }
}
