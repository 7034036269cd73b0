//! The lines that a policy has.
ghost use Rattle.std.specs.Prelude.{◌≡◌, ◌<◌, ◌++◌, ◌∷◌, [], cond, length, slice_index_or, IfOk, OnOk};
ghost use Rattle.std.specs.List.{All};
ghost use Rattle.separation_check.specs.Crossings.{all_below, listed};
ghost use Rattle.policy_lines.specs.Permission.{IsMade, reading_by, writing_by, channel_by, channels_from, channels_by, channels_of, halting_by, logging_by, lines_of};

use crate::permission::Permission;
use cap_format::OutOfMemory;
use separation_policy::Policy;
use std::alloc::Global;

/// The line that domain `a` reads domain `b`, if it may.
fn reading_by(policy: &Policy, a: u8, b: u8) -> Option<Permission>
    ensures { result ≡ reading_by policy.now a b }
{
    if policy.reads(a).contains(b) {
        return Some(Permission::Reads { reader: a, read: b });
    }
    None
}

/// The line that domain `a` writes domain `b`, if it may.
fn writing_by(policy: &Policy, a: u8, b: u8) -> Option<Permission>
    ensures { result ≡ writing_by policy.now a b }
{
    if policy.may_write(a, b) {
        return Some(Permission::Writes {
            writer: a,
            written: b,
        });
    }
    None
}

/// The one or the other.
fn channel_by(policy: &Policy, writes: bool, a: u8, b: u8) -> Option<Permission>
    ensures { result ≡ channel_by policy.now writes a b }
{
    if writes {
        writing_by(policy, a, b)
    } else {
        reading_by(policy, a, b)
    }
}

/// The line at a place of a list.
pub(crate) fn line_at(lines: &[Permission], place: usize) -> Permission
    requires { place < length lines.now }
    ensures { result ≡ slice_index_or lines.now place result }
{
    lines[place]
}

/// Puts down a line, if there is one.
pub(crate) fn push(lines: &mut Vec<Permission>, line: Option<Permission>) -> Result<(), OutOfMemory>
    ensures { OnOk result (lines.new.items ≡ lines.old.items ++ listed line) }
{
    if let Some(one) = line {
        lines.push(one)?;
    }
    Ok(())
}

/// Puts down a line, if it is one of those that are looked for.
pub(crate) fn push_if(
    found: &mut Vec<Permission>,
    line: Permission,
    yes: bool,
) -> Result<(), OutOfMemory>
    ensures { OnOk result (found.new.items ≡ found.old.items ++ cond yes (line ∷ []) []) }
{
    if yes {
        found.push(line)?;
    }
    Ok(())
}

/// Puts down the lines of a domain.
fn push_channels_from(
    policy: &Policy,
    writes: bool,
    a: u8,
    lines: &mut Vec<Permission>,
) -> Result<(), OutOfMemory>
    ensures { OnOk result (lines.new.items ≡ lines.old.items ++ channels_from policy.now writes a) }
{
    'each: for b in 0..policy.len() {
        push(lines, channel_by(policy, writes, a, b as u8))?;
    }
    Ok(())
}

/// Puts down those of all domains.
fn push_channels(
    policy: &Policy,
    writes: bool,
    lines: &mut Vec<Permission>,
) -> Result<(), OutOfMemory>
    ensures { OnOk result (lines.new.items ≡ lines.old.items ++ channels_by policy.now writes) }
{
    'each: for a in 0..policy.len() {
        push_channels_from(policy, writes, a as u8, lines)?;
    }
    Ok(())
}

/// The lines `reads` of a policy, and then those `writes`.
pub fn channels(alloc: Global, policy: &Policy) -> Result<Vec<Permission>, OutOfMemory>
    ensures value { IfOk result (λ lines. lines.items ≡ channels_of policy.now) }
    ensures made { IfOk result (λ lines. All (IsMade (length policy.now.domains)) lines.items) }
{
    let mut lines = Vec::new(alloc);
    push_channels(policy, false, &mut lines)?;
    push_channels(policy, true, &mut lines)?;
    Ok(lines)
}

/// The line that objects of domain `a` may hold SysCtl, if they may.
fn halting_by(policy: &Policy, a: u8) -> Option<Permission>
    ensures { result ≡ halting_by policy.now a }
{
    if policy.may_halt(a) {
        return Some(Permission::Halts { domain: a });
    }
    None
}

/// The line that they may hold KernLog, if they may.
fn logging_by(policy: &Policy, a: u8) -> Option<Permission>
    ensures { result ≡ logging_by policy.now a }
{
    if policy.may_log(a) {
        return Some(Permission::Logs { domain: a });
    }
    None
}

/// Puts down the lines `halts` of a policy.
fn push_halting(policy: &Policy, lines: &mut Vec<Permission>) -> Result<(), OutOfMemory>
    ensures { OnOk result (lines.new.items ≡ lines.old.items
        ++ all_below (λ a. listed (halting_by policy.now a)) (length policy.now.domains)) }
{
    'each: for a in 0..policy.len() {
        push(lines, halting_by(policy, a as u8))?;
    }
    Ok(())
}

/// Puts down the lines `logs`.
fn push_logging(policy: &Policy, lines: &mut Vec<Permission>) -> Result<(), OutOfMemory>
    ensures { OnOk result (lines.new.items ≡ lines.old.items
        ++ all_below (λ a. listed (logging_by policy.now a)) (length policy.now.domains)) }
{
    'each: for a in 0..policy.len() {
        push(lines, logging_by(policy, a as u8))?;
    }
    Ok(())
}

/// All lines of a policy: `reads`, `writes`, `halts` and `logs`.
pub fn lines(alloc: Global, policy: &Policy) -> Result<Vec<Permission>, OutOfMemory>
    ensures value { IfOk result (λ lines. lines.items ≡ lines_of policy.now) }
    ensures made { IfOk result (λ lines. All (IsMade (length policy.now.domains)) lines.items) }
{
    let mut lines = channels(alloc, policy)?;
    push_halting(policy, &mut lines)?;
    push_logging(policy, &mut lines)?;
    Ok(lines)
}
