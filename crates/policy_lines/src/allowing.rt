//! Policies with these lines and no other.
ghost use Rattle.std.specs.Prelude.{◌≡◌, length};
ghost use Rattle.std.specs.List.{All};
ghost use Rattle.policy_lines.specs.Least.{only, with_line, with_lines};
ghost use Rattle.policy_lines.specs.Permission.{IsMade};

use crate::listing::line_at;
use crate::permission::Permission;
use separation_policy::Policy;

/// Gives a policy one more line.
fn allow(policy: &mut Policy, line: Permission)
    requires { IsMade (length policy.old.domains) line }
    ensures { policy.new ≡ with_line policy.old line }
{
    match line {
        Permission::Reads { reader, read } => policy.allow_reading(reader, read),
        Permission::Writes { writer, written } => policy.allow_writing(writer, written),
        Permission::Halts { domain } => policy.allow_halting(domain),
        Permission::Logs { domain } => policy.allow_logging(domain),
    }
}

/// Gives it these as well.
pub(crate) fn allow_all(policy: &mut Policy, lines: &[Permission])
    requires { All (IsMade (length policy.old.domains)) lines.now }
    ensures { policy.new ≡ with_lines policy.old lines.now }
{
    'each: for i in 0..lines.len() {
        allow(policy, line_at(lines, i));
    }
}

/// Gives it these in place of those that it has.
pub(crate) fn allow_only(policy: &mut Policy, lines: &[Permission])
    requires { All (IsMade (length policy.old.domains)) lines.now }
    ensures { policy.new ≡ only policy.old lines.now }
{
    policy.clear();
    allow_all(policy, lines);
}
