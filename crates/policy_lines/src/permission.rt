//! Lines of a policy as values.
ghost use Rattle.std.specs.Prelude.{◌≡◌, length, Some};
ghost use Rattle.policy_lines.specs.Permission.{IsMade, domain_of_line, rights_without};
ghost use Rattle.policy_lines.specs.Needed.{if_made, is_made};

use separation_policy::{Policy, Rights};

/// A line of a policy, by the numbers of its domains.
#[derive(Clone, Copy)]
pub enum Permission {
    /// Domain `reader` may read domain `read`.
    Reads { reader: u8, read: u8 },
    /// Domain `writer` may write domain `written`.
    Writes { writer: u8, written: u8 },
    /// Objects of a domain may hold SysCtl.
    Halts { domain: u8 },
    /// They may hold KernLog.
    Logs { domain: u8 },
}

impl Permission {
    /// The domain that may do something by this line.
    pub(crate) fn domain(self) -> u8
        ensures { result ≡ domain_of_line self }
    {
        match self {
            Permission::Reads { reader, .. } => reader,
            Permission::Writes { writer, .. } => writer,
            Permission::Halts { domain } => domain,
            Permission::Logs { domain } => domain,
        }
    }

    /// Whether its domains are among so many.
    fn is_made(self, count: usize) -> bool
        ensures { result ≡ is_made count self }
    {
        match self {
            Permission::Reads { reader, read } => {
                (reader as usize) < count && (read as usize) < count
            }
            Permission::Writes { writer, written } => {
                (writer as usize) < count && (written as usize) < count
            }
            Permission::Halts { domain } => (domain as usize) < count,
            Permission::Logs { domain } => (domain as usize) < count,
        }
    }

    /// The line itself, if they are.
    pub(crate) fn if_made(self, count: usize) -> Option<Permission>
        ensures { result ≡ if_made count (Some self) }
    {
        if self.is_made(count) {
            return Some(self);
        }
        None
    }

    /// What a domain may do without this line.
    pub(crate) fn out_of(self, rights: Rights) -> Rights
        requires { IsMade 64 self }
        ensures { result ≡ rights_without rights self }
    {
        let mut left = rights;
        match self {
            Permission::Reads { read, .. } => left.reads = rights.reads.without(read),
            Permission::Writes { written, .. } => left.writes = rights.writes.without(written),
            Permission::Halts { .. } => left.halts = false,
            Permission::Logs { .. } => left.logs = false,
        }
        left
    }
}
