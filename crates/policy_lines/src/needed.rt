//! What lines a policy needs.
use crate::permission::Permission;
use separation_check::Crossing;

/// What lines the domains of a policy need for it to hold of a machine.
#[derive(Drop)]
pub enum Needed {
    /// These: it holds with them alone, and with no fewer of them. They come in the order of a policy's lines: `reads`,
    /// `writes`, `halts` and `logs`, each by the numbers of domains.
    Lines(Vec<Permission>),
    /// None are enough, since no line allows these: a Range, a capability that is neither harmless nor a Page, a process that
    /// sleeps on one of another domain, and what is of a domain that was never made.
    Barred(Vec<Crossing>),
}
