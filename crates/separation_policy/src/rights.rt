//! What a domain may do beyond itself.
use crate::domain_set::DomainSet;

/// What the lines of a policy let one domain do.
#[derive(Clone, Copy)]
pub struct Rights {
    /// Whom it may read.
    pub reads: DomainSet,
    /// Whom it may write.
    pub writes: DomainSet,
    /// Whether its objects may hold SysCtl.
    pub halts: bool,
    /// Whether they may hold KernLog.
    pub logs: bool,
}
