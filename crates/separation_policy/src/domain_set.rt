//! Sets of domains.
ghost use Rattle.std.specs.Prelude.{ℕ, ◌≡◌, ◌<◌, ◌==◌, ◌||◌, false};
ghost use Rattle.separation_policy.specs.DomainSet.{has_domain, no_domains, with_domain, without_domain, both_domains};

/// Domains by their numbers, which are below 64: bit `d` is set for domain `d`.
#[derive(Clone, Copy)]
pub struct DomainSet {
    bits: u64,
}

impl DomainSet {
    /// No domain.
    pub fn empty() -> DomainSet
        ensures { result ≡ no_domains }
    {
        DomainSet { bits: 0 }
    }

    /// Whether a domain is in the set.
    pub fn contains(self, domain: u8) -> bool
        ensures { result ≡ has_domain self domain }
    {
        if domain >= 64 {
            return false;
        }
        (self.bits >> domain) & 1 == 1
    }

    /// The set with one domain more, or as it is where that is in it.
    pub fn with(self, domain: u8) -> DomainSet
        requires { domain < 64 }
        ensures { result ≡ with_domain self domain }
    {
        DomainSet {
            bits: self.bits | (1 << domain),
        }
    }

    /// The set without a domain, or as it is where that isn't in it.
    pub fn without(self, domain: u8) -> DomainSet
        requires { domain < 64 }
        ensures { result ≡ without_domain self domain }
    {
        if !self.contains(domain) {
            return self;
        }
        DomainSet {
            bits: self.bits ^ (1 << domain),
        }
    }

    /// The domains of both sets.
    pub fn union(self, other: DomainSet) -> DomainSet
        ensures { result ≡ both_domains self other }
    {
        DomainSet {
            bits: self.bits | other.bits,
        }
    }
}
