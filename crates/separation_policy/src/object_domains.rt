//! The domains that the objects of one kind were assigned.
ghost use Rattle.std.specs.Prelude.{ℕ, ◌≡◌, ◌≤◌, ◌<◌, ◌+◌, ◌-◌, drop, false, length, replicate, slice_index_or, take, IfOk};
ghost use Rattle.std.specs.List.{list_any};
ghost use Rattle.separation_policy.specs.Policy.{domain_or_rest};
ghost use Rattle.separation_policy.specs.Making.{assigned_between, count_in, is_other};

use cap_format::OutOfMemory;
use std::alloc::Global;
use std::cmp::max;
use std::marker::Model;

/// The domain that each object of a kind was assigned, where one was.
///
/// Beside each object stands how far the longest range goes that was assigned from it on, so a range that begins there is
/// looked at only behind that. However many ranges are assigned, what all of them cost is bounded: each object counts once
/// for each object with which a range begins. That is lost where a domain takes objects from another, which costs a walk
/// over all objects.
#[derive(Drop)]
pub(crate) struct ObjectDomains {
    domains: Vec<Option<u8>>,
    /// For each object the end of what is known to be of its domain from there on: the number of the first object behind
    /// it. Nothing is known where that isn't above the object's own.
    ends: Vec<u16>,
}

impl Model for ObjectDomains {
    ghost use Rattle.std.specs.Prelude.{ℕ, List, Option};
    ghost use Rattle.separation_policy.specs.ObjectDomains.{KnowsRuns};

    ghost Value = { List (Option ℕ) };

    ghost view = { λ objects. objects.domains.items };

    ghost invariant = { λ objects. KnowsRuns objects.domains.items objects.ends.items };
}

impl ObjectDomains {
    /// So many objects, none of which was assigned a domain.
    pub(crate) fn new(alloc: Global, count: u16) -> Result<ObjectDomains, OutOfMemory>
        ensures { IfOk result (λ objects. objects ≡ replicate count None) }
    {
        Ok(ObjectDomains {
            domains: vec![in alloc; None; count as usize]?,
            ends: vec![in alloc; 0; count as usize]?,
        })
    }

    /// How many objects there are.
    pub(crate) fn len(&self) -> usize
        ensures value { result ≡ length self.now }
        ensures small { result < 65536 }
    {
        self.domains.len()
    }

    /// The domain of an object. One that there isn't is of `rest`.
    pub(crate) fn domain_of(&self, number: u32) -> u8
        ensures { result ≡ domain_or_rest (slice_index_or self.now number None) }
    {
        match self.domains.get(number as usize) {
            Some(assigned) => assigned_or_rest(*assigned),
            None => 0,
        }
    }

    /// How many objects are of a domain.
    pub(crate) fn count_in(&self, domain: u8) -> u32
        ensures value { result ≡ count_in domain self.now }
        ensures small { result < 65536 }
    {
        self.domains
            .iter()
            .filter(|one| assigned_or_rest(**one) == domain)
            .count() as u32
    }

    /// Whether another domain was assigned to one of the objects `from` to `to`, both of them included.
    pub(crate) fn is_assigned_other(&self, from: u16, to: u16, domain: u8) -> bool
        requires order { from ≤ to }
        requires there { to < length self.now }
        ensures { result ≡ list_any (is_other domain) (take (to + 1 - from) (drop from self.now)) }
    {
        let first = from as usize;
        let last = to as usize;
        if is_other(domain, self.domains[first]) {
            return true;
        }
        let behind = max(self.ends[first] as usize, first + 1);
        behind <= last && has_other(domain, &self.domains[behind..=last])
    }

    /// Assigns a domain to the objects `from` to `to`, both of them included.
    pub(crate) fn assign(&mut self, from: u16, to: u16, domain: u8)
        requires order { from ≤ to }
        requires there { to < length self.old }
        ensures { self.new ≡ assigned_between self.old from to domain }
    {
        if self.is_assigned_other(from, to, domain) {
            self.overwrite(from, to, domain);
        } else {
            self.extend(from, to, domain);
        }
    }

    /// Assigns a domain to objects of which others may have some. Nothing is known of ranges afterwards.
    fn overwrite(&mut self, from: u16, to: u16, domain: u8)
        requires order { from ≤ to }
        requires there { to < length self.old }
        ensures { self.new ≡ assigned_between self.old from to domain }
    {
        put_between(&mut self.domains, from as usize, to as usize, domain);
        self.ends.fill(0);
    }

    /// Assigns a domain to objects of which no other has any.
    fn extend(&mut self, from: u16, to: u16, domain: u8)
        requires order { from ≤ to }
        requires there { to < length self.old }
        requires free { list_any (is_other domain) (take (to + 1 - from) (drop from self.old))
            ≡ false }
        ensures { self.new ≡ assigned_between self.old from to domain }
    {
        let first = from as usize;
        let behind = max(self.ends[first], from);
        if behind <= to {
            put_between(&mut self.domains, behind as usize, to as usize, domain);
            self.ends[first] = to + 1;
        }
    }
}

/// The domain that was assigned, or `rest`.
fn assigned_or_rest(assigned: Option<u8>) -> u8
    ensures { result ≡ domain_or_rest assigned }
{
    match assigned {
        Some(domain) => domain,
        None => 0,
    }
}

/// Whether another domain than this was assigned.
fn is_other(domain: u8, assigned: Option<u8>) -> bool
    ensures { result ≡ is_other domain assigned }
{
    match assigned {
        Some(other) => other != domain,
        None => false,
    }
}

/// Whether another domain than this was assigned to one of these objects.
fn has_other(domain: u8, assigned: &[Option<u8>]) -> bool
    ensures { result ≡ list_any (is_other domain) assigned.now }
{
    assigned.iter().any(|one| is_other(domain, *one))
}

/// Assigns a domain to the elements from `from` to `to`.
fn put_between(assigned: &mut [Option<u8>], from: usize, to: usize, domain: u8)
    requires order { from ≤ to }
    requires there { to < length assigned.old }
    ensures { assigned.new ≡ assigned_between assigned.old from to domain }
{
    assigned[from..=to].fill(Some(domain));
}
