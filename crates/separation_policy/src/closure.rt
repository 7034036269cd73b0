//! Who reads whom and who is in whose view, with all that follows.
ghost use Rattle.std.specs.Prelude.{ℕ, ◌≡◌, ◌<◌, ◌≤◌, length, IfOk};
ghost use Rattle.separation_policy.specs.Policy.{may_learn, may_read, sees, sees_written, views};
ghost use Rattle.separation_policy.specs.Closure.{AreReachedBelow, HaveWritten, IsClosure, all_passed, closure_sees, closure_views, closure_written, linked_below, linked_by, passed, passed_by, row_reaches, writes_too, written_by};

use crate::domain_set::DomainSet;
use crate::policy::Policy;
use cap_format::OutOfMemory;
use std::alloc::Global;
use std::marker::Model;

/// Whom each domain of a policy reads, whom those write that it reads, and whom its view has. Each domain reads itself and
/// is in its view.
#[derive(Drop)]
pub struct Closure {
    reads: Vec<DomainSet>,
    written: Vec<DomainSet>,
    views: Vec<DomainSet>,
}

impl Model for Closure {
    ghost use Rattle.separation_policy.specs.Closure.{ClosureValue, closure_of};

    ghost Value = { ClosureValue };

    ghost view = { λ c. closure_of c.reads.items c.written.items c.views.items };
}

impl Closure {
    /// The closure of a policy.
    pub fn new(alloc: Global, policy: &Policy) -> Result<Closure, OutOfMemory>
        ensures { IfOk result (λ closure. IsClosure policy.now closure) }
    {
        let count = policy.len() as u8;
        let mut reads = read_rows(alloc, policy)?;
        pass_all(&mut reads, count);
        let written = written_rows(alloc, policy, &reads)?;
        let mut views = linked_rows(alloc, policy)?;
        pass_all(&mut views, count);
        Ok(Closure {
            reads,
            written,
            views,
        })
    }

    /// Whether domain `a` reads domain `b`.
    pub fn sees(&self, a: u8, b: u8) -> bool
        ensures { result ≡ closure_sees self.now a b }
    {
        reaches(&self.reads, a, b)
    }

    /// Whether one that domain `a` reads writes domain `d`.
    pub fn sees_written(&self, a: u8, d: u8) -> bool
        ensures { result ≡ closure_written self.now a d }
    {
        if d as usize >= self.written.len() {
            return false;
        }
        match self.written.get(a as usize) {
            Some(row) => row.contains(d),
            None => false,
        }
    }

    /// Whether the view of domain `a` has domain `b`.
    pub fn views(&self, a: u8, b: u8) -> bool
        ensures { result ≡ closure_views self.now a b }
    {
        reaches(&self.views, a, b)
    }
}

/// Whether domain `a` comes to domain `b` by a table.
fn reaches(rows: &[DomainSet], a: u8, b: u8) -> bool
    ensures { result ≡ row_reaches rows.now a b }
{
    if a == b {
        return true;
    }
    match rows.get(a as usize) {
        Some(row) => row.contains(b),
        None => false,
    }
}

/// Each domain with whom it may read.
fn read_rows(alloc: Global, policy: &Policy) -> Result<Vec<DomainSet>, OutOfMemory>
    ensures { IfOk result (λ rows. AreReachedBelow (may_read policy.now) (length policy.now.domains) 0 rows.items) }
{
    let mut rows = Vec::new(alloc);
    'each: for a in 0..policy.len() {
        rows.push(policy.reads(a as u8).with(a as u8))?;
    }
    Ok(rows)
}

/// Each domain with whom it may read or write, and who may write it.
fn linked_rows(alloc: Global, policy: &Policy) -> Result<Vec<DomainSet>, OutOfMemory>
    ensures { IfOk result (λ rows. AreReachedBelow (may_learn policy.now) (length policy.now.domains) 0 rows.items) }
{
    let mut rows = Vec::new(alloc);
    'each: for a in 0..policy.len() {
        rows.push(linked(policy, a as u8))?;
    }
    Ok(rows)
}

/// A domain with whom it may read or write, and who may write it.
fn linked(policy: &Policy, a: u8) -> DomainSet
    requires { a < length policy.now.domains }
    ensures { result ≡ linked_below policy.now a (length policy.now.domains) }
{
    let count = policy.len() as u8;
    let mut row = policy.reads(a).with(a);
    'each: for k in 0..count {
        row = with_link(policy, a, k, row);
    }
    row
}

/// A row with domain `k` too, where that may write domain `a` or be written by it.
fn with_link(policy: &Policy, a: u8, k: u8, row: DomainSet) -> DomainSet
    requires { k < 64 }
    ensures { result ≡ linked_by policy.now a k row }
{
    if policy.may_write(a, k) || policy.may_write(k, a) {
        return row.with(k);
    }
    row
}

/// Whom those write that each domain reads, by a table of whom each reads.
fn written_rows(
    alloc: Global,
    policy: &Policy,
    reads: &[DomainSet],
) -> Result<Vec<DomainSet>, OutOfMemory>
    requires { length reads.now ≡ length policy.now.domains }
    ensures { IfOk result (λ rows. HaveWritten policy.now reads.now rows.items) }
{
    let mut rows = Vec::new(alloc);
    'each: for a in 0..reads.len() {
        rows.push(written_by(policy, reads[a]))?;
    }
    Ok(rows)
}

/// Whom the domains of a set may write.
fn written_by(policy: &Policy, writers: DomainSet) -> DomainSet
    ensures { result ≡ written_by policy.now writers (length policy.now.domains) }
{
    let mut written = DomainSet::empty();
    'each: for k in 0..policy.len() as u8 {
        written = with_written(policy, writers, k, written);
    }
    written
}

/// A set with whom domain `k` may write, where it is of another set.
fn with_written(policy: &Policy, writers: DomainSet, k: u8, written: DomainSet) -> DomainSet
    ensures { result ≡ writes_too policy.now writers k written }
{
    if writers.contains(k) {
        return written.union(policy.writes(k));
    }
    written
}

/// All rows, by way of each of so many domains in turn.
fn pass_all(rows: &mut [DomainSet], count: u8)
    requires { count ≡ length rows.old }
    ensures { rows.new ≡ all_passed count rows.old }
{
    'each: for k in 0..count {
        pass(rows, k);
    }
}

/// Who comes to domain `k` comes to whatever that does.
fn pass(rows: &mut [DomainSet], k: u8)
    requires { k < length rows.old }
    ensures { rows.new ≡ passed k rows.old }
{
    let through = rows[k as usize];
    'each: for row in rows.iter_mut() {
        *row = passed_by(*row, k, through);
    }
}

/// The set of a domain, with what domain `k` comes to where it has that.
fn passed_by(row: DomainSet, k: u8, through: DomainSet) -> DomainSet
    ensures { result ≡ passed_by k through row }
{
    if row.contains(k) {
        return row.union(through);
    }
    row
}
