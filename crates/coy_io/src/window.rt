//! The bytes that were taken from a source and not used yet.
ghost use Rattle.std.specs.Prelude.{◌≡◌, ℕ, ◌+◌, ◌-◌, ◌<◌, ◌≤◌, List, [], Ok, length, take, drop, IfOk};
ghost use Rattle.std.specs.Io.KnownBytes.{Keeps, IsAtEnd, ReadConsumes, prepend_known};
ghost use Rattle.coy_io.specs.Causes.{HasCause};
ghost use Rattle.coy_io.specs.Pieces.{moved, CountsCall};
ghost use Rattle.coy_io.specs.declared.window.TheConstants.{WINDOW};

use crate::{Failed, Source};
use std::marker::Model;

/// How many bytes a window holds at most.
pub const WINDOW: usize = 4096;

/// Bytes of a source, from the first that was not used on.
#[derive(Drop)]
pub struct Window {
    bytes: [u8; WINDOW],
    from: usize,
    end: usize,
}

impl Model for Window {
    ghost Value = { List ℕ };

    ghost view = { λ w. take (w.end - w.from) (drop w.from w.bytes) };

    ghost invariant = { λ w. (w.from ≤ w.end) × (w.end ≤ WINDOW) };
}

impl Window {
    /// A window that holds no bytes.
    pub fn new() -> Window
        ensures { result ≡ [] }
    {
        Window {
            bytes: [0; WINDOW],
            from: 0,
            end: 0,
        }
    }

    /// The bytes that are held.
    pub fn as_slice(&self) -> &[u8]
        ensures value { result.now ≡ self.now }
        ensures bound { length self.now ≤ WINDOW }
    {
        &self.bytes[self.from..self.end]
    }

    /// Uses the first of the bytes.
    pub fn drop_front(&mut self, count: usize)
        requires { count ≤ length self.old }
        ensures { self.new ≡ drop count self.old }
    {
        self.from += count;
    }

    /// Takes bytes from the source behind those that are there, at most `most` of them.
    pub fn take_from<S: Source>(&mut self, source: &mut S, most: usize) -> Result<usize, Failed>
        requires room { length self.old < WINDOW }
        requires some { 1 ≤ most }
        ensures ahead { Keeps (prepend_known self.old (S.held source.old))
            (prepend_known self.new (S.held source.new)) }
        ensures front { take (length self.old) self.new ≡ self.old }
        ensures length { length self.new ≡ length self.old + moved result }
        ensures most { moved result ≤ most }
        ensures end { result ≡ Ok 0 → IsAtEnd (S.held source.new) }
        ensures cause { HasCause (S.faults source.old) (S.faults source.new) result }
        ensures counts { CountsCall S.given S.calls S.idle source.old source.new (moved result) }
    {
        to_front(&mut self.bytes, self.from, self.end);
        self.end -= self.from;
        self.from = 0;
        let most = most.min(WINDOW - self.end);
        let count = take_behind(source, &mut self.bytes, self.end, most)?;
        self.end += count;
        Ok(count)
    }
}

fn to_front(bytes: &mut [u8], from: usize, end: usize)
    requires order { from ≤ end }
    requires within { end ≤ length bytes.old }
    ensures { take (end - from) bytes.new ≡ take (end - from) (drop from bytes.old) }
{
    if from > 0 {
        bytes.copy_within(from..end, 0);
    }
}

fn take_behind<S: Source>(
    source: &mut S,
    bytes: &mut [u8],
    at: usize,
    most: usize,
) -> Result<usize, Failed>
    requires within { at + most ≤ length bytes.old }
    requires some { 1 ≤ most }
    ensures front { take at bytes.new ≡ take at bytes.old }
    ensures bytes { ReadConsumes (S.held source.old) (S.held source.new) result
        (drop at bytes.new) }
    ensures most { moved result ≤ most }
    ensures cause { HasCause (S.faults source.old) (S.faults source.new) result }
    ensures counts { CountsCall S.given S.calls S.idle source.old source.new (moved result) }
{
    source.take(&mut bytes[at..at + most])
}
