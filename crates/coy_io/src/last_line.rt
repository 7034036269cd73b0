//! The line that was given last.
ghost use Rattle.std.specs.Prelude.{◌≡◌, ℕ, ◌≤◌, List, [], length, take};
ghost use Rattle.coy_io.specs.Limits.{line_limit};

use crate::LINE_LIMIT;
use std::marker::Model;

#[derive(Drop)]
pub(crate) struct LastLine {
    bytes: [u8; LINE_LIMIT],
    len: usize,
}

impl Model for LastLine {
    ghost Value = { List ℕ };

    ghost view = { λ l. take l.len l.bytes };

    ghost invariant = { λ l. l.len ≤ line_limit };
}

impl LastLine {
    pub(crate) fn new() -> LastLine
        ensures { result ≡ [] }
    {
        LastLine {
            bytes: [0; LINE_LIMIT],
            len: 0,
        }
    }

    pub(crate) fn as_slice(&self) -> &[u8]
        ensures value { result.now ≡ self.now }
        ensures bound { length self.now ≤ line_limit }
    {
        &self.bytes[..self.len]
    }

    pub(crate) fn set(&mut self, line: &[u8])
        requires { length line.now ≤ line_limit }
        ensures { self.new ≡ line.now }
    {
        self.bytes[..line.len()].copy_from_slice(line);
        self.len = line.len();
    }
}
