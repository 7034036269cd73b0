//! The generated text as a source: it is made pair by pair, and never held whole.
ghost use Rattle.std.specs.Prelude.{◌≡◌, ◌≤◌, ◌<◌, ◌+◌, ◌-◌, ◌++◌, Some, [], length, min, take, drop, slice_index_or, decimal, IsOk, IfOk};
ghost use Rattle.std.specs.Io.KnownBytes.{ReadConsumes};
ghost use Rattle.coy_io.specs.Causes.{HasCause};
ghost use Rattle.generated_text.specs.Text.{pairs_of, calls_of, head_text, tail_text, make_text, pieces_of, ahead_of};

use crate::pair::push_pair;
use coy_io::{Failed, Source};
use coy_text::LineBuf;

/// The text of a number: pairs of processes that send to one another, and a schedule in which all
/// calls end. It takes constant memory, and time that is linear in the bytes given.
#[derive(Drop)]
pub struct MakeSource {
    n: u32,
    /// How many pieces were made: the head, one for each pair, and the tail.
    done: u8,
    piece: LineBuf,
    /// How many bytes of the piece were given.
    at: usize,
    ghost within: { at ≤ length piece },
}

impl MakeSource {
    pub fn new(n: u32) -> MakeSource
        ensures { ahead_of result.n result.done result.piece result.at ≡ make_text n }
    {
        MakeSource {
            n,
            done: 0,
            piece: LineBuf::new(),
            at: 0,
        }
    }

    /// Fills the front of `buf` with the next bytes of the text, and answers how many: none only where
    /// no byte is left, or none fits.
    pub fn fill(&mut self, buf: &mut [u8]) -> usize
        ensures bound { result ≤ length buf.new }
        ensures bytes { let s = self.old in let t = self.new in
            let left = ahead_of t.n t.done t.piece t.at in
            ahead_of s.n s.done s.piece s.at ≡ take result buf.new ++ left }
        ensures end { let t = self.new in result ≡ 0 → 0 < length buf.new →
            ahead_of t.n t.done t.piece t.at ≡ [] }
    {
        self.refill();
        self.give(buf)
    }

    /// Goes on to the next piece, where this one was given and there is one.
    #[tactic(auto, using(crate::proofs::Pieces::renewed, crate::proofs::Pieces::used_up))]
    fn refill(&mut self)
        ensures held { let s = self.old in let t = self.new in
            ahead_of t.n t.done t.piece t.at ≡ ahead_of s.n s.done s.piece s.at }
        ensures end { let t = self.new in
            length t.piece ≤ t.at → ahead_of t.n t.done t.piece t.at ≡ [] }
    {
        if self.at < self.piece.as_bytes().len() {
            return;
        }
        if self.done > pairs(self.n) + 1 {
            return;
        }
        make_piece(&mut self.piece, self.n, self.done);
        self.done += 1;
        self.at = 0;
    }

    /// Gives bytes of the piece, as many as are left of it and fit.
    #[tactic(auto, using(crate::proofs::Pieces::given_front))]
    fn give(&mut self, buf: &mut [u8]) -> usize
        ensures bound { result ≤ length buf.new }
        ensures bytes { let s = self.old in let t = self.new in
            let left = ahead_of t.n t.done t.piece t.at in
            ahead_of s.n s.done s.piece s.at ≡ take result buf.new ++ left }
        ensures none { result ≡ 0 → 0 < length buf.new →
            length self.old.piece ≤ self.old.at }
    {
        let count = fill_front(buf, self.piece.as_bytes(), self.at);
        self.at += count;
        count
    }
}

impl Source for MakeSource {
    ghost held = { λ s. Some (ahead_of s.n s.done s.piece s.at) };

    ghost faults = { λ _. 0 };

    fn take(&mut self, buf: &mut [u8]) -> Result<usize, Failed>
        ensures bound { IfOk result (λ n. n ≤ length buf.new) }
        ensures bytes { let s = self.old in let t = self.new in
            let before = ahead_of s.n s.done s.piece s.at in
            let left = ahead_of t.n t.done t.piece t.at in
            ReadConsumes (Some before) (Some left) result buf.new }
        ensures never_fails { IsOk result }
        ensures cause { HasCause 0 0 result }
    {
        Ok(self.fill(buf))
    }
}

/// Fills the front of `buf` with bytes from offset `at` on, as many as there are and fit.
fn fill_front(buf: &mut [u8], bytes: &[u8], at: usize) -> usize
    requires { at ≤ length bytes.now }
    ensures count { result ≡ min (length bytes.now - at) (length buf.old) }
    ensures moved { take result buf.new ≡ take result (drop at bytes.now) }
{
    let rest = bytes.split_at(at).1;
    let count = rest.len().min(buf.len());
    buf[..count].copy_from_slice(&rest[..count]);
    count
}

/// How many pairs there are.
fn pairs(n: u32) -> u8
    ensures value { result ≡ pairs_of n }
    ensures most { result ≤ 63 }
{
    1 + (n % 63) as u8
}

/// How often each client calls.
fn calls(n: u32) -> u32
    ensures value { result ≡ calls_of n }
    ensures most { result ≤ 1000 }
{
    1 + n / 64 % 1000
}

/// Makes the piece behind the first `done`.
#[tactic(auto, using(crate::proofs::Pieces::first_piece, crate::proofs::Pieces::pair_piece, crate::proofs::Pieces::last_piece))]
fn make_piece(line: &mut LineBuf, n: u32, done: u8)
    requires { done ≤ pairs_of n + 1 }
    ensures text { line.new ≡ slice_index_or (pieces_of n) done [] }
    ensures some { 1 ≤ length line.new }
{
    line.clear();
    let count = pairs(n);
    if done == 0 {
        push_head(line, n, count);
        return;
    }
    if done <= count {
        push_pair(line, calls(n), done - 1);
        return;
    }
    push_tail(line, n, count);
}

/// Appends the first two lines.
#[tactic(auto, unfolding(crate::specs::Text::head_text))]
fn push_head(line: &mut LineBuf, n: u32, count: u8)
    requires empty { line.old ≡ [] }
    requires pairs { count ≡ pairs_of n }
    requires most { count ≤ 63 }
    ensures text { line.new ≡ line.old ++ head_text n }
    ensures some { 1 ≤ length line.new }
{
    let twice = 2 * count as u32;
    line.push_word("coyotos 1");
    line.push_word("\n");
    line.push_numbered("machine ", 1 + n % 8);
    line.push_numbered(" ", twice);
    line.push_numbered(" 0 ", twice);
    line.push_numbered(" ", twice);
    line.push_numbered(" ", twice);
    line.push_word("\n");
}

/// Appends the last two lines.
#[tactic(auto, unfolding(crate::specs::Text::tail_text))]
fn push_tail(line: &mut LineBuf, n: u32, count: u8)
    requires empty { line.old ≡ [] }
    requires pairs { count ≡ pairs_of n }
    requires most { count ≤ 63 }
    ensures text { line.new ≡ line.old ++ tail_text n }
    ensures some { 1 ≤ length line.new }
{
    line.push_word("end");
    line.push_word("\n");
    line.push_numbered("round ", count as u32 * (13 * calls(n) + 20));
    line.push_word("\n");
}
