//! The lines of a source, one after the other.
ghost use Rattle.std.specs.Prelude.{◌≡◌, ◌≢◌, ◌+◌, ◌-◌, ◌<◌, ◌≤◌, ◌==◌, ℕ, if◌then◌else◌, length, take, drop, true, false, Ok, Err, Some, None, IfOk, IfSome, OnSome, is_err};
ghost use Rattle.std.specs.Io.KnownBytes.{Keeps, IsAtEnd, prepend_known};
ghost use Rattle.coy_io.specs.Limits.{line_limit, input_limit};
ghost use Rattle.coy_io.specs.Causes.{Rose};
ghost use Rattle.coy_io.specs.Pieces.{CountsIn};
ghost use Rattle.coy_io.specs.Lines.{line_len, IsFront};
ghost use Rattle.coy_io.specs.Reader.{Reader, new_reader, taken_by, bytes_ahead, ahead, GivesNear, IsLine, IsNext, IsSpent, IsLeft, TellsEnd, lines_in, ends_by, read_faults_in, giving, finished};

use crate::last_line::LastLine;
use crate::search::find_line;
use crate::window::Window;
use crate::{INPUT_LIMIT, LINE_LIMIT, Source};
use std::marker::Model;
use thiserror::Error;

/// Why no further line is given.
#[derive(Clone, Copy, Debug, Error)]
pub enum LineFault {
    /// The source failed.
    #[error("the input could not be read")]
    ReadFault,
    /// More than 512 bytes have no line feed among them.
    #[error("a line is too long")]
    LineTooLong,
    /// There are bytes behind the first 16,777,216.
    #[error("the input is too long")]
    TooLong,
}

/// Reads lines. It keeps the bytes that it has taken and not given, and the line given last.
#[derive(Drop)]
pub struct LineReader {
    window: Window,
    line: LastLine,
    room: usize,
    number: u32,
    ended: bool,
    failed: bool,
}

impl Model for LineReader {
    ghost use Rattle.coy_io.specs.Reader.{Reader, IsReader};

    ghost Value = { Reader };

    ghost view = { λ r. record {
      line = r.line;
      rest = r.window;
      room = r.room;
      number = r.number;
      ended = r.ended;
      failed = r.failed;
    } };

    ghost invariant = { λ r. IsReader (record {
      line = r.line;
      rest = r.window;
      room = r.room;
      number = r.number;
      ended = r.ended;
      failed = r.failed;
    }) };
}

impl LineReader {
    /// A reader that has taken nothing.
    pub fn new() -> LineReader
        ensures { result ≡ new_reader }
    {
        LineReader {
            window: Window::new(),
            line: LastLine::new(),
            room: INPUT_LIMIT,
            number: 0,
            ended: false,
            failed: false,
        }
    }

    /// The line given last, without its line feed.
    pub fn line(&self) -> &[u8]
        ensures value { result.now ≡ self.now.line }
        ensures bound { length self.now.line ≤ line_limit }
    {
        self.line.as_slice()
    }

    /// The number of the line given last. The first line has the number 1.
    pub fn number(&self) -> u32
        ensures value { result ≡ self.now.number }
        ensures bound { result ≤ input_limit }
    {
        self.number
    }

    /// Whether the last call of `next` answered a fault. Then there is no further call.
    pub fn failed(&self) -> bool
        ensures { result ≡ self.now.failed }
    {
        self.failed
    }

    /// Goes on to the next line, and answers its length without the line feed. The last line may
    /// lack its line feed. `None` is the end. Bytes are taken from the source only where the reader
    /// holds no whole line, and none any more once the source told its end. After a fault there is
    /// no further call.
    pub fn next<S: Source>(&mut self, source: &mut S) -> Result<Option<usize>, LineFault>
        requires { self.old.failed ≡ false }

        // The lines of the bytes held, followed by those that the source has left.
        ensures next { let old = ahead self.old (S.held source.old) in
            let new = ahead self.new (S.held source.new) in IsNext result self.new.line old new }
        ensures bytes { let old = bytes_ahead self.old (S.held source.old) in
            let new = bytes_ahead self.new (S.held source.new) in IsSpent result self.new old new }
        ensures line { IfOk result (λ given. IfSome given (λ n. IsLine n self.new.line)) }
        ensures near { IfOk result (λ given. OnSome given
            (GivesNear self.old self.new (S.held source.old) (S.held source.new))) }
        ensures shorter { IfOk result (λ given. OnSome given (self.new.room < self.old.room)) }
        ensures number { self.new.number ≡ self.old.number + lines_in result }
        ensures failed { self.new.failed ≡ is_err result }
        ensures left { IsLeft result self.old self.new }
        ensures unfinished { result ≡ Err LineFault.ReadFault → IsFront self.new.rest }

        // What happens to the source.
        ensures read { result ≡ Err LineFault.ReadFault →
            Rose (S.faults source.old) (S.faults source.new) }
        ensures quiet { result ≢ Err LineFault.ReadFault →
            S.faults source.new ≡ S.faults source.old }
        ensures held { (line_len self.old.rest < length self.old.rest) → source.new ≡ source.old }
        ensures ended { self.old.ended ≡ true → (result ≡ Ok None) × (source.new ≡ source.old) }
        ensures told { TellsEnd self.old (S.held source.old) →
            TellsEnd self.new (S.held source.new) }
        ensures most { taken_by self.new ≤ input_limit + 1 }

        // Each call gave a byte, but for one that told the end or failed: there is none behind it.
        ensures counts { CountsIn S.given S.calls S.idle source.old source.new
            (taken_by self.old) (taken_by self.new)
            (ends_by self.old) (ends_by self.new + read_faults_in result) }
    {
        if self.ended {
            return Ok(None);
        }
        match find_line(&mut self.window, self.room, source) {
            Ok(Some(len)) => Ok(Some(self.give(len, len + 1))),
            Ok(None) => Ok(self.finish()),
            Err(fault) => {
                self.failed = true;
                Err(fault)
            }
        }
    }

    /// Gives `len` bytes as a line, and drops the `spent` bytes in which it stands.
    fn give(&mut self, len: usize, spent: usize) -> usize
        requires failed { self.old.failed ≡ false }
        requires ended { self.old.ended ≡ false }
        requires short { len ≤ line_limit }
        requires held { spent ≤ length self.old.rest }
        requires within { len ≤ spent }
        requires some { 1 ≤ spent }
        ensures len { result ≡ len }
        ensures given { self.new ≡ giving len spent self.old }
    {
        self.line.set(&self.window.as_slice()[..len]);
        self.window.drop_front(spent);
        self.room -= spent;
        self.number += 1;
        len
    }

    /// Gives what is held as the last line, unless nothing is.
    fn finish(&mut self) -> Option<usize>
        requires failed { self.old.failed ≡ false }
        requires ended { self.old.ended ≡ false }
        requires short { length self.old.rest ≤ line_limit }
        ensures finished { self.new ≡ finished self.old }
        ensures given { let len = length self.old.rest in
            result ≡ (if len == 0 then None else Some len) }
    {
        let len = self.window.as_slice().len();
        if len == 0 {
            self.ended = true;
            return None;
        }
        let len = self.give(len, len);
        self.ended = true;
        Some(len)
    }
}
