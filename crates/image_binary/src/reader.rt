//! The bytes that were taken from a source and not used yet, and where in the image they stand.
ghost use Rattle.std.specs.Prelude.{◌≡◌, ◌+◌, ◌-◌, ◌<◌, ◌≤◌, length, drop, IfOk};
ghost use Rattle.coy_io.specs.Limits.{input_limit};
ghost use Rattle.coy_io.specs.declared.window.TheConstants.{WINDOW};
ghost use Rattle.coy_io.specs.Causes.{HasCause};
ghost use Rattle.image_binary.specs.Laws.{AreBytes};
ghost use Rattle.image_binary.specs.Reader.{new_reader, offset_of, IsSupply, IsFilled, IsProbe};

use crate::fault::{ImageFault, ImageWord};
use coy_io::{Failed, INPUT_LIMIT, Source, Window};
use std::marker::Model;

/// What a source gave when it was asked for more.
#[derive(Clone, Copy)]
pub enum Supply {
    /// At least one byte.
    Bytes,
    /// Its end.
    End,
    /// A byte behind the last that is read.
    Past,
}

/// Holds bytes of an image, from the first that was not used on.
#[derive(Drop)]
pub struct ImageReader {
    window: Window,
    at: u32,
}

impl Model for ImageReader {
    ghost use Rattle.std.specs.Prelude.{◌+◌, ◌≤◌, length};
    ghost use Rattle.coy_io.specs.Limits.{input_limit};
    ghost use Rattle.image_binary.specs.Reader.{Reader};

    ghost Value = { Reader };

    ghost view = { λ r. record { at = r.at; held = r.window } };

    ghost invariant = { λ r. r.at + length r.window ≤ input_limit };
}

impl ImageReader {
    pub(crate) fn new() -> ImageReader
        ensures { result ≡ new_reader }
    {
        ImageReader {
            window: Window::new(),
            at: 0,
        }
    }

    /// The bytes that are held.
    pub(crate) fn held(&self) -> &[u8]
        ensures value { result.now ≡ self.now.held }
        ensures bytes { AreBytes result.now }
        ensures window { length self.now.held ≤ WINDOW }
        ensures limit { self.now.at + length self.now.held ≤ input_limit }
    {
        let held = self.window.as_slice();
        are_bytes(held);
        held
    }

    /// The field has this fault from which so many of the bytes stand that are held.
    pub(crate) fn refused(&self, left: usize, fault: ImageWord) -> ImageFault
        requires { left ≤ length self.now.held }
        ensures { result ≡ ImageFault.Refused (offset_of self.now left) fault }
    {
        let offset = self.at + (self.window.as_slice().len() - left) as u32;
        ImageFault::Refused { offset, fault }
    }

    /// Keeps the last of the bytes that are held, and uses those before them.
    pub(crate) fn keep(&mut self, left: usize)
        requires { left ≤ length self.old.held }
        ensures at { self.new.at + left ≡ self.old.at + length self.old.held }
        ensures held { self.new.held ≡ drop (length self.old.held - left) self.old.held }
    {
        let used = self.window.as_slice().len() - left;
        self.window.drop_front(used);
        self.at += used as u32;
    }

    /// Asks the source for bytes behind those that are held.
    pub(crate) fn ask<S: Source>(&mut self, source: &mut S) -> Result<Supply, Failed>
        requires { length self.old.held < WINDOW }
        ensures supply { IsSupply result self.old self.new (S.held source.old) (S.held source.new) }
        ensures cause { HasCause (S.faults source.old) (S.faults source.new) result }
    {
        let room = INPUT_LIMIT - self.at as usize - self.window.as_slice().len();
        if room == 0 {
            return probe(source);
        }
        match self.fill(room, source) {
            Ok(0) => Ok(Supply::End),
            Ok(_) => Ok(Supply::Bytes),
            Err(Failed) => Err(Failed),
        }
    }

    /// Takes at most `room` bytes from the source behind those that are held.
    fn fill<S: Source>(&mut self, room: usize, source: &mut S) -> Result<usize, Failed>
        requires some { 1 ≤ room }
        requires within { self.old.at + length self.old.held + room ≤ input_limit }
        requires window { length self.old.held < WINDOW }
        ensures filled { IsFilled result self.old self.new (S.held source.old) (S.held source.new) }
        ensures most { IfOk result (λ count. count ≤ room) }
        ensures cause { HasCause (S.faults source.old) (S.faults source.new) result }
    {
        let count = self.window.take_from(source, room)?;
        are_bytes(self.window.as_slice());
        Ok(count)
    }
}

/// Asks the source whether there is a byte behind the last that is read.
fn probe<S: Source>(source: &mut S) -> Result<Supply, Failed>
    ensures probe { IsProbe result (S.held source.old) (S.held source.new) }
    ensures cause { HasCause (S.faults source.old) (S.faults source.new) result }
{
    let mut spare = [0; 1];
    let given = source.take(&mut spare);
    are_bytes(&spare);
    let count = given?;
    if count == 0 {
        return Ok(Supply::End);
    }
    Ok(Supply::Past)
}

/// The numbers in a buffer have eight bits. There is nothing to do for it.
fn are_bytes(bytes: &[u8])
    ensures { AreBytes bytes.now }
{}
