//! A page of bytes.
ghost use Rattle.std.specs.Prelude.{◌≡◌, ◌+◌, ◌≤◌, length};
ghost use Rattle.page_store.specs.Page.{IsPage, bytes_at, with_bytes, empty_page};

use std::marker::Model;

/// 4,096 bytes. It is large: keep it on the heap.
#[derive(Drop)]
pub struct Page {
    bytes: [u8; 4096],
}

impl Model for Page {
    ghost use Rattle.std.specs.Prelude.{List, ℕ};
    ghost use Rattle.page_store.specs.Page.{IsPage};

    ghost Value = { List ℕ };

    ghost view = { λ p. p.bytes };

    ghost invariant = { λ p. IsPage p.bytes };
}

impl Page {
    pub fn new() -> Page
        ensures empty { result ≡ empty_page }
        ensures size { IsPage result }
    {
        Page { bytes: zeros() }
    }

    /// Does nothing: its contract tells callers what every page keeps.
    pub fn tell_range(&self)
        ensures { IsPage self.now }
    {
        let _bytes = &self.bytes;
    }

    /// All bytes, as they stand.
    pub fn bytes(&self) -> &[u8; 4096]
        ensures bytes { result.now ≡ self.now }
        ensures size { IsPage self.now }
    {
        &self.bytes
    }

    /// Fills `into` with the bytes from offset `at` on.
    pub fn read(&self, at: u16, into: &mut [u8])
        requires { at + length into.old ≤ 4096 }
        ensures bytes { into.new ≡ bytes_at self.now at (length into.old) }
        ensures size { IsPage self.now }
    {
        let start = at as usize;
        let end = start + into.len();
        into.copy_from_slice(&self.bytes[start..end]);
    }

    /// Puts `bytes` at offset `at`.
    pub fn write(&mut self, at: u16, bytes: &[u8])
        requires { at + length bytes.now ≤ 4096 }
        ensures bytes { self.new ≡ with_bytes self.old at bytes.now }
        ensures size { IsPage self.new }
    {
        let start = at as usize;
        let end = start + bytes.len();
        self.bytes[start..end].copy_from_slice(bytes);
    }

    pub fn erase(&mut self)
        ensures empty { self.new ≡ empty_page }
        ensures size { IsPage self.new }
    {
        self.bytes = zeros();
    }

    /// Becomes a copy of another page.
    pub fn copy_from(&mut self, from: &Page)
        ensures copy { self.new ≡ from.now }
    {
        self.bytes = from.bytes;
    }
}

#[tactic(auto, unfolding(crate::specs::Page::empty_page))]
fn zeros() -> [u8; 4096]
    ensures empty { result ≡ empty_page }
    ensures size { IsPage result }
{
    [0; 4096]
}
