//! The bytes of a header or record that a piece cut.

ghost use Rattle.std.specs.Prelude.{◌≡◌, ◌+◌, ◌≤◌, ◌++◌, ◌↔◌, IsTrue, [], List, ℕ, length, take};

use crate::format::RECORD_ROOM;
use std::marker::Model;

/// The bytes of a header or record that a piece cut, in room for the longest.
#[derive(Drop)]
pub struct Partial {
    bytes: [u8; RECORD_ROOM],
    len: usize,
}

impl Model for Partial {
    ghost Value = { List ℕ };

    ghost view = { λ h. take h.len h.bytes };

    ghost invariant = { λ h. h.len ≤ 24 };
}

impl Partial {
    /// No bytes.
    pub fn new() -> Partial
        ensures { result ≡ [] }
    {
        Partial {
            bytes: [0; RECORD_ROOM],
            len: 0,
        }
    }

    /// The bytes.
    pub fn as_slice(&self) -> &[u8]
        ensures { result.now ≡ self.now }
    {
        &self.bytes[..self.len]
    }

    /// How many bytes there are.
    pub fn len(&self) -> usize
        ensures { result ≡ length self.now }
    {
        self.len
    }

    /// Whether there are none.
    pub fn is_empty(&self) -> bool
        ensures { IsTrue result ↔ (self.now ≡ []) }
    {
        self.len == 0
    }

    /// Puts more bytes after those that are here.
    pub fn append(&mut self, more: &[u8])
        requires { length self.old + length more.now ≤ 24 }
        ensures { self.new ≡ self.old ++ more.now }
    {
        let end = self.len + more.len();
        self.bytes[self.len..end].copy_from_slice(more);
        self.len = end;
    }

    /// Forgets the bytes.
    pub fn clear(&mut self)
        ensures { self.new ≡ [] }
    {
        self.len = 0;
    }
}
