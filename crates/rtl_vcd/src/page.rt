//! What was printed and hasn't gone to the sink yet.

ghost use Rattle.std.specs.Prelude.{◌≡◌, ◌+◌, ◌<◌, ◌≤◌, ◌++◌, ◌∷◌, ℕ, List, [], false, not, if◌then◌else◌, codes, length, map, take};
ghost use Rattle.std.specs.Str.{bytes_eq};
ghost use Rattle.rtl_vcd_values.specs.Values.{character};

use crate::ending::End;
use rtl_vcd_values::{LINE, put_run};
use std::marker::Model;

/// How many bytes a page has room for.
pub(crate) const PAGE: usize = 1024;

/// A page: so many bytes, the first of these. Contracts see the bytes.
#[derive(Drop)]
pub(crate) struct Page {
    bytes: [u8; 1024],
    len: usize,
}

impl Model for Page {
    ghost Value = { List ℕ };

    ghost view = { λ p. take p.len p.bytes };

    ghost invariant = { λ p. p.len ≤ 1024 };
}

impl Page {
    /// A page with nothing on it.
    pub(crate) fn new() -> Page
        ensures { result ≡ [] }
    {
        Page {
            bytes: [0; 1024],
            len: 0,
        }
    }

    /// What stands on it.
    pub(crate) fn text(&self) -> &[u8]
        ensures { result.now ≡ self.now }
    {
        &self.bytes[..self.len]
    }

    /// Whether it may have no room for another line.
    pub(crate) fn is_full(&self) -> bool
        ensures { result ≡ false → length self.now + 77 ≤ PAGE }
    {
        self.len > PAGE - LINE
    }

    /// Takes all off it.
    pub(crate) fn clear(&mut self)
        ensures { self.new ≡ [] }
    {
        self.len = 0;
    }

    /// Appends a byte.
    pub(crate) fn push(&mut self, byte: u8)
        requires room { length self.old < PAGE }
        ensures { self.new ≡ self.old ++ byte ∷ [] }
    {
        self.bytes[self.len] = byte;
        self.len += 1;
    }

    /// Appends these bytes.
    pub(crate) fn push_all(&mut self, bytes: &[u8])
        requires room { length self.old + length bytes.now ≤ PAGE }
        ensures bytes { self.new ≡ self.old ++ bytes.now }
        ensures len { length self.new ≡ length self.old + length bytes.now }
    {
        let beyond = self.len + bytes.len();
        self.bytes[self.len..beyond].copy_from_slice(bytes);
        self.len = beyond;
    }

    /// Appends the line of a character that has this end.
    pub(crate) fn push_character(&mut self, byte: u8, end: &End)
        requires room { length self.old + 77 ≤ PAGE }
        ensures { self.new ≡ self.old ++ byte ∷ take end.now.len end.now.bytes }
    {
        let first = self.len + 1;
        self.bytes[self.len] = byte;
        end.put(&mut self.bytes, first);
        self.len = first + end.len as usize;
    }

    /// Appends the end of a line.
    pub(crate) fn push_end(&mut self, end: &End)
        requires room { length self.old + 8 ≤ PAGE }
        ensures { self.new ≡ self.old ++ take end.now.len end.now.bytes }
    {
        end.put(&mut self.bytes, self.len);
        self.len += end.len as usize;
    }

    /// Appends the line of a vector that has this end, if its values print otherwise in `new` than
    /// in `old`. Answers whether they do.
    ///
    /// The line is put behind what stands on the page while its values are looked at. It counts
    /// only where they print otherwise.
    pub(crate) fn push_vector(&mut self, old: &[u8], new: &[u8], end: &End) -> bool
        requires as_many { length old.now ≡ length new.now }
        requires short { length new.now ≤ 64 }
        requires room { length self.old + 77 ≤ PAGE }
        ensures line { self.new ≡ self.old
            ++ (if result then (codes "b" ++ map character new.now ++ take end.now.len end.now.bytes) else []) }
        ensures other { result ≡ not (bytes_eq (map character old.now) (map character new.now)) }
    {
        let first = self.len + 1;
        self.bytes[self.len] = b'b';
        if !put_run(&mut self.bytes, first, old, new) {
            return false;
        }
        let beyond = first + new.len();
        end.put(&mut self.bytes, beyond);
        self.len = beyond + end.len as usize;
        true
    }
}
