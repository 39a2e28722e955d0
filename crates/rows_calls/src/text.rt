//! Texts that grow piece by piece.

ghost use Rattle.std.specs.Prelude.{◌≡◌, Some};
ghost use Rattle.byte_streams.specs.Written.{IsIntact};

use byte_streams::Sink;
use std::alloc::Global;
use std::fmt::{Debug, Display};
use std::io;
use std::io::{ErrorKind, Write};

/// The bytes of a text. Where memory for a piece is refused, the text is short from then on: that
/// is asked once, in the end, and not at each piece.
#[derive(Drop)]
pub struct Text {
    bytes: Vec<u8>,
    is_short: bool,
}

impl Text {
    /// An empty text.
    pub fn new(alloc: Global) -> Text
        ensures { IsIntact (⟦<Text as Sink>⟧.state result) }
    {
        Text {
            bytes: Vec::new(alloc),
            is_short: false,
        }
    }

    /// The text of these bytes.
    pub fn of(bytes: Vec<u8>) -> Text {
        Text {
            bytes,
            is_short: false,
        }
    }

    /// Adds a text.
    pub fn push(&mut self, piece: &str) {
        self.push_bytes(piece.as_bytes());
    }

    /// Adds a text and the end of its line.
    pub fn push_line(&mut self, line: &str) {
        self.push(line);
        self.push("\n");
    }

    /// Adds bytes.
    pub fn push_bytes(&mut self, piece: &[u8]) {
        let _count = self.put(piece);
    }

    /// Adds a number in decimal digits.
    pub fn push_number(&mut self, number: usize) {
        byte_streams::push_number(self, number as u64);
    }

    /// Adds the name of a value.
    pub fn push_named(&mut self, value: &impl Debug) {
        if write!(self.bytes, "{value:?}").is_err() {
            self.is_short = true;
        }
    }

    /// Adds a value as it is shown.
    pub fn push_shown(&mut self, value: &impl Display) {
        if write!(self.bytes, "{value}").is_err() {
            self.is_short = true;
        }
    }

    /// Is short where another text is, of which something was made.
    pub fn heed(&mut self, other: &Text) {
        self.is_short = self.is_short || other.is_short;
    }

    pub fn as_bytes(&self) -> &[u8] {
        self.bytes.as_slice()
    }

    pub fn as_str(&self) -> &str {
        str::from_utf8(&self.bytes).unwrap_or("not UTF-8")
    }

    /// Prints the text.
    ///
    /// # Errors
    ///
    /// `OutOfMemory` where it is short, and those of printing.
    pub fn print(&self, rt: &impl Print) -> io::Result<()> {
        if self.is_short {
            return Err(io::Error::from(ErrorKind::OutOfMemory));
        }
        rt.print(self.as_str())
    }
}

impl Sink for Text {
    ghost state = { λ s. record { taken = Some s.bytes.items; failed = s.is_short } };

    fn put(&mut self, bytes: &[u8]) -> usize {
        if bytes.is_empty() {
            return 0;
        }
        match self.bytes.extend_from_slice(bytes) {
            Ok(()) => bytes.len(),
            Err(_) => {
                self.is_short = true;
                0
            }
        }
    }

    fn failed(&self) -> bool {
        self.is_short
    }
}
