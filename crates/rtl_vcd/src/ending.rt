//! The end of a line.

ghost use Rattle.std.specs.Prelude.{◌≡◌, ◌+◌, ◌≤◌, ◌++◌, length, take};

use std::simd::prelude::*;

/// The end of a line: so many of these bytes.
#[derive(Clone, Copy)]
pub(crate) struct End {
    pub(crate) bytes: [u8; 8],
    pub(crate) len: u8,
    ghost fits: { len ≤ 8 },
}

impl End {
    /// The end with this text.
    pub(crate) fn of(text: &[u8]) -> End
        requires { length text.now ≤ 8 }
        ensures { take result.len result.bytes ≡ text.now }
    {
        let mut bytes = [0u8; 8];
        bytes[..text.len()].copy_from_slice(text);
        End {
            bytes,
            len: text.len() as u8,
        }
    }

    /// Puts it behind the first bytes of the room, in one copy of all its bytes, which needs no
    /// call. What stands behind it is anything.
    pub(crate) fn put(&self, room: &mut [u8], from: usize)
        requires room { from + 8 ≤ length room.old }
        ensures text { take (from + self.now.len) room.new ≡ take from room.old ++ take self.now.len self.now.bytes }
        ensures long { length room.new ≡ length room.old }
    {
        let bytes = Simd::<u8, 8>::from_slice(&self.bytes);
        bytes.copy_to_slice(&mut room[from..]);
    }
}
