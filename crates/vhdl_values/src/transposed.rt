//! Up to eight codes as the bytes of a word, and their planes.

ghost use Rattle.std.specs.Prelude.{ℕ, ◌≡◌, ◌<◌, ◌≤◌, ◌^◌, Bool, List, length, map};
ghost use Rattle.std.specs.List.{All};
ghost use Rattle.vhdl_values.specs.Packed.{packed, packed_low};
ghost use Rattle.vhdl_values.specs.Planes.{bit, code_has, marks};

use crate::spreads::SPREADS;
use crate::words::beside;

/// Bit 0 of each byte.
const LOWEST: u64 = 0x0101_0101_0101_0101;

/// Times this, bit 0 of each byte comes into the highest byte, that of the highest byte first.
const GATHER: u64 = 0x0102_0408_1020_4080;

/// Up to eight codes as the bytes of a word, the last one lowest.
pub(crate) fn packed(codes: &[u8]) -> u64
    requires { length codes.now ≤ 8 }
    ensures { result ≡ packed codes.now }
{
    if codes.len() == 8 {
        return u64::from_be_bytes([
            codes[0], codes[1], codes[2], codes[3], codes[4], codes[5], codes[6], codes[7],
        ]);
    }
    let mut word = 0;
    for code in codes {
        word = beside(word, u64::from(*code), 8);
    }
    word
}

/// One plane of the codes that a word has as its bytes.
pub(crate) fn gathered(word: u64, plane: usize) -> u64
    requires { plane < 8 }
    ensures { (codes : List ℕ) → length codes ≤ 8 → All (λ code. code < 256) codes → word ≡ packed codes
        → result ≡ marks (code_has plane) codes }
{
    let bits = (word & (LOWEST << plane)) >> plane;
    bits.wrapping_mul(GATHER) >> 56
}

/// The bits of a plane as the lowest bits of eight bytes, the leftmost bit in the lowest byte.
pub(crate) fn spread(plane: u8) -> u64
    ensures room { result < 2 ^ 58 }
    ensures bits { (marked : List Bool) → length marked ≡ 8 → plane ≡ marks (λ mark. mark) marked
        → result ≡ packed_low (map bit marked) }
{
    SPREADS[usize::from(plane)]
}
