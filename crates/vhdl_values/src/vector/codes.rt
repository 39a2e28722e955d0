//! Codes and planes of a vector.

ghost use Rattle.std.specs.Prelude.{◌≡◌, ◌+◌, ◌-◌, ◌<◌, ◌≤◌, All, List, drop, length, map, take};
ghost use Rattle.vhdl_values.specs.Scalar.{code_of, value_of_code};
ghost use Rattle.vhdl_values.specs.Planes.{ArePlanes, planes_of};
ghost use Rattle.vhdl_values.specs.declared.scalar.Nine.{Nine as Value};

use super::Vec9;
use crate::planes::Planes;
use crate::transposed::spread;
use crate::words::byte;

impl Vec9 {
    /// The vector of these codes, 1 to 64 of them and each below 9, leftmost first.
    pub fn of_codes(codes: &[u8]) -> Vec9
        requires some { 1 ≤ length codes.now }
        requires room { length codes.now ≤ 64 }
        requires codes { All (λ code. code < 9) codes.now }
        ensures list { result ≡ map value_of_code codes.now }
        ensures len { length result ≡ length codes.now }
    {
        let planes = Planes::of(codes);
        Vec9 {
            first: planes.first,
            second: planes.second,
            third: planes.third,
            fourth: planes.fourth,
            len: codes.len(),
        }
    }

    /// Writes the codes of the values, 0 to 8, over a slice of the vector's length, leftmost first.
    pub fn write_codes(&self, out: &mut [u8])
        requires { length out.old ≡ length self.now }
        ensures { out.new ≡ map code_of self.now }
    {
        let len = self.len();
        let first = (self.first << (64 - len)).to_be_bytes();
        let second = (self.second << (64 - len)).to_be_bytes();
        let third = (self.third << (64 - len)).to_be_bytes();
        let fourth = (self.fourth << (64 - len)).to_be_bytes();
        for group in 0..len / 8 {
            let at = 8 * group;
            let codes = codes_of_bytes(first[group], second[group], third[group], fourth[group]);
            out[at..at + 8].copy_from_slice(&codes);
        }
        let rest = len % 8;
        if rest > 0 {
            let at = len - rest;
            out[at..].copy_from_slice(&self.codes_at(at, rest)[8 - rest..]);
        }
    }

    /// The four words that keep the vector: bit k of word j is bit j of the code of the value that
    /// stands k places from the right, and a bit at the length or above is 0.
    pub fn planes(&self) -> [u64; 4]
        ensures { result ≡ planes_of self.now }
    {
        [self.first, self.second, self.third, self.fourth]
    }

    /// The codes of a part of up to eight values, in the last bytes.
    fn codes_at(&self, at: usize, len: usize) -> [u8; 8]
        requires some { 1 ≤ len }
        requires eight { len ≤ 8 }
        requires within { at + len ≤ length self.now }
        ensures { drop (8 - len) result ≡ map code_of (take len (drop at self.now)) }
    {
        let right = self.len() - at - len;
        codes_of_bytes(
            byte(self.first, right, len),
            byte(self.second, right, len),
            byte(self.third, right, len),
            byte(self.fourth, right, len),
        )
    }
}

/// The codes of up to eight values, in the last bytes, from a byte of each plane.
fn codes_of_bytes(first: u8, second: u8, third: u8, fourth: u8) -> [u8; 8]
    ensures { (values : List Value) → length values ≤ 8 → ArePlanes values first second third fourth
        → drop (8 - length values) result ≡ map code_of values }
{
    let low = spread(first) + 2 * spread(second);
    let high = spread(third) + 2 * spread(fourth);
    (low + 4 * high).to_le_bytes()
}
