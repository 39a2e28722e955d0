//! Values as characters, so many at a time.

ghost use Rattle.std.specs.Prelude.{◌≡◌, ◌+◌, ◌≤◌, ◌++◌, true, length, map, take};
ghost use lib.Lanes.{Each1};
ghost use Rattle.rtl_vcd_values.specs.Values.{character};
ghost use Rattle.rtl_vcd_values.specs.Puts.{plain, PrintsDigit, IsPut};

use rtl_net_groups::{are_different, are_other};
use std::simd::prelude::*;

/// Puts what so many new values from this place on print as behind the first bytes of the room.
/// Answers whether the old ones print otherwise. It is fastest where each of the new ones prints as
/// a digit.
pub(crate) fn put_lanes<const LANES: usize>(
    room: &mut [u8],
    from: usize,
    old: &[u8],
    new: &[u8],
) -> bool
    requires most { LANES ≤ 64 }
    requires before { LANES ≤ length old.now }
    requires after { LANES ≤ length new.now }
    requires room { from + LANES ≤ length room.old }
    ensures { IsPut room.old room.new from (take LANES old.now) (take LANES new.now) result }
{
    if are_digits::<LANES>(new) {
        let differ = are_different::<LANES>(plain_lanes::<LANES>(old), plain_lanes::<LANES>(new));
        put_digits::<LANES>(room, from, new);
        return differ;
    }
    let text = characters::<LANES>(new);
    let is_other = are_different::<LANES>(characters::<LANES>(old), text);
    text.copy_to_slice(&mut room[from..]);
    is_other
}

/// Whether each of the first so many values prints as a digit.
fn are_digits<const LANES: usize>(values: &[u8]) -> bool
    requires most { LANES ≤ 64 }
    requires there { LANES ≤ length values.now }
    ensures { result ≡ true → Each1 PrintsDigit (take LANES values.now) }
{
    let lanes = Simd::<u8, LANES>::from_slice(values);
    !are_different::<LANES>(lanes & Simd::splat(0xFA), Simd::splat(2))
}

/// The first so many values, each without the bit in which L and H differ from 0 and 1.
fn plain_lanes<const LANES: usize>(values: &[u8]) -> Simd<u8, LANES>
    requires { LANES ≤ length values.now }
    ensures { result ≡ map plain (take LANES values.now) }
{
    Simd::<u8, LANES>::from_slice(values) & Simd::splat(0xFB)
}

/// Puts the digits that the first so many values print as behind the first bytes of the room.
fn put_digits<const LANES: usize>(room: &mut [u8], from: usize, values: &[u8])
    requires there { LANES ≤ length values.now }
    requires digits { Each1 PrintsDigit (take LANES values.now) }
    requires room { from + LANES ≤ length room.old }
    ensures text { take (from + LANES) room.new ≡ take from room.old ++ map character (take LANES values.now) }
    ensures long { length room.new ≡ length room.old }
{
    let digits = plain_lanes::<LANES>(values) ^ Simd::splat(0x32);
    digits.copy_to_slice(&mut room[from..]);
}

/// What the first so many values print as.
fn characters<const LANES: usize>(values: &[u8]) -> Simd<u8, LANES>
    requires { LANES ≤ length values.now }
    ensures { result ≡ map character (take LANES values.now) }
{
    let lanes = Simd::<u8, LANES>::from_slice(values);
    let are_digits = (lanes & Simd::splat(0xFA)).simd_eq(Simd::splat(2));
    let digits = (lanes & Simd::splat(1)) | Simd::splat(b'0');
    let are_open = lanes.simd_eq(Simd::splat(4));
    let others = are_open.select(Simd::splat(b'z'), Simd::splat(b'x'));
    are_digits.select(digits, others)
}

/// Whether these values are the same in both.
pub fn are_same(old: &[u8], new: &[u8]) -> bool
    requires { length old.now ≡ length new.now }
    ensures { result ≡ true → old.now ≡ new.now }
{
    !are_other(old, new)
}

/// Whether the first so many values are the same in both.
pub fn are_same_lanes<const LANES: usize>(old: &[u8], new: &[u8]) -> bool
    requires most { LANES ≤ 64 }
    requires before { LANES ≤ length old.now }
    requires after { LANES ≤ length new.now }
    ensures { result ≡ true → take LANES old.now ≡ take LANES new.now }
{
    let before = Simd::<u8, LANES>::from_slice(old);
    let after = Simd::<u8, LANES>::from_slice(new);
    !are_different::<LANES>(before, after)
}
