//! Runs of values.

ghost use Rattle.std.specs.Prelude.{◌≡◌, ◌+◌, ◌<◌, ◌≤◌, ◌⊎◌, ℕ, true, false, length, slice_index, take};
ghost use Rattle.rtl_net_groups.specs.Written.{IsOther, IsOtherFrom, IsWritten};

use crate::comparing::are_different;
use std::simd::prelude::*;

/// Writes these values over those from a place on. Answers whether they differ.
#[inline(always)]
pub fn replace(over: &mut [u8], first: usize, values: &[u8]) -> bool
    requires { first + length values.now ≤ length over.old }
    ensures written { IsWritten first values.now over.old over.new }
    ensures alike { result ≡ false → (k : ℕ) → k < length values.now
        → slice_index over.old (first + k) ≡ slice_index values.now k }
    ensures other { result ≡ true → IsOther first values.now over.old }
{
    let end = first + values.len();
    replace_all(&mut over[first..end], values)
}

/// Writes these values over as many others. Answers whether they differ.
#[inline(always)]
fn replace_all(over: &mut [u8], values: &[u8]) -> bool
    requires { length over.old ≡ length values.now }
    ensures written { over.new ≡ values.now }
    ensures alike { result ≡ false → over.old ≡ values.now }
    ensures other { result ≡ true → IsOtherFrom 0 values.now over.old }
{
    let many = values.len();
    if many > 32 {
        return replace_long(over, values);
    }
    if many >= 16 {
        return replace_ends::<16>(over, values);
    }
    if many == 1 {
        return replace_ends::<1>(over, values);
    }
    if many >= 8 {
        return replace_ends::<8>(over, values);
    }
    if many >= 4 {
        return replace_ends::<4>(over, values);
    }
    if many >= 2 {
        return replace_ends::<2>(over, values);
    }
    replace_long(over, values)
}

/// The same of so many values, or of at most twice as many: of the first so many and of the last,
/// which may overlap.
#[inline(always)]
fn replace_ends<const LANES: usize>(over: &mut [u8], values: &[u8]) -> bool
    requires lanes { 0 < LANES }
    requires most { LANES ≤ 64 }
    requires as_many { length over.old ≡ length values.now }
    requires least { LANES ≤ length values.now }
    requires covers { length values.now ≤ LANES + LANES }
    ensures written { over.new ≡ values.now }
    ensures alike { result ≡ false → over.old ≡ values.now }
    ensures other { result ≡ true → IsOtherFrom 0 values.now over.old }
{
    let last = values.len() - LANES;
    let old_front = Simd::<u8, LANES>::from_slice(over);
    let old_back = Simd::<u8, LANES>::from_slice(&over[last..]);
    let front = Simd::<u8, LANES>::from_slice(values);
    let back = Simd::<u8, LANES>::from_slice(&values[last..]);
    front.copy_to_slice(over);
    back.copy_to_slice(&mut over[last..]);
    let differ = are_different::<LANES>(old_front, front);
    differ | are_different::<LANES>(old_back, back)
}

/// The same of any number of values.
#[inline(never)]
fn replace_long(over: &mut [u8], values: &[u8]) -> bool
    requires { length over.old ≡ length values.now }
    ensures written { over.new ≡ values.now }
    ensures alike { result ≡ false → over.old ≡ values.now }
    ensures other { result ≡ true → IsOtherFrom 0 values.now over.old }
{
    let mut differ = false;
    let many = replace_lanes::<16>(over, values, 0, &mut differ);
    let more = replace_lanes::<8>(over, values, many, &mut differ);
    let _all = replace_lanes::<1>(over, values, more, &mut differ);
    differ
}

/// The same from a place on, so many at a time and as far as there are so many. Answers where it
/// ends.
#[inline(always)]
fn replace_lanes<const LANES: usize>(
    over: &mut [u8],
    values: &[u8],
    from: usize,
    differ: &mut bool,
) -> usize
    requires lanes { 0 < LANES }
    requires most { LANES ≤ 64 }
    requires as_many { length over.old ≡ length values.now }
    requires from { from ≤ length values.now }
    requires before { take from over.old ≡ take from values.now }
    ensures grows { from ≤ result }
    ensures within { result ≤ length values.now }
    ensures few { length values.now < result + LANES }
    ensures as_many { length over.new ≡ length values.now }
    ensures before { take result over.new ≡ take result values.now }
    ensures alike { differ.new ≡ false → (differ.old ≡ false) × (over.old ≡ over.new) }
    ensures behind { (k : ℕ) → result ≤ k → slice_index over.new k ≡ slice_index over.old k }
    ensures other { differ.new ≡ true → (differ.old ≡ true) ⊎ IsOtherFrom from values.now over.old }
{
    let mut at = from;
    while values.len() - at >= LANES {
        let old = Simd::<u8, LANES>::from_slice(&over[at..]);
        let new = Simd::<u8, LANES>::from_slice(&values[at..]);
        *differ = *differ | are_different::<LANES>(old, new);
        new.copy_to_slice(&mut over[at..]);
        at += LANES;
    }
    at
}
