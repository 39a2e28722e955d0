//! Whether values differ, many at a time.

ghost use Rattle.std.specs.Prelude.{◌≡◌, ◌+◌, ◌≤◌, ◌<◌, not, length, take, IfSome, IfNone};
ghost use Rattle.std.specs.Str.{bytes_eq};

use std::simd::prelude::*;

/// Whether these values differ.
#[inline(always)]
pub fn are_other(old: &[u8], new: &[u8]) -> bool
    requires { length old.now ≡ length new.now }
    ensures { result ≡ not (bytes_eq old.now new.now) }
{
    let many = old.len();
    if many > 64 {
        return are_any_other(old, new);
    }
    if many >= 32 {
        return are_ends_other::<32>(old, new);
    }
    if many >= 16 {
        return are_ends_other::<16>(old, new);
    }
    if many == 1 {
        return are_ends_other::<1>(old, new);
    }
    if many >= 8 {
        return are_ends_other::<8>(old, new);
    }
    if many >= 4 {
        return are_ends_other::<4>(old, new);
    }
    if many >= 2 {
        return are_ends_other::<2>(old, new);
    }
    are_any_other(old, new)
}

/// Whether so many values differ, or at most twice as many: the first so many and the last, which
/// may overlap.
#[inline(always)]
fn are_ends_other<const LANES: usize>(old: &[u8], new: &[u8]) -> bool
    requires most { LANES ≤ 64 }
    requires as_many { length old.now ≡ length new.now }
    requires least { LANES ≤ length old.now }
    requires covers { length old.now ≤ LANES + LANES }
    ensures { result ≡ not (bytes_eq old.now new.now) }
{
    let last = old.len() - LANES;
    let front = Simd::<u8, LANES>::from_slice(old);
    let back = Simd::<u8, LANES>::from_slice(&old[last..]);
    let new_front = Simd::<u8, LANES>::from_slice(new);
    let new_back = Simd::<u8, LANES>::from_slice(&new[last..]);
    let differ = are_different::<LANES>(front, new_front);
    differ | are_different::<LANES>(back, new_back)
}

/// Whether any number of values differ.
#[inline(never)]
fn are_any_other(old: &[u8], new: &[u8]) -> bool
    requires { length old.now ≡ length new.now }
    ensures { result ≡ not (bytes_eq old.now new.now) }
{
    if old.len() < 8 {
        return is_one_other(old, new);
    }
    let Some(done) = alike_lanes::<16>(old, new) else {
        return true;
    };
    let Some(more) = alike_lanes::<8>(&old[done..], &new[done..]) else {
        return true;
    };
    is_one_other(&old[done + more..], &new[done + more..])
}

/// How many values are alike, so many at a time, from the first on and as far as there are so many;
/// none where some of them differ.
fn alike_lanes<const LANES: usize>(old: &[u8], new: &[u8]) -> Option<usize>
    requires lanes { 0 < LANES }
    requires most { LANES ≤ 64 }
    requires as_many { length old.now ≡ length new.now }
    ensures within { IfSome result (λ n. n ≤ length old.now) }
    ensures alike { IfSome result (λ n. take n old.now ≡ take n new.now) }
    ensures otherwise { IfNone result (old.now ≡ new.now → ⊥) }
{
    let mut at = 0;
    while old.len() - at >= LANES {
        let before = Simd::<u8, LANES>::from_slice(&old[at..]);
        let after = Simd::<u8, LANES>::from_slice(&new[at..]);
        if are_different::<LANES>(before, after) {
            return None;
        }
        at += LANES;
    }
    Some(at)
}

/// Whether a lane of one is another than that of the other.
pub fn are_different<const LANES: usize>(before: Simd<u8, LANES>, after: Simd<u8, LANES>) -> bool
    requires most { LANES ≤ 64 }
    requires before { length before ≡ LANES }
    requires after { length after ≡ LANES }
    ensures { result ≡ not (bytes_eq before.entry after.entry) }
{
    before.simd_ne(after).to_bitmask() != 0
}

/// The same, one value at a time.
fn is_one_other(old: &[u8], new: &[u8]) -> bool
    requires { length old.now ≡ length new.now }
    ensures { result ≡ not (bytes_eq old.now new.now) }
{
    for at in 0..old.len() {
        if old[at] != new[at] {
            return true;
        }
    }
    false
}
