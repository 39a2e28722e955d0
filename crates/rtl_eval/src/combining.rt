//! Logical operators on codes, sixteen, eight and one at a time.

ghost use Rattle.std.specs.Prelude.{◌≡◌, ◌+◌, ◌<◌, ◌≤◌, List, length, map, take, drop, true};
ghost use Rattle.vhdl_values.specs.Scalar.{value_of_code};
ghost use Rattle.vhdl_values.specs.Logic.{not_of_all};
ghost use Rattle.vhdl_values.specs.Numbers.{all_good};
ghost use Rattle.vhdl_values.specs.declared.kinds.Logic.TheVariants.{And, Or, Xor};
ghost use Rattle.vhdl_values.specs.declared.scalar.Nine.{Nine};
ghost use Rattle.rtl_eval.specs.Combined.{combined, AreStripped, Operates};

use rtl_drives::Maker;
use std::simd::prelude::*;
use vhdl_values::Logic;

/// The codes of an operator's values on codes.
#[derive(Clone, Copy)]
pub(crate) struct Combination<'a> {
    pub(crate) logic: Logic,
    pub(crate) left: &'a [u8],
    pub(crate) right: &'a [u8],
    ghost as_many: { length right.now ≡ length left.now },
}

impl Maker for Combination<'_> {
    ghost made = { λ c. combined c.logic c.left.now c.right.now };

    fn make(&self, out: &mut [u8]) {
        if self.left.len() < 16 {
            return combine_from(self, 0, out);
        }
        let many = combine_digits(self.logic, self.left, self.right, out);
        if many < self.left.len() {
            combine_from(self, many, out);
        }
    }
}

/// The codes of an operator's values on these codes, sixteen at a time and as far as all of them
/// stand for digits. Answers where it ends.
fn combine_digits(logic: Logic, left: &[u8], right: &[u8], out: &mut [u8]) -> usize
    requires as_many { length right.now ≡ length left.now }
    requires room { length out.old ≡ length left.now }
    ensures within { result ≤ length left.now }
    ensures room { length out.new ≡ length left.now }
    ensures before { take result out.new ≡ take result (combined logic left.now right.now) }
{
    let mut at = 0;
    while left.len() - at >= 16 {
        if !are_digits::<16>(left, at) || !are_digits::<16>(right, at) {
            return at;
        }
        of_digits::<16>(logic, left, right, at).copy_to_slice(&mut out[at..]);
        at += 16;
    }
    at
}

/// The same from a place on, whatever they stand for.
fn combine_from(combination: &Combination<'_>, from: usize, out: &mut [u8])
    requires room { length out.old ≡ length combination.now.left.now }
    requires from { from ≤ length combination.now.left.now }
    requires before { take from out.old ≡
        take from (combined combination.now.logic combination.now.left.now combination.now.right.now) }
    ensures { out.new ≡ combined combination.now.logic combination.now.left.now combination.now.right.now }
{
    let logic = combination.logic;
    let left = combination.left;
    let right = combination.right;
    let many = combine_lanes::<16>(logic, left, right, from, out);
    let more = combine_lanes::<8>(logic, left, right, many, out);
    let _all = combine_lanes::<1>(logic, left, right, more, out);
}

/// The same from a place on, so many at a time and as far as there are so many. Answers where it
/// ends.
fn combine_lanes<const LANES: usize>(
    logic: Logic,
    left: &[u8],
    right: &[u8],
    from: usize,
    out: &mut [u8],
) -> usize
    requires lanes { 0 < LANES }
    requires most { LANES ≤ 64 }
    requires as_many { length right.now ≡ length left.now }
    requires room { length out.old ≡ length left.now }
    requires from { from ≤ length left.now }
    requires before { take from out.old ≡ take from (combined logic left.now right.now) }
    ensures within { result ≤ length left.now }
    ensures few { length left.now < result + LANES }
    ensures room { length out.new ≡ length left.now }
    ensures before { take result out.new ≡ take result (combined logic left.now right.now) }
{
    let mut at = from;
    while left.len() - at >= LANES {
        lanes::<LANES>(logic, left, right, at).copy_to_slice(&mut out[at..]);
        at += LANES;
    }
    at
}

/// The codes of so many values from a place on.
fn lanes<const LANES: usize>(logic: Logic, left: &[u8], right: &[u8], at: usize) -> Simd<u8, LANES>
    requires most { LANES ≤ 64 }
    requires left { at + LANES ≤ length left.now }
    requires right { at + LANES ≤ length right.now }
    ensures { result ≡ combined logic (take LANES (drop at left.now)) (take LANES (drop at right.now)) }
{
    if are_digits::<LANES>(left, at) && are_digits::<LANES>(right, at) {
        return of_digits::<LANES>(logic, left, right, at);
    }
    let left = stripped::<LANES>(left, at);
    let right = stripped::<LANES>(right, at);
    match logic {
        Logic::And => return and::<LANES>(left, right),
        Logic::Or => return or::<LANES>(left, right),
        Logic::Xor => return xor::<LANES>(left, right),
        Logic::Nand => return not::<LANES>(and::<LANES>(left, right)),
        Logic::Nor => return not::<LANES>(or::<LANES>(left, right)),
        Logic::Xnor => return not::<LANES>(xor::<LANES>(left, right)),
    }
}

/// Whether so many codes from a place on are all those of 0, 1, L and H.
pub fn are_digits<const LANES: usize>(codes: &[u8], at: usize) -> bool
    requires most { LANES ≤ 64 }
    requires within { at + LANES ≤ length codes.now }
    ensures { result ≡ true → all_good (map value_of_code (take LANES (drop at codes.now))) ≡ true }
{
    let codes = Simd::<u8, LANES>::from_slice(&codes[at..]) & Simd::splat(0xFA);
    codes.simd_ne(Simd::splat(2)).to_bitmask() == 0
}

/// The codes of so many values from a place on, where all on both sides stand for digits: which
/// digit is in their lowest bits.
fn of_digits<const LANES: usize>(
    logic: Logic,
    left: &[u8],
    right: &[u8],
    at: usize,
) -> Simd<u8, LANES>
    requires left { at + LANES ≤ length left.now }
    requires right { at + LANES ≤ length right.now }
    requires lefts { all_good (map value_of_code (take LANES (drop at left.now))) ≡ true }
    requires rights { all_good (map value_of_code (take LANES (drop at right.now))) ≡ true }
    ensures { result ≡ combined logic (take LANES (drop at left.now)) (take LANES (drop at right.now)) }
{
    let left = Simd::<u8, LANES>::from_slice(&left[at..]);
    let right = Simd::<u8, LANES>::from_slice(&right[at..]);
    let one = Simd::splat(1);
    match logic {
        Logic::And => return (left & right & one) | Simd::splat(2),
        Logic::Or => return ((left | right) & one) | Simd::splat(2),
        Logic::Xor => return ((left ^ right) & one) | Simd::splat(2),
        Logic::Nand => return (left & right & one) ^ Simd::splat(3),
        Logic::Nor => return ((left | right) & one) ^ Simd::splat(3),
        Logic::Xnor => return ((left ^ right) & one) ^ Simd::splat(3),
    }
}

/// What the operators look at: so many codes from a place on, as those of U, X, 0 or 1.
fn stripped<const LANES: usize>(codes: &[u8], at: usize) -> Simd<u8, LANES>
    requires { at + LANES ≤ length codes.now }
    ensures many { length result ≡ LANES }
    ensures values { AreStripped (map value_of_code (take LANES (drop at codes.now))) result }
{
    let codes = Simd::<u8, LANES>::from_slice(&codes[at..]);
    let are_digits = (codes & Simd::splat(0xFA)).simd_eq(Simd::splat(2));
    let are_unset = codes.simd_eq(Simd::splat(0));
    let others = are_unset.select(Simd::splat(0), Simd::splat(1));
    are_digits.select(codes & Simd::splat(0xFB), others)
}

/// `and`: 0 wins, then U, then X.
fn and<const LANES: usize>(left: Simd<u8, LANES>, right: Simd<u8, LANES>) -> Simd<u8, LANES>
    requires left { length left ≡ LANES }
    requires right { length right ≡ LANES }
    ensures { Operates And left.entry right.entry result }
{
    let zero = Simd::splat(2);
    let others = right.simd_eq(zero).select(zero, left & right);
    left.simd_eq(zero).select(zero, others)
}

/// `or`: 1 wins, then U, then X.
fn or<const LANES: usize>(left: Simd<u8, LANES>, right: Simd<u8, LANES>) -> Simd<u8, LANES>
    requires left { length left ≡ LANES }
    requires right { length right ≡ LANES }
    ensures { Operates Or left.entry right.entry result }
{
    let one = Simd::splat(3);
    let least = left.simd_lt(right).select(left, right);
    let others = right.simd_eq(one).select(one, least);
    left.simd_eq(one).select(one, others)
}

/// `xor`: U wins, then X.
fn xor<const LANES: usize>(left: Simd<u8, LANES>, right: Simd<u8, LANES>) -> Simd<u8, LANES>
    requires left { length left ≡ LANES }
    requires right { length right ≡ LANES }
    ensures { Operates Xor left.entry right.entry result }
{
    let digit = Simd::splat(2);
    let are_digits = (left & right & digit).simd_eq(digit);
    let least = left.simd_lt(right).select(left, right);
    are_digits.select((left ^ right) | digit, least)
}

/// `not` of each.
fn not<const LANES: usize>(values: Simd<u8, LANES>) -> Simd<u8, LANES>
    requires { length values ≡ LANES }
    ensures { (vs : List Nine) → AreStripped vs values.entry → AreStripped (not_of_all vs) result }
{
    let digit = Simd::splat(2);
    let are_digits = (values & digit).simd_eq(digit);
    are_digits.select(values ^ Simd::splat(1), values)
}
