//! Vectors of 1 to 64 values.

ghost use Rattle.std.specs.Prelude.{◌≡◌, ◌+◌, ◌%◌, ◌^◌, ◌<◌, ◌≤◌, ◌++◌, ◌↔◌, if◌then◌else◌, IsTrue, Some};
ghost use Rattle.std.specs.Prelude.{None, true, List, length, map, max, replicate, slice_get, slice_set, take, drop};
ghost use Rattle.vhdl_values.specs.Scalar.{are_same};
ghost use Rattle.vhdl_values.specs.Logic.{strip, logic_of_all, not_of_all};
ghost use Rattle.vhdl_values.specs.Numbers.{all_good, number_of, digits_of};
ghost use Rattle.vhdl_values.specs.Arithmetic.{sum_of, difference_of, product_of};
ghost use Rattle.vhdl_values.specs.Relations.{compares, compares_number};
ghost use Rattle.vhdl_values.specs.Marked.{IsMarkedBy};
ghost use Rattle.vhdl_values.specs.declared.scalar.Nine.{Nine as Value};

mod codes;
mod shifts;

use crate::kinds::{Cmp, Logic};
use crate::scalar::Nine;
use crate::stripped::Stripped;
use crate::words::{beside, bit, mask, part, with_bit};
use std::marker::Model;

/// A vector of 1 to 64 values, leftmost first: a `std_logic_vector` or an `unsigned`, whatever its
/// index range.
///
/// It is copied, kept and passed without memory being taken, and none of its calls takes any.
/// Contracts see it as the list of its values. A caller in another crate learns by `len` that the
/// length is from 1 to 64.
///
/// A natural number as the other operand of `+`, `-` or `*` is `Vec9::of_nat(number,
/// vector.len())`, a vector of the same length that stands for the number modulo 2 to the power of
/// that length (numeric_std, A.5, A.11, A.17); for a relation there is `cmp_nat`, and a number on
/// the left of it is the relation turned round.
#[derive(Clone, Copy, PartialEq, Eq)]
pub struct Vec9 {
    first: u64,
    second: u64,
    third: u64,
    fourth: u64,
    len: usize,
}

impl Model for Vec9 {
    ghost use Rattle.std.specs.Prelude.{List, length, refl};
    ghost use Rattle.vhdl_values.specs.declared.scalar.Nine.{Nine};
    ghost use Rattle.vhdl_values.specs.Planes.{values_at, plane_of, IsPlanes, length-values_at};
    ghost use Rattle.vhdl_values.specs.Planes.{plane_of-first, plane_of-second, plane_of-third, plane_of-fourth};

    ghost Value = { List Nine };

    ghost view = { λ v. values_at v.len v.first v.second v.third v.fourth };

    ghost invariant = { λ v. IsPlanes v.len v.first v.second v.third v.fourth };

    ghost inverse = { λ vs. record {
      first = plane_of 0 vs;
      second = plane_of 1 vs;
      third = plane_of 2 vs;
      fourth =
          plane_of 3 vs;
      len = length vs;
    } };

    ghost inverse_ok = { λ v h. rw (
      plane_of-first v.len v.first v.second v.third v.fourth h,
      plane_of-second v.len v.first v.second v.third v.fourth h,
      plane_of-third v.len v.first v.second v.third v.fourth h,
      plane_of-fourth v.len v.first v.second v.third v.fourth h,
      length-values_at v.len v.first v.second v.third v.fourth,
    ) refl };
}

impl Vec9 {
    /// The vector of these values, 1 to 64 of them, leftmost first.
    pub fn of(values: &[Nine]) -> Vec9
        requires some { 1 ≤ length values.now }
        requires room { length values.now ≤ 64 }
        ensures list { result ≡ values.now }
        ensures len { length result ≡ length values.now }
    {
        let mut codes = [0; 64];
        for (at, value) in values.iter().enumerate() {
            codes[at] = value.code();
        }
        Vec9::of_codes(&codes[..values.len()])
    }

    /// How many values it has, 1 to 64.
    pub fn len(&self) -> usize
        ensures len { result ≡ length self.now }
        ensures some { 1 ≤ length self.now }
        ensures room { length self.now ≤ 64 }
    {
        self.len
    }

    /// The value at a place below the length, 0 being the leftmost.
    pub fn get(&self, at: usize) -> Nine
        requires { at < length self.now }
        ensures { slice_get self.now at ≡ Some result }
    {
        let place = self.len() - 1 - at;
        let low = bit(self.first, place) + 2 * bit(self.second, place);
        let high = bit(self.third, place) + 2 * bit(self.fourth, place);
        Nine::from_code((low + 4 * high) as u8).unwrap_or(Nine::X)
    }

    /// Puts a value at a place below the length, 0 being the leftmost. The other values stay.
    pub fn set(&mut self, at: usize, value: Nine)
        requires { at < length self.old }
        ensures list { self.new ≡ slice_set self.old at value }
        ensures len { length self.new ≡ length self.old }
    {
        let place = self.len() - 1 - at;
        let code = u64::from(value.code());
        self.first = with_bit(self.first, place, bit(code, 0));
        self.second = with_bit(self.second, place, bit(code, 1));
        self.third = with_bit(self.third, place, bit(code, 2));
        self.fourth = with_bit(self.fourth, place, bit(code, 3));
    }

    /// The vector of this value at each of 1 to 64 places.
    pub fn fill(value: Nine, len: usize) -> Vec9
        requires some { 1 ≤ len }
        requires room { len ≤ 64 }
        ensures list { result ≡ replicate len value }
        ensures len { length result ≡ len }
    {
        let code = u64::from(value.code());
        let all = mask(len);
        Vec9 {
            first: bit(code, 0) * all,
            second: bit(code, 1) * all,
            third: bit(code, 2) * all,
            fourth: bit(code, 3) * all,
            len,
        }
    }

    /// The part of this length, at least 1, that begins at a place, 0 being the leftmost, and ends
    /// within the vector (IEEE 1076-2008, 8.5).
    pub fn slice(&self, at: usize, len: usize) -> Vec9
        requires some { 1 ≤ len }
        requires within { at + len ≤ length self.now }
        ensures list { result ≡ take len (drop at self.now) }
        ensures len { length result ≡ len }
    {
        let right = self.len() - at - len;
        Vec9 {
            first: part(self.first, right, len),
            second: part(self.second, right, len),
            third: part(self.third, right, len),
            fourth: part(self.fourth, right, len),
            len,
        }
    }

    /// `&`: this vector, and the other to its right, at most 64 values together (IEEE 1076-2008,
    /// 9.2.5).
    pub fn concat(&self, other: &Vec9) -> Vec9
        requires { length self.now + length other.now ≤ 64 }
        ensures list { result ≡ self.now ++ other.now }
        ensures len { length result ≡ length self.now + length other.now }
    {
        let (left, right) = (self.len(), other.len());
        Vec9 {
            first: beside(self.first, other.first, right),
            second: beside(self.second, other.second, right),
            third: beside(self.third, other.third, right),
            fourth: beside(self.fourth, other.fourth, right),
            len: left + right,
        }
    }

    /// `not` of each value (std_logic_1164; numeric_std, L.1).
    pub fn not(&self) -> Vec9
        ensures list { result ≡ not_of_all self.now }
        ensures len { length result ≡ length self.now }
    {
        Vec9::of_stripped(self.stripped().not(), self.len())
    }

    /// The logical operator of two vectors of one length, value by value from the left
    /// (std_logic_1164; numeric_std, L.2 to L.7).
    pub fn logic(&self, kind: Logic, other: &Vec9) -> Vec9
        requires { length self.now ≡ length other.now }
        ensures list { result ≡ logic_of_all kind self.now other.now }
        ensures len { length result ≡ length self.now }
    {
        let stripped = self.stripped().logic(kind, other.stripped());
        Vec9::of_stripped(stripped, self.len())
    }

    /// `=` of two `std_logic_vector`s (IEEE 1076-2008, 9.2.3): as long as each other, and equal
    /// value by value. An X is equal to an X here; the relations of unsigned vectors are `cmp`'s.
    pub fn same(&self, other: &Vec9) -> bool
        ensures meaning { IsTrue result ↔ (self.now ≡ other.now) }
        ensures test { result ≡ are_same self.now other.now }
    {
        self == other
    }

    /// The last 1 to 64 binary digits of a number, as 0s and 1s: it stands for the number modulo 2
    /// to the power of the length (numeric_std, `TO_UNSIGNED`, D.3).
    pub fn of_nat(number: u64, len: usize) -> Vec9
        requires some { 1 ≤ len }
        requires room { len ≤ 64 }
        ensures list { result ≡ digits_of len number }
        ensures len { length result ≡ len }
        ensures good { all_good result ≡ true }
        ensures number { number_of result ≡ number % 2 ^ len }
    {
        let all = mask(len);
        Vec9 {
            first: number & all,
            second: all,
            third: 0,
            fourth: 0,
            len,
        }
    }

    /// `+` (numeric_std, A.3): as long as the longer one, modulo 2 to the power of that length; X
    /// everywhere where a value of either is none of 0, L, 1 and H.
    pub fn add(&self, other: &Vec9) -> Vec9
        ensures list { result ≡ sum_of self.now other.now }
        ensures len { length result ≡ max (length self.now) (length other.now) }
    {
        let len = self.len().max(other.len());
        match (self.number(), other.number()) {
            (Some(left), Some(right)) => Vec9::of_nat(left.wrapping_add(right), len),
            _ => Vec9::fill(Nine::X, len),
        }
    }

    /// `-` (numeric_std, A.9): as long as the longer one, modulo 2 to the power of that length; X
    /// everywhere where a value of either is none of 0, L, 1 and H.
    pub fn sub(&self, other: &Vec9) -> Vec9
        ensures list { result ≡ difference_of self.now other.now }
        ensures len { length result ≡ max (length self.now) (length other.now) }
    {
        let len = self.len().max(other.len());
        match (self.number(), other.number()) {
            (Some(left), Some(right)) => Vec9::of_nat(left.wrapping_sub(right), len),
            _ => Vec9::fill(Nine::X, len),
        }
    }

    /// `*` (numeric_std, A.15): as long as both together, at most 64; X everywhere where a value of
    /// either is none of 0, L, 1 and H.
    pub fn mul(&self, other: &Vec9) -> Vec9
        requires { length self.now + length other.now ≤ 64 }
        ensures list { result ≡ product_of self.now other.now }
        ensures len { length result ≡ length self.now + length other.now }
    {
        let len = self.len() + other.len();
        match (self.number(), other.number()) {
            (Some(left), Some(right)) => Vec9::of_nat(left * right, len),
            _ => Vec9::fill(Nine::X, len),
        }
    }

    /// A relation of the two numbers, whatever the lengths (numeric_std, C.1 to C.36). Where a
    /// value of either is none of 0, L, 1 and H, `Ne` holds and no other does.
    pub fn cmp(&self, kind: Cmp, other: &Vec9) -> bool
        ensures { result ≡ compares kind self.now other.now }
    {
        match (self.number(), other.number()) {
            (Some(left), Some(right)) => kind.holds(left, right),
            _ => kind.holds_of_unknowns(),
        }
    }

    /// A relation to a natural number, which is compared as it is, however short the vector.
    pub fn cmp_nat(&self, kind: Cmp, other: u32) -> bool
        ensures { result ≡ compares_number kind self.now other }
    {
        match self.number() {
            Some(left) => kind.holds(left, u64::from(other)),
            None => kind.holds_of_unknowns(),
        }
    }

    /// The number that the values stand for, if each stands for a digit.
    pub fn number(&self) -> Option<u64>
        ensures { result ≡ (if all_good self.now then Some (number_of self.now) else None) }
    {
        if self.second == mask(self.len()) {
            Some(self.first)
        } else {
            None
        }
    }

    /// Which values the logical operators take for 1, for 0 and for U.
    fn stripped(&self) -> Stripped
        ensures { IsMarkedBy result self.now }
    {
        let any = self.first | self.second | self.third | self.fourth;
        Stripped {
            ones: self.second & self.first,
            zeros: self.second & !self.first,
            unset: mask(self.len) & !any,
        }
    }

    /// The vector of the values U, X, 0 and 1 that are marked so.
    fn of_stripped(stripped: Stripped, len: usize) -> Vec9
        requires some { 1 ≤ len }
        requires room { len ≤ 64 }
        ensures { (values : List Value) → IsMarkedBy stripped values → length values ≡ len → result ≡ map strip values }
    {
        let all = mask(len);
        Vec9 {
            first: all & !(stripped.zeros | stripped.unset),
            second: all & (stripped.ones | stripped.zeros),
            third: 0,
            fourth: 0,
            len,
        }
    }
}
