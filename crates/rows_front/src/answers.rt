//! What the values' calls answer.

use crate::calls::{Move, Sum};
use crate::operands::{natural, value, vector};
use vhdl_values::{Cmp, Logic, Nine, Vec9, resolve};

/// The logical operator of two vectors of one length. Of two values it has to be the operator of
/// values, alone and in places 0 and 63 of vectors of 64 elements.
pub fn combined(kind: Logic, left: &Vec9, right: &Vec9) -> Option<Vec9> {
    if left.len() != right.len() {
        return None;
    }
    let all = left.logic(kind, right);
    if left.len() > 1 || is_everywhere(kind, left.get(0), right.get(0), all.get(0)) {
        Some(all)
    } else {
        None
    }
}

/// Whether two values have this result alone, and in places 0 and 63 of vectors of 64 elements.
fn is_everywhere(kind: Logic, left: Nine, right: Nine, expected: Nine) -> bool {
    let mut lefts = Vec9::fill(Nine::H, 64);
    let mut rights = Vec9::fill(Nine::L, 64);
    lefts.set(0, left);
    lefts.set(63, left);
    rights.set(0, right);
    rights.set(63, right);
    let results = lefts.logic(kind, &rights);
    kind.of(left, right) == expected && results.get(0) == expected && results.get(63) == expected
}

/// `not` of a vector. Of a value it has to be `not` of values.
pub fn inverted(operand: &Vec9) -> Option<Vec9> {
    let all = operand.not();
    if operand.len() > 1 || all.get(0) == operand.get(0).not() {
        Some(all)
    } else {
        None
    }
}

/// A relation of two vectors, or of a vector and a natural number on either side.
pub fn related(kind: Cmp, left: &str, right: &str) -> Option<bool> {
    if let Some(number) = natural(left) {
        return Some(vector(right)?.cmp_nat(turned(kind), number));
    }
    if let Some(number) = natural(right) {
        return Some(vector(left)?.cmp_nat(kind, number));
    }
    Some(vector(left)?.cmp(kind, &vector(right)?))
}

/// The relation with its sides exchanged.
fn turned(kind: Cmp) -> Cmp {
    match kind {
        Cmp::Lt => Cmp::Gt,
        Cmp::Le => Cmp::Ge,
        Cmp::Gt => Cmp::Lt,
        Cmp::Ge => Cmp::Le,
        Cmp::Eq | Cmp::Ne => kind,
    }
}

/// Two vectors beside each other.
pub fn joined(left: &Vec9, right: &Vec9) -> Option<Vec9> {
    if left.len() + right.len() <= 64 {
        Some(left.concat(right))
    } else {
        None
    }
}

/// A sum, difference or product.
pub fn computed(kind: &Sum, left: &str, right: &str) -> Option<Vec9> {
    let (left, right) = numbers(left, right)?;
    match kind {
        Sum::Plus => Some(left.add(&right)),
        Sum::Minus => Some(left.sub(&right)),
        Sum::Times if left.len() + right.len() <= 64 => Some(left.mul(&right)),
        Sum::Times => None,
    }
}

/// Two vectors, a natural number standing for the vector of the other's length.
fn numbers(left: &str, right: &str) -> Option<(Vec9, Vec9)> {
    if let Some(number) = natural(left) {
        let right = vector(right)?;
        return Some((Vec9::of_nat(u64::from(number), right.len()), right));
    }
    let left = vector(left)?;
    match natural(right) {
        Some(number) => Some((left, Vec9::of_nat(u64::from(number), left.len()))),
        None => Some((left, vector(right)?)),
    }
}

/// A vector at another length, shifted, or of a natural number.
pub fn moved(kind: &Move, left: &str, right: &str) -> Option<Vec9> {
    let count = natural(right)? as usize;
    match kind {
        Move::Left => Some(vector(left)?.shl(count)),
        Move::Right => Some(vector(left)?.shr(count)),
        Move::Resized if 1 <= count && count <= 64 => Some(vector(left)?.resize(count)),
        Move::OfNumber if 1 <= count && count <= 64 => {
            Some(Vec9::of_nat(u64::from(natural(left)?), count))
        }
        _ => None,
    }
}

/// The part of a length that begins at a place from the left.
pub fn part(whole: &str, at: &str, len: &str) -> Option<Vec9> {
    let (whole, at, len) = (
        vector(whole)?,
        natural(at)? as usize,
        natural(len)? as usize,
    );
    if 1 <= len && at + len <= whole.len() {
        Some(whole.slice(at, len))
    } else {
        None
    }
}

/// The vector with another value at a place from the left.
pub fn changed(whole: &str, at: &str, letter: &str) -> Option<Vec9> {
    let (mut whole, at) = (vector(whole)?, natural(at)? as usize);
    if at < whole.len() {
        whole.set(at, value(letter)?);
        Some(whole)
    } else {
        None
    }
}

/// The value of a net that one, two or three values drive.
pub fn resolved(first: &str, second: &str, third: &str) -> Option<Nine> {
    let first = value(first)?;
    Some(match (value(second), value(third)) {
        (None, _) => resolve(&[first]),
        (Some(second), None) => resolve(&[first, second]),
        (Some(second), Some(third)) => resolve(&[first, second, third]),
    })
}
