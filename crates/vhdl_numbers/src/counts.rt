//! Counts and indices that a run computes.

ghost use Rattle.std.specs.Prelude.{◌≡◌, length};
ghost use Rattle.vhdl_numbers.specs.Counts as s;

use vhdl_values::{Nine, Shift, Vec9};

/// The number of a vector, where each value is one of 0, L, 1 and H and it isn't negative.
pub fn natural(vector: &Vec9) -> Option<u64>
    ensures { result ≡ s.natural_of vector.now }
{
    match vector.number() {
        Some(number) => {
            if number >> (vector.len() - 1) == 0 {
                Some(number)
            } else {
                None
            }
        }
        None => None,
    }
}

/// The vector shifted by the number of another; X everywhere where that is no natural number.
pub fn shifted_by(vector: &Vec9, by: Shift, count: &Vec9) -> Vec9
    ensures list { result ≡ s.shifted_by by count.now vector.now }
    ensures len { length result ≡ length vector.now }
{
    match natural(count) {
        Some(number) => vector.shifted(by, number as usize),
        None => Vec9::fill(Nine::X, vector.len()),
    }
}
