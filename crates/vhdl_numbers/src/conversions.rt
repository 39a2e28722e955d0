//! Functions of one vector, whose result is as long.

ghost use Rattle.std.specs.Prelude.{◌≡◌, ◌&&◌, length};
ghost use Rattle.vhdl_values.specs.Numbers.{all_good};
ghost use Rattle.vhdl_numbers.specs.TwosComplement.{signed_number_of};
ghost use Rattle.vhdl_numbers.specs.Converted as s;
ghost use Rattle.vhdl_numbers.specs.Sizes.{integer_of};

use crate::kinds::Conversion;
use crate::wholes::Whole;
use vhdl_values::{Nine, Vec9};

/// What a conversion makes of a vector.
pub fn converted(vector: &Vec9, conversion: Conversion) -> Vec9
    ensures list { result ≡ s.converted conversion vector.now }
    ensures len { length result ≡ length vector.now }
{
    match conversion {
        Conversion::Cleaned => cleaned(vector),
        Conversion::Within { least, greatest } => within(vector, least, greatest),
        Conversion::Magnitude => magnitude(vector),
    }
}

/// Each value as 0 or 1, and all 0 where one of them is none of 0, L, 1 and H.
fn cleaned(vector: &Vec9) -> Vec9
    ensures list { result ≡ s.cleaned vector.now }
    ensures len { length result ≡ length vector.now }
{
    Vec9::of_nat(vector.number().unwrap_or(0), vector.len())
}

/// The vector as it is where its number lies in this range, and else all X.
fn within(vector: &Vec9, least: i32, greatest: i32) -> Vec9
    ensures list { result ≡ s.within least greatest vector.now }
    ensures len { length result ≡ length vector.now }
{
    if lies_within(vector, least, greatest) {
        *vector
    } else {
        Vec9::fill(Nine::X, vector.len())
    }
}

/// Whether a vector has a number, and it lies in this range.
fn lies_within(vector: &Vec9, least: i32, greatest: i32) -> bool
    ensures { result ≡ all_good vector.now && s.is_between least greatest (signed_number_of vector.now) }
{
    match Whole::of(vector) {
        Some(number) => is_between(number, least, greatest),
        None => false,
    }
}

/// Whether a number lies in this range.
fn is_between(number: Whole, least: i32, greatest: i32) -> bool
    ensures { result ≡ s.is_between least greatest (integer_of number) }
{
    Whole::from_i32(least).is_at_most(number) && number.is_at_most(Whole::from_i32(greatest))
}

/// The number without its sign; X everywhere where there is none.
fn magnitude(vector: &Vec9) -> Vec9
    ensures list { result ≡ s.magnitude vector.now }
    ensures len { length result ≡ length vector.now }
{
    match Whole::of(vector) {
        Some(number) => Vec9::of_nat(number.size, vector.len()),
        None => Vec9::fill(Nine::X, vector.len()),
    }
}
