//! The values of a text.

ghost use Rattle.std.specs.Prelude.{◌≡◌, ◌≤◌, Some, length};
ghost use Rattle.rtl_stim_lines.specs.Forms.{number_of};
ghost use Rattle.rtl_stim_lines.specs.Inputs as named;
ghost use Rattle.rtl_stim_lines.specs.Inputs.{signed};
ghost use Rattle.rtl_stim_lines.specs.Reading.{latest_time};
ghost use Rattle.rtl_stim_lines.specs.View.{elements_view, value_type_view, IsVector};

use crate::inputs::{Input, ValueType};
use crate::numbers::{Time, time_of};
use vhdl_numbers::digits_of;
use vhdl_values::{Nine, Vec9};

/// The values that a text gives the elements of an input, from the left.
pub fn values_for(input: &Input, text: &[u8]) -> Option<Vec9>
    requires { IsVector (elements_view input.now) }
    ensures { result ≡ named.values_by (value_type_view input.now.values) (length (elements_view input.now)) text.now }
{
    let count = input.elements.len();
    match input.values {
        ValueType::Nines => letters_for(count, text),
        ValueType::Integers { least, greatest } => {
            Some(digits_of(integer_for(least, greatest, text)?, count))
        }
        ValueType::Truths => Some(Vec9::fill(Nine::of_truth(truth_for(text)?), 1)),
    }
}

/// Those of a text that has one letter for each of so many elements.
fn letters_for(count: usize, text: &[u8]) -> Option<Vec9>
    requires some { 1 ≤ count }
    requires few { count ≤ 64 }
    ensures { result ≡ named.letters_for count text.now }
{
    if text.len() != count {
        return None;
    }
    let mut values = [Nine::U; 64];
    for (place, letter) in text.iter().enumerate() {
        values[place] = Nine::from_byte(*letter)?;
    }
    Some(Vec9::of(&values[..count]))
}

/// The whole number within these bounds that a word has in base 10; a `-` may precede its digits.
pub fn integer_for(least: i32, greatest: i32, text: &[u8]) -> Option<i32>
    ensures { result ≡ named.integer_for least greatest text.now }
{
    match text {
        [b'-', digits @ ..] => number_within(least, greatest, true, digits),
        digits => number_within(least, greatest, false, digits),
    }
}

/// The number with these digits, if it is within these bounds.
fn number_within(least: i32, greatest: i32, is_negative: bool, digits: &[u8]) -> Option<i32>
    ensures { result ≡ named.integer_within least greatest (signed is_negative (number_of digits.now)) }
{
    match time_of(digits)? {
        Time::At(size) => within(least, greatest, is_negative, size),
        Time::TooLarge => None,
    }
}

/// The number of this size, if it is within these bounds.
fn within(least: i32, greatest: i32, is_negative: bool, size: u64) -> Option<i32>
    requires { size ≤ latest_time }
    ensures { result ≡ named.integer_within least greatest (signed is_negative (Some size)) }
{
    let number = signed(is_negative, size);
    if number < i64::from(least) {
        return None;
    }
    if number > i64::from(greatest) {
        return None;
    }
    Some(number as i32)
}

/// The number of this size.
fn signed(is_negative: bool, size: u64) -> i64
    requires { size ≤ latest_time }
    ensures { Some result ≡ signed is_negative (Some size) }
{
    let number = size as i64;
    if is_negative { -number } else { number }
}

/// The truth that a word `true` or `false` says, in letters of either case.
pub fn truth_for(text: &[u8]) -> Option<bool>
    ensures { result ≡ named.truth_for text.now }
{
    if text.eq_ignore_ascii_case(b"true") {
        Some(true)
    } else if text.eq_ignore_ascii_case(b"false") {
        Some(false)
    } else {
        None
    }
}
