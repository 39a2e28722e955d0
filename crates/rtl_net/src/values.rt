//! Values of signals and ports in words.

ghost use Rattle.std.specs.Prelude.{◌≡◌, ◌≤◌, None, Some, if◌then◌else◌, length, map};
ghost use Rattle.vhdl_values.specs.Numbers.{all_good};
ghost use Rattle.vhdl_values.specs.Scalar.{value_of_code};
ghost use Rattle.rtl_net.specs.Values as spec;

use crate::signal::SignalKind;
use arrayvec::ArrayVec;
use itoa::Buffer;
use vhdl_numbers::signed_number;
use vhdl_values::{Nine, Vec9};

/// The words of a value.
pub type ValueText = ArrayVec<u8, 64>;

/// A value of a signal or port of this kind, by the codes of its elements' values from the left: a
/// letter for each element, of an integer its digits in base 10, or `x` where it is no number, and
/// of a boolean `true` or `false`. It takes no memory.
pub fn value_text(kind: SignalKind, values: &[u8]) -> ValueText
    requires { length values.now ≤ 64 }
    ensures { result.items ≡ spec.value_text kind values.now }
{
    match kind {
        SignalKind::Integer { least, .. } => integer_text(least, values),
        SignalKind::Boolean => {
            boolean_text(values.first().copied().unwrap_or(0) == Nine::One.code())
        }
        SignalKind::One | SignalKind::Vector { .. } | SignalKind::Enumeration { .. } => {
            letters_of(values)
        }
    }
}

/// The letters of the values with these codes.
fn letters_of(values: &[u8]) -> ValueText
    requires { length values.now ≤ 64 }
    ensures { result.items ≡ spec.letters_of values.now }
{
    let mut letters = ValueText::new();
    for code in values {
        letters.push(value_of(*code).byte());
    }
    letters
}

/// The value with this code; X, where there is none.
fn value_of(code: u8) -> Nine
    ensures { result ≡ value_of_code code }
{
    Nine::from_code(code).unwrap_or(Nine::X)
}

/// An integer in base 10 by the codes of its digits, where the least one of its type is this; `x`
/// where it is no number.
fn integer_text(least: i32, values: &[u8]) -> ValueText
    requires { length values.now ≤ 64 }
    ensures { result.items ≡ spec.integer_text least (map value_of_code values.now) }
{
    let Some(number) = integer_of(least, values) else {
        return text_of(b"x");
    };
    let mut buffer = Buffer::new();
    text_of(buffer.format(number).as_bytes())
}

/// The values with these codes.
fn digits_of(values: &[u8]) -> Vec9
    requires some { 1 ≤ length values.now }
    requires few { length values.now ≤ 64 }
    ensures { result ≡ map value_of_code values.now }
{
    let mut digits = [Nine::U; 64];
    for (place, code) in values.iter().enumerate() {
        digits[place] = value_of(*code);
    }
    Vec9::of(&digits[..values.len()])
}

/// The integer of such digits, if each value stands for one; 0, where there are none.
fn integer_of(least: i32, values: &[u8]) -> Option<i128>
    requires { length values.now ≤ 64 }
    ensures { let digits = map value_of_code values.now in
        result ≡ (if all_good digits then Some (spec.integer_of_digits least digits) else None) }
{
    if values.is_empty() {
        return Some(0);
    }
    let digits = digits_of(values);
    if least < 0 {
        return signed_number(&digits);
    }
    let number = digits.number()?;
    Some(i128::from(number))
}

/// `true` or `false`.
fn boolean_text(truth: bool) -> ValueText
    ensures { result.items ≡ spec.boolean_text truth }
{
    if truth {
        text_of(b"true")
    } else {
        text_of(b"false")
    }
}

/// A short text.
fn text_of(text: &[u8]) -> ValueText
    requires { length text.now ≤ 64 }
    ensures { result.items ≡ text.now }
{
    let mut bytes = ValueText::new();
    for byte in text {
        bytes.push(*byte);
    }
    bytes
}
