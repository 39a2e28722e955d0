//! The values of string and bit string literals (IEEE 1076-2008, 15.7, 15.8). They take the memory
//! of a list.

ghost use Rattle.vhdl_names_rules.specs.problems.Broken.{Tells, nothing, refused, lacking};
ghost use Rattle.vhdl_names_rules.specs.problems.Operators.{characters_problem, string_problem};
ghost use Rattle.vhdl_names_rules.specs.declared.fault.NameProblem.TheVariants.{LeftOut};
ghost use Rattle.std.specs.Prelude.{◌≡◌, ◌==◌, ◌++◌, ◌<◌, not, length, position, filter, flat_map, Some, IfOk, IfSome, option_map, IfErr};
ghost use Rattle.vhdl_lexer.specs.Bytes.{quote, underscore};
ghost use Rattle.vhdl_lexer.specs.Words.{base_class};
ghost use Rattle.vhdl_names_rules.specs.Gives.{Gives};
ghost use Rattle.vhdl_names_rules.specs.Literals as rules;
ghost use Rattle.vhdl_names_rules.specs.Rules.{each};
ghost use Rattle.vhdl_names_operators.specs.Steps.{class_of};

use std::alloc::{AllocFailed, Global};
use vhdl_names_rules::{NameFault, NameProblem, nine_of};
use vhdl_tree::Literal;
use vhdl_values::Nine;

/// The base of a bit string.
#[derive(Clone, Copy)]
enum Base {
    Hexadecimal,
    Octal,
    Binary,
}

/// Where the first quotation mark stands.
fn quote_of(text: &[u8]) -> Option<usize>
    ensures quote { result ≡ position (λ b. b == quote) text.now }
    ensures within { IfSome result (λ at. at < length text.now) }
{
    text.iter().position(|b| *b == b'"')
}

/// A text without its last byte.
fn but_last(text: &[u8]) -> &[u8]
    ensures { result.now ≡ rules.but_last text.now }
{
    match text {
        [front @ .., _] => front,
        [] => text,
    }
}

/// What stands between the quotation marks of a string or bit string.
fn quoted(text: &[u8]) -> &[u8]
    ensures { result.now ≡ rules.quoted text.now }
{
    match quote_of(text) {
        Some(at) => but_last(&text[at + 1..]),
        None => &[],
    }
}

/// The values of a literal at byte `at`, which is not empty.
fn at_least_one(values: Vec<Nine>, at: usize) -> Result<Vec<Nine>, NameFault>
    ensures given { Gives (λ v. v.items) (rules.at_least_one values.items) result }
    ensures told { IfErr result (Tells (refused LeftOut at)) }
{
    if values.is_empty() {
        return Err(NameProblem::LeftOut.at(at));
    }
    Ok(values)
}

/// The values of the characters of a string at byte `at`.
#[tactic(auto, using(crate::proofs::Quotations::at_end))]
fn values_of(alloc: Global, characters: &[u8], at: usize) -> Result<Vec<Nine>, NameFault>
    ensures given { Gives (λ v. v.items) (each rules.nine_of characters.now) result }
    ensures told { IfErr result (Tells (refused (characters_problem characters.now) at)) }
{
    let mut values = Vec::new(alloc);
    for b in characters {
        match nine_of(*b) {
            None => return Err(NameProblem::TypeMismatch.at(at)),
            Some(value) => values.push(value)?,
        }
    }
    Ok(values)
}

/// The values of a string.
pub fn string_values(alloc: Global, literal: &Literal) -> Result<Vec<Nine>, NameFault>
    ensures given { Gives (λ v. v.items) (rules.values_of_string literal.now.text.items) result }
    ensures told { IfErr result (Tells
        (lacking (string_problem literal.now.text.items) literal.now.at
        (rules.values_of_string literal.now.text.items))) }
{
    let values = values_of(alloc, quoted(&literal.text), literal.at)?;
    at_least_one(values, literal.at)
}

/// The base that a letter stands for.
fn base_of(letter: u8) -> Option<Base>
    ensures { base_class letter ≡ option_map class_of result }
{
    match letter {
        b'x' | b'X' => Some(Base::Hexadecimal),
        b'o' | b'O' => Some(Base::Octal),
        b'b' | b'B' => Some(Base::Binary),
        _ => None,
    }
}

/// The lowest bit of a number.
fn bit(number: u8) -> Nine
    ensures { result ≡ rules.bit number }
{
    if number % 2 == 1 {
        Nine::One
    } else {
        Nine::Zero
    }
}

/// What a digit counts for.
fn digit_value(digit: u8) -> u8
    ensures { result ≡ rules.digit_value digit }
{
    if digit.is_ascii_digit() {
        digit - b'0'
    } else {
        digit.to_ascii_uppercase().saturating_sub(55)
    }
}

/// The bits of a digit, after what stands there.
fn push_digit(values: &mut Vec<Nine>, base: Base, digit: u8) -> Result<(), AllocFailed<Nine>>
    ensures { IfOk result (λ _. values.new.items ≡ values.old.items ++ rules.bits_of (class_of base) digit) }
{
    if base == Base::Hexadecimal {
        values.push(bit(digit / 8))?;
    }
    if base != Base::Binary {
        values.push(bit(digit / 4))?;
        values.push(bit(digit / 2))?;
    }
    values.push(bit(digit))?;
    Ok(())
}

/// The bits of digits of a base, underscores counting for nothing.
fn bits(alloc: Global, base: Base, digits: &[u8]) -> Result<Vec<Nine>, NameFault>
    ensures given { Gives (λ v. v.items)
        (Some (flat_map (λ b. rules.bits_of (class_of base) (rules.digit_value b))
        (filter (λ b. not (b == underscore)) digits.now))) result }
    ensures told { IfErr result (Tells nothing) }
{
    let mut values = Vec::new(alloc);
    for digit in digits {
        if *digit != b'_' {
            push_digit(&mut values, base, digit_value(*digit))?;
        }
    }
    Ok(values)
}

/// The values of a bit string.
#[tactic(auto, using(crate::proofs::Quotations::bits_of_base))]
pub fn bit_string_values(alloc: Global, literal: &Literal) -> Result<Vec<Nine>, NameFault>
    ensures given { Gives (λ v. v.items) (rules.values_of_bits literal.now.text.items) result }
    ensures told { IfErr result (Tells (lacking LeftOut literal.now.at (rules.values_of_bits literal.now.text.items))) }
{
    let [letter, text @ ..] = literal.text.as_slice() else {
        return Err(NameProblem::LeftOut.at(literal.at));
    };
    let Some(base) = base_of(*letter) else {
        return Err(NameProblem::LeftOut.at(literal.at));
    };
    let values = bits(alloc, base, quoted(text))?;
    at_least_one(values, literal.at)
}
