//! Operands: literals (IEEE 1076-2008, 9.3.2), and what stands in parentheses.

ghost use Rattle.vhdl_names_rules.specs.problems.Broken.{Tells, lacking};
ghost use Rattle.vhdl_names_rules.specs.problems.Operators.{string_problem};
ghost use Rattle.vhdl_names_rules.specs.declared.fault.NameProblem.TheVariants.{TypeMismatch, LeftOut};
ghost use Rattle.std.specs.Prelude.{◌≡◌, option_map, IfErr};
ghost use Rattle.vhdl_names_rules.specs.Expressions as rules;
ghost use Rattle.vhdl_names_rules.specs.Gives.{Gives};
ghost use Rattle.vhdl_names_rules.specs.Literals as literals;
ghost use Rattle.vhdl_names_rules.specs.Operators as table;
ghost use Rattle.vhdl_names_rules.specs.declared.kind.ElementKind.TheVariants.{Element, OpenVector};
ghost use Rattle.vhdl_names_rules.specs.units.Expressions as u;
ghost use Rattle.vhdl_names_trees.specs.views.Vectors.{vector_view};
ghost use Rattle.vhdl_names_operators.specs.Steps.{closed, integer_literal as integer_of};
ghost use Rattle.vhdl_names_trees.specs.views.Expressions.{typed_view};

use crate::literals::{bit_string_values, string_values};
use std::alloc::Global;
use vhdl_lexer::integer_value;
use vhdl_names_rules::{ElementKind, NameFault, NameProblem, nine_of, without};
use vhdl_names_trees::{Static, Typed, Vector};
use vhdl_tree::Literal;

/// An integer literal, of at most 2,147,483,647 (IEEE 1076-2008, 5.2.3.2); a greater one is
/// LeftOut.
#[inline(never)]
pub fn integer_literal(literal: &Literal) -> Result<Typed, NameFault>
    ensures given { Gives typed_view (integer_of literal.now.text.items) result }
    ensures told { IfErr result (Tells (lacking LeftOut literal.now.at (literals.number_of literal.now.text.items))) }
{
    match integer_value(&literal.text) {
        Some(number) => Ok(Typed::Integer(Static::Number(number))),
        None => Err(NameProblem::LeftOut.at(literal.at)),
    }
}

/// A character literal at byte `at`, of one of the nine values (15.6), or else there is
/// TypeMismatch.
pub fn character_literal(code: u8, at: usize) -> Result<Typed, NameFault>
    ensures given { Gives typed_view (option_map (λ v. table.elements Element (u.character v)) (literals.nine_of code))
        result }
    ensures told { IfErr result (Tells (lacking TypeMismatch at (literals.nine_of code))) }
{
    match nine_of(code) {
        Some(value) => Ok(Typed::Elements(ElementKind::Element, Vector::Character(at, value))),
        None => Err(NameProblem::TypeMismatch.at(at)),
    }
}

/// A string literal, a vector of the nine values (15.7). It takes the memory of a list.
#[inline(never)]
pub fn string_literal(alloc: Global, literal: &Literal) -> Result<Typed, NameFault>
    ensures given { Gives typed_view
        (option_map (λ vs. table.elements OpenVector (u.Vector.literal literal.now.at vs))
        (literals.values_of_string literal.now.text.items)) result }
    ensures told { IfErr result (Tells
        (lacking (string_problem literal.now.text.items) literal.now.at
        (literals.values_of_string literal.now.text.items))) }
{
    let values = string_values(alloc, literal)?;
    Ok(Typed::Elements(ElementKind::OpenVector, Vector::Literal(literal.at, values)))
}

/// A bit string literal, a vector of zeros and ones (15.8). It takes the memory of a list.
#[inline(never)]
pub fn bit_string_literal(alloc: Global, literal: &Literal) -> Result<Typed, NameFault>
    ensures given { Gives typed_view
        (option_map (λ vs. table.elements OpenVector (u.Vector.literal literal.now.at vs))
        (literals.values_of_bits literal.now.text.items)) result }
    ensures told { IfErr result (Tells
        (lacking LeftOut literal.now.at (literals.values_of_bits literal.now.text.items))) }
{
    let values = bit_string_values(alloc, literal)?;
    Ok(Typed::Elements(ElementKind::OpenVector, Vector::Literal(literal.at, values)))
}

/// A vector as it counts in parentheses.
fn closed_vector(vector: Vector) -> Vector
    ensures { vector_view result ≡ closed (vector_view vector) }
{
    match &vector {
        Vector::Character(at, value) => Vector::EnclosedCharacter(*at, *value),
        _ => vector,
    }
}

/// An operand as it counts in parentheses: a character literal there is no part of an edge test.
#[tactic(auto, using(crate::proofs::Closing::enclosed_element))]
pub fn enclosed(operand: Typed) -> Typed
    ensures { typed_view result ≡ rules.enclosed (typed_view operand) }
{
    match operand {
        Typed::Elements(ElementKind::Element, vector) => {
            Typed::Elements(ElementKind::Element, closed_vector(vector))
        }
        operand => operand,
    }
}

/// What stands in parentheses, and starts at byte `at`: neither the name of a range, nor an
/// aggregate.
pub fn in_parentheses(operand: Typed, at: usize) -> Result<Typed, NameFault>
    ensures given { Gives typed_view (rules.in_parentheses (typed_view operand)) result }
    ensures told { IfErr result (Tells (lacking TypeMismatch at (rules.in_parentheses (typed_view operand)))) }
{
    match operand {
        Typed::Interval(range) => Err(without(range, NameProblem::TypeMismatch.at(at))),
        Typed::Composite(_, elements) => {
            Err(without(elements, NameProblem::TypeMismatch.at(at)))
        }
        operand => Ok(enclosed(operand)),
    }
}
