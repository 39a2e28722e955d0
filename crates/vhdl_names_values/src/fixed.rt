//! The values of constants of the nine values and of enumerations, and of defaults of these
//! (IEEE 1076-2008, 6.4.2.2, 9.4).

ghost use Rattle.std.specs.Prelude.{◌≡◌, map, option_map, is_some, IfErr};
ghost use Rattle.vhdl_names_rules.specs.problems.Broken.{Tells, refused, ◌▸◌, unless, lacking};
ghost use Rattle.vhdl_names_rules.specs.problems.Expressions.{is_vector_type};
ghost use Rattle.vhdl_names_rules.specs.problems.Subtypes as broken;
ghost use Rattle.vhdl_names_rules.specs.declared.fault.NameProblem.TheVariants.{TypeMismatch, LeftOut};
ghost use Rattle.vhdl_names_rules.specs.Gives.{Gives};
ghost use Rattle.vhdl_names_rules.specs.Subtypes as rules;
ghost use Rattle.vhdl_names_rules.specs.declared.kind.ObjectType.TheVariants.{Elements, Enumeration};
ghost use Rattle.vhdl_tree.specs.Tree as t;
ghost use Rattle.vhdl_tree.specs.View.{view, ident_view, suffix_view, attribute_view, value_view as tree_value_view};
ghost use Rattle.vhdl_names_sight.specs.Views.{meaning_view};
ghost use Rattle.vhdl_names_trees.specs.views.Expressions.{typed_view, typed_suffix_view};
ghost use Rattle.vhdl_names_trees.specs.views.Integers.{target_range_view};
ghost use Rattle.vhdl_names_expressions.specs.Chosen.{as_character};
ghost use Rattle.vhdl_names_values.specs.Fixing as steps;
ghost use Rattle.vhdl_names_values.specs.Fixing.{encoded_fixed, filled_with, suffixed_value, known_given};
ghost use Rattle.vhdl_names_units.specs.views.Answers.{fixed_view, given_view};

use crate::literals::{literal_values, no_literal};
use std::alloc::Global;
use vhdl_lexer::Language;
use vhdl_names_asked::{given, given_expression, unattributed};
use vhdl_names_expressions::{name_of, start};
use vhdl_names_numbers::is_known;
use vhdl_names_parts::two_arguments;
use vhdl_names_rules::{
    ElementKind, Function, NameFault, NameProblem, ObjectType, nine_of, without,
};
use vhdl_names_sight::{Meaning, Sight};
use vhdl_names_trees::{TargetRange, Typed, TypedSuffix, Value};
use vhdl_names_units::{Fixed, Given};
use vhdl_tree::{Expr, Name, Value as TreeValue};

/// What is wrong with a name of this meaning as the value of a constant.
fn value_problem(meaning: &Meaning) -> NameProblem
    ensures { result ≡ broken.value_problem (meaning_view meaning.now) }
{
    match meaning {
        Meaning::Unfinished => NameProblem::Undeclared,
        Meaning::Literal { .. } | Meaning::Constant(..) => NameProblem::TypeMismatch,
        Meaning::Label | Meaning::Component(_) => NameProblem::WrongKind,
        _ => NameProblem::LeftOut,
    }
}

/// The value that a constant of this kind is; its name is at byte `at`.
fn constant_value(kind: ElementKind, meaning: &Meaning, at: usize) -> Result<Fixed, NameFault>
    ensures given { Gives fixed_view (rules.named_value (Elements kind) (meaning_view meaning.now)) result }
    ensures told { IfErr result (Tells (refused (broken.value_problem (meaning_view meaning.now)) at)) }
{
    match (kind, meaning) {
        (ElementKind::Element, Meaning::Constant(k, ElementKind::Element, _))
        | (ElementKind::LogicVector, Meaning::Constant(k, ElementKind::LogicVector, _))
        | (ElementKind::Unsigned, Meaning::Constant(k, ElementKind::Unsigned, _)) => Ok(
            Fixed::Constant(*k),
        ),
        _ => Err(value_problem(meaning).at(at)),
    }
}

/// The value that a literal of this enumeration is; its name is at byte `at`.
fn position_value(
    number: usize,
    count: u16,
    meaning: &Meaning,
    at: usize,
) -> Result<Fixed, NameFault>
    ensures given { Gives fixed_view (rules.named_value (Enumeration number count) (meaning_view meaning.now)) result }
    ensures told { IfErr result (Tells (refused (broken.value_problem (meaning_view meaning.now)) at)) }
{
    match meaning {
        Meaning::Literal {
            number: own,
            position,
            ..
        } if *own == number => Ok(Fixed::Position(*position)),
        _ => Err(value_problem(meaning).at(at)),
    }
}

/// The value that a constant or a literal of an enumeration is; its name is at byte `at`.
fn named_value(object_type: ObjectType, meaning: &Meaning, at: usize) -> Result<Fixed, NameFault>
    ensures given { Gives fixed_view (rules.named_value object_type (meaning_view meaning.now)) result }
    ensures told { IfErr result (Tells (refused (broken.value_problem (meaning_view meaning.now)) at)) }
{
    match object_type {
        ObjectType::Elements(kind) => constant_value(kind, meaning, at),
        ObjectType::Enumeration { number, count } => position_value(number, count, meaning, at),
        ObjectType::Integers | ObjectType::Booleans => Err(value_problem(meaning).at(at)),
    }
}

/// to_unsigned of a number and a size; its name is at byte `at`.
fn encoded(arguments: Option<(Typed, Typed)>, at: usize) -> Result<Fixed, NameFault>
    ensures given { Gives fixed_view (encoded_fixed (option_map (λ p. (typed_view p.0, typed_view p.1)) arguments))
        result }
    ensures told { IfErr result (Tells (refused TypeMismatch at)) }
{
    let Some((first, second)) = arguments else {
        return Err(NameProblem::TypeMismatch.at(at));
    };
    match (first, second) {
        (Typed::Integer(number), Typed::Integer(size)) => Ok(Fixed::Encoded(number, size)),
        _ => Err(NameProblem::TypeMismatch.at(at)),
    }
}

/// A call of to_unsigned of two static integers, for unsigned; its name is at byte `at`.
#[tactic(auto, using(crate::proofs::Fixing::encoding_two))]
fn encoded_value(
    object_type: ObjectType,
    meaning: &Meaning,
    arguments: Vec<Typed>,
    at: usize,
) -> Result<Fixed, NameFault>
    ensures given { Gives fixed_view
        (rules.encoded_value object_type (meaning_view meaning.now) (map typed_view arguments.items)) result }
    ensures told { IfErr result (Tells (refused (broken.call_problem object_type (meaning_view meaning.now)) at)) }
{
    match (object_type, meaning) {
        (ObjectType::Elements(ElementKind::Unsigned), Meaning::Function(Function::ToUnsigned)) => {
            encoded(two_arguments(arguments), at)
        }
        _ => Err(value_problem(meaning).at(at)),
    }
}

/// The value that a name is, with what stands in parentheses behind it; it is at byte `at`.
fn suffixed(
    object_type: ObjectType,
    meaning: &Meaning,
    suffix: TypedSuffix,
    at: usize,
) -> Result<Fixed, NameFault>
    ensures given { Gives fixed_view (suffixed_value object_type (meaning_view meaning.now) (typed_suffix_view suffix))
        result }
    ensures told { IfErr result (Tells
        (refused (broken.suffixed_problem object_type (meaning_view meaning.now) (typed_suffix_view suffix)) at)) }
{
    match suffix {
        TypedSuffix::Plain => named_value(object_type, meaning, at),
        TypedSuffix::Arguments(_, arguments) => encoded_value(object_type, meaning, arguments, at),
        TypedSuffix::Range(_) => Err(NameProblem::LeftOut.at(at)),
        TypedSuffix::ComputedRange { .. } => Err(NameProblem::LeftOut.at(at)),
    }
}

/// The value that a name or a call is.
fn fixed_name(sight: &Sight, object_type: ObjectType, name: &Name) -> Result<Fixed, NameFault>
    ensures given { Gives fixed_view
        (rules.fixed sight.now object_type
        (t.named (ident_view name.now.identifier) (suffix_view name.now.suffix)
        (option_map attribute_view name.now.attribute)))
        result }
    ensures told { IfErr result (Tells
        (broken.fixed sight.now object_type
        (t.named (ident_view name.now.identifier) (suffix_view name.now.suffix)
        (option_map attribute_view name.now.attribute)))) }
{
    let (entry, suffix) = unattributed(sight, name)?;
    suffixed(object_type, &entry.meaning, suffix, name.identifier.at)
}

/// A literal as it stands, as the value of a type.
fn literal_value(alloc: Global, object_type: ObjectType, e: &Expr) -> Result<Fixed, NameFault>
    ensures given { Gives fixed_view (rules.literal_value object_type (view e.now)) result }
    ensures told { IfErr result (Tells (broken.literal object_type (view e.now))) }
{
    match object_type {
        ObjectType::Elements(kind) => {
            let values = literal_values(alloc, kind, e)?;
            Ok(Fixed::Literal(values))
        }
        _ => Err(no_literal(e)),
    }
}

/// A name, a call of to_unsigned, or a literal; no other expression is the value of a constant.
fn fixed(sight: &Sight, object_type: ObjectType, e: &Expr) -> Result<Fixed, NameFault>
    ensures given { Gives fixed_view (rules.fixed sight.now object_type (view e.now)) result }
    ensures told { IfErr result (Tells (broken.fixed sight.now object_type (view e.now))) }
{
    match name_of(e) {
        Some(name) => fixed_name(sight, object_type, name),
        None => literal_value(sight.alloc, object_type, e),
    }
}

/// The character that an expression is.
fn character_of(e: &Expr) -> Option<u8>
    ensures { result ≡ as_character (view e.now) }
{
    match e {
        Expr::Character { code, .. } => Some(*code),
        _ => None,
    }
}

/// `(others => c)`, whose parenthesis is at byte `at`, for each element of a vector, where c, which
/// starts at byte `element_at`, is a character literal.
fn filled(
    object_type: ObjectType,
    code: Option<u8>,
    at: usize,
    element_at: usize,
) -> Result<Fixed, NameFault>
    ensures given { Gives fixed_view (filled_with object_type code) result }
    ensures told { IfErr result (Tells
        (unless LeftOut element_at (is_some code) ▸ unless TypeMismatch at (is_vector_type object_type) ▸ lacking
        TypeMismatch element_at (filled_with object_type code))) }
{
    let Some(code) = code else {
        return Err(NameProblem::LeftOut.at(element_at));
    };
    match object_type {
        ObjectType::Elements(kind) if kind.is_vector() => match nine_of(code) {
            Some(value) => Ok(Fixed::Filled(value)),
            None => Err(NameProblem::TypeMismatch.at(element_at)),
        },
        _ => Err(NameProblem::TypeMismatch.at(at)),
    }
}

/// Whether what is given names no signal and no variable.
fn is_known_value(given: &Given) -> bool
    ensures { result ≡ rules.is_known_value (given_view given.now) }
{
    match given {
        Given::Single(value) => match &**value {
            Value::Elements(vector) => is_known(vector),
            Value::Position(_) => true,
            Value::StateOf(_)
            | Value::StateOfVariable(_)
            | Value::Computed(_)
            | Value::StaticTruth(_) => false,
        },
        Given::Filled(vector) => is_known(vector),
    }
}

/// What is given, if it names no signal and no variable; it starts at byte `at`.
pub fn as_known(given: Given, at: usize) -> Result<Fixed, NameFault>
    ensures given { Gives fixed_view (known_given (given_view given)) result }
    ensures told { IfErr result (Tells (refused LeftOut at)) }
{
    if is_known_value(&given) {
        Ok(Fixed::Given(given))
    } else {
        Err(without(given, NameProblem::LeftOut.at(at)))
    }
}

/// Whether the wider language looks for another value where a plain one has this fault.
fn looks_further(language: Language, fault: &NameFault) -> bool
    ensures { result ≡ steps.looks_further language fault.now }
{
    match fault {
        NameFault::NoMemory => false,
        NameFault::At { .. } => match language {
            Language::Profile => false,
            Language::Wide => true,
        },
    }
}

/// An expression that is given, if it names no signal and no variable.
fn known_expression(
    sight: &Sight,
    object_type: ObjectType,
    range: Option<TargetRange<'_>>,
    e: &Expr,
) -> Result<Fixed, NameFault>
    ensures given { Gives fixed_view
        (steps.known_value sight.now object_type (option_map target_range_view range.entry)
        (t.single (view e.now))) result }
    ensures told { IfErr result (Tells
        (broken.known_value sight.now object_type (option_map target_range_view range.entry) (t.single (view e.now)))) }
{
    let given = given_expression(sight, object_type, range, e)?;
    as_known(given, start(e))
}

/// A value that is an expression: a plain one, or in the wider language any that is known.
pub(crate) fn wider_expression(
    sight: &Sight,
    object_type: ObjectType,
    range: Option<TargetRange<'_>>,
    e: &Expr,
) -> Result<Fixed, NameFault>
    ensures given { Gives fixed_view
        (steps.wider_value sight.now object_type (option_map target_range_view range.entry)
        (t.single (view e.now))) result }
    ensures told { IfErr result (Tells
        (broken.fixed_value_in sight.now.language sight.now object_type (option_map target_range_view range.entry)
        (t.single (view e.now)))) }
{
    match fixed(sight, object_type, e) {
        Ok(plain) => Ok(plain),
        Err(fault) => {
            if looks_further(sight.language, &fault) {
                known_expression(sight, object_type, range, e)
            } else {
                Err(fault)
            }
        }
    }
}

/// What is given for each element of a vector, if it names no signal and no variable, where the
/// element starts at byte `at`.
fn known_filling(
    sight: &Sight,
    object_type: ObjectType,
    range: Option<TargetRange<'_>>,
    value: &TreeValue,
    at: usize,
) -> Result<Fixed, NameFault>
    ensures given { Gives fixed_view
        (steps.known_value sight.now object_type (option_map target_range_view range.entry) (tree_value_view value.now))
        result }
    ensures told { IfErr result (Tells
        (steps.known_value_breaks sight.now object_type (option_map target_range_view range.entry) at
        (tree_value_view value.now))) }
{
    let given = given(sight, object_type, range, value)?;
    as_known(given, at)
}

/// The same of `(others => e)`, or an expression.
pub(crate) fn wider_value(
    sight: &Sight,
    object_type: ObjectType,
    range: Option<TargetRange<'_>>,
    value: &TreeValue,
) -> Result<Fixed, NameFault>
    ensures given { Gives fixed_view
        (steps.wider_value sight.now object_type (option_map target_range_view range.entry)
        (tree_value_view value.now)) result }
    ensures told { IfErr result (Tells
        (broken.fixed_value_in sight.now.language sight.now object_type (option_map target_range_view range.entry)
        (tree_value_view value.now))) }
{
    match value {
        TreeValue::Expr(e) => wider_expression(sight, object_type, range, e),
        TreeValue::Others { at, element } => {
            let place = start(element);
            match filled(object_type, character_of(element), *at, place) {
                Ok(plain) => Ok(plain),
                Err(fault) => {
                    if looks_further(sight.language, &fault) {
                        known_filling(sight, object_type, range, value, place)
                    } else {
                        Err(fault)
                    }
                }
            }
        }
    }
}
