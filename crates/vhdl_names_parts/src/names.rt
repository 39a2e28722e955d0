//! What names in expressions are (IEEE 1076-2008, clause 8): objects with their indexed and slice
//! names, conversions and calls of the packages' functions (9.3.4, 9.3.6), and 'event (16.2.4).

ghost use Rattle.vhdl_names_rules.specs.problems.Broken.{Tells, refused, lacking};
ghost use Rattle.vhdl_names_rules.specs.problems.Expressions as broken;
ghost use Rattle.vhdl_names_rules.specs.problems.Operators.{name_problem};
ghost use Rattle.vhdl_names_rules.specs.declared.fault.NameProblem.TheVariants.{TypeMismatch};
ghost use Rattle.std.specs.Prelude.{◌≡◌, option_map, IfOk, IfErr};
ghost use Rattle.vhdl_names_rules.specs.Gives.{Gives};
ghost use Rattle.vhdl_names_rules.specs.Names as rules;
ghost use Rattle.vhdl_names_rules.specs.Operators as table;
ghost use Rattle.vhdl_names_rules.specs.Visibility as visibility;
ghost use Rattle.vhdl_names_trees.specs.views.Integers.{static_view};
ghost use Rattle.vhdl_names_trees.specs.views.Vectors.{signal_view, vector_view, value_view};
ghost use Rattle.vhdl_tree.specs.View.{attribute_view};
ghost use Rattle.vhdl_names_parts.specs.Steps.{conversion, counting, encoding, two};
ghost use Rattle.vhdl_names_sight.specs.Views.{meaning_view};
ghost use Rattle.vhdl_names_trees.specs.views.Expressions.{typed_view, typed_suffix_view};

use crate::edges::{edge_of, edge_signal};
use crate::parts::{if_plain, part, sole_argument, two_arguments};
use std::alloc::{AllocError, Global};
use vhdl_names_numbers::{count_of, encoded, number_of};
use vhdl_names_rules::{ElementKind, Function, NameFault, NameProblem, ObjectType, without};
use vhdl_names_sight::Meaning;
use vhdl_names_trees::{
    AnyPart, Computed, Part, Signal, SignalPart, Static, StaticTest, Test, Typed, TypedSuffix,
    Value, Vector,
};
use vhdl_tree::Attribute;
use vhdl_values::{Counted, Nine};

/// A port or signal of the nine values, or a part of it. It may take the memory of a box, as a
/// constant and a variable do.
fn read_signal(
    alloc: Global,
    signal: Signal,
    kind: ElementKind,
    suffix: TypedSuffix,
    at: usize,
) -> Result<Typed, NameFault>
    ensures given { Gives typed_view
        (rules.read_signal at (signal_view signal) kind (typed_suffix_view suffix)) result }
    ensures told { IfErr result (Tells (refused TypeMismatch at)) }
{
    let (part, kind) = part(kind, suffix, at)?;
    let vector = match part {
        AnyPart::Static(part) => Vector::Signal(SignalPart { at, signal, part }),
        AnyPart::Chosen(part) => Vector::InSignal(at, signal, Box::new(alloc, part)?),
    };
    Ok(Typed::Elements(kind, vector))
}

/// A constant of the nine values, or a part of it.
fn read_constant(
    alloc: Global,
    number: usize,
    kind: ElementKind,
    suffix: TypedSuffix,
    at: usize,
) -> Result<Typed, NameFault>
    ensures given { Gives typed_view
        (rules.read_by (rules.constant_part at number) kind (typed_suffix_view suffix)) result }
    ensures told { IfErr result (Tells (refused TypeMismatch at)) }
{
    let (part, kind) = part(kind, suffix, at)?;
    let vector = match part {
        AnyPart::Static(part) => Vector::Constant(at, number, part),
        AnyPart::Chosen(part) => Vector::InConstant(at, number, Box::new(alloc, part)?),
    };
    Ok(Typed::Elements(kind, vector))
}

/// A vector as one of another kind.
fn conversion_of(kind: ElementKind, operand: Option<Typed>, at: usize) -> Result<Typed, NameFault>
    ensures given { Gives typed_view (conversion kind (option_map typed_view operand)) result }
    ensures told { IfErr result (Tells (refused TypeMismatch at)) }
{
    match operand {
        Some(
            Typed::Elements(
                ElementKind::LogicVector | ElementKind::Unsigned | ElementKind::OpenVector,
                vector,
            ),
        ) => { Ok(Typed::Elements(kind, vector)) }
        operand => Err(without(operand, NameProblem::TypeMismatch.at(at))),
    }
}

/// The conversion to a vector type of a kind, whose name is at byte `at`.
#[tactic(auto, using(crate::proofs::Meant::converted_sole))]
fn converted(kind: ElementKind, suffix: TypedSuffix, at: usize) -> Result<Typed, NameFault>
    ensures given { Gives typed_view (rules.converted kind (typed_suffix_view suffix)) result }
    ensures told { IfErr result (Tells (refused TypeMismatch at)) }
{
    match suffix {
        TypedSuffix::Arguments(_, arguments) => conversion_of(kind, sole_argument(arguments), at),
        suffix => Err(without(suffix, NameProblem::TypeMismatch.at(at))),
    }
}

/// An operator on a number and a count, whose name is at byte `at`.
fn counted(
    alloc: Global,
    operator: Counted,
    arguments: Vec<Typed>,
    at: usize,
) -> Result<Typed, NameFault>
    ensures given { Gives typed_view
        (counting at operator (option_map (λ p. (typed_view p.0, typed_view p.1)) (two arguments.items))) result }
    ensures told { IfErr result (Tells (refused TypeMismatch at)) }
{
    let Some((number, count)) = two_arguments(arguments) else {
        return Err(NameProblem::TypeMismatch.at(at));
    };
    count_of(alloc, operator, number, count, at)
}

/// to_unsigned, whose name is at byte `at`, of an integer and a size.
fn encoded_by(alloc: Global, arguments: Vec<Typed>, at: usize) -> Result<Typed, NameFault>
    ensures given { Gives typed_view
        (encoding at (option_map (λ p. (typed_view p.0, typed_view p.1)) (two arguments.items))) result }
    ensures told { IfErr result (Tells (refused TypeMismatch at)) }
{
    let Some((number, size)) = two_arguments(arguments) else {
        return Err(NameProblem::TypeMismatch.at(at));
    };
    encoded(alloc, number, size, at)
}

/// A function of the packages, whose name is at byte `at`. It takes the memory of boxes.
#[tactic(auto, using(crate::proofs::Meant::counted_two, crate::proofs::Meant::encoding_two, crate::proofs::Meant::number_sole, crate::proofs::Meant::number_told, crate::proofs::Meant::other_call, crate::proofs::Meant::no_call))]
fn called(
    alloc: Global,
    function: Function,
    suffix: TypedSuffix,
    at: usize,
) -> Result<Typed, NameFault>
    ensures given { Gives typed_view (rules.called at function (typed_suffix_view suffix)) result }
    ensures told { IfErr result (Tells
        (refused (name_problem (visibility.function function) (typed_suffix_view suffix)) at)) }
{
    if let Function::EdgeCall(edge) = function {
        return edge_of(edge, suffix, at);
    }
    let TypedSuffix::Arguments(_, arguments) = suffix else {
        return Err(NameProblem::TypeMismatch.at(at));
    };
    match function {
        Function::ByCount(operator) => counted(alloc, operator, arguments, at),
        Function::ToInteger => number_of(alloc, sole_argument(arguments), at),
        _ => encoded_by(alloc, arguments, at),
    }
}

/// A value of an enumeration, by its number and its count of literals.
fn enumerated(number: usize, count: u16, value: Value) -> Typed
    ensures { typed_view result ≡ table.enumerated number count (value_view value) }
{
    Typed::Enumerated {
        number,
        count,
        value,
    }
}

/// Whether a boolean object is true, by its element, whose name is at byte `at`. It takes the
/// memory of boxes.
fn is_true(alloc: Global, object: Vector, at: usize) -> Result<Typed, AllocError>
    ensures { IfOk result (λ t. typed_view t ≡ rules.is_true at (vector_view object)) }
{
    let one = Value::Elements(Vector::EnclosedCharacter(at, Nine::One));
    let test = Test::alike(alloc, at, Value::Elements(object), one)?;
    Ok(Typed::Truth(test))
}

/// A signal or port, or part of one, whose name is at byte `at`.
fn read_object(
    alloc: Global,
    signal: Signal,
    object_type: ObjectType,
    suffix: TypedSuffix,
    at: usize,
) -> Result<Typed, NameFault>
    ensures given { Gives typed_view
        (rules.read_object at (signal_view signal) object_type (typed_suffix_view suffix)) result }
    ensures told { IfErr result (Tells (refused TypeMismatch at)) }
{
    match object_type {
        ObjectType::Elements(kind) => read_signal(alloc, signal, kind, suffix, at),
        ObjectType::Enumeration { number, count } => {
            if_plain(
                suffix,
                enumerated(number, count, Value::StateOf(signal)),
                at,
            )
        }
        ObjectType::Integers => if_plain(
            suffix,
            Typed::Computed(Computed::SignalNumber(signal)),
            at,
        ),
        ObjectType::Booleans => {
            let element = Vector::Signal(SignalPart {
                at,
                signal,
                part: Part::Whole,
            });
            if_plain(suffix, is_true(alloc, element, at)?, at)
        }
    }
}

/// A variable, or part of one, whose name is at byte `at`.
fn read_variable(
    alloc: Global,
    number: usize,
    object_type: ObjectType,
    suffix: TypedSuffix,
    at: usize,
) -> Result<Typed, NameFault>
    ensures given { Gives typed_view
        (rules.read_variable at number object_type (typed_suffix_view suffix)) result }
    ensures told { IfErr result (Tells (refused TypeMismatch at)) }
{
    match object_type {
        ObjectType::Elements(kind) => {
            let (part, kind) = part(kind, suffix, at)?;
            let vector = match part {
                AnyPart::Static(part) => Vector::Variable(at, number, part),
                AnyPart::Chosen(part) => Vector::InVariable(at, number, Box::new(alloc, part)?),
            };
            Ok(Typed::Elements(kind, vector))
        }
        ObjectType::Enumeration {
            number: enumeration,
            count,
        } => {
            let value = Value::StateOfVariable(number);
            if_plain(suffix, enumerated(enumeration, count, value), at)
        }
        ObjectType::Integers => {
            if_plain(
                suffix,
                Typed::Computed(Computed::VariableNumber(number)),
                at,
            )
        }
        ObjectType::Booleans => {
            let element = Vector::Variable(at, number, Part::Whole);
            if_plain(suffix, is_true(alloc, element, at)?, at)
        }
    }
}

/// The position of a boolean: `false` stands before `true` (16.3).
fn position_of(is_true: bool) -> u32
    ensures { result ≡ rules.position_of is_true }
{
    if is_true { 1 } else { 0 }
}

/// A boolean by its position, whose name is at byte `at`.
fn known(position: Static, at: usize) -> Typed
    ensures { typed_view result ≡ rules.known at (static_view position) }
{
    Typed::Truth(Test::Fixed(StaticTest::Known(at, position)))
}

/// What a name of this meaning is at byte `at`, with what follows it. It may take the memory of a
/// box.
#[inline(never)]
pub fn denoted(
    alloc: Global,
    meaning: &Meaning,
    suffix: TypedSuffix,
    at: usize,
) -> Result<Typed, NameFault>
    ensures given { Gives typed_view (rules.denoted at (meaning_view meaning.now) (typed_suffix_view suffix)) result }
    ensures told { IfErr result (Tells
        (lacking (name_problem (meaning_view meaning.now) (typed_suffix_view suffix)) at
        (rules.denoted at (meaning_view meaning.now) (typed_suffix_view suffix)))) }
{
    match meaning {
        Meaning::Generic(k) => if_plain(suffix, Typed::Integer(Static::Generic(*k)), at),
        Meaning::IntegerConstant(k) => if_plain(suffix, Typed::Integer(Static::Constant(*k)), at),
        Meaning::GenerateParameter(k) => {
            if_plain(suffix, Typed::Integer(Static::GenerateParameter(*k)), at)
        }
        Meaning::LoopParameter(k) => {
            if_plain(suffix, Typed::Integer(Static::LoopParameter(*k)), at)
        }
        Meaning::BooleanGeneric(k) => if_plain(suffix, known(Static::Generic(*k), at), at),
        Meaning::BooleanConstant(k) => if_plain(suffix, known(Static::Constant(*k), at), at),
        Meaning::BooleanLiteral(is_true) => {
            let position = Static::Number(position_of(*is_true));
            if_plain(suffix, known(position, at), at)
        }
        Meaning::Port(k, _, object_type) => {
            read_object(alloc, Signal::Port(*k), *object_type, suffix, at)
        }
        Meaning::Signal(k, object_type) => {
            read_object(alloc, Signal::Signal(*k), *object_type, suffix, at)
        }
        Meaning::Variable(k, object_type) => read_variable(alloc, *k, *object_type, suffix, at),
        Meaning::Constant(k, kind, _) => read_constant(alloc, *k, *kind, suffix, at),
        Meaning::Literal {
            number,
            count,
            position,
        } => {
            let value = Value::Position(*position);
            if_plain(suffix, enumerated(*number, *count, value), at)
        }
        Meaning::VectorType(kind, _) => converted(*kind, suffix, at),
        Meaning::Function(function) => called(alloc, *function, suffix, at),
        Meaning::Unfinished => Err(NameProblem::Undeclared.at(at)),
        Meaning::IntegerType(_) => Err(NameProblem::WrongKind.at(at)),
        Meaning::BooleanType => Err(NameProblem::WrongKind.at(at)),
        Meaning::ElementType { .. } => Err(NameProblem::WrongKind.at(at)),
        Meaning::EnumerationType { .. } => Err(NameProblem::WrongKind.at(at)),
        Meaning::Component(_) => Err(NameProblem::WrongKind.at(at)),
        Meaning::Label => Err(NameProblem::WrongKind.at(at)),
    }
}

/// The byte at which an attribute starts.
pub fn attribute_start(attribute: &Attribute) -> usize
    ensures { result ≡ broken.attribute_start (attribute_view attribute.now) }
{
    match attribute {
        Attribute::Name(name) => name.at,
        Attribute::Range { at } => *at,
    }
}

/// Whether an attribute is 'event.
pub fn is_event(attribute: &Attribute) -> bool
    ensures { result ≡ broken.is_event (attribute_view attribute.now) }
{
    match attribute {
        Attribute::Name(name) => name.text.as_slice() == b"event".as_slice(),
        Attribute::Range { .. } => false,
    }
}

/// The attribute of a name at byte `at`, if it has one: 'event.
#[tactic(auto, using(vhdl_names_rules::proofs::Telling::told_left, vhdl_names_rules::proofs::Telling::told_right))]
#[inline(never)]
pub fn attributed(
    attribute: &Option<Attribute>,
    operand: Typed,
    at: usize,
) -> Result<Typed, NameFault>
    ensures given { Gives typed_view (rules.attributed (option_map attribute_view attribute.now) (typed_view operand))
        result }
    ensures told { IfErr result (Tells
        (broken.attributed at (option_map attribute_view attribute.now) (typed_view operand))) }
{
    match attribute {
        None => Ok(operand),
        Some(attribute) => {
            if !is_event(attribute) {
                return Err(NameProblem::LeftOut.at(attribute_start(attribute)));
            }
            let place = edge_signal(operand, at)?;
            Ok(Typed::Truth(Test::Event(place)))
        }
    }
}
