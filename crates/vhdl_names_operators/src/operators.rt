//! Operators on typed operands (IEEE 1076-2008, 9.2; numeric_std for unsigned, 16.8). Each takes
//! the memory of a list or a box.

ghost use Rattle.vhdl_names_rules.specs.problems.Broken.{Tells, refused, ◌▸◌, lacking};
ghost use Rattle.vhdl_names_rules.specs.problems.Operators.{is_unordered, arithmetic_problem, order_problem, operator_problem};
ghost use Rattle.vhdl_names_rules.specs.declared.fault.NameProblem.TheVariants.{TypeMismatch, LeftOut};
ghost use Rattle.std.specs.Prelude.{◌≡◌, true, ◌||◌, if◌then◌else◌, IfErr};
ghost use Rattle.vhdl_names_rules.specs.Gives.{Gives};
ghost use Rattle.vhdl_names_rules.specs.Operators as table;
ghost use Rattle.vhdl_names_operators.specs.Steps as steps;
ghost use Rattle.vhdl_names_operators.specs.Resolving.{is_plain, kind_of as kind_seen, operand_breaks};
ghost use Rattle.vhdl_names_trees.specs.views.Expressions.{typed_view};

use crate::beside::{kind_of, resolved};
use crate::equality::equality;
use crate::numbers::{as_numbers, calculated, compared};
use std::alloc::Global;
use vhdl_lexer::Language;
use vhdl_names_numbers::as_integers;
use vhdl_names_rules::{Arithmetic, NameFault, NameProblem, Numeric, VectorOperator, without};
use vhdl_names_trees::{Typed, Vector, VectorLink};
use vhdl_tree::Operator;
use vhdl_values::{Cmp, Logic};

/// and or nand nor xor xnor, at byte `at`.
fn logical(
    alloc: Global,
    at: usize,
    operator: Logic,
    operands: (Typed, Typed),
) -> Result<Typed, NameFault>
    ensures given { Gives typed_view
        (table.logical at operator (typed_view operands.0) (typed_view operands.1)) result }
    ensures told { IfErr result (Tells (refused TypeMismatch at)) }
{
    let (left, right) = operands;
    let problem = NameProblem::TypeMismatch;
    match left {
        Typed::Elements(j, x) => match right {
            Typed::Elements(k, y) => match j.common(k) {
                None => Err(without((x, y), problem.at(at))),
                Some(kind) => {
                    let link = VectorLink::Vector(VectorOperator::Logical(operator), at, y);
                    Ok(Typed::Elements(kind, x.with_link(alloc, link)?))
                }
            },
            right => Err(without((x, right), problem.at(at))),
        },
        Typed::Truth(x) => match right {
            Typed::Truth(y) => Ok(Typed::Truth(x.both(alloc, operator, y)?)),
            right => Err(without((x, right), problem.at(at))),
        },
        left => Err(without((left, right), problem.at(at))),
    }
}

/// not, at byte `at`.
#[inline(never)]
pub fn inverse(alloc: Global, at: usize, operand: Typed) -> Result<Typed, NameFault>
    ensures given { Gives typed_view (table.inverse (typed_view operand)) result }
    ensures told { IfErr result (Tells (lacking TypeMismatch at (table.inverse (typed_view operand)))) }
{
    match operand {
        Typed::Elements(kind, x) => Ok(Typed::Elements(kind, Vector::inverse(alloc, at, x)?)),
        Typed::Truth(x) => Ok(Typed::Truth(x.negated(alloc)?)),
        operand => Err(without(operand, NameProblem::TypeMismatch.at(at))),
    }
}

/// &, at byte `at`.
fn concatenated(alloc: Global, at: usize, operands: (Typed, Typed)) -> Result<Typed, NameFault>
    ensures given { Gives typed_view (table.concatenated at (typed_view operands.0) (typed_view operands.1)) result }
    ensures told { IfErr result (Tells (refused TypeMismatch at)) }
{
    let (left, right) = operands;
    let problem = NameProblem::TypeMismatch;
    match left {
        Typed::Elements(j, x) => match right {
            Typed::Elements(k, y) => match j.joined(k) {
                None => Err(without((x, y), problem.at(at))),
                Some(kind) => {
                    let link = VectorLink::Vector(VectorOperator::Concatenate, at, y);
                    Ok(Typed::Elements(kind, x.with_link(alloc, link)?))
                }
            },
            right => Err(without((x, right), problem.at(at))),
        },
        left => Err(without((left, right), problem.at(at))),
    }
}

/// / mod rem, at byte `at`.
fn integral(
    alloc: Global,
    at: usize,
    operator: Arithmetic,
    operands: (Typed, Typed),
) -> Result<Typed, NameFault>
    ensures given { Gives typed_view
        (table.integral at operator (typed_view operands.0) (typed_view operands.1)) result }
    ensures told { IfErr result (Tells (refused TypeMismatch at)) }
{
    match as_integers(operands) {
        Ok((left, right)) => Ok(left.binary(alloc, operator, at, right)?),
        Err(operands) => Err(without(operands, NameProblem::TypeMismatch.at(at))),
    }
}

/// + - *, at byte `at`, on integers and on numbers.
#[tactic(auto, using(crate::proofs::Operating::arithmetic_is))]
fn arithmetic(
    alloc: Global,
    numbers: bool,
    at: usize,
    operator: Arithmetic,
    by: Numeric,
    operands: (Typed, Typed),
) -> Result<Typed, NameFault>
    ensures given { Gives typed_view
        (table.arithmetic numbers at operator by (typed_view operands.0) (typed_view operands.1)) result }
    ensures told { IfErr result (Tells
        (refused (arithmetic_problem (typed_view operands.0) (typed_view operands.1)) at)) }
{
    let numbers = as_numbers(numbers, at, NameProblem::TypeMismatch, operands)?;
    Ok(calculated(alloc, at, operator, by, numbers)?)
}

/// Whether ordering it is left out: an element, a std_logic_vector and an enumeration.
fn is_left_out(operand: &Typed) -> bool
    ensures { result ≡ is_unordered (typed_view operand.now) }
{
    match operand {
        Typed::Elements(kind, _) => !kind.is_number(),
        Typed::Enumerated { .. } => true,
        _ => false,
    }
}

/// What is wrong with operands that are no numbers.
fn unordered(operands: &(Typed, Typed)) -> NameProblem
    ensures { result ≡ if is_unordered (typed_view operands.now.0) || is_unordered (typed_view operands.now.1)
        then LeftOut else TypeMismatch }
{
    if is_left_out(&operands.0) || is_left_out(&operands.1) {
        NameProblem::LeftOut
    } else {
        NameProblem::TypeMismatch
    }
}

/// < <= > >=, at byte `at`.
#[tactic(auto, using(crate::proofs::Operating::ordering_is))]
fn ordering(
    alloc: Global,
    numbers: bool,
    at: usize,
    comparison: Cmp,
    operands: (Typed, Typed),
) -> Result<Typed, NameFault>
    ensures given { Gives typed_view
        (table.ordering numbers at comparison (typed_view operands.0) (typed_view operands.1)) result }
    ensures told { IfErr result (Tells (refused (order_problem (typed_view operands.0) (typed_view operands.1)) at)) }
{
    let problem = unordered(&operands);
    let numbers = as_numbers(numbers, at, problem, operands)?;
    Ok(compared(alloc, at, comparison, numbers)?)
}

/// `**`, at byte `at`.
#[inline(never)]
pub fn power(alloc: Global, at: usize, base: Typed, exponent: Typed) -> Result<Typed, NameFault>
    ensures given { Gives typed_view (table.raised at (typed_view base) (typed_view exponent)) result }
    ensures told { IfErr result (Tells (refused TypeMismatch at)) }
{
    let problem = NameProblem::TypeMismatch;
    match base {
        Typed::Integer(x) => match exponent {
            Typed::Integer(y) => { Ok(Typed::Integer(x.binary(alloc, Arithmetic::Power, at, y)?)) }
            exponent => Err(without((x, exponent), problem.at(at))),
        },
        base => Err(without((base, exponent), problem.at(at))),
    }
}

/// A binary operator, at byte `at`, on operands of which none is an aggregate.
fn applied(
    alloc: Global,
    language: Language,
    numbers: bool,
    operator: Operator,
    at: usize,
    operands: (Typed, Typed),
) -> Result<Typed, NameFault>
    requires left { is_plain (typed_view operands.0) ≡ true }
    requires right { is_plain (typed_view operands.1) ≡ true }
    ensures given { Gives typed_view
        (steps.operated language numbers at operator (typed_view operands.0) (typed_view operands.1)) result }
    ensures told { IfErr result (Tells
        (lacking (operator_problem operator (typed_view operands.0) (typed_view operands.1)) at
        (steps.operated language numbers at operator (typed_view operands.0) (typed_view operands.1)))) }
{
    match operator {
        Operator::And => logical(alloc, at, Logic::And, operands),
        Operator::Or => logical(alloc, at, Logic::Or, operands),
        Operator::Xor => logical(alloc, at, Logic::Xor, operands),
        Operator::Xnor => logical(alloc, at, Logic::Xnor, operands),
        Operator::Nand => logical(alloc, at, Logic::Nand, operands),
        Operator::Nor => logical(alloc, at, Logic::Nor, operands),
        Operator::Equal => equality(alloc, language, at, Cmp::Eq, operands),
        Operator::NotEqual => equality(alloc, language, at, Cmp::Ne, operands),
        Operator::Less => ordering(alloc, numbers, at, Cmp::Lt, operands),
        Operator::LessEqual => ordering(alloc, numbers, at, Cmp::Le, operands),
        Operator::Greater => ordering(alloc, numbers, at, Cmp::Gt, operands),
        Operator::GreaterEqual => ordering(alloc, numbers, at, Cmp::Ge, operands),
        Operator::Add => arithmetic(alloc, numbers, at, Arithmetic::Add, Numeric::Add, operands),
        Operator::Subtract => {
            let by = Numeric::Subtract;
            arithmetic(alloc, numbers, at, Arithmetic::Subtract, by, operands)
        }
        Operator::Concatenate => concatenated(alloc, at, operands),
        Operator::Multiply => {
            let by = Numeric::Multiply;
            arithmetic(alloc, numbers, at, Arithmetic::Multiply, by, operands)
        }
        Operator::Divide => integral(alloc, at, Arithmetic::Divide, operands),
        Operator::Modulo => integral(alloc, at, Arithmetic::Modulo, operands),
        Operator::Remainder => integral(alloc, at, Arithmetic::Remainder, operands),
    }
}

/// A binary operator, at byte `at`, on typed operands; `numbers` says whether the operators of
/// numeric_std are in sight. An aggregate is told before its operator.
#[inline(never)]
pub fn operated(
    alloc: Global,
    language: Language,
    numbers: bool,
    operator: Operator,
    at: usize,
    left: Typed,
    right: Typed,
) -> Result<Typed, NameFault>
    ensures given { Gives typed_view
        (steps.operated language numbers at operator (typed_view left) (typed_view right)) result }
    ensures told { IfErr result (Tells
        (operand_breaks operator (kind_seen (typed_view right)) (typed_view left)
        ▸ operand_breaks operator (kind_seen (typed_view left)) (typed_view right)
        ▸ lacking (operator_problem operator (typed_view left) (typed_view right)) at
        (steps.operated language numbers at operator (typed_view left) (typed_view right)))) }
{
    let own = kind_of(&left);
    let other = kind_of(&right);
    let first = resolved(alloc, operator, other, left)?;
    let second = resolved(alloc, operator, own, right)?;
    applied(alloc, language, numbers, operator, at, (first, second))
}
