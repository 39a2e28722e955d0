//! Operators on numbers (IEEE 1076-2008, 9.2.5 to 9.2.8). Each takes the memory of boxes and lists.

ghost use Rattle.std.specs.Prelude.{◌≡◌, ◌⊎◌, IfOk};
ghost use Rattle.rtl_model.specs.bodies.Body as bodies;
ghost use Rattle.rtl_model.specs.bodies.Fits.{IsWidth, operated_width};
ghost use Rattle.rtl_net.specs.Bodies.{operator_view};
ghost use Rattle.vhdl_expand_operands.specs.Results.{Expands};
ghost use Rattle.vhdl_expand_operands.specs.Operands.{operand_view};
ghost use Rattle.vhdl_expand_rules.specs.Computed as definition;
ghost use Rattle.vhdl_expand_numbers.specs.Views.{span_view, number_view};

use crate::bounded::Number;
use crate::number::{extended, limited};
use crate::span;
use crate::span::{INTEGERS, Span};
use rtl_net::Operator;
use std::alloc::{AllocError, Global};
use vhdl_expand_operands::Operand;
use vhdl_expand_rules::{ElabFault, ElabProblem};
use vhdl_names_rules::Arithmetic;
use vhdl_numbers::{Conversion, SignedOperator};

/// An operator on operands of one length: the longest of what its bounds need, and of theirs.
fn on_both(
    alloc: Global,
    operator: Operator,
    span: Span,
    left: Number,
    right: Number,
) -> Result<Number, AllocError>
    requires { (operator_view operator ≡ bodies.plus) ⊎ (operator_view operator ≡ bodies.minus) }
    ensures { IfOk result (λ n. number_view n ≡
        definition.on_both (operator_view operator) (span_view span) (number_view left) (number_view right)) }
{
    let len = span
        .digits()
        .max(left.operand.width.len.max(right.operand.width.len));
    let first = extended(left.operand, alloc, len)?;
    let second = extended(right.operand, alloc, len)?;
    limited(
        first.operated(alloc, operator, second)?,
        alloc,
        INTEGERS,
        span,
    )
}

/// `left + right`.
#[tactic(auto, unfolding(vhdl_expand_rules::specs::Computed::sum))]
fn sum(alloc: Global, left: Number, right: Number) -> Result<Number, AllocError>
    ensures { IfOk result (λ n. number_view n ≡ definition.sum (number_view left) (number_view right)) }
{
    let span = span::sum(left.span, right.span);
    on_both(alloc, Operator::Add, span, left, right)
}

/// `left - right`.
#[tactic(auto, unfolding(vhdl_expand_rules::specs::Computed::difference))]
fn difference(alloc: Global, left: Number, right: Number) -> Result<Number, AllocError>
    ensures { IfOk result (λ n. number_view n ≡ definition.difference (number_view left) (number_view right)) }
{
    let span = span::difference(left.span, right.span);
    on_both(alloc, Operator::Subtract, span, left, right)
}

/// An operator on numbers in two's complement, whose result lies between bounds.
fn signed(
    alloc: Global,
    operator: SignedOperator,
    span: Span,
    left: Operand,
    right: Operand,
) -> Result<Number, AllocError>
    requires { IsWidth (operated_width (bodies.signed operator) left.width.len right.width.len) }
    ensures { IfOk result (λ n. number_view n ≡ definition.limited definition.integers (span_view span)
        (bodies.Expr.binary (bodies.signed operator) (operand_view left) (operand_view right))) }
{
    let made = left.operated(alloc, Operator::Signed(operator), right)?;
    limited(made, alloc, INTEGERS, span)
}

/// `left * right`.
#[tactic(auto, unfolding(vhdl_expand_rules::specs::Computed::product))]
fn product(alloc: Global, left: Number, right: Number) -> Result<Number, AllocError>
    ensures { IfOk result (λ n. number_view n ≡ definition.product (number_view left) (number_view right)) }
{
    let span = span::product(left.span, right.span);
    signed(
        alloc,
        SignedOperator::Multiply,
        span,
        left.operand,
        right.operand,
    )
}

/// `left / right`: as long as the dividend, which one by -1 may pass by a digit.
#[tactic(auto, unfolding(vhdl_expand_rules::specs::Computed::quotient))]
fn quotient(alloc: Global, left: Number, right: Number) -> Result<Number, AllocError>
    ensures { IfOk result (λ n. number_view n ≡ definition.quotient (number_view left) (number_view right)) }
{
    let span = span::quotient(left.span, right.span);
    let len = span.digits().max(left.operand.width.len);
    let dividend = extended(left.operand, alloc, len)?;
    signed(alloc, SignedOperator::Divide, span, dividend, right.operand)
}

/// `left mod right`.
#[tactic(auto, unfolding(vhdl_expand_rules::specs::Computed::modulus))]
fn modulus(alloc: Global, left: Number, right: Number) -> Result<Number, AllocError>
    ensures { IfOk result (λ n. number_view n ≡ definition.modulus (number_view left) (number_view right)) }
{
    let span = span::modulus(right.span);
    signed(
        alloc,
        SignedOperator::Modulo,
        span,
        left.operand,
        right.operand,
    )
}

/// `left rem right`.
#[tactic(auto, unfolding(vhdl_expand_rules::specs::Computed::remainder))]
fn remainder(alloc: Global, left: Number, right: Number) -> Result<Number, AllocError>
    ensures { IfOk result (λ n. number_view n ≡ definition.remainder (number_view left) (number_view right)) }
{
    let span = span::remainder(left.span, right.span);
    signed(
        alloc,
        SignedOperator::Remainder,
        span,
        left.operand,
        right.operand,
    )
}

/// An operator at byte `at` on two numbers; a fault is StaticError, where a divisor is always 0.
pub fn operation(
    alloc: Global,
    operator: Arithmetic,
    left: Number,
    right: Number,
    at: usize,
) -> Result<Number, ElabFault>
    ensures { Expands number_view (definition.operation at operator (number_view left) (number_view right)) result }
{
    let divides = matches!(
        operator,
        Arithmetic::Divide | Arithmetic::Modulo | Arithmetic::Remainder
    );
    if divides && right.is_zero() {
        return Err(ElabProblem::StaticError.at(at));
    }
    match operator {
        Arithmetic::Add => Ok(sum(alloc, left, right)?),
        Arithmetic::Subtract => Ok(difference(alloc, left, right)?),
        Arithmetic::Multiply => Ok(product(alloc, left, right)?),
        Arithmetic::Divide => Ok(quotient(alloc, left, right)?),
        Arithmetic::Modulo => Ok(modulus(alloc, left, right)?),
        Arithmetic::Remainder => Ok(remainder(alloc, left, right)?),
        Arithmetic::Power => Err(ElabProblem::StaticError.at(at)),
    }
}

impl Number {
    /// `-self`.
    pub fn negative(self, alloc: Global) -> Result<Number, AllocError>
        ensures { IfOk result (λ n. number_view n ≡ definition.negative_of (number_view self)) }
    {
        difference(alloc, Number::known(0), self)
    }

    /// `abs self`: the least number has no counterpart in as many digits.
    #[tactic(auto, unfolding(vhdl_expand_rules::specs::Computed::magnitude))]
    pub fn magnitude(self, alloc: Global) -> Result<Number, AllocError>
        ensures { IfOk result (λ n. number_view n ≡ definition.magnitude (number_view self)) }
    {
        let reach = Span {
            least: 0,
            greatest: self.span.reach(),
        };
        let span = span::magnitude(self.span);
        let len = reach.digits().max(self.operand.width.len);
        let operand = extended(self.operand, alloc, len)?;
        limited(
            operand.converted(alloc, Conversion::Magnitude)?,
            alloc,
            INTEGERS,
            span,
        )
    }

    /// This less a static integer, and a static integer less this.
    pub fn less(self, alloc: Global, number: i32) -> Result<Number, AllocError>
        ensures { IfOk result (λ n. number_view n ≡
            definition.difference (number_view self) (definition.known number)) }
    {
        difference(alloc, self, Number::known(number))
    }

    pub fn less_from(self, alloc: Global, number: i32) -> Result<Number, AllocError>
        ensures { IfOk result (λ n. number_view n ≡
            definition.difference (definition.known number) (number_view self)) }
    {
        difference(alloc, Number::known(number), self)
    }
}
