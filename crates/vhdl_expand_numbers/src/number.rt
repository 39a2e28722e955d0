//! Numbers: expressions in two's complement, as long as their bounds want them.

ghost use Rattle.std.specs.Prelude.{◌≡◌, ◌≤◌, IfOk};
ghost use Rattle.rtl_model.specs.bodies.Fits.{width};
ghost use Rattle.vhdl_expand_rules.specs.Computed as definition;
ghost use Rattle.vhdl_expand_rules.specs.Expressions.{kept_in, number_in, signed_digits};
ghost use Rattle.vhdl_expand_rules.specs.Kinds.{number_size};
ghost use Rattle.vhdl_expand_rules.specs.views.Integers.{range_view};
ghost use Rattle.vhdl_expand_numbers.specs.Views.{limits_view, span_view, number_view};
ghost use Rattle.vhdl_expand_operands.specs.Operands.{operand_view};
ghost use Rattle.vhdl_expand_operands.specs.Results.{Expands};

use crate::bounded::Number;
use crate::span::{INTEGERS, Limits, NATURALS, Span};
use rtl_net::Operator;
use std::alloc::{AllocError, Global};
use vhdl_expand_operands::Operand;
use vhdl_expand_rules::{ElabFault, ElabProblem, IntegerRange};
use vhdl_numbers::{Conversion, digits_of};
use vhdl_values::{Counted, Nine, Vec9};

/// An operand, longer or shorter by the sign. It may take the memory of a box.
pub fn extended(operand: Operand, alloc: Global, len: usize) -> Result<Operand, AllocError>
    requires some { 1 ≤ len }
    requires few { len ≤ 64 }
    ensures { IfOk result (λ o. operand_view o ≡ definition.extended len (operand_view operand)) }
{
    if operand.width.len == len {
        Ok(operand)
    } else {
        operand.by_count(alloc, Counted::ResizeSigned, len as u32)
    }
}

/// An operand that lies between bounds, as a number within limits: X where it lies outside. It may
/// take the memory of boxes.
#[tactic(auto, unfolding(vhdl_expand_rules::specs::Computed::limited))]
pub fn limited(
    operand: Operand,
    alloc: Global,
    limits: Limits,
    span: Span,
) -> Result<Number, AllocError>
    ensures { IfOk result (λ n. number_view n ≡
        definition.limited (limits_view limits) (span_view span) (operand_view operand)) }
{
    if limits.span().covers(span) {
        let operand = extended(operand, alloc, span.digits())?;
        return Ok(Number { operand, span });
    }
    let within = Conversion::Within {
        least: limits.least,
        greatest: limits.greatest,
    };
    let operand = operand.converted(alloc, within)?;
    let span = limits.span().cut(span);
    let operand = extended(operand, alloc, span.digits())?;
    Ok(Number { operand, span })
}

/// The last digits of an operand, as many as are asked for, or it extended to them. It may take the
/// memory of a box.
fn to_length(operand: Operand, alloc: Global, len: usize) -> Result<Operand, AllocError>
    requires some { 1 ≤ len }
    requires few { len ≤ 64 }
    ensures { IfOk result (λ o. operand_view o ≡ definition.to_length len (operand_view operand)) }
{
    if operand.width.len <= len {
        extended(operand, alloc, len)
    } else {
        operand.by_count(alloc, Counted::Resize, len as u32)
    }
}

/// The digits of an object of this range in two's complement. It may take the memory of boxes and a
/// list.
fn with_sign(operand: Operand, alloc: Global, range: IntegerRange) -> Result<Operand, AllocError>
    requires { operand.width.len ≡ number_size (range_view range) }
    ensures { IfOk result (λ o. operand_view o ≡ signed_digits (range_view range) (operand_view operand)) }
{
    if range.size() == Limits::of_range(range).span().digits() {
        return Ok(operand);
    }
    let zero = Operand::constant(Vec9::fill(Nine::Zero, 1));
    zero.operated(alloc, Operator::Concatenate, operand)
}

impl Number {
    /// A static integer.
    #[tactic(auto, unfolding(vhdl_expand_rules::specs::Computed::known))]
    pub fn known(number: i32) -> Number
        ensures { number_view result ≡ definition.known number }
    {
        let bound = i64::from(number);
        let span = Span {
            least: bound,
            greatest: bound,
        };
        let digits = digits_of(number, span.digits());
        Number {
            operand: Operand::constant(digits),
            span,
        }
    }

    /// `to_integer`, whose name starts at byte `at`, of a number without a sign; a fault is
    /// TooWide.
    pub fn read(operand: Operand, alloc: Global, at: usize) -> Result<Number, ElabFault>
        ensures { Expands number_view (definition.number_read at (operand_view operand)) result }
    {
        if operand.width.len > 63 {
            drop(operand);
            return Err(ElabProblem::TooWide.at(at));
        }
        Ok(Number::of(operand, alloc)?)
    }

    /// `to_integer` of a number without a sign, which has at most 63 elements. It takes the memory
    /// of boxes and a list.
    #[tactic(auto, unfolding(vhdl_expand_rules::specs::Computed::number_of))]
    fn of(operand: Operand, alloc: Global) -> Result<Number, AllocError>
        requires { width (operand_view operand) ≤ 63 }
        ensures { IfOk result (λ n. number_view n ≡ definition.number_of (operand_view operand)) }
    {
        let len = operand.width.len as u32;
        let span = Span {
            least: 0,
            greatest: ((1_u64 << len) - 1) as i64,
        };
        let zero = Operand::constant(Vec9::fill(Nine::Zero, 1));
        let cleaned = operand.converted(alloc, Conversion::Cleaned)?;
        let signed = zero.operated(alloc, Operator::Concatenate, cleaned)?;
        limited(signed, alloc, INTEGERS, span)
    }

    /// This within limits: X where it lies outside. It may take the memory of boxes.
    pub fn within(self, alloc: Global, limits: Limits) -> Result<Number, AllocError>
        ensures { IfOk result (λ n. number_view n ≡ definition.within (limits_view limits) (number_view self)) }
    {
        limited(self.operand, alloc, limits, self.span)
    }

    /// Its last digits, as many as a vector beside it has, where numeric_std asks for a natural
    /// number. It may take the memory of boxes.
    #[tactic(auto, unfolding(vhdl_expand_rules::specs::Computed::natural_digits, vhdl_expand_rules::specs::Computed::natural))]
    pub fn natural_digits(self, alloc: Global, len: usize) -> Result<Operand, AllocError>
        requires some { 1 ≤ len }
        requires few { len ≤ 64 }
        ensures { IfOk result (λ o. operand_view o ≡ definition.natural_digits len (number_view self)) }
    {
        to_length(self.within(alloc, NATURALS)?.operand, alloc, len)
    }

    /// The number of an object of this range, whose elements these are. It may take the memory of
    /// boxes and a list.
    pub fn of_object(
        operand: Operand,
        alloc: Global,
        range: IntegerRange,
    ) -> Result<Number, AllocError>
        requires { operand.width.len ≡ number_size (range_view range) }
        ensures { IfOk result (λ n. number_view n ≡ number_in (range_view range) (operand_view operand)) }
    {
        let limits = Limits::of_range(range);
        let span = limits.span();
        let digits = with_sign(operand, alloc, range)?;
        let operand = extended(digits, alloc, span.digits())?;
        Ok(Number { operand, span })
    }

    /// This as an object of a range keeps it: X where it lies outside. It may take the memory of
    /// boxes.
    pub fn kept_in(self, alloc: Global, range: IntegerRange) -> Result<Operand, AllocError>
        ensures { IfOk result (λ o. operand_view o ≡ kept_in (range_view range) (number_view self)) }
    {
        let number = self.within(alloc, Limits::of_range(range))?;
        to_length(number.operand, alloc, range.size())
    }

    /// The bounds that it lies between.
    pub fn limits(&self) -> Limits
        ensures { limits_view result ≡ (number_view self.now).span }
    {
        Limits {
            least: self.span.least as i32,
            greatest: self.span.greatest as i32,
        }
    }

    /// Whether it may lie below 0.
    pub fn may_be_negative(&self) -> bool
        ensures { result ≡ definition.may_be_negative (number_view self.now) }
    {
        self.span.least < 0
    }

    /// Whether it is 0 wherever it is good.
    pub fn is_zero(&self) -> bool
        ensures { result ≡ definition.is_zero (number_view self.now) }
    {
        self.span.least >= 0 && self.span.greatest <= 0
    }
}
