//! Relations of numbers (IEEE 1076-2008, 9.2.3; numeric_std). Each takes the memory of boxes and
//! lists.

ghost use Rattle.std.specs.Prelude.{◌≡◌, ◌≤◌, IfOk};
ghost use Rattle.rtl_model.specs.bodies.Body as bodies;
ghost use Rattle.rtl_net.specs.Bodies.{test_view};
ghost use Rattle.vhdl_expand_operands.specs.Operands.{operand_view};
ghost use Rattle.vhdl_expand_rules.specs.Computed as definition;
ghost use Rattle.vhdl_expand_numbers.specs.Views.{number_view};

use crate::bounded::Number;
use crate::number::extended;
use crate::span::NATURALS;
use rtl_net::{Operator, Test};
use std::alloc::{AllocError, Global};
use vhdl_expand_operands::Operand;
use vhdl_values::{Cmp, Logic, Vec9};

/// A one, and zeros behind it.
#[tactic(auto, unfolding(vhdl_expand_rules::specs::Computed::top_digit))]
fn top_digit(len: usize) -> Vec9
    requires some { 1 ≤ len }
    requires few { len ≤ 64 }
    ensures { result ≡ definition.top_digit len }
{
    Vec9::of_nat(1 << (len - 1), len)
}

/// Digits with their sign turned round: numbers are ordered so as those without one.
#[tactic(auto, unfolding(vhdl_expand_rules::specs::Computed::turned))]
fn turned(operand: Operand, alloc: Global, len: usize) -> Result<Operand, AllocError>
    requires some { 1 ≤ len }
    requires few { len ≤ 64 }
    ensures { IfOk result (λ o. operand_view o ≡ definition.turned len (operand_view operand)) }
{
    let digits = extended(operand, alloc, len)?;
    let sign = Operand::constant(top_digit(len));
    digits.operated(alloc, Operator::Logical(Logic::Xor), sign)
}

/// A relation of two numbers.
#[tactic(auto, unfolding(vhdl_expand_rules::specs::Computed::relation))]
pub fn relation(
    alloc: Global,
    comparison: Cmp,
    left: Number,
    right: Number,
) -> Result<Test, AllocError>
    ensures { IfOk result (λ t. test_view t ≡
        definition.relation comparison (number_view left) (number_view right)) }
{
    if !left.may_be_negative() && !right.may_be_negative() {
        return Ok(Test::Compared(comparison, left.operand.expr, right.operand.expr));
    }
    let len = left.operand.width.len.max(right.operand.width.len);
    let first = turned(left.operand, alloc, len)?;
    let second = turned(right.operand, alloc, len)?;
    Ok(Test::Compared(comparison, first.expr, second.expr))
}

/// A relation of a vector without a sign and a number: numeric_std asks for a natural one.
pub fn compared_to(
    alloc: Global,
    comparison: Cmp,
    left: Operand,
    right: Number,
) -> Result<Test, AllocError>
    ensures { IfOk result (λ t. test_view t ≡ bodies.compared comparison (operand_view left)
        (definition.natural (number_view right))) }
{
    let right = right.within(alloc, NATURALS)?;
    Ok(Test::Compared(comparison, left.expr, right.operand.expr))
}

/// The same the other way round.
pub fn compared_with(
    alloc: Global,
    comparison: Cmp,
    left: Number,
    right: Operand,
) -> Result<Test, AllocError>
    ensures { IfOk result (λ t. test_view t ≡ bodies.compared comparison (definition.natural (number_view left))
        (operand_view right)) }
{
    let left = left.within(alloc, NATURALS)?;
    Ok(Test::Compared(comparison, left.operand.expr, right.expr))
}
