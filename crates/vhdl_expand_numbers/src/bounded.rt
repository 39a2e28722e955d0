//! Numbers with their bounds.

ghost use Rattle.std.specs.Prelude.{◌≡◌, ◌≤◌, true};
ghost use Rattle.vhdl_expand_rules.specs.Computed as definition;

use crate::span::Span;
use vhdl_expand_operands::Operand;

/// A number: its digits, and the bounds that it lies between, where it is good.
#[derive(Drop)]
pub struct Number {
    pub operand: Operand,
    pub span: Span,
    ghost held: { definition.covers definition.integers (definition.span span.least span.greatest) ≡ true },
    ghost narrow: { operand.width.len ≤ 32 },
}
