//! Numbers that are sums of terms too, so that the distance of two may be known (IEEE 1076-2008,
//! 8.5).

ghost use Rattle.std.specs.Prelude.{◌≡◌, IfOk};
ghost use Rattle.vhdl_names_rules.specs.declared.operator.Arithmetic.TheVariants as arithmetic;
ghost use Rattle.vhdl_expand_operands.specs.Results.{Expands};
ghost use Rattle.vhdl_expand_rules.specs.Linear as definition;
ghost use Rattle.vhdl_expand_numbers.specs.Terms.{static_factor};
ghost use Rattle.vhdl_expand_numbers.specs.Views.{linear_view, number_view, measured_view};

use crate::bounded::Number;
use crate::linear::Linear;
use crate::operations::operation;
use std::alloc::{AllocError, Global};
use vhdl_expand_rules::ElabFault;
use vhdl_names_rules::Arithmetic;

/// A number, and the same as a sum of terms, where it isn't a term by itself.
#[derive(Drop)]
pub struct Measured {
    pub number: Number,
    pub linear: Option<Linear>,
}

impl Measured {
    /// A static integer.
    pub fn known(alloc: Global, integer: i32) -> Measured
        ensures { measured_view result ≡ definition.known_measured integer }
    {
        Measured {
            number: Number::known(integer),
            linear: Some(Linear::known(alloc, integer)),
        }
    }

    /// A number that is a term by itself.
    pub fn term(number: Number) -> Measured
        ensures { measured_view result ≡ definition.as_term (number_view number) }
    {
        Measured {
            number,
            linear: None,
        }
    }

    /// The number, and its sum. It may take the memory of a copy.
    pub(crate) fn parted(self, alloc: Global) -> Result<(Number, Linear), AllocError>
        ensures number { IfOk result (λ p. number_view p.0 ≡ (measured_view self).number) }
        ensures linear { IfOk result (λ p. linear_view p.1 ≡ (measured_view self).linear) }
    {
        let Measured { number, linear } = self;
        match linear {
            Some(linear) => Ok((number, linear)),
            None => {
                let digits = number.operand.copied(alloc)?;
                let linear = Linear::of(alloc, digits.expr)?;
                Ok((number, linear))
            }
        }
    }

    /// Its sum alone. It may take the memory of a list.
    pub(crate) fn sum(self, alloc: Global) -> Result<Linear, AllocError>
        ensures { IfOk result (λ x. linear_view x ≡ (measured_view self).linear) }
    {
        let Measured { number, linear } = self;
        match linear {
            Some(linear) => Ok(linear),
            None => Linear::of(alloc, number.operand.expr),
        }
    }

    /// What it is, if it is static.
    fn factor(&self) -> Option<i32>
        ensures { result ≡ static_factor (measured_view self.now).linear }
    {
        match &self.linear {
            Some(linear) if linear.is_static() => Some(linear.rest),
            _ => None,
        }
    }

    /// It with the other sign, by a sign at byte `at`; a fault is StaticError.
    pub fn negative(self, alloc: Global, at: usize) -> Result<Measured, ElabFault>
        ensures { Expands measured_view (definition.negative_measured at (measured_view self)) result }
    {
        let (number, linear) = self.parted(alloc)?;
        let number = number.negative(alloc)?;
        let linear = linear.opposite(at)?;
        Ok(Measured {
            number,
            linear: Some(linear),
        })
    }

    /// Another added to it.
    fn plus(self, alloc: Global, right: Measured, at: usize) -> Result<Measured, ElabFault>
        ensures { Expands measured_view
            (definition.measured_operation at arithmetic.Add (measured_view self) (measured_view right)) result }
    {
        let (left, first) = self.parted(alloc)?;
        let (right, second) = right.parted(alloc)?;
        let number = operation(alloc, Arithmetic::Add, left, right, at)?;
        let linear = first.plus(second, at)?;
        Ok(Measured {
            number,
            linear: Some(linear),
        })
    }

    /// This less another.
    fn less(self, alloc: Global, right: Measured, at: usize) -> Result<Measured, ElabFault>
        ensures { Expands measured_view
            (definition.measured_operation at arithmetic.Subtract (measured_view self) (measured_view right)) result }
    {
        let (left, first) = self.parted(alloc)?;
        let (right, second) = right.parted(alloc)?;
        let number = operation(alloc, Arithmetic::Subtract, left, right, at)?;
        let linear = first.less(second, at)?;
        Ok(Measured {
            number,
            linear: Some(linear),
        })
    }

    /// This by another.
    fn times(self, alloc: Global, right: Measured, at: usize) -> Result<Measured, ElabFault>
        ensures { Expands measured_view
            (definition.measured_operation at arithmetic.Multiply (measured_view self) (measured_view right)) result }
    {
        if let Some(factor) = self.factor() {
            let (right, linear) = right.parted(alloc)?;
            let number = operation(alloc, Arithmetic::Multiply, self.number, right, at)?;
            let linear = linear.times(factor, at)?;
            return Ok(Measured {
                number,
                linear: Some(linear),
            });
        }
        if let Some(factor) = right.factor() {
            let (left, linear) = self.parted(alloc)?;
            let number = operation(alloc, Arithmetic::Multiply, left, right.number, at)?;
            let linear = linear.times(factor, at)?;
            return Ok(Measured {
                number,
                linear: Some(linear),
            });
        }
        let number = operation(alloc, Arithmetic::Multiply, self.number, right.number, at)?;
        Ok(Measured::term(number))
    }

    /// An operator on this and an operand, at byte `at`; a fault is StaticError.
    pub fn operated(
        self,
        alloc: Global,
        operator: Arithmetic,
        right: Measured,
        at: usize,
    ) -> Result<Measured, ElabFault>
        ensures { Expands measured_view
            (definition.measured_operation at operator (measured_view self) (measured_view right)) result }
    {
        match operator {
            Arithmetic::Add => self.plus(alloc, right, at),
            Arithmetic::Subtract => self.less(alloc, right, at),
            Arithmetic::Multiply => self.times(alloc, right, at),
            Arithmetic::Divide | Arithmetic::Modulo | Arithmetic::Remainder | Arithmetic::Power => {
                let number = operation(alloc, operator, self.number, right.number, at)?;
                Ok(Measured::term(number))
            }
        }
    }
}
