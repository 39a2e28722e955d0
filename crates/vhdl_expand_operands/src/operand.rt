//! Expanded expressions with their lengths.

ghost use Rattle.std.specs.Prelude.{◌≡◌, ◌≤◌, nat_le, [], ◌∷◌, IfOk};
ghost use Rattle.vhdl_values.specs.Numbers.{digits_of};
ghost use Rattle.vhdl_values.specs.Shifts.{IsCount};
ghost use Rattle.rtl_model.specs.bodies.Body as bodies;
ghost use Rattle.rtl_model.specs.bodies.Fits as fits;
ghost use Rattle.rtl_model.specs.bodies.Fits.{IsWidth, operated_width};
ghost use Rattle.rtl_net.specs.Bodies.{expr_view, operator_view, rows_view, links_of};
ghost use Rattle.vhdl_expand_rules.specs.Elab.{unless};
ghost use Rattle.vhdl_expand_rules.specs.Expressions as definition;
ghost use Rattle.vhdl_expand_rules.specs.declared.fault.ElabProblem.TheVariants.{TooWide};
ghost use Rattle.vhdl_expand_operands.specs.Results.{Expands};
ghost use Rattle.vhdl_expand_operands.specs.Sized.{IsSized, AreSized, sized_prop, sized_links};

use rtl_net::{Expr, Link, Operator, RowsOf, Spacing};
use std::alloc::{AllocError, Global};
use vhdl_expand_rules::{ElabFault, ElabProblem};
use vhdl_names_rules::{Numeric, VectorOperator};
use vhdl_numbers::Conversion;
use vhdl_values::{Counted, Shift, Vec9};

/// How many elements a vector has: 1 to 64.
#[derive(Clone, Copy)]
pub struct Width {
    pub len: usize,
    ghost is_vector: { IsWidth len },
}

/// An expanded expression, and how many elements it has.
#[derive(Drop)]
pub struct Operand {
    pub expr: Expr,
    pub width: Width,
    ghost counted: { fits.width (expr_view expr) ≡ width.len },
    ghost sized: { IsSized (expr_view expr) } by { sized_prop (expr_view expr) },
}

/// A first operand, and the operators after it so far.
#[derive(Drop)]
pub struct Chain {
    pub first: Box<Expr>,
    pub rest: Vec<Link>,
    pub width: Width,
    ghost counted: { fits.width (links_of (expr_view first.value) rest.items) ≡ width.len },
    ghost sized: { AreSized (expr_view first.value) rest.items } by { sized_links (expr_view first.value) rest.items },
}

/// A numeric operator in a body.
pub fn numeric(operator: Numeric) -> Operator
    ensures { operator_view result ≡ definition.numeric operator }
{
    match operator {
        Numeric::Add => Operator::Add,
        Numeric::Subtract => Operator::Subtract,
        Numeric::Multiply => Operator::Multiply,
    }
}

/// An operator in a body.
pub fn operator(operator: VectorOperator) -> Operator
    ensures { operator_view result ≡ definition.operator operator }
{
    match operator {
        VectorOperator::Logical(logic) => Operator::Logical(logic),
        VectorOperator::Concatenate => Operator::Concatenate,
        VectorOperator::Arithmetic(arithmetic) => numeric(arithmetic),
    }
}

/// How many elements an operator makes of so many; a fault is Length or TooWide.
fn fitted(operator: Operator, left: Width, right: Width, at: usize) -> Result<Width, ElabFault>
    ensures given { Expands (λ _. tt) (definition.operands_fit at (operator_view operator) left.len right.len) result }
    ensures width { IfOk result (λ w. w.len ≡ operated_width (operator_view operator) left.len right.len) }
{
    match operator {
        Operator::Logical(_) => {
            let found = left.len;
            let needed = right.len;
            if found != needed {
                return Err(ElabProblem::Length { found, needed }.at(at));
            }
            Ok(left)
        }
        Operator::Add | Operator::Subtract => {
            let len = left.len.max(right.len);
            Ok(Width { len })
        }
        Operator::Concatenate | Operator::Multiply => narrow(left.len + right.len, at),
        Operator::Signed(operator) => narrow(operator.length(left.len, right.len), at),
    }
}

/// So many elements, where a vector can have them; a fault is TooWide.
fn narrow(len: usize, at: usize) -> Result<Width, ElabFault>
    requires { 1 ≤ len }
    ensures given { Expands (λ _. tt) (unless TooWide at (nat_le len 64)) result }
    ensures width { IfOk result (λ w. w.len ≡ len) }
{
    if len > 64 {
        return Err(ElabProblem::TooWide.at(at));
    }
    Ok(Width { len })
}

impl Chain {
    /// Puts an operator with its right operand behind it; a fault is Length or TooWide. It takes
    /// the memory of a list.
    #[tactic(auto, using(crate::proofs::Links::links_push))]
    pub fn add(&mut self, operator: Operator, right: Operand, at: usize) -> Result<(), ElabFault>
        ensures { Expands (λ _. links_of (expr_view self.new.first.value) self.new.rest.items)
            (definition.operation_on at (operator_view operator)
            (links_of (expr_view self.old.first.value) self.old.rest.items) (expr_view right.expr)) result }
    {
        let width = fitted(operator, self.width, right.width, at)?;
        let operand = right.expr;
        self.rest.push(Link { operator, operand })?;
        self.width = width;
        Ok(())
    }

    /// The whole of it.
    #[tactic(auto, using(rtl_net::proofs::Rows::view_chain))]
    pub fn whole(self) -> Operand
        ensures { expr_view result.expr ≡ links_of (expr_view self.first.value) self.rest.items }
    {
        let width = self.width;
        let expr = Expr::Chain {
            first: self.first,
            rest: self.rest,
        };
        Operand { expr, width }
    }
}

impl Operand {
    /// A constant.
    pub fn constant(values: Vec9) -> Operand
        ensures { expr_view result.expr ≡ bodies.constant values }
    {
        let len = values.len();
        Operand {
            expr: Expr::Constant(values),
            width: Width { len },
        }
    }

    /// `not` of it. It takes the memory of a box.
    pub fn inverse(self, alloc: Global) -> Result<Operand, AllocError>
        ensures { IfOk result (λ o. expr_view o.expr ≡ bodies.inverse (expr_view self.expr)) }
    {
        Ok(Operand {
            expr: Expr::Inverse(Box::new(alloc, self.expr)?),
            width: self.width,
        })
    }

    /// An operator with a count. It takes the memory of a box.
    #[tactic(auto, using(vhdl_values::proofs::Lengths::counted_within))]
    pub fn by_count(
        self,
        alloc: Global,
        operator: Counted,
        count: u32,
    ) -> Result<Operand, AllocError>
        requires { IsCount operator count }
        ensures { IfOk result (λ o. expr_view o.expr ≡ bodies.counted operator count (expr_view self.expr)) }
    {
        let len = operator.length(count as usize, self.width.len);
        Ok(Operand {
            expr: Expr::Counted {
                operator,
                count,
                operand: Box::new(alloc, self.expr)?,
            },
            width: Width { len },
        })
    }

    /// An operator on this and an operand behind it, whose lengths serve. It takes the memory of a
    /// box and a list.
    #[tactic(auto, using(rtl_net::proofs::Rows::view_chain))]
    pub fn operated(
        self,
        alloc: Global,
        operator: Operator,
        right: Operand,
    ) -> Result<Operand, AllocError>
        requires width { IsWidth (operated_width (operator_view operator) self.width.len right.width.len) }
        requires operands { fits.FitsOperands (operator_view operator) self.width.len right.width.len }
        ensures { IfOk result (λ o. expr_view o.expr ≡
            bodies.Expr.binary (operator_view operator) (expr_view self.expr) (expr_view right.expr)) }
    {
        let len = match operator {
            Operator::Logical(_) => self.width.len,
            Operator::Add | Operator::Subtract => self.width.len.max(right.width.len),
            Operator::Concatenate | Operator::Multiply => self.width.len + right.width.len,
            Operator::Signed(operator) => operator.length(self.width.len, right.width.len),
        };
        let mut rest = Vec::with_capacity(alloc, 1)?;
        rest.push(Link {
            operator,
            operand: right.expr,
        })?;
        let expr = Expr::Chain {
            first: Box::new(alloc, self.expr)?,
            rest,
        };
        let width = Width { len };
        Ok(Operand { expr, width })
    }

    /// A function of it, whose result is as long. It takes the memory of a box.
    pub fn converted(self, alloc: Global, conversion: Conversion) -> Result<Operand, AllocError>
        ensures { IfOk result (λ o. expr_view o.expr ≡ bodies.converted conversion (expr_view self.expr)) }
    {
        Ok(Operand {
            expr: Expr::Converted {
                conversion,
                operand: Box::new(alloc, self.expr)?,
            },
            width: self.width,
        })
    }

    /// A shift of it by a count that a run computes. It takes the memory of two boxes.
    pub fn shifted(
        self,
        alloc: Global,
        operator: Shift,
        count: Operand,
    ) -> Result<Operand, AllocError>
        ensures { IfOk result (λ o. expr_view o.expr ≡
            bodies.shifted operator (expr_view count.expr) (expr_view self.expr)) }
    {
        let count = Box::new(alloc, count.expr)?;
        Ok(Operand {
            expr: Expr::Shifted {
                operator,
                count,
                operand: Box::new(alloc, self.expr)?,
            },
            width: self.width,
        })
    }

    /// The row that this, a number, chooses: of so many elements, each row one element further. It
    /// takes the memory of a box.
    pub fn choose(self, alloc: Global, len: Width, rows: RowsOf) -> Result<Operand, AllocError>
        ensures { IfOk result (λ o. expr_view o.expr ≡ bodies.chosen (expr_view self.expr)
            (record { len = len.len; step = 1 }) (rows_view rows)) }
    {
        let spacing = Spacing {
            len: len.len as u32,
            step: 1,
        };
        let index = Box::new(alloc, self.expr)?;
        Ok(Operand {
            expr: Expr::Chosen {
                index,
                spacing,
                rows,
            },
            width: len,
        })
    }

    /// An operator on a number and this: the number stands for its last digits, as many as this
    /// has; a fault is Length or TooWide. It takes the memory of a list and a box.
    pub fn behind(
        self,
        alloc: Global,
        number: u32,
        operator: Operator,
        at: usize,
    ) -> Result<Operand, ElabFault>
        ensures { Expands (λ o. expr_view o.expr)
            (definition.operation_on at (operator_view operator)
            (bodies.constant (digits_of (fits.width (expr_view self.expr)) number)) (expr_view self.expr)) result }
    {
        let digits = Operand::constant(Vec9::of_nat(u64::from(number), self.width.len));
        let mut chain = digits.begin(alloc)?;
        chain.add(operator, self, at)?;
        Ok(chain.whole())
    }

    /// This operand as the first of a chain. It takes the memory of a box and of a list of one, as
    /// most chains have one operator.
    pub fn begin(self, alloc: Global) -> Result<Chain, AllocError>
        ensures { IfOk result (λ c. links_of (expr_view c.first.value) c.rest.items ≡ expr_view self.expr) }
    {
        Ok(Chain {
            first: Box::new(alloc, self.expr)?,
            rest: Vec::with_capacity(alloc, 1)?,
            width: self.width,
        })
    }
}
