//! Operands side by side.

ghost use Rattle.std.specs.Prelude.{◌≡◌, ◌≤◌, [], ◌∷◌, ◌++◌, map, IfOk, OnOk};
ghost use Rattle.rtl_model.specs.bodies.Body as bodies;
ghost use Rattle.rtl_model.specs.bodies.Fits.{IsWidth};
ghost use Rattle.vhdl_expand_rules.specs.Aggregates as definition;
ghost use Rattle.vhdl_expand_operands.specs.Operands.{operand_view};
ghost use Rattle.vhdl_expand_operands.specs.Results.{Expands};

use crate::copies::copied;
use crate::operand::{Operand, Width};
use rtl_net::{Expr, Operator};
use std::alloc::{AllocError, Global};
use vhdl_expand_rules::{ElabFault, ElabProblem};

/// An operand of one element.
#[derive(Drop)]
pub struct Element {
    pub operand: Operand,
    ghost single: { operand.width.len ≡ 1 },
}

/// Operands from the left, and how many elements they have together.
#[derive(Drop)]
pub(crate) struct Row {
    pub operands: Vec<Operand>,
    pub len: usize,
    ghost counted: { definition.widths (map operand_view operands.items) ≡ len },
}

impl Operand {
    /// The same once more. It takes the memory of boxes and lists.
    pub fn copied(&self, alloc: Global) -> Result<Operand, AllocError>
        ensures { IfOk result (λ o. operand_view o ≡ operand_view self.now) }
    {
        let expr = copied(alloc, &self.expr)?;
        let width = self.width;
        Ok(Operand { expr, width })
    }
}

impl Element {
    /// It so many times, as one operand. It takes the memory of a box.
    pub fn filled(self, alloc: Global, width: Width) -> Result<Operand, AllocError>
        ensures { IfOk result (λ o. operand_view o ≡ bodies.filled width.len (operand_view self.operand)) }
    {
        let len = width.len as u32;
        let element = Box::new(alloc, self.operand.expr)?;
        Ok(Operand {
            expr: Expr::Filled { len, element },
            width,
        })
    }

    /// The same of a copy, where it isn't once. It takes the memory of copies.
    pub(crate) fn repeated(&self, alloc: Global, count: usize) -> Result<Operand, AllocError>
        requires { IsWidth count }
        ensures { IfOk result (λ o. operand_view o ≡ definition.repeated count (operand_view self.now.operand)) }
    {
        let operand = self.operand.copied(alloc)?;
        if count == 1 {
            return Ok(operand);
        }
        let element = Element { operand };
        element.filled(alloc, Width { len: count })
    }
}

impl Row {
    /// None so far.
    pub(crate) fn new(alloc: Global) -> Row
        ensures { map operand_view result.operands.items ≡ [] }
    {
        Row {
            operands: Vec::new(alloc),
            len: 0,
        }
    }

    /// Puts an operand behind them. Memory would be refused where the number of their elements
    /// doesn't fit a word.
    pub(crate) fn push(&mut self, operand: Operand) -> Result<(), AllocError>
        ensures { OnOk result (map operand_view self.new.operands.items ≡
            map operand_view self.old.operands.items ++ operand_view operand ∷ []) }
    {
        let Some(len) = self.len.checked_add(operand.width.len) else {
            return Err(AllocError);
        };
        self.operands.push(operand)?;
        self.len = len;
        Ok(())
    }

    /// All of them, joined from the left; a fault is Index, where there are none. It takes the
    /// memory of a box and a list.
    pub(crate) fn joined(self, alloc: Global, at: usize) -> Result<Operand, ElabFault>
        requires { self.len ≤ 64 }
        ensures { Expands operand_view (definition.joined_all at (map operand_view self.operands.items)) result }
    {
        let mut operands = self.operands.into_iter();
        let Some(first) = operands.next() else {
            return Err(ElabProblem::Index.at(at));
        };
        let Some(second) = operands.next() else {
            return Ok(first);
        };
        let mut chain = first.begin(alloc)?;
        chain.add(Operator::Concatenate, second, at)?;
        for operand in operands {
            chain.add(Operator::Concatenate, operand, at)?;
        }
        Ok(chain.whole())
    }
}
