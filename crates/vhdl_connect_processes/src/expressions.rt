//! Expressions in place: nets for elements (IEEE 1076-2008, clause 9).

ghost use Rattle.std.specs.Prelude.{◌≡◌, OnOk};
ghost use Rattle.rtl_net.specs.Bodies.{rows_view, expr_view, value_view};
ghost use Rattle.vhdl_connect_processes.specs.Connected.{Became, expr_in, value_in, link_in, link_view};

use crate::connection::Connection;
use rtl_net::{Expr, Link, RowsOf, Value};
use std::alloc::AllocError;

impl Connection<'_> {
    /// Puts nets in place of an expression's elements. It takes the memory of lists of them.
    #[cycle(expression)]
    pub(crate) fn connect_expr(&self, expr: &mut Expr) -> Result<(), AllocError>
        ensures { OnOk result (expr_view expr.new ≡ expr_in self.now (expr_view expr.old)) }
    {
        match expr {
            Expr::Signal(elements) => {
                let nets = self.nets_of(elements)?;
                *expr = Expr::Signal(nets);
                Ok(())
            }
            Expr::Variable(_) => Ok(()),
            Expr::Constant(_) => Ok(()),
            Expr::Inverse(operand) => self.connect_expr(operand),
            Expr::Filled { element, .. } => self.connect_expr(element),
            Expr::Chain { first, rest } => {
                self.connect_expr(first).and(self.connect_links(rest))
            }
            Expr::Counted { operand, .. } => self.connect_expr(operand),
            Expr::Shifted { count, operand, .. } => {
                self.connect_expr(count)?;
                self.connect_expr(operand)
            }
            Expr::Converted { operand, .. } => self.connect_expr(operand),
            Expr::Chosen { index, rows, .. } => {
                self.connect_expr(index)?;
                self.connect_rows(rows)
            }
        }
    }

    /// The same of what rows lie in.
    fn connect_rows(&self, rows: &mut RowsOf) -> Result<(), AllocError>
        ensures { OnOk result (rows_view rows.new ≡ expr_in self.now (rows_view rows.old)) }
    {
        match rows {
            RowsOf::Signals(elements) => {
                let nets = self.nets_of(elements)?;
                *rows = RowsOf::Signals(nets);
                Ok(())
            }
            RowsOf::Variables(_) => Ok(()),
            RowsOf::Constants(_) => Ok(()),
        }
    }

    /// The same of the further operands of a chain.
    #[cycle(expression)]
    fn connect_links(&self, links: &mut [Link]) -> Result<(), AllocError>
        ensures { OnOk result (Became link_view (link_in self.now) links.old links.new) }
    {
        for i in 0..links.len() {
            self.connect_expr(&mut links[i].operand)?;
        }
        Ok(())
    }

    /// Puts nets in place of a value's elements. It takes the memory of lists of them.
    pub(crate) fn connect_value(&self, value: &mut Value) -> Result<(), AllocError>
        ensures { OnOk result (value_view value.new ≡ value_in self.now (value_view value.old)) }
    {
        match value {
            Value::Elements(expr) => self.connect_expr(expr),
            Value::Position(_) => Ok(()),
            Value::PositionOf(element) => {
                *element = self.net(*element as usize);
                Ok(())
            }
            Value::PositionIn(_) => Ok(()),
        }
    }
}
