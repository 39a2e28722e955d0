//! Conditions in place: nets for elements (IEEE 1076-2008, 9.2).

ghost use Rattle.std.specs.Prelude.{◌≡◌, OnOk};
ghost use Rattle.rtl_net.specs.Bodies.{expr_view, value_view, test_view};
ghost use Rattle.vhdl_connect_processes.specs.Connected.{Became, expr_in, value_in, test_in, test_link_in, test_link_view};

use crate::connection::Connection;
use rtl_net::{Expr, Test, TestLink, Value};
use std::alloc::AllocError;

impl Connection<'_> {
    /// Puts nets in place of a condition's elements. It takes the memory of lists of them.
    #[cycle(condition)]
    pub(crate) fn connect_test(&self, test: &mut Test) -> Result<(), AllocError>
        ensures { OnOk result (test_view test.new ≡ test_in self.now (test_view test.old)) }
    {
        match test {
            Test::Condition(expr) => self.connect_expr(expr),
            Test::Decided(_) => Ok(()),
            Test::Equal(left, right) => self.connect_values(left, right),
            Test::Unequal(left, right) => self.connect_values(left, right),
            Test::Level { net, .. } => {
                *net = self.net(*net as usize);
                Ok(())
            }
            Test::Compared(_, left, right) => self.connect_exprs(left, right),
            Test::ComparedTo(_, expr, _) => self.connect_expr(expr),
            Test::Rising(net) => {
                *net = self.net(*net as usize);
                Ok(())
            }
            Test::Falling(net) => {
                *net = self.net(*net as usize);
                Ok(())
            }
            Test::Event(net) => {
                *net = self.net(*net as usize);
                Ok(())
            }
            Test::Negated(operand) => self.connect_test(operand),
            Test::Combined { first, rest } => {
                self.connect_test(first).and(self.connect_tests(rest))
            }
        }
    }

    /// The same of the further conditions of a chain.
    #[cycle(condition)]
    fn connect_tests(&self, links: &mut [TestLink]) -> Result<(), AllocError>
        ensures { OnOk result (Became test_link_view (test_link_in self.now) links.old links.new) }
    {
        for i in 0..links.len() {
            self.connect_test(&mut links[i].operand)?;
        }
        Ok(())
    }

    /// The same of two values.
    fn connect_values(&self, left: &mut Value, right: &mut Value) -> Result<(), AllocError>
        ensures left { OnOk result (value_view left.new ≡ value_in self.now (value_view left.old)) }
        ensures right { OnOk result (value_view right.new ≡ value_in self.now (value_view right.old)) }
    {
        self.connect_value(left).and(self.connect_value(right))
    }

    /// The same of two expressions.
    pub(crate) fn connect_exprs(&self, left: &mut Expr, right: &mut Expr) -> Result<(), AllocError>
        ensures left { OnOk result (expr_view left.new ≡ expr_in self.now (expr_view left.old)) }
        ensures right { OnOk result (expr_view right.new ≡ expr_in self.now (expr_view right.old)) }
    {
        self.connect_expr(left).and(self.connect_expr(right))
    }
}
