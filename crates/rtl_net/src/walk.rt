//! One walk over a body: a visitor is told of each leaf, in order of the text, in each branch,
//! taken or not.

ghost use Rattle.std.specs.Prelude.{List, [], ◌∷◌, ◌++◌, flat_map};
ghost use Rattle.rtl_model.specs.bodies.Leaves as m;
ghost use Rattle.rtl_net.specs.Bodies.{rows_view, expr_view, value_view, test_view, statements_of};
ghost use Rattle.rtl_net.specs.Visits.{leaf_view, Tells, link_leaves, test_link_leaves, statement_leaves, branch_leaves, alternative_leaves};

use crate::body::{Alternative, Branch, Expr, Link, RowsOf, Statement, Test, TestLink, Value};
use crate::indices::Indices;

/// What an expression or a test looks at.
#[derive(Clone, Copy)]
pub enum Leaf<'a> {
    /// Nets whose values are looked at.
    Nets(&'a Indices),
    Net(u32),
    /// A net that is asked for an event.
    Event(u32),
    /// Elements of variables.
    Elements(&'a Indices),
    Element(u32),
}

/// What is told of the leaves of a body.
pub trait Visit {
    // What a leaf makes of it.
    ghost takes: { Self → m.Leaf → Self → Type 0 };

    /// Is told of one leaf.
    fn leaf(&mut self, leaf: Leaf<'_>)
        ensures { takes self.old (leaf_view leaf.entry) self.new };
}

/// Tells of what stands in an expression.
#[cycle(expression)]
pub fn walk_expr<V: Visit>(expr: &Expr, visitor: &mut V)
    ensures { Tells V.takes visitor.old (m.expr_leaves (expr_view expr.now)) visitor.new }
{
    match expr {
        Expr::Signal(nets) => visitor.leaf(Leaf::Nets(nets)),
        Expr::Variable(elements) => visitor.leaf(Leaf::Elements(elements)),
        Expr::Constant(_) => {}
        Expr::Inverse(operand) => walk_expr(operand, visitor),
        Expr::Filled {
            element: operand,
            ..
        } => walk_expr(operand, visitor),
        Expr::Chain { first, rest } => {
            walk_expr(first, visitor);
            walk_links(rest, visitor);
        }
        Expr::Counted { operand, .. } => walk_expr(operand, visitor),
        Expr::Shifted { count, operand, .. } => {
            walk_expr(count, visitor);
            walk_expr(operand, visitor);
        }
        Expr::Converted { operand, .. } => walk_expr(operand, visitor),
        Expr::Chosen { index, rows, .. } => {
            walk_expr(index, visitor);
            walk_rows(rows, visitor);
        }
    }
}

/// Tells of what rows lie in.
fn walk_rows<V: Visit>(rows: &RowsOf, visitor: &mut V)
    ensures { Tells V.takes visitor.old (m.expr_leaves (rows_view rows.now)) visitor.new }
{
    match rows {
        RowsOf::Signals(nets) => visitor.leaf(Leaf::Nets(nets)),
        RowsOf::Variables(elements) => visitor.leaf(Leaf::Elements(elements)),
        RowsOf::Constants(_) => {}
    }
}

/// Tells of what stands in further operands of a chain.
#[cycle(expression)]
fn walk_links<V: Visit>(links: &[Link], visitor: &mut V)
    ensures { Tells V.takes visitor.old (flat_map link_leaves links.now) visitor.new }
{
    for link in links {
        walk_expr(&link.operand, visitor);
    }
}

/// Tells of what stands in a value.
pub fn walk_value<V: Visit>(value: &Value, visitor: &mut V)
    ensures { Tells V.takes visitor.old (m.value_leaves (value_view value.now)) visitor.new }
{
    match value {
        Value::Elements(expr) => walk_expr(expr, visitor),
        Value::Position(_) => {}
        Value::PositionOf(net) => visitor.leaf(Leaf::Net(*net)),
        Value::PositionIn(element) => visitor.leaf(Leaf::Element(*element)),
    }
}

/// Tells of what stands in a test.
#[cycle(condition)]
pub fn walk_test<V: Visit>(test: &Test, visitor: &mut V)
    ensures { Tells V.takes visitor.old (m.test_leaves (test_view test.now)) visitor.new }
{
    match test {
        Test::Condition(expr) => walk_expr(expr, visitor),
        Test::Decided(_) => {}
        Test::Equal(left, right) => {
            walk_value(left, visitor);
            walk_value(right, visitor);
        }
        Test::Unequal(left, right) => {
            walk_value(left, visitor);
            walk_value(right, visitor);
        }
        Test::Level { net, .. } => visitor.leaf(Leaf::Net(*net)),
        Test::Compared(_, left, right) => {
            walk_expr(left, visitor);
            walk_expr(right, visitor);
        }
        Test::ComparedTo(_, expr, _) => walk_expr(expr, visitor),
        Test::Rising(net) => visitor.leaf(Leaf::Event(*net)),
        Test::Falling(net) => visitor.leaf(Leaf::Event(*net)),
        Test::Event(net) => visitor.leaf(Leaf::Event(*net)),
        Test::Negated(operand) => walk_test(operand, visitor),
        Test::Combined { first, rest } => {
            walk_test(first, visitor);
            walk_test_links(rest, visitor);
        }
    }
}

/// Tells of what stands in further operands of a chain.
#[cycle(condition)]
fn walk_test_links<V: Visit>(links: &[TestLink], visitor: &mut V)
    ensures { Tells V.takes visitor.old (flat_map test_link_leaves links.now) visitor.new }
{
    for link in links {
        walk_test(&link.operand, visitor);
    }
}

/// Tells of what stands in a body.
pub fn walk_body<V: Visit>(statements: &[Statement], visitor: &mut V)
    ensures { Tells V.takes visitor.old (m.leaves (statements_of statements.now)) visitor.new }
{
    walk_statements(statements, visitor);
}

/// Tells of what stands in a sequence.
#[cycle(statement)]
fn walk_statements<V: Visit>(statements: &[Statement], visitor: &mut V)
    ensures { Tells V.takes visitor.old (flat_map statement_leaves statements.now) visitor.new }
{
    for statement in statements {
        walk_statement(statement, visitor);
    }
}

/// Tells of what stands in a statement.
#[cycle(statement)]
fn walk_statement<V: Visit>(statement: &Statement, visitor: &mut V)
    ensures { Tells V.takes visitor.old (statement_leaves statement.now) visitor.new }
{
    match statement {
        Statement::Null => {}
        Statement::Assign { value, .. } => walk_value(value, visitor),
        Statement::Set { value, .. } => walk_value(value, visitor),
        Statement::AssignAt { index, value, .. } => {
            walk_expr(index, visitor);
            walk_expr(value, visitor);
        }
        Statement::SetAt { index, value, .. } => {
            walk_expr(index, visitor);
            walk_expr(value, visitor);
        }
        Statement::If {
            branches,
            otherwise,
            ..
        } => {
            walk_branches(branches, visitor);
            match otherwise {
                None => {}
                Some(last) => walk_statements(last, visitor),
            }
        }
        Statement::Case {
            selector,
            alternatives,
            others,
            ..
        } => {
            walk_value(selector, visitor);
            walk_alternatives(alternatives, visitor);
            walk_statements(others, visitor);
        }
    }
}

/// Tells of what stands in branches of an if.
#[cycle(statement)]
fn walk_branches<V: Visit>(branches: &[Branch], visitor: &mut V)
    ensures { Tells V.takes visitor.old (flat_map branch_leaves branches.now) visitor.new }
{
    for branch in branches {
        walk_test(&branch.test, visitor);
        walk_statements(&branch.statements, visitor);
    }
}

/// Tells of what stands in alternatives of a case.
#[cycle(statement)]
fn walk_alternatives<V: Visit>(alternatives: &[Alternative], visitor: &mut V)
    ensures { Tells V.takes visitor.old (flat_map alternative_leaves alternatives.now) visitor.new }
{
    for alternative in alternatives {
        walk_statements(&alternative.statements, visitor);
    }
}
