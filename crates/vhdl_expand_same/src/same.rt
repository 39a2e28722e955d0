//! Whether two expanded expressions are the same, part for part.

ghost use Rattle.std.specs.Prelude.{◌≡◌};
ghost use Rattle.rtl_model.specs.bodies.Body as bodies;
ghost use Rattle.rtl_net.specs.Bodies.{operator_view, expr_view, spacing_view, rows_view, links_of};
ghost use Rattle.vhdl_expand_rules.specs.SameExpr as definition;

use crate::same_parts::{
    same_constant, same_conversion, same_count, same_operator, same_rows, same_shift, same_signal,
    same_variable,
};
use rtl_net::{Expr, Link, RowsOf, Spacing};
use vhdl_numbers::Conversion;
use vhdl_values::{Counted, Shift};

/// Whether two expressions are the same.
#[cycle(same)]
pub fn same_expr(left: &Expr, right: &Expr) -> bool
    ensures { result ≡ definition.same_expr (expr_view left.now) (expr_view right.now) }
{
    match left {
        Expr::Signal(nets) => same_signal(nets, right),
        Expr::Variable(elements) => same_variable(elements, right),
        Expr::Constant(values) => same_constant(values, right),
        Expr::Inverse(operand) => same_inverse(operand, right),
        Expr::Filled { len, element } => same_filled(*len, element, right),
        Expr::Chain { first, rest } => same_chain(first, rest, right, &[]),
        Expr::Counted {
            operator,
            count,
            operand,
        } => same_counted(*operator, *count, operand, right),
        Expr::Shifted {
            operator,
            count,
            operand,
        } => same_shifted(*operator, count, operand, right),
        Expr::Converted {
            conversion,
            operand,
        } => same_converted(*conversion, operand, right),
        Expr::Chosen {
            index,
            spacing,
            rows,
        } => same_chosen(index, *spacing, rows, right),
    }
}

/// Whether a first operand with operators after it is the same as another with others: the last
/// operators are looked at first.
#[cycle(same)]
fn same_chain(left: &Expr, links: &[Link], right: &Expr, others: &[Link]) -> bool
    ensures { result ≡ definition.same_expr (links_of (expr_view left.now) links.now)
        (links_of (expr_view right.now) others.now) }
{
    match links.split_last() {
        Some((link, links)) => same_linked(left, links, link, right, others),
        None => same_first(left, right, others),
    }
}

/// The same where no operator is left behind the first operand.
#[cycle(same)]
fn same_first(left: &Expr, right: &Expr, others: &[Link]) -> bool
    ensures { result ≡ definition.same_expr (expr_view left.now) (links_of (expr_view right.now) others.now) }
{
    if others.is_empty() {
        return same_expr(left, right);
    }
    match left {
        Expr::Chain { first, rest } => same_chain(first, rest, right, others),
        Expr::Signal(_)
        | Expr::Variable(_)
        | Expr::Constant(_)
        | Expr::Inverse(_)
        | Expr::Filled { .. }
        | Expr::Counted { .. }
        | Expr::Shifted { .. }
        | Expr::Converted { .. }
        | Expr::Chosen { .. } => false,
    }
}

/// The same where this operator is the last.
#[cycle(same)]
fn same_linked(left: &Expr, links: &[Link], link: &Link, right: &Expr, others: &[Link]) -> bool
    ensures { result ≡ definition.same_expr (bodies.Expr.binary (operator_view link.now.operator)
        (links_of (expr_view left.now) links.now) (expr_view link.now.operand))
        (links_of (expr_view right.now) others.now) }
{
    match others.split_last() {
        Some((other, others)) => {
            if !same_operator(link.operator, other.operator) {
                return false;
            }
            same_expr(&link.operand, &other.operand) && same_chain(left, links, right, others)
        }
        None => match right {
            Expr::Chain { first, rest } => same_linked(left, links, link, first, rest),
            Expr::Signal(_)
            | Expr::Variable(_)
            | Expr::Constant(_)
            | Expr::Inverse(_)
            | Expr::Filled { .. }
            | Expr::Counted { .. }
            | Expr::Shifted { .. }
            | Expr::Converted { .. }
            | Expr::Chosen { .. } => false,
        },
    }
}

/// Whether `not` of an operand is the same as an expression.
#[cycle(same)]
fn same_inverse(operand: &Expr, right: &Expr) -> bool
    ensures { result ≡ definition.same_expr (bodies.inverse (expr_view operand.now)) (expr_view right.now) }
{
    match right {
        Expr::Inverse(other) => same_expr(operand, other),
        Expr::Chain { first, rest } => rest.is_empty() && same_inverse(operand, first),
        Expr::Signal(_)
        | Expr::Variable(_)
        | Expr::Constant(_)
        | Expr::Filled { .. }
        | Expr::Counted { .. }
        | Expr::Shifted { .. }
        | Expr::Converted { .. }
        | Expr::Chosen { .. } => false,
    }
}

/// Whether so many times an element are the same as an expression.
#[cycle(same)]
fn same_filled(len: u32, element: &Expr, right: &Expr) -> bool
    ensures { result ≡ definition.same_expr (bodies.filled len (expr_view element.now)) (expr_view right.now) }
{
    match right {
        Expr::Filled {
            len: other,
            element: beside,
        } => *other == len && same_expr(element, beside),
        Expr::Chain { first, rest } => rest.is_empty() && same_filled(len, element, first),
        Expr::Signal(_)
        | Expr::Variable(_)
        | Expr::Constant(_)
        | Expr::Inverse(_)
        | Expr::Counted { .. }
        | Expr::Shifted { .. }
        | Expr::Converted { .. }
        | Expr::Chosen { .. } => false,
    }
}

/// Whether an operator with a count is the same as an expression.
#[cycle(same)]
fn same_counted(operator: Counted, count: u32, operand: &Expr, right: &Expr) -> bool
    ensures { result ≡ definition.same_expr (bodies.counted operator count (expr_view operand.now))
        (expr_view right.now) }
{
    match right {
        Expr::Counted {
            operator: by,
            count: other,
            operand: beside,
        } => same_count(operator, *by) && count == *other && same_expr(operand, beside),
        Expr::Chain { first, rest } => rest.is_empty()
            && same_counted(operator, count, operand, first),
        Expr::Signal(_)
        | Expr::Variable(_)
        | Expr::Constant(_)
        | Expr::Inverse(_)
        | Expr::Filled { .. }
        | Expr::Shifted { .. }
        | Expr::Converted { .. }
        | Expr::Chosen { .. } => false,
    }
}

/// Whether a shift is the same as an expression.
#[cycle(same)]
fn same_shifted(operator: Shift, count: &Expr, operand: &Expr, right: &Expr) -> bool
    ensures { result ≡ definition.same_expr (bodies.shifted operator (expr_view count.now) (expr_view operand.now))
        (expr_view right.now) }
{
    match right {
        Expr::Shifted {
            operator: by,
            count: other,
            operand: beside,
        } => same_shift(operator, *by) && same_expr(count, other) && same_expr(operand, beside),
        Expr::Chain { first, rest } => rest.is_empty()
            && same_shifted(operator, count, operand, first),
        Expr::Signal(_)
        | Expr::Variable(_)
        | Expr::Constant(_)
        | Expr::Inverse(_)
        | Expr::Filled { .. }
        | Expr::Counted { .. }
        | Expr::Converted { .. }
        | Expr::Chosen { .. } => false,
    }
}

/// Whether a function of an operand is the same as an expression.
#[cycle(same)]
fn same_converted(conversion: Conversion, operand: &Expr, right: &Expr) -> bool
    ensures { result ≡ definition.same_expr (bodies.converted conversion (expr_view operand.now))
        (expr_view right.now) }
{
    match right {
        Expr::Converted {
            conversion: by,
            operand: beside,
        } => same_conversion(conversion, *by) && same_expr(operand, beside),
        Expr::Chain { first, rest } => rest.is_empty()
            && same_converted(conversion, operand, first),
        Expr::Signal(_)
        | Expr::Variable(_)
        | Expr::Constant(_)
        | Expr::Inverse(_)
        | Expr::Filled { .. }
        | Expr::Counted { .. }
        | Expr::Shifted { .. }
        | Expr::Chosen { .. } => false,
    }
}

/// Whether a row that is chosen is the same as an expression.
#[cycle(same)]
fn same_chosen(index: &Expr, spacing: Spacing, rows: &RowsOf, right: &Expr) -> bool
    ensures { result ≡ definition.same_expr
        (bodies.chosen (expr_view index.now) (spacing_view spacing) (rows_view rows.now)) (expr_view right.now) }
{
    match right {
        Expr::Chosen {
            index: other,
            spacing: step,
            rows: others,
        } => {
            spacing.len == step.len
                && spacing.step == step.step
                && same_expr(index, other)
                && same_rows(rows, others)
        },
        Expr::Chain { first, rest } => rest.is_empty() && same_chosen(index, spacing, rows, first),
        Expr::Signal(_)
        | Expr::Variable(_)
        | Expr::Constant(_)
        | Expr::Inverse(_)
        | Expr::Filled { .. }
        | Expr::Counted { .. }
        | Expr::Shifted { .. }
        | Expr::Converted { .. } => false,
    }
}
