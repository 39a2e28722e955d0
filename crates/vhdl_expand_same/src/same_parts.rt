//! What expressions have that is no expression, and whether two have the same.

ghost use Rattle.std.specs.Prelude.{◌≡◌, bytes_eq};
ghost use Rattle.vhdl_values.specs.Scalar.{are_same};
ghost use Rattle.rtl_model.specs.bodies.Body as bodies;
ghost use Rattle.rtl_net.specs.Bodies.{operator_view, expr_view, rows_view};
ghost use Rattle.rtl_net.specs.Indices.{numbers};
ghost use Rattle.vhdl_expand_rules.specs.SameExpr as definition;

use rtl_net::{Expr, Indices, Operator, RowsOf};
use vhdl_numbers::Conversion;
use vhdl_values::{Counted, Nine, Shift, Vec9};

/// Whether two operators are the same.
pub(crate) fn same_operator(left: Operator, right: Operator) -> bool
    ensures { result ≡ definition.same_operator (operator_view left) (operator_view right) }
{
    left == right
}

/// Whether two operators with a count are the same.
pub(crate) fn same_count(left: Counted, right: Counted) -> bool
    ensures { result ≡ definition.same_counted left right }
{
    left == right
}

/// Whether two shifts are the same.
pub(crate) fn same_shift(left: Shift, right: Shift) -> bool
    ensures { result ≡ definition.same_shift left right }
{
    left == right
}

/// Whether two functions of a vector are the same.
pub(crate) fn same_conversion(left: Conversion, right: Conversion) -> bool
    ensures { result ≡ definition.same_conversion left right }
{
    left == right
}

/// Whether two lists of places have the same ones.
fn same_places(left: &Indices, right: &Indices) -> bool
    ensures { result ≡ bytes_eq (numbers left.now) (numbers right.now) }
{
    if left.len() != right.len() {
        return false;
    }
    for place in 0..left.len() {
        if left.at(place) != right.at(place) {
            return false;
        }
    }
    true
}

/// Whether two lists of values have the same ones.
fn same_values(left: &[Nine], right: &[Nine]) -> bool
    ensures { result ≡ are_same left.now right.now }
{
    if left.len() != right.len() {
        return false;
    }
    for place in 0..left.len() {
        if left[place].code() != right[place].code() {
            return false;
        }
    }
    true
}

/// Whether rows lie in the same.
pub(crate) fn same_rows(left: &RowsOf, right: &RowsOf) -> bool
    ensures { result ≡ definition.same_expr (rows_view left.now) (rows_view right.now) }
{
    match left {
        RowsOf::Signals(nets) => match right {
            RowsOf::Signals(others) => same_places(nets, others),
            RowsOf::Variables(_) | RowsOf::Constants(_) => false,
        },
        RowsOf::Variables(elements) => match right {
            RowsOf::Variables(others) => same_places(elements, others),
            RowsOf::Signals(_) | RowsOf::Constants(_) => false,
        },
        RowsOf::Constants(values) => match right {
            RowsOf::Constants(others) => same_values(values, others),
            RowsOf::Signals(_) | RowsOf::Variables(_) => false,
        },
    }
}

/// Whether a signal's name is the same as an expression.
pub(crate) fn same_signal(nets: &Indices, right: &Expr) -> bool
    ensures { result ≡ definition.same_expr (bodies.signal (numbers nets.now)) (expr_view right.now) }
{
    match right {
        Expr::Signal(other) => same_places(nets, other),
        Expr::Chain { first, rest } => rest.is_empty() && same_signal(nets, first),
        Expr::Variable(_)
        | Expr::Constant(_)
        | Expr::Inverse(_)
        | Expr::Filled { .. }
        | Expr::Counted { .. }
        | Expr::Shifted { .. }
        | Expr::Converted { .. }
        | Expr::Chosen { .. } => false,
    }
}

/// Whether a variable's name is the same as an expression.
pub(crate) fn same_variable(elements: &Indices, right: &Expr) -> bool
    ensures { result ≡ definition.same_expr (bodies.variable (numbers elements.now)) (expr_view right.now) }
{
    match right {
        Expr::Variable(other) => same_places(elements, other),
        Expr::Chain { first, rest } => rest.is_empty() && same_variable(elements, first),
        Expr::Signal(_)
        | Expr::Constant(_)
        | Expr::Inverse(_)
        | Expr::Filled { .. }
        | Expr::Counted { .. }
        | Expr::Shifted { .. }
        | Expr::Converted { .. }
        | Expr::Chosen { .. } => false,
    }
}

/// Whether a constant is the same as an expression.
pub(crate) fn same_constant(values: &Vec9, right: &Expr) -> bool
    ensures { result ≡ definition.same_expr (bodies.constant values.now) (expr_view right.now) }
{
    match right {
        Expr::Constant(other) => values.same(other),
        Expr::Chain { first, rest } => rest.is_empty() && same_constant(values, first),
        Expr::Signal(_)
        | Expr::Variable(_)
        | Expr::Inverse(_)
        | Expr::Filled { .. }
        | Expr::Counted { .. }
        | Expr::Shifted { .. }
        | Expr::Converted { .. }
        | Expr::Chosen { .. } => false,
    }
}
