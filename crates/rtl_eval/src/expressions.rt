//! The values of expressions.

ghost use Rattle.std.specs.Prelude.{◌≡◌, ℕ, ◌<◌, All, length, map, slice_index};
ghost use Rattle.rtl_model.specs.bodies.Body as bodies;
ghost use Rattle.rtl_model.specs.bodies.Values.{element_at, operation_result, elements_of};
ghost use Rattle.rtl_model.specs.bodies.Fits.{IsWidth, operated_width, FitsOperands, FitsExpr};
ghost use Rattle.rtl_net.specs.Indices.{numbers};
ghost use Rattle.rtl_net.specs.Bodies.{operator_view, expr_view, links_of};
ghost use Rattle.rtl_eval.specs.Seeing.{seen_of, Within};

use crate::choosing::chosen;
use crate::seen::SeenValues;
use rtl_net::{Expr, Indices, Link, Operator};
use vhdl_numbers::{converted, shifted_by, signed};
use vhdl_values::Vec9;

/// The value of an expression.
#[cycle(expression)]
pub fn value(expr: &Expr, seen: SeenValues<'_>) -> Vec9
    requires { Within (seen_of seen) (λ scope. FitsExpr scope (expr_view expr.now)) }
    ensures { result ≡ elements_of (seen_of seen.entry) (expr_view expr.now) }
{
    match expr {
        Expr::Signal(nets) => gathered(nets, seen.current),
        Expr::Variable(elements) => gathered(elements, seen.variables),
        Expr::Constant(values) => *values,
        Expr::Inverse(operand) => value(operand, seen).not(),
        Expr::Filled { len, element } => Vec9::fill(value(element, seen).get(0), *len as usize),
        Expr::Chain { first, rest } => chain(&value(first, seen), rest, seen),
        Expr::Counted {
            operator,
            count,
            operand,
        } => value(operand, seen).counted(*operator, *count as usize),
        Expr::Shifted {
            operator,
            count,
            operand,
        } => shifted_by(&value(operand, seen), *operator, &value(count, seen)),
        Expr::Converted {
            conversion,
            operand,
        } => converted(&value(operand, seen), *conversion),
        Expr::Chosen {
            index,
            spacing,
            rows,
        } => chosen(&value(index, seen), *spacing, rows, seen),
    }
}

/// The value of a chain behind its first operand's.
#[cycle(expression)]
fn chain(first: &Vec9, links: &[Link], seen: SeenValues<'_>) -> Vec9
    requires { Within (seen_of seen) (λ scope. FitsExpr scope (links_of (bodies.constant first.now) links.now)) }
    ensures { result ≡ elements_of (seen_of seen.entry) (links_of (bodies.constant first.now) links.now) }
{
    let mut left = *first;
    for link in links {
        left = operate(link.operator, &left, &value(&link.operand, seen));
    }
    left
}

/// An operator on two vectors.
pub fn operate(operator: Operator, left: &Vec9, right: &Vec9) -> Vec9
    requires operands { FitsOperands (operator_view operator) (length left.now) (length right.now) }
    requires width { IsWidth (operated_width (operator_view operator) (length left.now) (length right.now)) }
    ensures { result ≡ operation_result (operator_view operator) left.now right.now }
{
    match operator {
        Operator::Logical(logic) => left.logic(logic, right),
        Operator::Concatenate => left.concat(right),
        Operator::Add => left.add(right),
        Operator::Subtract => left.sub(right),
        Operator::Multiply => left.mul(right),
        Operator::Signed(operator) => signed(operator, left, right),
    }
}

/// The values at these places, which are of the nine.
pub fn gathered(places: &Indices, values: &[u8]) -> Vec9
    requires width { IsWidth (length (numbers places.now)) }
    requires there { All (λ place. place < length values.now) (numbers places.now) }
    requires nine { All (λ place. slice_index values.now place < 9) (numbers places.now) }
    ensures { result ≡ map (element_at values.now) (numbers places.now) }
{
    match places {
        Indices::Run { first, len } => {
            let first = *first as usize;
            Vec9::of_codes(&values[first..first + *len as usize])
        }
        Indices::List(listed) => scattered(listed.as_slice(), values),
    }
}

/// The values at these places, which need not be one after another.
pub(crate) fn scattered(places: &[u32], values: &[u8]) -> Vec9
    requires width { IsWidth (length places.now) }
    requires there { All (λ place. place < length values.now) places.now }
    requires nine { All (λ place. slice_index values.now place < 9) places.now }
    ensures { result ≡ map (element_at values.now) places.now }
{
    let mut codes = [0; 64];
    for at in 0..places.len() {
        codes[at] = values[places[at] as usize];
    }
    Vec9::of_codes(&codes[..places.len()])
}
