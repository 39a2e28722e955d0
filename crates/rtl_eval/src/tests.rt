//! Tests.

ghost use Rattle.std.specs.Prelude.{◌≡◌};
ghost use Rattle.vhdl_values.specs.Edges.{has_edge};
ghost use Rattle.vhdl_values.specs.Scalar.{value_of_code};
ghost use Rattle.rtl_model.specs.bodies.Body as bodies;
ghost use Rattle.rtl_model.specs.bodies.Values.{value_of};
ghost use Rattle.rtl_model.specs.bodies.Tests as spec;
ghost use Rattle.rtl_model.specs.bodies.Types.{nine_valued, HasType};
ghost use Rattle.rtl_model.specs.bodies.Fits.{FitBoth, FitsTest};
ghost use Rattle.rtl_net.specs.Bodies.{value_view, test_view, test_links_of};
ghost use Rattle.rtl_eval.specs.Seeing.{seen_of, Within};

use crate::evaluated::{are_same, evaluate};
use crate::expressions::value;
use crate::seen::SeenValues;
use rtl_net::{Test, TestLink, Value};
use vhdl_values::{Edge, Logic, Nine};

/// Whether a test is met.
#[cycle(condition)]
pub(crate) fn is_met(test: &Test, seen: SeenValues<'_>) -> bool
    requires { Within (seen_of seen) (λ scope. FitsTest scope (test_view test.now)) }
    ensures { result ≡ spec.is_met (seen_of seen.entry) (test_view test.now) }
{
    match test {
        Test::Condition(expr) => value(expr, seen).get(0).is_true(),
        Test::Decided(holds) => *holds,
        Test::Equal(left, right) => are_equal(left, right, seen),
        Test::Unequal(left, right) => !are_equal(left, right, seen),
        Test::Level { net, value, .. } => seen.current[*net as usize] == value.code(),
        Test::Compared(relation, left, right) => {
            value(left, seen).cmp(*relation, &value(right, seen))
        }
        Test::ComparedTo(relation, left, number) => value(left, seen).cmp_nat(*relation, *number),
        Test::Rising(net) => has_edge(Edge::Rising, *net, seen),
        Test::Falling(net) => has_edge(Edge::Falling, *net, seen),
        Test::Event(net) => seen.previous[*net as usize] != seen.current[*net as usize],
        Test::Negated(operand) => !is_met(operand, seen),
        Test::Combined { first, rest } => chain(is_met(first, seen), rest, seen),
    }
}

/// Whether a chain is met, behind its first operand.
#[cycle(condition)]
fn chain(first: bool, links: &[TestLink], seen: SeenValues<'_>) -> bool
    requires { Within (seen_of seen) (λ scope. FitsTest scope (test_links_of (bodies.decided first) links.now)) }
    ensures { result ≡ spec.is_met (seen_of seen.entry) (test_links_of (bodies.decided first) links.now) }
{
    let mut left = first;
    for link in links {
        left = logical(link.operator, left, is_met(&link.operand, seen));
    }
    left
}

/// A logical operator on truth values.
pub fn logical(operator: Logic, left: bool, right: bool) -> bool
    ensures { result ≡ spec.truth operator left right }
{
    match operator {
        Logic::And => left && right,
        Logic::Or => left || right,
        Logic::Nand => !(left && right),
        Logic::Nor => !(left || right),
        Logic::Xor => left != right,
        Logic::Xnor => left == right,
    }
}

/// Whether a net of the nine values has an edge.
fn has_edge(kind: Edge, net: u32, seen: SeenValues<'_>) -> bool
    requires { Within (seen_of seen) (λ scope. HasType scope.nets nine_valued net) }
    ensures { result ≡ spec.edge_at (seen_of seen.entry) kind net }
{
    is_edge(
        kind,
        seen.previous[net as usize],
        seen.current[net as usize],
    )
}

/// Whether a change from the value of one code to that of another is an edge: the codes of 0 and L
/// differ in one bit alone, and so do those of 1 and H.
pub fn is_edge(kind: Edge, before: u8, now: u8) -> bool
    ensures { result ≡ has_edge kind (value_of_code before) (value_of_code now) }
{
    match kind {
        Edge::Rising => (before & 0xFB == 2) & (now & 0xFB == 3),
        Edge::Falling => (before & 0xFB == 3) & (now & 0xFB == 2),
        Edge::To1 => (before != 3) & (now == 3),
        Edge::To0 => (before != 2) & (now == 2),
    }
}

/// The value of a code.
pub fn nine(code: u8) -> Nine
    ensures { result ≡ value_of_code code }
{
    Nine::from_code(code).unwrap_or(Nine::X)
}

/// Whether two values are equal.
fn are_equal(left: &Value, right: &Value, seen: SeenValues<'_>) -> bool
    requires { Within (seen_of seen) (λ scope. FitBoth scope (value_view left.now) (value_view right.now)) }
    ensures { result ≡ spec.same (value_of (seen_of seen.entry) (value_view left.now))
        (value_of (seen_of seen.entry) (value_view right.now)) }
{
    are_same(&evaluate(left, seen), &evaluate(right, seen))
}
