//! Whether two names are of the same signal: of the whole, or of one element by an index of the
//! same text.

ghost use Rattle.std.specs.Prelude.{◌≡◌, Some, None, option_map};
ghost use Rattle.vhdl_names_registers.specs.Spines as spec;
ghost use Rattle.vhdl_names_rules.specs.Edges as edges;
ghost use Rattle.vhdl_names_trees.specs.views.Integers.{static_view};
ghost use Rattle.vhdl_names_trees.specs.views.Vectors.{signal_view, part_view, place_view};

use vhdl_names_rules::{Arithmetic, Bound};
use vhdl_names_trees::{Part, Signal, SignalPart, Static, StaticLink, StaticStart};
use vhdl_values::Edge;

/// Whether two edges are of one kind.
pub(crate) fn same_kind(left: Edge, right: Edge) -> bool
    ensures { result ≡ edges.same_kind left right }
{
    match (left, right) {
        (Edge::Rising, Edge::Rising) => true,
        (Edge::Falling, Edge::Falling) => true,
        (Edge::To1, Edge::To1) => true,
        (Edge::To0, Edge::To0) => true,
        _ => false,
    }
}

/// Whether two signals are one.
fn same_signal(left: Signal, right: Signal) -> bool
    ensures { result ≡ edges.same_signal (signal_view left) (signal_view right) }
{
    match (left, right) {
        (Signal::Port(left), Signal::Port(right)) => left == right,
        (Signal::Signal(left), Signal::Signal(right)) => left == right,
        _ => false,
    }
}

/// Whether two operators are one.
fn same_operator(left: Arithmetic, right: Arithmetic) -> bool
    ensures { result ≡ edges.same_operator left right }
{
    match (left, right) {
        (Arithmetic::Add, Arithmetic::Add) => true,
        (Arithmetic::Subtract, Arithmetic::Subtract) => true,
        (Arithmetic::Multiply, Arithmetic::Multiply) => true,
        (Arithmetic::Divide, Arithmetic::Divide) => true,
        (Arithmetic::Modulo, Arithmetic::Modulo) => true,
        (Arithmetic::Remainder, Arithmetic::Remainder) => true,
        (Arithmetic::Power, Arithmetic::Power) => true,
        _ => false,
    }
}

/// A static integer, or what stands before an operator of a chain.
#[derive(Clone, Copy)]
enum Prefix<'s> {
    Whole(&'s Static),
    Chain(&'s StaticStart, &'s [StaticLink]),
}

/// A static integer's last operator, with both of its operands.
#[derive(Clone, Copy)]
struct Last<'s> {
    operator: Arithmetic,
    before: Prefix<'s>,
    operand: &'s Static,
}

/// The last operator of a chain that begins so.
fn last_of_chain<'s>(start: &'s StaticStart, links: &'s [StaticLink]) -> Last<'s>
    ensures { Some (spec.last_view result) ≡ spec.last_of (spec.chain_view start.now links.now) }
{
    match links.split_last() {
        Some((link, before)) => Last {
            operator: link.operator,
            before: Prefix::Chain(start, before),
            operand: &link.operand,
        },
        None => Last {
            operator: start.link.operator,
            before: Prefix::Whole(&start.first),
            operand: &start.link.operand,
        },
    }
}

/// The last operator of a static integer, if there is one.
fn last_of_whole(whole: &Static) -> Option<Last<'_>>
    ensures { option_map spec.last_view result ≡ spec.last_of (static_view whole.now) }
{
    match whole {
        Static::Chain(start, links) => Some(last_of_chain(start, links)),
        _ => None,
    }
}

/// The last operator, if there is one.
fn last_of(prefix: Prefix<'_>) -> Option<Last<'_>>
    ensures { option_map spec.last_view result ≡ spec.last_of (spec.prefix_view prefix.entry) }
{
    match prefix {
        Prefix::Chain(start, links) => Some(last_of_chain(start, links)),
        Prefix::Whole(whole) => last_of_whole(whole),
    }
}

/// Whether two static integers are the same text, neither of which ends in an operator.
#[cycle(same)]
fn same_whole(left: &Static, right: &Static) -> bool
    requires left { spec.last_of (static_view left.now) ≡ None }
    requires right { spec.last_of (static_view right.now) ≡ None }
    ensures { result ≡ edges.same_index (static_view left.now) (static_view right.now) }
{
    match (left, right) {
        (Static::Number(left), Static::Number(right)) => *left == *right,
        (Static::Generic(left), Static::Generic(right)) => *left == *right,
        (Static::Constant(left), Static::Constant(right)) => *left == *right,
        (Static::GenerateParameter(left), Static::GenerateParameter(right)) => *left == *right,
        (Static::Negated(_, left), Static::Negated(_, right)) => same_index(left, right),
        (Static::Absolute(_, left), Static::Absolute(_, right)) => same_index(left, right),
        (Static::Bound(left, range), Static::Bound(right, other)) => {
            same_bound(*left, *right) && *range == *other
        }
        _ => false,
    }
}

/// The same of what stands before an operator.
#[cycle(same)]
fn same_leaf(left: Prefix<'_>, right: Prefix<'_>) -> bool
    requires left { spec.last_of (spec.prefix_view left) ≡ None }
    requires right { spec.last_of (spec.prefix_view right) ≡ None }
    ensures { result ≡ edges.same_index (spec.prefix_view left.entry) (spec.prefix_view right.entry) }
{
    match (left, right) {
        (Prefix::Whole(left), Prefix::Whole(right)) => same_whole(left, right),
        _ => false,
    }
}

/// Whether two bounds are the same.
fn same_bound(left: Bound, right: Bound) -> bool
    ensures { result ≡ edges.same_bound left right }
{
    match (left, right) {
        (Bound::Left, Bound::Left) => true,
        (Bound::Right, Bound::Right) => true,
        (Bound::High, Bound::High) => true,
        (Bound::Low, Bound::Low) => true,
        (Bound::Length, Bound::Length) => true,
        _ => false,
    }
}

/// Whether two static integers are the same text. No loop stands round a process.
#[cycle(same)]
fn same_index(left: &Static, right: &Static) -> bool
    ensures { result ≡ edges.same_index (static_view left.now) (static_view right.now) }
{
    let mut one = Prefix::Whole(left);
    let mut other = Prefix::Whole(right);
    loop {
        match (last_of(one), last_of(other)) {
            (Some(last), Some(by)) => {
                if !same_operator(last.operator, by.operator) {
                    return false;
                }
                if !same_index(last.operand, by.operand) {
                    return false;
                }
                one = last.before;
                other = by.before;
            }
            (None, None) => return same_leaf(one, other),
            _ => return false,
        }
    }
}

/// Whether two parts are the same, of which none is a slice.
fn same_part(left: &Part, right: &Part) -> bool
    ensures { result ≡ edges.same_part (part_view left.now) (part_view right.now) }
{
    match (left, right) {
        (Part::Whole, Part::Whole) => true,
        (Part::Element(left), Part::Element(right)) => same_index(left, right),
        _ => false,
    }
}

/// Whether two names are of the same signal.
pub(crate) fn same_place(left: &SignalPart, right: &SignalPart) -> bool
    ensures { result ≡ edges.same_place (place_view left.now) (place_view right.now) }
{
    same_signal(left.signal, right.signal) && same_part(&left.part, &right.part)
}
