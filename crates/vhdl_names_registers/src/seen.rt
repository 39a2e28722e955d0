//! What a condition looks at, where it stands.

ghost use Rattle.std.specs.Prelude.{◌≡◌, option_map};
ghost use Rattle.vhdl_names_registers.specs.Looking as spec;
ghost use Rattle.vhdl_names_rules.specs.Edges as edges;
ghost use Rattle.vhdl_names_trees.specs.views.Tests.{test_view};
ghost use Rattle.vhdl_names_trees.specs.views.Vectors.{vector_view, value_view};

use crate::same::same_place;
use vhdl_names_trees::{SignalPart, Test, Value, Vector};
use vhdl_values::{Edge, Logic, Nine};

/// An edge of a signal, and where it is named.
#[derive(Clone, Copy)]
pub(crate) struct NamedEdge<'t> {
    pub(crate) kind: Edge,
    pub(crate) place: &'t SignalPart,
}

/// What looks for an event.
#[derive(Clone, Copy)]
pub(crate) enum Start<'t> {
    /// An edge, by a call of `rising_edge` or `falling_edge`.
    Call(NamedEdge<'t>),
    /// `s'event`.
    Event(&'t SignalPart),
}

/// How many of some conditions there are.
#[derive(Clone, Copy)]
pub(crate) enum Many {
    None,
    One,
    Two,
    /// Three or more.
    More,
}

/// What is known of the conditions that `and` joins.
#[derive(Clone, Copy)]
pub(crate) struct Seen<'t> {
    pub(crate) conditions: Many,
    /// Those that look for an event, however deep.
    pub(crate) events: Many,
    /// The first of them that is an edge, or `s'event`.
    pub(crate) start: Option<Start<'t>>,
    /// The edge that the first level of the signal in question makes beside an event of it.
    pub(crate) level: Option<Edge>,
}

/// Whether an operator is `and`.
pub(crate) fn is_and(operator: Logic) -> bool
    ensures { result ≡ spec.is_and operator }
{
    match operator {
        Logic::And => true,
        _ => false,
    }
}

/// The edge that a level makes beside an event.
pub(crate) fn edge_to(value: Nine) -> Option<Edge>
    ensures { result ≡ edges.edge_to value }
{
    match value {
        Nine::One => Some(Edge::To1),
        Nine::Zero => Some(Edge::To0),
        _ => None,
    }
}

/// The signal that elements are, if they are one.
fn signal_of(vector: &Vector) -> Option<&SignalPart>
    ensures { option_map spec.named_view result ≡ spec.signal_of (vector_view vector.now) }
{
    match vector {
        Vector::Signal(place) => Some(place),
        _ => None,
    }
}

/// The plain character that elements are, if they are one.
fn character_of(vector: &Vector) -> Option<Nine>
    ensures { result ≡ spec.character_of (vector_view vector.now) }
{
    match vector {
        Vector::Character(_, value) => Some(*value),
        _ => None,
    }
}

/// The signal that a value is, if it is one.
fn signal_in(value: &Value) -> Option<&SignalPart>
    ensures { option_map spec.named_view result ≡ spec.signal_in (value_view value.now) }
{
    match value {
        Value::Elements(vector) => signal_of(vector),
        _ => None,
    }
}

/// The plain character that a value is, if it is one.
pub(crate) fn character_in(value: &Value) -> Option<Nine>
    ensures { result ≡ spec.character_in (value_view value.now) }
{
    match value {
        Value::Elements(vector) => character_of(vector),
        _ => None,
    }
}

/// The edge to the level that a condition asks for.
pub(crate) fn level(test: &Test) -> Option<NamedEdge<'_>>
    ensures { option_map spec.edge_named result ≡ edges.level (test_view test.now) }
{
    match test {
        Test::Alike(_, left, right) => {
            let place = signal_in(left)?;
            let kind = edge_to(character_in(right)?)?;
            Some(NamedEdge { kind, place })
        }
        _ => None,
    }
}

/// The edge that a level of this signal makes beside an event of it.
pub(crate) fn level_of(test: &Test, place: Option<&SignalPart>) -> Option<Edge>
    ensures { result ≡ spec.level_kind (option_map spec.named_view place.entry) (test_view test.now) }
{
    let place = place?;
    let edge = level(test)?;
    if same_place(place, edge.place) {
        return Some(edge.kind);
    }
    None
}

/// How many two counts are together.
fn together(left: Many, right: Many) -> Many
    ensures { result ≡ spec.together left right }
{
    match (left, right) {
        (Many::None, many) | (many, Many::None) => many,
        (Many::One, Many::One) => Many::Two,
        _ => Many::More,
    }
}

/// One condition where there are some, else none.
fn one_of(many: Many) -> Many
    ensures { result ≡ spec.one_of many }
{
    match many {
        Many::None => Many::None,
        _ => Many::One,
    }
}

/// A condition that begins no edge, and inside of which so many look for an event.
fn closed(events: Many) -> Seen<'static>
    ensures { spec.seen_view result ≡ spec.closed events }
{
    Seen {
        conditions: Many::One,
        events: one_of(events),
        start: None,
        level: None,
    }
}

/// A condition that looks for an event.
fn started(start: Start<'_>) -> Seen<'_>
    ensures { spec.seen_view result ≡ spec.started (spec.start_view start.entry) }
{
    Seen {
        conditions: Many::One,
        events: Many::One,
        start: Some(start),
        level: None,
    }
}

/// A condition that looks for no event, with the edge to its level.
fn levelled(level: Option<Edge>) -> Seen<'static>
    ensures { spec.seen_view result ≡ spec.levelled level }
{
    Seen {
        conditions: Many::One,
        events: Many::None,
        start: None,
        level,
    }
}

/// What is known of both sides of an operator.
fn joined_by<'t>(operator: Logic, left: Seen<'t>, right: Seen<'t>) -> Seen<'t>
    ensures { spec.seen_view result ≡ spec.joined_by operator (spec.seen_view left.entry) (spec.seen_view right.entry) }
{
    let events = together(left.events, right.events);
    if !is_and(operator) {
        return closed(events);
    }
    Seen {
        conditions: together(left.conditions, right.conditions),
        events,
        start: left.start.or(right.start),
        level: left.level.or(right.level),
    }
}

/// What is known of the conditions that `and` joins in a test; of levels, those of this signal.
pub(crate) fn seen_in<'t>(test: &'t Test, place: Option<&SignalPart>) -> Seen<'t>
    ensures { spec.seen_view result ≡ spec.seen (option_map spec.named_view place.entry) (test_view test.now) }
{
    match test {
        Test::Edge(kind, place) => started(Start::Call(NamedEdge { kind: *kind, place })),
        Test::Event(place) => started(Start::Event(place)),
        Test::Not(operand) => closed(seen_in(operand, place).events),
        Test::Chain(start, links) => {
            let first = seen_in(&start.first, place);
            let mut all = joined_by(
                start.link.operator,
                first,
                seen_in(&start.link.operand, place),
            );
            for link in links {
                all = joined_by(link.operator, all, seen_in(&link.operand, place));
            }
            all
        }
        other => levelled(level_of(other, place)),
    }
}
