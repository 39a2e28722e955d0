//! Edges among the conditions that `and` joins.

ghost use Rattle.std.specs.Prelude.{◌≡◌, ◌||◌, ◌&&◌};
ghost use Rattle.rtl_net.specs.Bodies.{test_view};
ghost use Rattle.rtl_model.specs.bodies.Kinds.{edge_to};
ghost use Rattle.rtl_model.specs.bodies.Leaves.{event_of};
ghost use Rattle.rtl_model.specs.bodies.Reads.{test_events};
ghost use Rattle.rtl_body_facts.specs.Reading.{some};
ghost use Rattle.rtl_mixed_reasons.specs.Edges as spec;

use rtl_net::{Leaf, Test, Visit, walk_test};
use vhdl_values::{Edge, Logic, Nine};

/// An edge of a net.
#[derive(Clone, Copy)]
pub(crate) struct EdgeTest {
    pub(crate) clock: usize,
    pub(crate) edge: Edge,
}

/// How many conditions there are.
#[derive(Clone, Copy)]
pub(crate) enum Many {
    One,
    Two,
    /// Three or more.
    More,
}

/// What looks for an event.
#[derive(Clone, Copy)]
pub(crate) enum Start {
    /// An edge, by a call of `rising_edge` or `falling_edge`.
    Call(EdgeTest),
    /// `s'event`.
    Event(usize),
}

/// What is known of the conditions that `and` joins.
#[derive(Clone, Copy)]
pub(crate) struct Conditions {
    many: Many,
    /// The first of them that looks for an event.
    start: Option<Start>,
    /// The edge that the first of them makes beside an event of the clock in question.
    level: Option<Edge>,
}

/// An edge among the conditions that `and` joins, and whether it is all of them.
#[derive(Clone, Copy)]
pub(crate) struct Found {
    edge: EdgeTest,
    alone: bool,
}

/// Whether an operator is `and`.
fn is_and(operator: Logic) -> bool
    ensures { result ≡ spec.is_and operator }
{
    match operator {
        Logic::And => true,
        _ => false,
    }
}

/// The edge that a plain level makes together with an event.
pub(crate) fn edge_to(value: Nine) -> Option<Edge>
    ensures { result ≡ edge_to value }
{
    match value {
        Nine::One => Some(Edge::To1),
        Nine::Zero => Some(Edge::To0),
        _ => None,
    }
}

/// The edge that a level makes beside an event of this net, if it is one of this net.
fn level_of(clock: Option<usize>, plain: bool, net: usize, value: Nine) -> Option<Edge>
    ensures { result ≡ spec.level_at clock plain net value }
{
    let clock = clock?;
    if plain && net == clock {
        return edge_to(value);
    }
    None
}

/// How many two lists of conditions have together.
fn together(left: Many, right: Many) -> Many
    ensures { result ≡ spec.together left right }
{
    match (left, right) {
        (Many::One, Many::One) => Many::Two,
        _ => Many::More,
    }
}

/// One condition.
fn single(start: Option<Start>, level: Option<Edge>) -> Conditions
    ensures { result ≡ spec.single start level }
{
    Conditions {
        many: Many::One,
        start,
        level,
    }
}

/// What is known of both sides of an operator.
fn joined_by(operator: Logic, left: Conditions, right: Conditions) -> Conditions
    ensures { result ≡ spec.joined_by operator left right }
{
    if !is_and(operator) {
        return single(None, None);
    }
    Conditions {
        many: together(left.many, right.many),
        start: left.start.or(right.start),
        level: left.level.or(right.level),
    }
}

/// What is known of the conditions that `and` joins in a test.
fn joined(test: &Test, clock: Option<usize>) -> Conditions
    ensures { result ≡ spec.joined clock (test_view test.now) }
{
    match test {
        Test::Level { plain, net, value } => {
            single(None, level_of(clock, *plain, *net as usize, *value))
        }
        Test::Rising(net) => single(
            Some(Start::Call(EdgeTest {
                clock: *net as usize,
                edge: Edge::Rising,
            })),
            None,
        ),
        Test::Falling(net) => single(
            Some(Start::Call(EdgeTest {
                clock: *net as usize,
                edge: Edge::Falling,
            })),
            None,
        ),
        Test::Event(net) => single(Some(Start::Event(*net as usize)), None),
        Test::Combined { first, rest } => {
            let mut all = joined(first, clock);
            for link in rest {
                all = joined_by(link.operator, all, joined(&link.operand, clock));
            }
            all
        }
        _ => single(None, None),
    }
}

/// The edge among the conditions that `and` joins.
fn found_in(test: &Test) -> Option<Found>
    ensures { result ≡ spec.found_in (test_view test.now) }
{
    let all = joined(test, None);
    match all.start? {
        Start::Call(edge) => Some(Found {
            edge,
            alone: is_one(all.many),
        }),
        Start::Event(clock) => {
            let edge = joined(test, Some(clock)).level?;
            Some(Found {
                edge: EdgeTest { clock, edge },
                alone: is_two(all.many),
            })
        }
    }
}

/// Whether it is one condition.
fn is_one(many: Many) -> bool
    ensures { result ≡ spec.is_one many }
{
    match many {
        Many::One => true,
        _ => false,
    }
}

/// Whether there are two.
fn is_two(many: Many) -> bool
    ensures { result ≡ spec.is_two many }
{
    match many {
        Many::Two => true,
        _ => false,
    }
}

/// The edge that a condition is.
pub(crate) fn edge_of(test: &Test) -> Option<EdgeTest>
    ensures { result ≡ spec.edge_of (test_view test.now) }
{
    let found = found_in(test)?;
    if found.alone {
        return Some(found.edge);
    }
    None
}

/// The events that were looked for so far: whether there are some, and whether there are several.
#[derive(Clone, Copy)]
struct Events {
    some: bool,
    several: bool,
}

impl Visit for Events {
    ghost takes = { λ old leaf new. (new.some ≡ (old.some || some (event_of leaf)))
        × (new.several ≡ (old.several || (old.some && some (event_of leaf)))) };

    fn leaf(&mut self, leaf: Leaf<'_>) {
        if let Leaf::Event(_) = leaf {
            self.several = self.several || self.some;
            self.some = true;
        }
    }
}

/// Whether a condition looks for several events.
fn has_two(test: &Test) -> bool
    ensures { result ≡ spec.has_two (test_events (test_view test.now)) }
{
    let mut events = Events {
        some: false,
        several: false,
    };
    walk_test(test, &mut events);
    events.several
}

/// Whether a condition has an edge and more, and no further event in it.
pub(crate) fn is_gated(test: &Test) -> bool
    ensures { result ≡ spec.is_gated (test_view test.now) }
{
    match found_in(test) {
        Some(found) => !found.alone && !has_two(test),
        None => false,
    }
}
