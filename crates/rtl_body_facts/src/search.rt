//! Whether something stands in a body: an edge test or `'event`, a net that is read, or an element
//! that is looked at.

ghost use Rattle.std.specs.Prelude.{◌≡◌, ◌||◌, false, not};
ghost use Rattle.std.specs.List.{list_any};
ghost use Rattle.rtl_net.specs.Bodies.{expr_view, value_view, test_view, statements_of};
ghost use Rattle.rtl_net.specs.Visits.{leaf_view};
ghost use Rattle.rtl_model.specs.basics.Lists.{is_empty};
ghost use Rattle.rtl_model.specs.bodies.Leaves.{expr_leaves, value_leaves, test_leaves, leaves};
ghost use Rattle.rtl_model.specs.bodies.Reads as r;
ghost use Rattle.rtl_model.specs.bodies.Stored as s;
ghost use Rattle.rtl_body_facts.specs.Reading.{is_in, some};
ghost use Rattle.rtl_body_facts.specs.Searching.{seeks};

use crate::numbers::{has_none, has_number};
use rtl_net::{
    Expr, Leaf, Statement, Test, Value, Visit, walk_body, walk_expr, walk_test, walk_value,
};

/// What is sought.
#[derive(Clone, Copy)]
enum Sought {
    /// An edge test or `'event`.
    Event,
    /// A net that is read, whichever.
    SomeNet,
    /// This net, where it is read.
    Net(usize),
    /// This element of a variable.
    Element(usize),
    /// Whatever is looked at.
    Anything,
}

/// Whether a leaf is what is sought.
fn is_sought(sought: Sought, leaf: Leaf<'_>) -> bool
    ensures { result ≡ seeks sought (leaf_view leaf.entry) }
{
    match (sought, leaf) {
        (Sought::Event, Leaf::Event(_)) => true,
        (Sought::SomeNet, Leaf::Nets(nets)) => !has_none(nets),
        (Sought::SomeNet, Leaf::Net(_) | Leaf::Event(_)) => true,
        (Sought::Net(net), Leaf::Nets(nets)) => has_number(nets, net),
        (Sought::Net(net), Leaf::Net(n) | Leaf::Event(n)) => n as usize == net,
        (Sought::Element(element), Leaf::Elements(elements)) => has_number(elements, element),
        (Sought::Element(element), Leaf::Element(e)) => e as usize == element,
        (Sought::Anything, _) => true,
        _ => false,
    }
}

/// Whether what is sought was found so far.
#[derive(Clone, Copy)]
struct Search {
    sought: Sought,
    found: bool,
}

impl Search {
    /// Before any leaf.
    fn of(sought: Sought) -> Search
        ensures { result ≡ record { sought = sought; found = false } }
    {
        Search {
            sought,
            found: false,
        }
    }
}

impl Visit for Search {
    ghost takes = { λ old leaf new. (new.sought ≡ old.sought) × (new.found ≡ (old.found || seeks old.sought leaf)) };

    fn leaf(&mut self, leaf: Leaf<'_>) {
        if is_sought(self.sought, leaf) {
            self.found = true;
        }
    }
}

/// Whether it stands in a body.
fn in_body(statements: &[Statement], sought: Sought) -> bool
    ensures { result ≡ list_any (seeks sought) (leaves (statements_of statements.now)) }
{
    let mut search = Search::of(sought);
    walk_body(statements, &mut search);
    search.found
}

/// Whether it stands in an expression.
fn in_expr(expr: &Expr, sought: Sought) -> bool
    ensures { result ≡ list_any (seeks sought) (expr_leaves (expr_view expr.now)) }
{
    let mut search = Search::of(sought);
    walk_expr(expr, &mut search);
    search.found
}

/// Whether it stands in a value.
fn in_value(value: &Value, sought: Sought) -> bool
    ensures { result ≡ list_any (seeks sought) (value_leaves (value_view value.now)) }
{
    let mut search = Search::of(sought);
    walk_value(value, &mut search);
    search.found
}

/// Whether an edge test or `'event` stands in a sequence.
pub fn body_has_event(statements: &[Statement]) -> bool
    ensures { result ≡ some (r.events (statements_of statements.now)) }
{
    in_body(statements, Sought::Event)
}

/// Whether a sequence reads this net, its value or its event.
pub fn body_reads(statements: &[Statement], net: usize) -> bool
    ensures { result ≡ is_in net (r.reads (statements_of statements.now)) }
{
    in_body(statements, Sought::Net(net))
}

/// Whether a sequence looks at no net, no event and no element of a variable.
pub fn looks_at_nothing(statements: &[Statement]) -> bool
    ensures { result ≡ is_empty (leaves (statements_of statements.now)) }
{
    !in_body(statements, Sought::Anything)
}

/// Whether a value reads no signal.
pub fn is_constant(value: &Value) -> bool
    ensures { result ≡ is_empty (r.value_reads (value_view value.now)) }
{
    !in_value(value, Sought::SomeNet)
}

/// Whether an expression reads this variable element.
pub fn expr_looks_at(expr: &Expr, element: usize) -> bool
    ensures { result ≡ s.expr_looks_at element (expr_view expr.now) }
{
    in_expr(expr, Sought::Element(element))
}

/// Whether a value reads this variable element.
pub fn value_looks_at(value: &Value, element: usize) -> bool
    ensures { result ≡ s.value_looks_at element (value_view value.now) }
{
    in_value(value, Sought::Element(element))
}

/// Whether a test does.
pub fn test_looks_at(test: &Test, element: usize) -> bool
    ensures { result ≡ s.test_looks_at element (test_view test.now) }
{
    let mut search = Search::of(Sought::Element(element));
    walk_test(test, &mut search);
    search.found
}
