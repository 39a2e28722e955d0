//! What the branch of a reset may do: give constants.

ghost use Rattle.std.specs.Prelude.{◌≡◌, ◌&&◌, ◌+◌, ◌<◌, ◌^◌, ℕ, true};
ghost use Rattle.std.specs.List.{list_all, range_with_len};
ghost use Rattle.rtl_net.specs.Bodies.{value_view, statement_view, statements_of};
ghost use Rattle.rtl_net.specs.Indices.{numbers};
ghost use Rattle.rtl_variable_registers.specs.Known as spec;
ghost use Rattle.rtl_kept_bodies.specs.Steps.{knows, NeedsKnown, stmt_gives, known_after};

use crate::marks::mark_named;
use rtl_net::{Indices, Leaf, Statement, Value, Visit, walk_value};

/// What is known of the elements of a process's variables. An element that isn't there counts as
/// known.
#[derive(Drop)]
pub(crate) struct Known {
    pub(crate) elements: Vec<bool>,
    /// What was looked at was known.
    all: bool,
}

impl Visit for Known {
    ghost takes = { λ old leaf new. NeedsKnown (spec.leaf_is_known (knows old.elements.items) leaf) old new };

    fn leaf(&mut self, leaf: Leaf<'_>) {
        match leaf {
            Leaf::Elements(elements) => self.need_named(elements),
            Leaf::Element(element) => self.need(element as usize),
            _ => {
                self.all = false;
            }
        }
    }
}

impl Known {
    /// These elements are known.
    pub(crate) fn new(elements: Vec<bool>) -> Known
        ensures { result.elements ≡ elements }
    {
        Known {
            elements,
            all: true,
        }
    }

    /// Notes whether an element is known.
    fn need(&mut self, element: usize)
        ensures { NeedsKnown (knows self.old.elements.items element) self.old self.new }
    {
        if element < self.elements.len() && !self.elements[element] {
            self.all = false;
        }
    }

    /// The same of so many elements from this one on.
    fn need_run(&mut self, first: usize, len: usize)
        requires { first + len < 2 ^ 64 }
        ensures { NeedsKnown (list_all (knows self.old.elements.items) (range_with_len first len)) self.old self.new }
    {
        for k in 0..len {
            self.need(first + k);
        }
    }

    /// The same of these elements.
    fn need_listed(&mut self, elements: &[u32])
        ensures { NeedsKnown (list_all (knows self.old.elements.items) elements.now) self.old self.new }
    {
        for element in elements {
            self.need(*element as usize);
        }
    }

    /// The same of a name's elements.
    fn need_named(&mut self, elements: &Indices)
        ensures { NeedsKnown (list_all (knows self.old.elements.items) (numbers elements.now)) self.old self.new }
    {
        match elements {
            Indices::Run { first, len } => self.need_run(*first as usize, *len as usize),
            Indices::List(listed) => self.need_listed(listed.as_slice()),
        }
    }

    /// Whether a value looks at no signal, and at known elements alone.
    fn is_known(&mut self, value: &Value) -> bool
        ensures same { self.new.elements ≡ self.old.elements }
        ensures is { result ≡ spec.is_known (knows self.old.elements.items) (value_view value.now) }
    {
        self.all = true;
        walk_value(value, self);
        self.all
    }

    /// Whether a statement is a null, or an assignment of a value that is known. What is assigned
    /// to a variable is known from then on.
    fn gives(&mut self, statement: &Statement) -> bool
        ensures is { result ≡ stmt_gives (knows self.old.elements.items) (statement_view statement.now) }
        ensures known { (e : ℕ) → knows self.new.elements.items e
            ≡ known_after (knows self.old.elements.items) (statement_view statement.now) e }
    {
        match statement {
            Statement::Null => true,
            Statement::Assign { value, .. } => self.is_known(value),
            Statement::Set { elements, value } => {
                let is_known = self.is_known(value);
                mark_named(elements, &mut self.elements);
                is_known
            }
            _ => false,
        }
    }

    /// Whether all statements are so, one after another.
    pub(crate) fn gives_constants(&mut self, statements: &[Statement]) -> bool
        ensures { result ≡ spec.gives_constants (knows self.old.elements.items) (statements_of statements.now) }
    {
        for statement in statements {
            if !self.gives(statement) {
                return false;
            }
        }
        true
    }
}
