//! What an expression is where it stands: a name, a value, or what is in parentheses.

ghost use Rattle.std.specs.Prelude.{◌≡◌, IfOk, map, option_map};
ghost use Rattle.vhdl_tree.specs.Tree as tree;
ghost use Rattle.vhdl_tree.specs.Tree.{enclosed, value_of, name_of, elements_of};
ghost use Rattle.vhdl_tree.specs.View.{view, name_view, value_view, element_view, elements_view};

use crate::expression::{Choice, Element, Expr, Identifier, Name, Suffix, Value};
use std::alloc::{AllocError, Global};
use std::mem;

impl Element {
    /// Its value, without its choices.
    pub fn into_value(mut self) -> Expr
        ensures { view result ≡ (element_view self).value }
    {
        mem::replace(&mut self.value, nothing())
    }
}

impl Expr {
    /// The name that it is, if it is one.
    pub fn into_name(mut self, alloc: Global) -> Option<Name>
        ensures { option_map name_view result ≡ name_of (view self) }
    {
        match &mut self {
            Expr::Name(name) => Some(mem::replace(name, no_name(alloc))),
            _ => None,
        }
    }

    /// `( elements )`, whose parenthesis starts at byte `at`: a lone element without choices is an
    /// expression in parentheses. It takes the memory of a box.
    pub fn enclosed(
        alloc: Global,
        at: usize,
        mut elements: Vec<Element>,
    ) -> Result<Expr, AllocError>
        ensures { IfOk result (λ e. view e ≡ enclosed at (elements_of (elements_view elements))) }
    {
        if !is_lone(&elements) {
            return Ok(Expr::aggregate(at, elements));
        }
        match elements.pop() {
            None => Ok(Expr::aggregate(at, elements)),
            Some(element) => Expr::in_parens(alloc, at, element.into_value()),
        }
    }

    /// The expression as a value: `( others => e )` is no aggregate.
    pub fn into_value(mut self) -> Value
        ensures { value_view result ≡ value_of (view self) }
    {
        let Expr::Aggregate { at, elements } = &mut self else {
            return Value::Expr(self);
        };
        if !is_fill(elements) {
            return Value::Expr(self);
        }
        match elements.pop() {
            None => Value::Expr(self),
            Some(element) => Value::Others {
                at: *at,
                element: element.into_value(),
            },
        }
    }
}

/// What stands where an expression was taken away.
fn nothing() -> Expr {
    Expr::Character { at: 0, code: 0 }
}

/// What stands where a name was taken away.
fn no_name(alloc: Global) -> Name {
    Name {
        identifier: Identifier {
            at: 0,
            text: Vec::new(alloc),
        },
        suffix: Suffix::Plain,
        attribute: None,
    }
}

/// Whether these are a lone element without choices.
fn is_lone(elements: &[Element]) -> bool
    ensures { result ≡ tree.is_lone (elements_of (map element_view elements.now)) }
{
    if elements.len() != 1 {
        return false;
    }
    elements[0].choices.is_empty()
}

/// Whether these are a lone element for `others`.
fn is_fill(elements: &[Element]) -> bool
    ensures { result ≡ tree.is_fill (elements_of (map element_view elements.now)) }
{
    if elements.len() != 1 || elements[0].choices.len() != 1 {
        return false;
    }
    match elements[0].choices[0] {
        Choice::Others { .. } => true,
        _ => false,
    }
}
