//! The values of expressions where nothing is seen (IEEE 1076-2008, 9.4).

ghost use Rattle.std.specs.Prelude.{◌≡◌, [], length, map};
ghost use Rattle.rtl_model.specs.bodies.Body as bodies;
ghost use Rattle.rtl_model.specs.bodies.Rows.{row_at};
ghost use Rattle.rtl_model.specs.bodies.Fits.{IsWidth, IsSpacing};
ghost use Rattle.rtl_model.specs.bodies.Values.{element_at, chosen_of, elements_of};
ghost use Rattle.rtl_net.specs.Bodies.{spacing_view, rows_view, expr_view, links_of, value_view};
ghost use Rattle.rtl_net.specs.Indices.{numbers};
ghost use Rattle.vhdl_expand_rules.specs.Declarations.{nothing_seen};
ghost use Rattle.vhdl_expand_operands.specs.Known.{known_elements, known_position};
ghost use Rattle.vhdl_expand_operands.specs.Sized.{IsSized};

use crate::operand::Operand;
use crate::selected::Selected;
use rtl_eval::{chosen_constant, operate, row_start};
use rtl_net::{Expr, Indices, Link, RowsOf, Spacing, Value};
use vhdl_numbers::{converted, shifted_by};
use vhdl_values::{Nine, Vec9};

/// What is read where nothing is seen: U, as often as a name has elements.
fn unseen(places: &Indices) -> Vec9
    requires { IsWidth (length (numbers places.now)) }
    ensures { result ≡ map (element_at []) (numbers places.now) }
{
    Vec9::fill(Nine::U, places.len())
}

/// The values of an expression.
#[cycle(known)]
fn values_of(expr: &Expr) -> Vec9
    requires { IsSized (expr_view expr.now) }
    ensures { result ≡ elements_of nothing_seen (expr_view expr.now) }
{
    match expr {
        Expr::Signal(nets) => unseen(nets),
        Expr::Variable(elements) => unseen(elements),
        Expr::Constant(values) => *values,
        Expr::Inverse(operand) => values_of(operand).not(),
        Expr::Filled { len, element } => Vec9::fill(values_of(element).get(0), *len as usize),
        Expr::Chain { first, rest } => chain(&values_of(first), rest),
        Expr::Counted {
            operator,
            count,
            operand,
        } => values_of(operand).counted(*operator, *count as usize),
        Expr::Shifted {
            operator,
            count,
            operand,
        } => shifted_by(&values_of(operand), *operator, &values_of(count)),
        Expr::Converted {
            conversion,
            operand,
        } => converted(&values_of(operand), *conversion),
        Expr::Chosen {
            index,
            spacing,
            rows,
        } => row_known(&values_of(index), *spacing, rows),
    }
}

/// The row with the number of an index, or X's where there is no such row.
fn row_known(index: &Vec9, spacing: Spacing, rows: &RowsOf) -> Vec9
    requires { IsSpacing (spacing_view spacing) }
    ensures { result ≡ chosen_of spacing.len
        (row_at (spacing_view spacing) (elements_of nothing_seen (rows_view rows.now)) index.now) }
{
    match rows {
        RowsOf::Signals(nets) => row_unseen(index, spacing, nets),
        RowsOf::Variables(elements) => row_unseen(index, spacing, elements),
        RowsOf::Constants(values) => chosen_constant(index, spacing, values),
    }
}

/// The same of a name's elements, each of which is U.
fn row_unseen(index: &Vec9, spacing: Spacing, places: &Indices) -> Vec9
    requires { IsSpacing (spacing_view spacing) }
    ensures { result ≡ chosen_of spacing.len
        (row_at (spacing_view spacing) (map (element_at []) (numbers places.now)) index.now) }
{
    match row_start(index, spacing, places.len()) {
        Some(_) => Vec9::fill(Nine::U, spacing.len as usize),
        None => Vec9::fill(Nine::X, spacing.len as usize),
    }
}

/// The values of a chain behind its first operand's.
#[cycle(known)]
fn chain(first: &Vec9, links: &[Link]) -> Vec9
    requires { IsSized (links_of (bodies.constant first.now) links.now) }
    ensures { result ≡ elements_of nothing_seen (links_of (bodies.constant first.now) links.now) }
{
    let mut left = *first;
    for link in links {
        left = operate(link.operator, &left, &values_of(&link.operand));
    }
    left
}

impl Operand {
    /// Its values where nothing is seen.
    pub fn known(&self) -> Vec9
        ensures { result ≡ elements_of nothing_seen (expr_view self.now.expr) }
    {
        values_of(&self.expr)
    }
}

impl Selected {
    /// Its values where nothing is seen, if it has elements of the nine values.
    pub fn elements(&self) -> Option<Vec9>
        ensures { result ≡ known_elements (value_view self.now.value) }
    {
        match &self.value {
            Value::Elements(expr) => Some(values_of(expr)),
            Value::Position(_) | Value::PositionOf(_) | Value::PositionIn(_) => None,
        }
    }

    /// The position of an enumeration's literal, if it is one.
    pub fn position(&self) -> Option<u8>
        ensures { result ≡ known_position (value_view self.now.value) }
    {
        match &self.value {
            Value::Position(position) => Some(*position),
            Value::Elements(_) | Value::PositionOf(_) | Value::PositionIn(_) => None,
        }
    }
}
