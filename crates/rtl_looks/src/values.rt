//! What each element of a value looks at.

ghost use Rattle.std.specs.Prelude.{◌≡◌, ◌-◌, ◌≤◌, ◌++◌, IfOk, length, map, take, replicate};
ghost use Rattle.vhdl_values.specs.Logic.{zip_with};
ghost use Rattle.vhdl_values.specs.Shifts.{shifted_of, counted_of};
ghost use Rattle.rtl_model.specs.bodies.Looks as m;
ghost use Rattle.rtl_net.specs.Bodies.{operator_view, spacing_view, rows_view, expr_view, value_view};
ghost use Rattle.rtl_looks.specs.Evaluating.{Combines, Chooses, Evaluates, Sums, Chains};

use crate::hubs::{Hubs, Look};
use crate::names::numbers_of;
use crate::rows::{row, row_count};
use crate::table::{Table, at, repeated};
use rtl_net::{Expr, Link, Operator, RowsOf, Spacing, Value};
use std::alloc::{AllocError, Global};
use std::cmp;
use vhdl_values::{Counted, Shift};

/// What each of these nets' elements looks at: the net.
fn nets_looks(alloc: Global, nets: &[usize]) -> Result<Vec<Option<Look>>, AllocError>
    ensures { IfOk result (λ v. v.items ≡ map (λ n. Some (Look.Net n)) nets.now) }
{
    nets.iter().map(|net| Some(Look::Net(*net))).collect(alloc)
}

/// What each element of a shifted or resized value looks at: one that comes in at nothing.
fn counted_looks(
    alloc: Global,
    operator: Counted,
    count: usize,
    looks: &[Option<Look>],
) -> Result<Vec<Option<Look>>, AllocError>
    ensures { IfOk result (λ v. v.items ≡ counted_of None operator count looks.now) }
{
    let len = looks.len();
    match operator {
        Counted::Resize => {
            let mut resized = repeated(alloc, None, count.saturating_sub(len))?;
            resized.extend_from_slice(&looks[len.saturating_sub(count)..])?;
            Ok(resized)
        }
        Counted::ResizeSigned => {
            let others = cmp::min(count, len).saturating_sub(1);
            let mut resized = repeated(alloc, at(looks, 0), count.saturating_sub(others))?;
            resized.extend_from_slice(&looks[len - others..])?;
            Ok(resized)
        }
        Counted::Shift(by) => shifted_looks(alloc, by, count, looks),
    }
}

/// What each element of a shifted or rotated value looks at.
fn shifted_looks(
    alloc: Global,
    by: Shift,
    count: usize,
    looks: &[Option<Look>],
) -> Result<Vec<Option<Look>>, AllocError>
    ensures { IfOk result (λ v. v.items ≡ shifted_of None by count looks.now) }
{
    let len = looks.len();
    let gone = cmp::min(count, len);
    match by {
        Shift::Left => {
            let mut shifted = Vec::from_slice(alloc, &looks[gone..])?;
            shifted.resize(len, None)?;
            Ok(shifted)
        }
        Shift::Right => moved_right(alloc, gone, None, looks),
        Shift::RightSigned => moved_right(alloc, gone, at(looks, 0), looks),
        Shift::RotateLeft => {
            let turned = count.checked_rem(len).unwrap_or(0);
            let mut rotated = Vec::from_slice(alloc, &looks[turned..])?;
            rotated.extend_from_slice(&looks[..turned])?;
            Ok(rotated)
        }
    }
}

/// Looks moved so many places to the right, with others like this one to their left.
fn moved_right(
    alloc: Global,
    gone: usize,
    filler: Option<Look>,
    looks: &[Option<Look>],
) -> Result<Vec<Option<Look>>, AllocError>
    requires { gone ≤ length looks.now }
    ensures { IfOk result (λ v. v.items ≡ replicate gone filler ++ take (length looks.now - gone) looks.now) }
{
    let mut moved = repeated(alloc, filler, gone)?;
    moved.extend_from_slice(&looks[..looks.len() - gone])?;
    Ok(moved)
}

/// What looks at one element of each, side by side, as far as both go.
fn side_by_side(
    left: &[Option<Look>],
    right: &[Option<Look>],
    hubs: &mut Hubs,
) -> Result<Vec<Option<Look>>, AllocError>
    ensures { IfOk result (λ v. Combines (zip_with (λ l r. l ++ r))
        hubs.old.hubs.items hubs.new.hubs.items left.now right.now v.items) }
{
    let fewest = cmp::min(left.len(), right.len());
    let mut both = Vec::with_capacity(hubs.alloc(), fewest)?;
    for place in 0..fewest {
        let look = hubs.join(at(left, place), at(right, place))?;
        both.push(look)?;
    }
    Ok(both)
}

/// What each element of an operator's result looks at.
fn operation(
    operator: Operator,
    left: &[Option<Look>],
    right: &[Option<Look>],
    hubs: &mut Hubs,
) -> Result<Vec<Option<Look>>, AllocError>
    ensures { IfOk result (λ v. Combines (m.operation_looks (operator_view operator))
        hubs.old.hubs.items hubs.new.hubs.items left.now right.now v.items) }
{
    match operator {
        Operator::Logical(_) => side_by_side(left, right, hubs),
        Operator::Concatenate => {
            let mut both = Vec::from_slice(hubs.alloc(), left)?;
            both.extend_from_slice(right)?;
            Ok(both)
        }
        Operator::Add => all_in_each(cmp::max(left.len(), right.len()), left, right, hubs),
        Operator::Subtract => all_in_each(cmp::max(left.len(), right.len()), left, right, hubs),
        Operator::Multiply => all_in_each(left.len() + right.len(), left, right, hubs),
        Operator::Signed(operator) => {
            all_in_each(operator.length(left.len(), right.len()), left, right, hubs)
        }
    }
}

/// So many elements, each of which looks at all that these two values' elements do.
fn all_in_each(
    many: usize,
    left: &[Option<Look>],
    right: &[Option<Look>],
    hubs: &mut Hubs,
) -> Result<Vec<Option<Look>>, AllocError>
    ensures { IfOk result (λ v. Combines (λ ls rs. replicate many (m.whole ls ++ m.whole rs))
        hubs.old.hubs.items hubs.new.hubs.items left.now right.now v.items) }
{
    let left = hubs.join_all(left)?;
    let right = hubs.join_all(right)?;
    let both = hubs.join(left, right)?;
    repeated(hubs.alloc(), both, many)
}

/// What each element of an expression looks at, where elements of variables look at these.
#[cycle(expression)]
pub(crate) fn expr_looks(
    expr: &Expr,
    elements: &Table,
    hubs: &mut Hubs,
) -> Result<Vec<Option<Look>>, AllocError>
    ensures { IfOk result (λ v. Evaluates (λ so_far. m.expr_looks so_far (expr_view expr.now))
        elements.now.looks.items hubs.old.hubs.items hubs.new.hubs.items v.items) }
{
    match expr {
        Expr::Signal(nets) => {
            let nets = numbers_of(hubs.alloc(), nets)?;
            nets_looks(hubs.alloc(), &nets)
        }
        Expr::Variable(numbers) => {
            let numbers = numbers_of(hubs.alloc(), numbers)?;
            elements.at_each(hubs.alloc(), &numbers)
        }
        Expr::Constant(values) => repeated(hubs.alloc(), None, values.len()),
        Expr::Inverse(operand) => expr_looks(operand, elements, hubs),
        Expr::Filled { len, element } => {
            let looks = expr_looks(element, elements, hubs)?;
            repeated(hubs.alloc(), at(&looks, 0), *len as usize)
        }
        Expr::Chain { first, rest } => {
            let looks = expr_looks(first, elements, hubs)?;
            chain_looks(looks, rest, elements, hubs)
        }
        Expr::Counted {
            operator,
            count,
            operand,
        } => {
            let looks = expr_looks(operand, elements, hubs)?;
            counted_looks(hubs.alloc(), *operator, *count as usize, &looks)
        }
        Expr::Shifted { count, operand, .. } => {
            let count = expr_looks(count, elements, hubs)?;
            let looks = expr_looks(operand, elements, hubs)?;
            all_in_each(looks.len(), &count, &looks, hubs)
        }
        Expr::Converted { operand, .. } => {
            let looks = expr_looks(operand, elements, hubs)?;
            let all = hubs.join_all(&looks)?;
            repeated(hubs.alloc(), all, looks.len())
        }
        Expr::Chosen {
            index,
            spacing,
            rows,
        } => {
            let index = expr_looks(index, elements, hubs)?;
            let index = hubs.join_all(&index)?;
            let looks = rows_looks(rows, elements, hubs)?;
            chosen_looks(index, *spacing, &looks, hubs)
        }
    }
}

/// What each element looks at that rows lie in.
fn rows_looks(
    rows: &RowsOf,
    elements: &Table,
    hubs: &mut Hubs,
) -> Result<Vec<Option<Look>>, AllocError>
    ensures { IfOk result (λ v. Evaluates (λ so_far. m.expr_looks so_far (rows_view rows.now))
        elements.now.looks.items hubs.old.hubs.items hubs.new.hubs.items v.items) }
{
    match rows {
        RowsOf::Signals(nets) => {
            let nets = numbers_of(hubs.alloc(), nets)?;
            nets_looks(hubs.alloc(), &nets)
        }
        RowsOf::Variables(numbers) => {
            let numbers = numbers_of(hubs.alloc(), numbers)?;
            elements.at_each(hubs.alloc(), &numbers)
        }
        RowsOf::Constants(values) => repeated(hubs.alloc(), None, values.len()),
    }
}

/// What each element of a row looks at that an index chooses: at what the index looks at, and at
/// what the element at its place of every row does. Rows are gone through from the last on.
fn chosen_looks(
    index: Option<Look>,
    spacing: Spacing,
    looks: &[Option<Look>],
    hubs: &mut Hubs,
) -> Result<Vec<Option<Look>>, AllocError>
    ensures { IfOk result (λ v. Chooses (spacing_view spacing) index looks.now
        hubs.old.hubs.items hubs.new.hubs.items v.items) }
{
    let mut columns = repeated(hubs.alloc(), index, spacing.len as usize)?;
    let mut left = row_count(spacing, looks.len());
    while left > 0 {
        left -= 1;
        columns = side_by_side(row(looks, spacing, left), &columns, hubs)?;
    }
    Ok(columns)
}

/// The same of a chain, of whose first operand each element looks at these.
#[cycle(expression)]
fn chain_looks(
    mut looks: Vec<Option<Look>>,
    rest: &[Link],
    elements: &Table,
    hubs: &mut Hubs,
) -> Result<Vec<Option<Look>>, AllocError>
    ensures { IfOk result (λ v. Chains rest.now
        elements.now.looks.items hubs.old.hubs.items hubs.new.hubs.items looks.items v.items) }
{
    for link in rest {
        let operand = expr_looks(&link.operand, elements, hubs)?;
        looks = operation(link.operator, &looks, &operand, hubs)?;
    }
    Ok(looks)
}

/// What each element of a value looks at, where elements of variables look at these.
pub(crate) fn value_looks(
    value: &Value,
    elements: &Table,
    hubs: &mut Hubs,
) -> Result<Vec<Option<Look>>, AllocError>
    ensures { IfOk result (λ v. Evaluates (λ so_far. m.value_looks so_far (value_view value.now))
        elements.now.looks.items hubs.old.hubs.items hubs.new.hubs.items v.items) }
{
    match value {
        Value::Elements(expr) => expr_looks(expr, elements, hubs),
        Value::Position(_) => repeated(hubs.alloc(), None, 1),
        Value::PositionOf(net) => repeated(hubs.alloc(), Some(Look::Net(*net as usize)), 1),
        Value::PositionIn(element) => repeated(hubs.alloc(), elements.at(*element as usize), 1),
    }
}

/// What all elements of an expression together look at.
pub(crate) fn expr_look(
    expr: &Expr,
    elements: &Table,
    hubs: &mut Hubs,
) -> Result<Option<Look>, AllocError>
    ensures { IfOk result (λ look. Sums (λ so_far. m.whole (m.expr_looks so_far (expr_view expr.now)))
        elements.now.looks.items hubs.old.hubs.items hubs.new.hubs.items look) }
{
    let looks = expr_looks(expr, elements, hubs)?;
    hubs.join_all(&looks)
}

/// What all elements of a value together look at.
pub(crate) fn value_look(
    value: &Value,
    elements: &Table,
    hubs: &mut Hubs,
) -> Result<Option<Look>, AllocError>
    ensures { IfOk result (λ look. Sums (λ so_far. m.whole (m.value_looks so_far (value_view value.now)))
        elements.now.looks.items hubs.old.hubs.items hubs.new.hubs.items look) }
{
    let looks = value_looks(value, elements, hubs)?;
    hubs.join_all(&looks)
}
