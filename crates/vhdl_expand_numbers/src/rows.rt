//! Rows of a vector, one of which a run chooses (IEEE 1076-2008, 8.4, 8.5).

ghost use Rattle.std.specs.Prelude.{◌≡◌, ◌≤◌, IfOk};
ghost use Rattle.rtl_net.specs.Bodies.{spacing_view};
ghost use Rattle.vhdl_expand_rules.specs.Expressions as definition;
ghost use Rattle.vhdl_expand_rules.specs.Kinds.{bounds_size};
ghost use Rattle.vhdl_expand_rules.specs.views.Kinds.{bounds_view};
ghost use Rattle.vhdl_expand_operands.specs.Results.{Expands};
ghost use Rattle.vhdl_expand_numbers.specs.Terms.{slice_row};
ghost use Rattle.vhdl_expand_numbers.specs.Views.{linear_view, number_view, measured_view, row_view};

use crate::bounded::Number;
use crate::linear::Linear;
use crate::measured::Measured;
use rtl_net::Spacing;
use std::alloc::{AllocError, Global};
use vhdl_expand_operands::{Operand, Width};
use vhdl_expand_rules::{Bounds, ElabFault, ElabProblem, is_same};
use vhdl_tree::Direction;
use vhdl_values::{Nine, Vec9};

/// Which row of those that begin one element further each time, and how long it is.
#[derive(Drop)]
pub struct Row {
    pub index: Operand,
    pub width: Width,
}

impl Row {
    /// The element of an index of a vector with these bounds. It takes the memory of boxes and a
    /// list.
    pub fn element(alloc: Global, bounds: Bounds, index: Number) -> Result<Row, AllocError>
        ensures { IfOk result (λ r. row_view r ≡ definition.row_from (bounds_view bounds) (number_view index) 1) }
    {
        let place = place_number(alloc, bounds, index)?;
        Ok(Row {
            index: place.operand,
            width: Width { len: 1 },
        })
    }

    /// A slice of a vector with these bounds, whose name starts at byte `at`; a fault is Index or
    /// StaticError. It takes the memory of boxes, lists and copies.
    pub fn slice(
        alloc: Global,
        bounds: Bounds,
        direction: Direction,
        left: Measured,
        right: Measured,
        at: usize,
    ) -> Result<Row, ElabFault>
        requires few { bounds_size (bounds_view bounds) ≤ 64 }
        ensures { Expands row_view
            (slice_row (bounds_view bounds) at direction (measured_view left) (measured_view right)) result }
    {
        let (number, left) = left.parted(alloc)?;
        let right = right.sum(alloc)?;
        let width = slice_width(bounds, direction, left, right, at)?;
        let place = place_number(alloc, bounds, number)?;
        Ok(Row {
            index: place.operand,
            width,
        })
    }

    /// How such rows lie in their vector.
    pub fn spacing(&self) -> Spacing
        ensures { spacing_view result ≡ (row_view self.now).spacing }
    {
        Spacing {
            len: self.width.len as u32,
            step: 1,
        }
    }
}

/// The place of an index, counted from the left. It takes the memory of boxes and a list.
#[tactic(auto, unfolding(vhdl_expand_rules::specs::Expressions::place_number))]
fn place_number(alloc: Global, bounds: Bounds, index: Number) -> Result<Number, AllocError>
    ensures { IfOk result (λ n. number_view n ≡
        definition.place_number (bounds_view bounds) (number_view index)) }
{
    match bounds.direction {
        Direction::To if bounds.left == 0 => Ok(index),
        Direction::To => index.less(alloc, bounds.left as i32),
        Direction::Downto => index.less_from(alloc, bounds.left as i32),
    }
}

/// How many elements a slice between bounds has, of which the left one becomes what it is less the
/// other; a fault is Index or StaticError.
#[tactic(auto, unfolding(vhdl_expand_rules::specs::Expressions::slice_length))]
fn slice_width(
    bounds: Bounds,
    direction: Direction,
    left: Linear,
    right: Linear,
    at: usize,
) -> Result<Width, ElabFault>
    requires few { bounds_size (bounds_view bounds) ≤ 64 }
    ensures { Expands (λ w. w.len)
        (definition.slice_length (bounds_view bounds) at direction (linear_view left) (linear_view right)) result }
{
    if !is_same(bounds.direction, direction) {
        return Err(ElabProblem::Index.at(at));
    }
    let distance = match direction {
        Direction::To => right.less(left, at)?,
        Direction::Downto => left.less(right, at)?,
    };
    if !distance.is_static() {
        return Err(ElabProblem::StaticError.at(at));
    }
    match usize::try_from(distance.rest) {
        Ok(steps) if steps < bounds.size() => Ok(Width { len: steps + 1 }),
        _ => Err(ElabProblem::Index.at(at)),
    }
}

/// Values as a list. It takes the memory of it.
pub fn listed(alloc: Global, values: &Vec9) -> Result<Vec<Nine>, AllocError>
    ensures { IfOk result (λ v. v.items ≡ values.now) }
{
    let mut list = Vec::with_capacity(alloc, values.len())?;
    for place in 0..values.len() {
        list.push(values.get(place))?;
    }
    Ok(list)
}
