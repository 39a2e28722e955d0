//! Ranges of integers, computed (IEEE 1076-2008, 5.2.1, 8.5, 16.2).

ghost use Rattle.std.specs.Prelude.{◌≡◌, ◌≤◌, map, pos};
ghost use Rattle.rtl_model.specs.bodies.Fits.{IsWidth};
ghost use Rattle.vhdl_numbers.specs.Digits as digits;
ghost use Rattle.vhdl_expand_rules.specs.Integers as definition;
ghost use Rattle.vhdl_expand_rules.specs.Aggregates as aggregates;
ghost use Rattle.vhdl_expand_rules.specs.Kinds.{number_size};
ghost use Rattle.vhdl_expand_rules.specs.views.Decisions.{turns_view};
ghost use Rattle.vhdl_expand_rules.specs.views.Integers.{range_view, Computes, Makes};

use crate::decision::{extent, is_null};
use crate::fault::{ElabFault, ElabProblem};
use crate::kind::is_same;
use crate::turns::Turns;
use vhdl_names_rules::Bound;
use vhdl_tree::Direction;

/// A range that a declaration has, or a slice of one.
#[derive(Clone, Copy)]
pub struct IntegerRange {
    pub left: i32,
    pub direction: Direction,
    pub right: i32,
}

impl IntegerRange {
    pub fn new(left: i32, direction: Direction, right: i32) -> IntegerRange
        ensures { range_view result ≡ record { left = left; direction = direction; right = right } }
    {
        IntegerRange {
            left,
            direction,
            right,
        }
    }

    /// The least number that lies in it, unless it is null.
    pub fn lower(self) -> i32
        ensures { result ≡ definition.lower (range_view self) }
    {
        match self.direction {
            Direction::To => self.left,
            Direction::Downto => self.right,
        }
    }

    /// The greatest, likewise.
    pub fn upper(self) -> i32
        ensures { result ≡ definition.upper (range_view self) }
    {
        match self.direction {
            Direction::To => self.right,
            Direction::Downto => self.left,
        }
    }

    /// Whether a number lies in it.
    pub fn has(self, x: i32) -> bool
        ensures { result ≡ definition.has (range_view self) x }
    {
        self.lower() <= x && x <= self.upper()
    }

    /// The fewest digits that hold each of its numbers, one at least: without a sign where none is
    /// below 0, else in two's complement.
    pub fn size(self) -> usize
        ensures given { result ≡ number_size (range_view self) }
        ensures width { IsWidth result }
        ensures few { result ≤ 32 }
    {
        let lower = self.lower();
        let most = places(self.upper());
        if lower < 0 {
            places(lower).max(most) + 1
        } else {
            most.max(1)
        }
    }

    /// One of its bounds, or its length; a fault is StaticError.
    pub fn bound(self, bound: Bound, at: usize) -> Result<i32, ElabFault>
        ensures { Computes (definition.bound_checked at bound (range_view self)) result }
    {
        match bound {
            Bound::Left => Ok(self.left),
            Bound::Right => Ok(self.right),
            Bound::High => Ok(self.upper()),
            Bound::Low => Ok(self.lower()),
            Bound::Length => length(extent(self.direction, self.left, self.right), at),
        }
    }

    /// Whether this is a slice of a whole: of its direction, with a number, and within it.
    fn is_slice_of(self, whole: IntegerRange) -> bool
        ensures { result ≡ definition.is_slice (range_view whole) (range_view self) }
    {
        is_same(whole.direction, self.direction)
            && !is_null(self.direction, self.left, self.right)
            && whole.has(self.left)
            && whole.has(self.right)
    }

    /// A bound or the length of a slice of it; a fault is Index.
    pub fn sliced_bound(
        self,
        slice: IntegerRange,
        bound: Bound,
        at: usize,
    ) -> Result<i32, ElabFault>
        ensures { Computes (definition.sliced_bound at bound (range_view self) (range_view slice)) result }
    {
        if !slice.is_slice_of(self) {
            return Err(ElabProblem::Index.at(at));
        }
        slice.bound(bound, at)
    }
}

impl IntegerRange {
    /// Its numbers from the left as indexes, 64 at most; a fault is TooWide.
    pub fn indexes(self, at: usize) -> Result<Turns, ElabFault>
        ensures { Makes turns_view (aggregates.range_indexes at (range_view self)) result }
    {
        let count = extent(self.direction, self.left, self.right);
        if count > 64 {
            return Err(ElabProblem::TooWide.at(at));
        }
        Ok(Turns {
            first: self.left,
            direction: self.direction,
            count: count as u32,
        })
    }
}

/// The fewest digits that hold a number, none of 0 or -1: of one below 0 they are those of its
/// counterpart, each turned round, without the sign.
fn places(number: i32) -> usize
    ensures given { result ≡ digits.places (digits.without_sign number) }
    ensures few { result ≤ 31 }
{
    let size = number.unsigned_abs() - u32::from(number < 0);
    (32 - size.leading_zeros()) as usize
}

/// A length, which has to be a static integer.
fn length(extent: u64, at: usize) -> Result<i32, ElabFault>
    ensures { Computes (definition.checked_integer at (pos extent)) result }
{
    match i32::try_from(extent) {
        Ok(length) => Ok(length),
        Err(_) => Err(ElabProblem::StaticError.at(at)),
    }
}

/// The declared range of this number.
pub(crate) fn known_range(
    ranges: &[IntegerRange],
    number: usize,
    at: usize,
) -> Result<IntegerRange, ElabFault>
    ensures { Makes range_view (definition.known_range at (map range_view ranges.now) number) result }
{
    match ranges.get(number) {
        Some(range) => Ok(*range),
        None => Err(ElabProblem::StaticError.at(at)),
    }
}
