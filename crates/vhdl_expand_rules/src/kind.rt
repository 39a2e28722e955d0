//! What is declared, and the parts of it that names mean (IEEE 1076-2008, 5.3.2, 8.4, 8.5).

ghost use Rattle.std.specs.Prelude.{◌≡◌, [], ◌∷◌, option_map};
ghost use Rattle.vhdl_names_trees.specs.views.Integers as names;
ghost use Rattle.vhdl_names_trees.specs.views.Integers.{static_view};
ghost use Rattle.vhdl_names_rules.specs.units.Expressions as units;
ghost use Rattle.vhdl_names_trees.specs.views.Vectors.{part_view};
ghost use Rattle.vhdl_expand_rules.specs.Integers.{is_same_direction};
ghost use Rattle.vhdl_expand_rules.specs.Kinds as definition;
ghost use Rattle.vhdl_expand_rules.specs.views.Integers.{integers_view, range_view, if_any, Computes, Makes};
ghost use Rattle.vhdl_expand_rules.specs.views.Kinds.{bounds_view, kind_view, run_view};

use crate::bounds::Bounds;
use crate::decision::{extent, is_null};
use crate::fault::{ElabFault, ElabProblem};
use crate::integer::{Integers, as_natural};
use crate::range::IntegerRange;
use vhdl_names_trees::{Part, Static, StaticRange};
use vhdl_tree::Direction;
use vhdl_values::Counted;

/// One element, a vector, a value of an enumeration of so many literals, a number of a range, which
/// has one, or a boolean: one element, 1 where it is true and 0 where it is false.
#[derive(Clone, Copy)]
pub enum ObjectKind {
    One,
    Vector(Bounds),
    Enumeration(u16),
    Integer(IntegerRange),
    Boolean,
}

/// Neighbouring places: the first, counted from the left, and how many there are.
#[derive(Clone, Copy)]
pub struct Run {
    pub first: usize,
    pub len: usize,
}

impl Bounds {
    /// Their range.
    fn range(self) -> IntegerRange
        ensures { definition.ranges_of (definition.vector (bounds_view self)) ≡ range_view result ∷ [] }
    {
        IntegerRange {
            left: self.left as i32,
            direction: self.direction,
            right: self.right as i32,
        }
    }

    /// How many elements lie within the bounds.
    pub fn size(self) -> usize
        ensures { result ≡ definition.bounds_size (bounds_view self) }
    {
        let left = i64::from(self.left);
        let right = i64::from(self.right);
        let is_null = match self.direction {
            Direction::To => right < left,
            Direction::Downto => left < right,
        };
        if is_null {
            0
        } else {
            (left - right).unsigned_abs() as usize + 1
        }
    }

    /// Whether an index lies within the bounds.
    fn is_within(self, index: i32) -> bool
        ensures { result ≡ definition.is_within (bounds_view self) index }
    {
        let (left, right) = (i64::from(self.left), i64::from(self.right));
        let index = i64::from(index);
        match self.direction {
            Direction::To => left <= index && index <= right,
            Direction::Downto => right <= index && index <= left,
        }
    }

    /// The place of an index, counted from the left; a fault is Index.
    fn place_of(self, index: i32, at: usize) -> Result<usize, ElabFault>
        ensures { Computes (definition.place_of (bounds_view self) at index) result }
    {
        if !self.is_within(index) {
            return Err(ElabProblem::Index.at(at));
        }
        Ok((i64::from(index) - i64::from(self.left)).unsigned_abs() as usize)
    }

    /// The places of a slice from one index to another; a fault is Index.
    fn slice(self, direction: Direction, left: i32, right: i32, at: usize) -> Result<Run, ElabFault>
        ensures { Makes run_view (definition.slice_places (bounds_view self) at direction left right) result }
    {
        if !is_same(self.direction, direction) || is_null(direction, left, right) {
            return Err(ElabProblem::Index.at(at));
        }
        let first = self.place_of(left, at)?;
        let _last = self.place_of(right, at)?;
        Ok(Run {
            first,
            len: extent(direction, left, right) as usize,
        })
    }
}

impl ObjectKind {
    /// How many elements it has.
    pub fn size(self) -> usize
        ensures { result ≡ definition.size (kind_view self) }
    {
        match self {
            ObjectKind::One | ObjectKind::Enumeration(_) | ObjectKind::Boolean => 1,
            ObjectKind::Vector(bounds) => bounds.size(),
            ObjectKind::Integer(range) => range.size(),
        }
    }

    /// The range of a vector.
    pub fn range(self) -> Option<IntegerRange>
        ensures { definition.ranges_of (kind_view self) ≡ if_any (option_map range_view result) }
    {
        match self {
            ObjectKind::Vector(bounds) => Some(bounds.range()),
            ObjectKind::One
            | ObjectKind::Enumeration(_)
            | ObjectKind::Integer(_)
            | ObjectKind::Boolean => None,
        }
    }

    /// The same as it stands in text.
    pub fn written_range(self) -> Option<StaticRange>
        ensures { option_map names.range_view result ≡ definition.written_range (kind_view self) }
    {
        match self {
            ObjectKind::Vector(bounds) => Some(StaticRange {
                left: Static::Number(bounds.left),
                direction: bounds.direction,
                right: Static::Number(bounds.right),
            }),
            ObjectKind::One
            | ObjectKind::Enumeration(_)
            | ObjectKind::Integer(_)
            | ObjectKind::Boolean => None,
        }
    }
}

/// Whether both are one direction.
pub fn is_same(left: Direction, right: Direction) -> bool
    ensures { result ≡ is_same_direction left right }
{
    match left {
        Direction::To => match right {
            Direction::To => true,
            Direction::Downto => false,
        },
        Direction::Downto => match right {
            Direction::To => false,
            Direction::Downto => true,
        },
    }
}

/// A size that is asked for: 1 to 64.
fn as_size(n: u32, at: usize) -> Result<u32, ElabFault>
    ensures { Computes (definition.as_size at n) result }
{
    if n < 1 {
        return Err(ElabProblem::Index.at(at));
    }
    if n > 64 {
        return Err(ElabProblem::TooWide.at(at));
    }
    Ok(n)
}

impl Integers<'_> {
    /// The bounds of a declared vector, of 1 to 64 elements; a fault is StaticError, Index or
    /// TooWide.
    #[tactic(auto, unfolding(crate::specs::Kinds::declared_bounds))]
    pub fn declared_bounds(&self, range: &StaticRange, at: usize) -> Result<Bounds, ElabFault>
        ensures { Makes bounds_view
            (definition.declared_bounds (integers_view self.now) at (names.range_view range.now)) result }
    {
        let left = self.integer(&range.left, at)?;
        let right = self.integer(&range.right, at)?;
        if is_null(range.direction, left, right) {
            return Err(ElabProblem::Index.at(at));
        }
        let first = as_natural(left, at)?;
        let last = as_natural(right, at)?;
        if extent(range.direction, left, right) > 64 {
            return Err(ElabProblem::TooWide.at(at));
        }
        Ok(Bounds {
            left: first,
            direction: range.direction,
            right: last,
        })
    }

    /// The size that a call asks for, 1 to 64; a fault is StaticError, Index or TooWide.
    #[tactic(auto, unfolding(crate::specs::Kinds::size_of))]
    pub fn size_of(&self, size: &Static, at: usize) -> Result<u32, ElabFault>
        ensures { Computes (definition.size_of (integers_view self.now) at (static_view size.now)) result }
    {
        let n = self.natural(size, at)?;
        as_size(n, at)
    }

    /// The count of an operator: a length, 1 to 64, or how many places; a fault is StaticError,
    /// Index or TooWide.
    #[tactic(auto, unfolding(crate::specs::Kinds::count_of))]
    pub fn count_of(&self, operator: Counted, count: &Static, at: usize) -> Result<u32, ElabFault>
        ensures { Computes (definition.count_of operator (integers_view self.now) at (static_view count.now)) result }
    {
        match operator {
            Counted::Resize | Counted::ResizeSigned => self.size_of(count, at),
            Counted::Shift(_) => self.natural(count, at),
        }
    }

    /// The places of a part of what is declared; a fault is StaticError or Index.
    #[tactic(auto, unfolding(crate::specs::Kinds::places))]
    pub fn places(&self, kind: ObjectKind, part: &Part, at: usize) -> Result<Run, ElabFault>
        ensures { Makes run_view (definition.places (integers_view self.now) at (kind_view kind) (part_view part.now))
            result }
    {
        match part {
            Part::Whole => Ok(Run {
                first: 0,
                len: kind.size(),
            }),
            Part::Element(index) => match kind {
                ObjectKind::Vector(bounds) => self.element_of(bounds, index, at),
                ObjectKind::One
                | ObjectKind::Enumeration(_)
                | ObjectKind::Integer(_)
                | ObjectKind::Boolean => Err(ElabProblem::Index.at(at)),
            },
            Part::Slice(range) => match kind {
                ObjectKind::Vector(bounds) => self.slice_of(bounds, range, at),
                ObjectKind::One
                | ObjectKind::Enumeration(_)
                | ObjectKind::Integer(_)
                | ObjectKind::Boolean => Err(ElabProblem::Index.at(at)),
            },
        }
    }

    /// The place of an element of a vector.
    #[tactic(auto, unfolding(crate::specs::Kinds::places))]
    fn element_of(&self, bounds: Bounds, index: &Static, at: usize) -> Result<Run, ElabFault>
        ensures { Makes run_view (definition.places (integers_view self.now) at (definition.vector (bounds_view bounds))
            (units.Part.element (static_view index.now))) result }
    {
        let index = self.integer(index, at)?;
        let first = bounds.place_of(index, at)?;
        Ok(Run { first, len: 1 })
    }

    /// The places of a slice of a vector.
    #[tactic(auto, unfolding(crate::specs::Kinds::places))]
    fn slice_of(&self, bounds: Bounds, range: &StaticRange, at: usize) -> Result<Run, ElabFault>
        ensures { Makes run_view (definition.places (integers_view self.now) at (definition.vector (bounds_view bounds))
            (units.slice (names.range_view range.now))) result }
    {
        let left = self.integer(&range.left, at)?;
        let right = self.integer(&range.right, at)?;
        let run = bounds.slice(range.direction, left, right, at)?;
        Ok(run)
    }
}
