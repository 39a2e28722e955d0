//! Ranges of static integers (IEEE 1076-2008, 9.3.3.3, 10.9).

ghost use Rattle.vhdl_names_trees.specs.views.Integers.{index_view, range_view};
ghost use Rattle.vhdl_expand_rules.specs.Aggregates.{computed_range};
ghost use Rattle.vhdl_expand_rules.specs.Statements as definition;
ghost use Rattle.vhdl_expand_rules.specs.views.Integers as computed;
ghost use Rattle.vhdl_expand_rules.specs.views.Integers.{Makes};

use vhdl_expand_rules::{ElabFault, IntegerRange, Integers};
use vhdl_names_trees::{Index, StaticRange};
use vhdl_tree::Direction;

/// The range from one bound to another; a fault is StaticError.
pub(crate) fn range_of(
    integers: &Integers,
    range: &StaticRange,
    at: usize,
) -> Result<IntegerRange, ElabFault>
    ensures { Makes computed.range_view
        (computed_range (computed.integers_view integers.now) at (range_view range.now)) result }
{
    let left = integers.integer(&range.left, at)?;
    let right = integers.integer(&range.right, at)?;
    Ok(IntegerRange::new(left, range.direction, right))
}

/// The numbers of a choice, as a range; a fault is StaticError.
pub(crate) fn index_range(integers: &Integers, choice: &Index) -> Result<IntegerRange, ElabFault>
    ensures { Makes computed.range_view
        (definition.index_range (computed.integers_view integers.now) (index_view choice.now)) result }
{
    match choice {
        Index::Single(at, number) => {
            let number = integers.integer(number, *at)?;
            Ok(IntegerRange::new(number, Direction::To, number))
        }
        Index::Range(at, range) => range_of(integers, range, *at),
    }
}
