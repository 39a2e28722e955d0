//! The indexes of aggregates (IEEE 1076-2008, 9.3.3.3).

ghost use Rattle.std.specs.Prelude.{◌≡◌, ◌++◌, map, option_map, IfOk};
ghost use Rattle.vhdl_names_trees.specs.views.Integers.{index_view, range_view};
ghost use Rattle.vhdl_expand_rules.specs.Aggregates as indexes;
ghost use Rattle.vhdl_expand_rules.specs.views.Integers as computed;
ghost use Rattle.vhdl_expand_operands.specs.Placings.{indexes_view};
ghost use Rattle.vhdl_expand_operands.specs.Results.{Expands};

use crate::ranges::range_of;
use std::alloc::Global;
use vhdl_expand_operands::{Indexes, are_free, range_serves, serve};
use vhdl_expand_rules::{ElabFault, Integers};
use vhdl_names_trees::{Index, StaticRange};

/// The indexes of what an aggregate is given to, if it has a range; a fault is StaticError or
/// TooWide. It takes the memory of a list.
pub fn given_indexes(
    alloc: Global,
    integers: &Integers,
    range: Option<&StaticRange>,
    at: usize,
) -> Result<Option<Indexes>, ElabFault>
    ensures { Expands (option_map indexes_view) (indexes.given_indexes (computed.integers_view integers.now) at
        (option_map (λ r. range_view r.now) range.entry)) result }
{
    let Some(range) = range else {
        return Ok(None);
    };
    let range = range_of(integers, range, at)?;
    let given = Indexes::of_range(alloc, range, at)?;
    Ok(Some(given))
}

/// The indexes of a choice; a fault is StaticError, Index or TooWide. It takes the memory of a
/// list.
fn choice_indexes(
    alloc: Global,
    integers: &Integers,
    all: &Option<Indexes>,
    choice: &Index,
) -> Result<Indexes, ElabFault>
    ensures { Expands indexes_view (indexes.choice_indexes (computed.integers_view integers.now)
        (option_map indexes_view all.now) (index_view choice.now)) result }
{
    match choice {
        Index::Single(at, index) => {
            let index = integers.integer(index, *at)?;
            serve(all, index, *at)?;
            Indexes::one(alloc, index)
        }
        Index::Range(at, range) => {
            let range = range_of(integers, range, *at)?;
            range_serves(all, range, *at)?;
            Indexes::of_range(alloc, range, *at)
        }
    }
}

/// The indexes of some choices, which are put behind those that are taken; a fault is StaticError,
/// Index or TooWide. It takes the memory of lists.
pub fn chosen_indexes(
    alloc: Global,
    integers: &Integers,
    all: &Option<Indexes>,
    choices: &[Index],
    taken: &mut Vec<i32>,
) -> Result<Vec<i32>, ElabFault>
    ensures given { Expands (λ v. v.items) (indexes.chosen_indexes (computed.integers_view integers.now)
        (option_map indexes_view all.now) taken.old.items (map index_view choices.now)) result }
    ensures taken { IfOk result (λ v. taken.new.items ≡ taken.old.items ++ v.items) }
{
    let mut found = Vec::new(alloc);
    for choice in choices {
        let next = choice_indexes(alloc, integers, all, choice)?;
        are_free(taken, &next.numbers, choice.at())?;
        taken.extend_from_slice(&next.numbers)?;
        found.extend_from_slice(&next.numbers)?;
    }
    Ok(found)
}
