//! The indexes of aggregates (IEEE 1076-2008, 9.3.3.3).

ghost use Rattle.std.specs.Prelude.{◌≡◌, ◌≤◌, [], ◌∷◌, ◌++◌, length, Ok, IfOk, map, option_map};
ghost use Rattle.std.specs.List.{list_any};
ghost use Rattle.vhdl_expand_rules.specs.Aggregates as definition;
ghost use Rattle.vhdl_expand_rules.specs.views.Integers.{range_view, Computes};
ghost use Rattle.vhdl_expand_operands.specs.Results.{Expands};

use std::alloc::Global;
use vhdl_expand_rules::{ElabFault, ElabProblem, IntegerRange, is_null};

/// Indexes of an aggregate, from the left: 64 at most.
#[derive(Drop)]
pub struct Indexes {
    pub numbers: Vec<i32>,
    ghost few: { length numbers.items ≤ 64 },
}

/// Whether two numbers are the same.
fn are_same(x: i32, y: i32) -> bool
    ensures { result ≡ definition.are_same x y }
{
    x <= y && y <= x
}

/// Whether a number is among others.
pub(crate) fn is_among(numbers: &[i32], x: i32) -> bool
    ensures { result ≡ definition.is_among numbers.now x }
{
    for number in numbers {
        if are_same(x, *number) {
            return true;
        }
    }
    false
}

/// Whether any of these is among others.
fn is_any_among(others: &[i32], numbers: &[i32]) -> bool
    ensures { result ≡ list_any (definition.is_among others.now) numbers.now }
{
    for number in numbers {
        if is_among(others, *number) {
            return true;
        }
    }
    false
}

/// The least of a number and some others.
pub(crate) fn least_of(first: i32, others: &[i32]) -> i32
    ensures { result ≡ definition.least_of first others.now }
{
    let mut least = first;
    for number in others {
        if *number < least {
            least = *number;
        }
    }
    least
}

/// The greatest of a number and some others.
pub(crate) fn greatest_of(first: i32, others: &[i32]) -> i32
    ensures { result ≡ definition.greatest_of first others.now }
{
    let mut greatest = first;
    for number in others {
        if greatest < *number {
            greatest = *number;
        }
    }
    greatest
}

impl Indexes {
    /// One index. It takes the memory of a list.
    pub fn one(alloc: Global, index: i32) -> Result<Indexes, ElabFault>
        ensures { Expands (λ x. x.numbers.items) (Ok (index ∷ [])) result }
    {
        let mut numbers = Vec::new(alloc);
        numbers.push(index)?;
        Ok(Indexes { numbers })
    }

    /// Those of a range; a fault is TooWide. It takes the memory of a list.
    pub fn of_range(alloc: Global, range: IntegerRange, at: usize) -> Result<Indexes, ElabFault>
        ensures { Expands (λ x. x.numbers.items) (definition.range_indexes at (range_view range)) result }
    {
        let turns = range.indexes(at)?;
        let mut numbers = Vec::new(alloc);
        for turn in 0..turns.count {
            numbers.push(turns.parameter(turn))?;
        }
        Ok(Indexes { numbers })
    }
}

/// Sees that an index lies within those that are given, or is natural; a fault is Index or
/// StaticError.
pub fn serve(all: &Option<Indexes>, index: i32, at: usize) -> Result<(), ElabFault>
    ensures { Computes (definition.serves at (option_map (λ x. x.numbers.items) all.now) index) result }
{
    match all {
        Some(given) => {
            if !is_among(&given.numbers, index) {
                return Err(ElabProblem::Index.at(at));
            }
            Ok(())
        }
        None => {
            if index < 0 {
                return Err(ElabProblem::StaticError.at(at));
            }
            Ok(())
        }
    }
}

/// The same of the bounds of a range, which has an index; a fault is Index or StaticError.
pub fn range_serves(all: &Option<Indexes>, range: IntegerRange, at: usize) -> Result<(), ElabFault>
    ensures { Computes (definition.range_serves at (option_map (λ x. x.numbers.items) all.now)
        (range_view range)) result }
{
    if is_null(range.direction, range.left, range.right) {
        return Err(ElabProblem::Index.at(at));
    }
    serve(all, range.left, at)?;
    serve(all, range.right, at)
}

/// Sees that none of these is taken, and that together they are 64 at most; a fault is Index or
/// TooWide.
pub fn are_free(taken: &[i32], indexes: &[i32], at: usize) -> Result<(), ElabFault>
    ensures { Computes (definition.are_free at taken.now indexes.now) result }
{
    if is_any_among(taken, indexes) {
        return Err(ElabProblem::Index.at(at));
    }
    if taken.len() > 64 || taken.len() + indexes.len() > 64 {
        return Err(ElabProblem::TooWide.at(at));
    }
    Ok(())
}
