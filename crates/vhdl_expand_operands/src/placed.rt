//! The elements of an aggregate, joined (IEEE 1076-2008, 9.3.3.2, 9.3.3.3).

ghost use Rattle.std.specs.Prelude.{◌≡◌, ◌≤◌, if◌then◌else◌, length, map, option_map, IfOk};
ghost use Rattle.rtl_model.specs.bodies.Fits.{IsWidth};
ghost use Rattle.vhdl_expand_rules.specs.Aggregates as definition;
ghost use Rattle.vhdl_expand_operands.specs.Operands.{operand_view};
ghost use Rattle.vhdl_expand_operands.specs.Placings.{placed_view, element_view, indexes_view, run_view};
ghost use Rattle.vhdl_expand_operands.specs.Results.{Expands};

use crate::indexes::{Indexes, greatest_of, is_among, least_of};
use crate::operand::Operand;
use crate::row::{Element, Row};
use std::alloc::{AllocError, Global};
use vhdl_expand_rules::{ElabFault, ElabProblem, IntegerRange};
use vhdl_tree::Direction;

/// An element of an aggregate, expanded: the next from the left, one for each of these indexes, or
/// one for each that is left.
#[derive(Drop)]
pub enum Placed {
    Next(Operand),
    Chosen(Vec<i32>, Element),
    Others(Element),
}

/// Neighbours that one element is for: its number, and how many they are.
#[derive(Clone, Copy)]
pub(crate) struct Neighbours {
    pub number: usize,
    pub count: usize,
}

/// Whether the elements are listed: the first is, or is for all.
fn are_listed(placed: &[Placed]) -> bool
    ensures { result ≡ definition.are_listed (map placed_view placed.now) }
{
    match placed.first() {
        Some(Placed::Chosen(_, _)) => false,
        _ => true,
    }
}

/// Those that are listed. It takes the memory of copies.
fn listed(alloc: Global, placed: &[Placed]) -> Result<Row, AllocError>
    ensures { IfOk result (λ row. map operand_view row.operands.items
        ≡ definition.listed (map placed_view placed.now)) }
{
    let mut row = Row::new(alloc);
    for item in placed {
        let Placed::Next(operand) = item else {
            return Ok(row);
        };
        row.push(operand.copied(alloc)?)?;
    }
    Ok(row)
}

/// That for what is left, if there is one.
fn left_over(placed: &[Placed]) -> Option<&Element>
    ensures { option_map element_view result ≡ definition.left_over (map placed_view placed.now) }
{
    for item in placed {
        if let Placed::Others(element) = item {
            return Some(element);
        }
    }
    None
}

/// Operands, and behind them so many of what is left as are needed; a fault is Length. It takes the
/// memory of copies.
fn filled_up(
    alloc: Global,
    row: Row,
    rest: Option<&Element>,
    needed: usize,
    at: usize,
) -> Result<Row, ElabFault>
    requires { needed ≤ 64 }
    ensures given { Expands (λ row. map operand_view row.operands.items)
        (definition.filled_up at needed (map operand_view row.operands.items)
        (option_map element_view rest.entry)) result }
    ensures few { IfOk result (λ row. row.len ≤ 64) }
{
    let found = row.len;
    if found == needed {
        return Ok(row);
    }
    let Some(element) = rest else {
        return Err(ElabProblem::Length { found, needed }.at(at));
    };
    if found > needed {
        return Err(ElabProblem::Length { found, needed }.at(at));
    }
    let mut row = row;
    row.push(element.repeated(alloc, needed - found)?)?;
    Ok(row)
}

/// The values of listed elements; a fault is Length or TooWide. It takes the memory of copies.
fn listed_values(
    alloc: Global,
    all: &Option<Indexes>,
    placed: &[Placed],
    at: usize,
) -> Result<Row, ElabFault>
    ensures given { Expands (λ row. map operand_view row.operands.items)
        (definition.listed_values at (option_map indexes_view all.now) (map placed_view placed.now)) result }
    ensures few { IfOk result (λ row. row.len ≤ 64) }
{
    let row = listed(alloc, placed)?;
    match all {
        Some(given) => filled_up(alloc, row, left_over(placed), given.numbers.len(), at),
        None => {
            if row.len > 64 {
                return Err(ElabProblem::TooWide.at(at));
            }
            Ok(row)
        }
    }
}

/// The indexes that elements are chosen for. It takes the memory of the list.
fn placed_indexes(alloc: Global, placed: &[Placed]) -> Result<Vec<i32>, AllocError>
    ensures { IfOk result (λ v. v.items ≡ definition.placed_indexes (map placed_view placed.now)) }
{
    let mut found = Vec::new(alloc);
    for item in placed {
        let Placed::Chosen(indexes, _) = item else {
            return Ok(found);
        };
        found.extend_from_slice(indexes)?;
    }
    Ok(found)
}

/// Which element, by its number, an index has.
fn element_for(placed: &[Placed], index: i32) -> Option<usize>
    ensures { result ≡ definition.element_for 0 (map placed_view placed.now) index }
{
    for number in 0..placed.len() {
        match &placed[number] {
            Placed::Next(_) => return None,
            Placed::Chosen(indexes, _) => {
                if is_among(indexes, index) {
                    return Some(number);
                }
            }
            Placed::Others(_) => return Some(number),
        }
    }
    None
}

/// Which element each index has; a fault is Length. It takes the memory of a list.
fn numbers_for(
    alloc: Global,
    indexes: &[i32],
    placed: &[Placed],
    at: usize,
) -> Result<Vec<usize>, ElabFault>
    ensures { Expands (λ v. v.items) (definition.elements_for at indexes.now (map placed_view placed.now)) result }
{
    let chosen = placed_indexes(alloc, placed)?;
    let found = chosen.len();
    let needed = indexes.len();
    let mut numbers = Vec::new(alloc);
    for index in indexes {
        let Some(number) = element_for(placed, *index) else {
            return Err(ElabProblem::Length { found, needed }.at(at));
        };
        numbers.push(number)?;
    }
    Ok(numbers)
}

/// Neighbours of one number. It takes the memory of a list.
fn runs(alloc: Global, numbers: &[usize]) -> Result<Vec<Neighbours>, AllocError>
    requires { length numbers.now ≤ 64 }
    ensures { IfOk result (λ v. map run_view v.items ≡ definition.runs numbers.now) }
{
    let mut runs = Vec::new(alloc);
    let Some((first, rest)) = numbers.split_first() else {
        return Ok(runs);
    };
    let mut last = Neighbours {
        number: *first,
        count: 1,
    };
    for number in rest {
        if *number == last.number {
            last.count += 1;
        } else {
            runs.push(last)?;
            last = Neighbours {
                number: *number,
                count: 1,
            };
        }
    }
    runs.push(last)?;
    Ok(runs)
}

/// The element of this number, if it is for indexes.
fn element_of(placed: &[Placed], number: usize) -> Option<&Element>
    ensures { option_map element_view result ≡ definition.value_of (map placed_view placed.now) number }
{
    let Some(item) = placed.get(number) else {
        return None;
    };
    match item {
        Placed::Next(_) => None,
        Placed::Chosen(_, element) => Some(element),
        Placed::Others(element) => Some(element),
    }
}

/// The value of neighbours; a fault is Index, where the element of their number is for no indexes.
/// It takes the memory of a copy.
fn value_for(
    alloc: Global,
    placed: &[Placed],
    run: Neighbours,
    at: usize,
) -> Result<Operand, ElabFault>
    requires { IsWidth run.count }
    ensures { Expands operand_view (definition.run_value at (map placed_view placed.now) (run_view run)) result }
{
    let Some(element) = element_of(placed, run.number) else {
        return Err(ElabProblem::Index.at(at));
    };
    Ok(element.repeated(alloc, run.count)?)
}

/// The values of chosen elements, one for each index from the left; a fault is Length or Index. It
/// takes the memory of copies.
fn values_at(
    alloc: Global,
    indexes: &Indexes,
    placed: &[Placed],
    at: usize,
) -> Result<Row, ElabFault>
    ensures given { Expands (λ row. map operand_view row.operands.items)
        (definition.values_at at (indexes_view indexes.now) (map placed_view placed.now)) result }
    ensures few { IfOk result (λ row. row.len ≤ 64) }
{
    let numbers = numbers_for(alloc, &indexes.numbers, placed, at)?;
    let runs = runs(alloc, &numbers)?;
    let mut row = Row::new(alloc);
    for run in &runs {
        row.push(value_for(alloc, placed, *run, at)?)?;
    }
    Ok(row)
}

/// The indexes of a free aggregate, from the least to the greatest; a fault is Index or TooWide. It
/// takes the memory of lists.
fn own_indexes(alloc: Global, placed: &[Placed], at: usize) -> Result<Indexes, ElabFault>
    ensures { Expands indexes_view
        (definition.own_indexes at (definition.placed_indexes (map placed_view placed.now))) result }
{
    let chosen = placed_indexes(alloc, placed)?;
    let Some((first, rest)) = chosen.split_first() else {
        return Err(ElabProblem::Index.at(at));
    };
    let least = least_of(*first, rest);
    let greatest = greatest_of(*first, rest);
    let range = IntegerRange::new(least, Direction::To, greatest);
    Indexes::of_range(alloc, range, at)
}

/// The values of chosen elements; a fault is Length, Index or TooWide. It takes the memory of
/// copies.
fn chosen_values(
    alloc: Global,
    all: &Option<Indexes>,
    placed: &[Placed],
    at: usize,
) -> Result<Row, ElabFault>
    ensures given { Expands (λ row. map operand_view row.operands.items)
        (definition.chosen_values at (option_map indexes_view all.now) (map placed_view placed.now)) result }
    ensures few { IfOk result (λ row. row.len ≤ 64) }
{
    match all {
        Some(given) => values_at(alloc, given, placed, at),
        None => {
            let own = own_indexes(alloc, placed, at)?;
            values_at(alloc, &own, placed, at)
        }
    }
}

/// The values of elements, listed or chosen; a fault is Length, Index or TooWide. It takes the
/// memory of copies.
fn values(
    alloc: Global,
    all: &Option<Indexes>,
    placed: &[Placed],
    at: usize,
) -> Result<Row, ElabFault>
    ensures given { Expands (λ row. map operand_view row.operands.items)
        (if definition.are_listed (map placed_view placed.now)
        then definition.listed_values at (option_map indexes_view all.now) (map placed_view placed.now)
        else definition.chosen_values at (option_map indexes_view all.now) (map placed_view placed.now)) result }
    ensures few { IfOk result (λ row. row.len ≤ 64) }
{
    if are_listed(placed) {
        return listed_values(alloc, all, placed, at);
    }
    chosen_values(alloc, all, placed, at)
}

/// The values of elements, joined from the left; a fault is Length, Index or TooWide. It takes the
/// memory of the whole.
pub fn composed(
    alloc: Global,
    all: &Option<Indexes>,
    placed: &[Placed],
    at: usize,
) -> Result<Operand, ElabFault>
    ensures { Expands operand_view
        (definition.composed at (option_map indexes_view all.now) (map placed_view placed.now)) result }
{
    let row = values(alloc, all, placed, at)?;
    row.joined(alloc, at)
}
