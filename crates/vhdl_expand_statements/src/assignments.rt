//! Assignments, expanded (IEEE 1076-2008, 10.5, 10.6). Lengths agree, whether a statement is run or
//! not.

ghost use Rattle.rtl_net.specs.Bodies.{statement_view};
ghost use Rattle.vhdl_names_trees.specs.views.Vectors.{chosen_view, part_view, place_view, signal_view};
ghost use Rattle.vhdl_expand_operands.specs.Results.{Expands};
ghost use Rattle.vhdl_expand_bodies.specs.Sites.{IsSite, site_view};
ghost use Rattle.vhdl_expand_statements.specs.steps.Assignments as steps;
ghost use Rattle.vhdl_names_units.specs.views.Answers as analysed;

use rtl_net::Statement;
use std::alloc::Global;
use vhdl_expand_bodies::{Site, elements};
use vhdl_expand_operands::{Width, both};
use vhdl_expand_rules::{ElabFault, byte};
use vhdl_names_trees::{Chosen, Part, Signal, SignalPart};
use vhdl_names_units::Given;

/// An assignment to a signal, by its elements; a fault is GenericRange, StaticError, Length,
/// Index or TooWide.
pub(crate) fn assign(
    site: &Site,
    alloc: Global,
    target: &SignalPart,
    value: &Given,
) -> Result<Statement, ElabFault>
    requires { IsSite site.now }
    ensures { Expands statement_view
        (steps.assign (site_view site.now) (place_view target.now) (analysed.given_view value.now)) result }
{
    let run = site.signal_elements(target.signal, &target.part, target.at)?;
    let kind = site.signal_kind(target.signal);
    let width = Width { len: run.len };
    let selected = site.given_to(alloc, kind, width, value, target.at)?;
    let places = elements(run);
    Ok(Statement::Assign {
        places,
        value: selected.value,
    })
}

/// An assignment to what a run chooses of a signal; a fault is StaticError, Length, Index or
/// TooWide.
pub(crate) fn assign_in(
    site: &Site,
    alloc: Global,
    signal: Signal,
    part: &Chosen,
    value: &Given,
    at: usize,
) -> Result<Statement, ElabFault>
    requires { IsSite site.now }
    ensures { Expands statement_view
        (steps.assign_in (site_view site.now) at (signal_view signal) (chosen_view part.now)
        (analysed.given_view value.now)) result }
{
    let run = site.signal_elements(signal, &Part::Whole, at)?;
    let bounds = site.signal_bounds(signal, at)?;
    let row = site.row(alloc, bounds, part, at)?;
    let (width, spacing) = (row.width, row.spacing());
    let (row, value) = both(row, site.elements_given(alloc, width, value, at))?;
    Ok(Statement::AssignAt {
        at: byte(at),
        index: row.index.expr,
        spacing,
        places: elements(run),
        value,
    })
}

/// An assignment to what a run chooses of a variable; a fault is StaticError, Length, Index or
/// TooWide.
pub(crate) fn set_in(
    site: &Site,
    alloc: Global,
    variable: usize,
    part: &Chosen,
    value: &Given,
    at: usize,
) -> Result<Statement, ElabFault>
    requires { IsSite site.now }
    ensures { Expands statement_view
        (steps.set_in (site_view site.now) at variable (chosen_view part.now) (analysed.given_view value.now))
        result }
{
    let run = site.variable_elements(variable, &Part::Whole, at)?;
    let bounds = site.variable_bounds(variable, at)?;
    let row = site.row(alloc, bounds, part, at)?;
    let (width, spacing) = (row.width, row.spacing());
    let (row, value) = both(row, site.elements_given(alloc, width, value, at))?;
    Ok(Statement::SetAt {
        at: byte(at),
        index: row.index.expr,
        spacing,
        elements: elements(run),
        value,
    })
}

/// An assignment to a variable; a fault is GenericRange, StaticError, Length, Index or TooWide.
pub(crate) fn set(
    site: &Site,
    alloc: Global,
    variable: usize,
    part: &Part,
    value: &Given,
    at: usize,
) -> Result<Statement, ElabFault>
    requires { IsSite site.now }
    ensures { Expands statement_view
        (steps.set (site_view site.now) at variable (part_view part.now) (analysed.given_view value.now)) result }
{
    let run = site.variable_elements(variable, part, at)?;
    let kind = site.variable_kind(variable);
    let width = Width { len: run.len };
    let selected = site.given_to(alloc, kind, width, value, at)?;
    let elements = elements(run);
    Ok(Statement::Set {
        elements,
        value: selected.value,
    })
}
