//! Constants and subtypes, computed (IEEE 1076-2008, 6.3, 6.4.2.2).

ghost use Rattle.std.specs.Prelude.{◌≡◌, map};
ghost use Rattle.vhdl_names_rules.specs.units.Units as u;
ghost use Rattle.vhdl_names_trees.specs.views.Integers.{static_view, subtype_view};
ghost use Rattle.vhdl_names_trees.specs.views.Tests.{static_test_view};
ghost use Rattle.vhdl_names_units.specs.views.Answers.{fixed_view, form_view};
ghost use Rattle.vhdl_names_units.specs.views.Declarations.{declaration_view};
ghost use Rattle.vhdl_expand_rules.specs.Declarations as definition;
ghost use Rattle.vhdl_expand_operands.specs.Results.{Expands};
ghost use Rattle.vhdl_expand_bodies.specs.Sites.{IsSite, constant_view, site_view};
ghost use Rattle.vhdl_expand_declarations.specs.Constants.{constant_of};
ghost use Rattle.vhdl_expand_declarations.specs.Regions.{entered_at, integers_of};
ghost use Rattle.vhdl_expand_declarations.specs.Stepwise.{stepwise};

use crate::region::Entered;
use std::alloc::Global;
use vhdl_expand_bodies::{Constant, Site};
use vhdl_expand_operands::Width;
use vhdl_expand_processes::{fixed, kind};
use vhdl_expand_rules::{ElabFault, ObjectKind};
use vhdl_names_trees::{IntegerSubtype, Static, StaticTest};
use vhdl_names_units::{Declaration, Fixed, Form};
use vhdl_tree::Identifier;

/// The position of a truth (5.2.3).
pub(crate) fn position_of(truth: bool) -> i32
    ensures { result ≡ definition.position_of truth }
{
    if truth { 1 } else { 0 }
}

/// A constant that is no integer; a fault is StaticError, Length, Index or TooWide.
fn constant(
    alloc: Global,
    site: &Site,
    form: &Form,
    value: &Fixed,
    at: usize,
) -> Result<Constant, ElabFault>
    requires { IsSite site.now }
    ensures { Expands constant_view (constant_of (site_view site.now) at (form_view form.now) (fixed_view value.now))
        result }
{
    let kind = kind(&site.integers, form, at)?;
    let values = fixed(alloc, site, Width { len: kind.size() }, value, at)?;
    Ok(Constant { kind, values })
}

/// The constants of a type of integers of one declaration; a fault is StaticError or GenericRange.
/// Their value is computed once.
fn integers(
    site: &Site,
    names: &[Identifier],
    told_at: Option<usize>,
    subtype: &IntegerSubtype,
    value: &Static,
) -> Result<Entered, ElabFault>
    ensures { Expands (λ made. entered_at (site_view site.now) made)
        (stepwise definition.declared (site_view site.now)
        (integers_of names.now told_at (subtype_view subtype.now) (static_view value.now))) result }
{
    let Some(first) = names.first() else {
        return Ok(Entered::Nothing);
    };
    let at = told_at.unwrap_or(first.at);
    let number = site.integers.integer_of(subtype, value, at)?;
    Ok(Entered::Integers(number, names.len()))
}

/// The boolean constants of one declaration; a fault is StaticError. Their value is computed once.
fn truths(site: &Site, names: &[Identifier], value: &StaticTest) -> Result<Entered, ElabFault>
    ensures { Expands (λ made. entered_at (site_view site.now) made)
        (stepwise definition.declared (site_view site.now)
        (map (λ i. u.Declaration.truth i.at (static_test_view value.now)) names.now)) result }
{
    if names.is_empty() {
        return Ok(Entered::Nothing);
    }
    let truth = site.integers.decision(value)?;
    Ok(Entered::Integers(position_of(truth), names.len()))
}

/// The other constants of one declaration; a fault is StaticError, Length, Index or TooWide. Their
/// values are computed once.
fn constants(
    alloc: Global,
    site: &Site,
    names: &[Identifier],
    form: &Form,
    value: &Fixed,
) -> Result<Entered, ElabFault>
    requires { IsSite site.now }
    ensures { Expands (λ made. entered_at (site_view site.now) made)
        (stepwise definition.declared (site_view site.now)
        (map (λ i. u.Declaration.constant i.at (form_view form.now) (fixed_view value.now)) names.now)) result }
{
    let Some(first) = names.first() else {
        return Ok(Entered::Nothing);
    };
    let constant = constant(alloc, site, form, value, first.at)?;
    Ok(Entered::Constants(constant, names.len()))
}

/// What a declaration of constants or of a subtype is where it stands; a fault is GenericRange,
/// StaticError, Length, Index or TooWide.
#[tactic(auto, unfolding(vhdl_expand_rules::specs::Declarations::declared))]
pub(crate) fn entered(
    alloc: Global,
    site: &Site,
    declaration: &Declaration,
) -> Result<Entered, ElabFault>
    requires { IsSite site.now }
    ensures { Expands (λ made. entered_at (site_view site.now) made)
        (stepwise definition.declared (site_view site.now) (declaration_view declaration.now)) result }
{
    match declaration {
        Declaration::Integers {
            names,
            told_at,
            subtype,
            value,
        } => integers(site, names, *told_at, subtype, value),
        Declaration::Truths { names, value } => truths(site, names, value),
        Declaration::Constants { names, form, value } => constants(alloc, site, names, form, value),
        Declaration::VectorSubtype(at, range) => {
            let bounds = site.integers.declared_bounds(range, *at)?;
            let kind = ObjectKind::Vector(bounds);
            Ok(Entered::Range(kind.range()))
        }
        Declaration::IntegerSubtype(at, subtype) => {
            let numbers = site.integers.numbers_of(subtype, *at)?;
            Ok(Entered::Range(numbers.range()))
        }
        Declaration::Signals(_) | Declaration::Variables(_) => Ok(Entered::Nothing),
    }
}
