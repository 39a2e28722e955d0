//! The values of generics (IEEE 1076-2008, 6.5.6.2, 14.3.3).

ghost use Rattle.std.specs.Prelude.{◌≡◌, flat_map, length, option_map, IfOk, OnOk};
ghost use Rattle.rtl_model.specs.bodies.Fits.{IsWidth};
ghost use Rattle.vhdl_tree.specs.View.{ident_view};
ghost use Rattle.vhdl_names_rules.specs.units.Units as units;
ghost use Rattle.vhdl_names_trees.specs.views.Integers.{subtype_view};
ghost use Rattle.vhdl_names_units.specs.views.Answers.{fixed_view, form_view};
ghost use Rattle.vhdl_names_units.specs.views.Declarations.{generic_type_view, generics_view};
ghost use Rattle.vhdl_expand_rules.specs.Declarations as definition;
ghost use Rattle.vhdl_expand_rules.specs.Kinds.{size};
ghost use Rattle.vhdl_expand_rules.specs.Site as sites;
ghost use Rattle.vhdl_expand_rules.specs.views.Kinds.{kind_view};
ghost use Rattle.vhdl_expand_operands.specs.Results.{Expands};
ghost use Rattle.vhdl_expand_bodies.specs.Sites.{IsSite, site_view};
ghost use Rattle.vhdl_expand_declarations.specs.Generics.{actuals_view, all_generics, further_view, generic_view, next_generic, valued_at};
ghost use Rattle.vhdl_expand_declarations.specs.Stepwise.{stepwise};
ghost use Rattle.vhdl_expand_declarations.specs.Views.{declared_view};

use crate::actuals::actual_of;
use crate::declared::InstanceObjects;
use crate::entering::position_of;
use std::alloc::{AllocError, Global};
use vhdl_expand_bodies::{Constant, Site};
use vhdl_expand_operands::Width;
use vhdl_expand_processes::{as_long, fixed, kind};
use vhdl_expand_rules::{ElabFault, ElabProblem, ObjectKind};
use vhdl_names_trees::IntegerSubtype;
use vhdl_names_units::{Fixed, Form, GenericType, Generics};
use vhdl_tree::Identifier;
use vhdl_values::Vec9;

/// The value of a generic: an integer, or a boolean by its position, or of the nine values.
#[derive(Drop)]
pub(crate) enum GenericValue {
    Integer(i32),
    Constant(Constant),
}

/// The value of an integer generic, which is computed in one site and its subtype in its own; a
/// fault is StaticError, GenericRange, or NoGeneric where it is no integer.
fn integer(
    from: &Site,
    own: &Site,
    subtype: &IntegerSubtype,
    value: &Fixed,
    at: usize,
) -> Result<GenericValue, ElabFault>
    ensures { Expands (valued_at (site_view own.now)) (definition.valued_generic (site_view from.now)
        (site_view own.now) at (units.integers (subtype_view subtype.now)) (fixed_view value.now)) result }
{
    let Fixed::Integer(value) = value else {
        return Err(ElabProblem::NoGeneric.at(at));
    };
    let numbers = own.integers.numbers_of(subtype, at)?;
    let x = from.integers.integer_among(numbers, value, at)?;
    Ok(GenericValue::Integer(x))
}

/// The value of a boolean generic; a fault is StaticError, or NoGeneric where it is no boolean.
fn truth(from: &Site, value: &Fixed, at: usize) -> Result<GenericValue, ElabFault>
    ensures { (own : sites.Site) → Expands (valued_at own)
        (definition.valued_generic (site_view from.now) own at units.truths (fixed_view value.now)) result }
{
    let Fixed::Truth(test) = value else {
        return Err(ElabProblem::NoGeneric.at(at));
    };
    let truth = from.integers.decision(test)?;
    Ok(GenericValue::Integer(position_of(truth)))
}

/// The values of a generic of this kind: an aggregate has its indexes. A fault is StaticError,
/// Length, Index or TooWide.
fn values(
    alloc: Global,
    from: &Site,
    kind: ObjectKind,
    value: &Fixed,
    at: usize,
) -> Result<Vec9, ElabFault>
    requires site { IsSite from.now }
    requires width { IsWidth (size (kind_view kind)) }
    ensures given { Expands (λ values. values)
        (definition.generic_values (site_view from.now) at (kind_view kind) (fixed_view value.now)) result }
    ensures long { IfOk result (λ values. length values ≡ size (kind_view kind)) }
{
    let width = Width { len: kind.size() };
    match value {
        Fixed::Aggregate(start, elements) => {
            let values = from.aggregate_values(alloc, kind, elements, *start)?;
            as_long(width, values, at)
        }
        _ => fixed(alloc, from, width, value, at),
    }
}

/// The value of a generic of this form; a fault is StaticError, Length, Index or TooWide.
fn of_form(
    alloc: Global,
    from: &Site,
    own: &Site,
    form: &Form,
    value: &Fixed,
    at: usize,
) -> Result<GenericValue, ElabFault>
    requires { IsSite from.now }
    ensures { Expands (valued_at (site_view own.now)) (definition.other_generic (site_view from.now)
        (site_view own.now) at (form_view form.now) (fixed_view value.now)) result }
{
    let kind = kind(&own.integers, form, at)?;
    let values = values(alloc, from, kind, value, at)?;
    Ok(GenericValue::Constant(Constant { kind, values }))
}

/// The value of a generic of this type, which is computed in one site and its type in its own; a
/// fault is NoGeneric, StaticError, GenericRange, Length, Index or TooWide.
fn valued<'a>(
    alloc: Global,
    from: &Site<'a>,
    own: &Site<'a>,
    generic_type: &GenericType,
    value: &Fixed,
    at: usize,
) -> Result<GenericValue, ElabFault>
    requires { IsSite from.now }
    ensures { Expands (valued_at (site_view own.now)) (definition.valued_generic (site_view from.now)
        (site_view own.now) at (generic_type_view generic_type.now) (fixed_view value.now)) result }
{
    match generic_type {
        GenericType::Integers(subtype) => integer(from, own, subtype, value, at),
        GenericType::Truths => truth(from, value, at),
        GenericType::Values(form) => of_form(alloc, from, own, form, value, at),
    }
}

/// The value of a generic: of its actual, in the instance above, else of its default, which may
/// name the generics before it; a fault is NoGeneric, StaticError, GenericRange, Length, Index or
/// TooWide.
fn generic<'a>(
    alloc: Global,
    above: &Site<'a>,
    own: &Site<'a>,
    actual: Option<&Fixed>,
    declaration: &Generics,
    name: &Identifier,
) -> Result<GenericValue, ElabFault>
    requires above { IsSite above.now }
    requires own { IsSite own.now }
    ensures { Expands (valued_at (site_view own.now)) (definition.generic (site_view above.now) (site_view own.now)
        (option_map (λ value. fixed_view value.now) actual.entry) (generic_view (ident_view name.now) declaration.now))
        result }
{
    let of = &declaration.generic_type;
    if let Some(value) = actual {
        return valued(alloc, above, own, of, value, name.at);
    }
    let Some(value) = &declaration.default else {
        return Err(ElabProblem::NoGeneric.at(name.at));
    };
    valued(alloc, own, own, of, value, name.at)
}

impl InstanceObjects {
    /// Puts the value of a generic behind those before it.
    fn add_value(&mut self, value: GenericValue) -> Result<(), AllocError>
        ensures site { OnOk result ((declared_view self.new).site ≡ valued_at (declared_view self.old).site value) }
        ensures objects { OnOk result ((declared_view self.new).objects ≡ (declared_view self.old).objects) }
        ensures signals { OnOk result (self.new.signals ≡ self.old.signals) }
    {
        match value {
            GenericValue::Integer(x) => {
                self.generics.push(x)?;
                Ok(())
            }
            GenericValue::Constant(constant) => self.region.add_constant(constant),
        }
    }
}

/// Puts the generics of one declaration behind those before them, of which there are so many; how
/// many there are then. A fault is NoGeneric, StaticError, GenericRange, Length, Index or TooWide.
fn add_generics(
    alloc: Global,
    above: &Site,
    actuals: &[Option<&Fixed>],
    declaration: &Generics,
    before: usize,
    declared: &mut InstanceObjects,
) -> Result<usize, ElabFault>
    requires { IsSite above.now }
    ensures given { Expands (λ count. further_view count declared.new)
        (stepwise (next_generic (site_view above.now) (actuals_view actuals.now)) (further_view before declared.old)
        (generics_view declaration.now)) result }
    ensures signals { OnOk result (declared.new.signals ≡ declared.old.signals) }
{
    let mut count = before;
    for name in &declaration.names {
        let Some(next) = count.checked_add(1) else {
            return Err(ElabFault::NoMemory);
        };
        let actual = actual_of(actuals, count);
        let own = declared.site(&[]);
        let value = generic(alloc, above, &own, actual, declaration, name);
        own.end();
        declared.add_value(value?)?;
        count = next;
    }
    Ok(count)
}

/// Puts generics, in order, where nothing is declared yet; a fault is NoGeneric, StaticError,
/// GenericRange, Length, Index or TooWide.
pub(crate) fn add_all_generics(
    alloc: Global,
    above: &Site,
    actuals: &[Option<&Fixed>],
    declarations: &[Generics],
    declared: &mut InstanceObjects,
) -> Result<(), ElabFault>
    requires { IsSite above.now }
    ensures given { Expands (λ _. declared_view declared.new)
        (all_generics (site_view above.now) (actuals_view actuals.now) (declared_view declared.old)
        (flat_map generics_view declarations.now)) result }
    ensures signals { OnOk result (declared.new.signals ≡ declared.old.signals) }
{
    let mut count = 0;
    for declaration in declarations {
        count = add_generics(alloc, above, actuals, declaration, count, declared)?;
    }
    Ok(())
}
