//! What a process declares: variables, constants and subtypes (IEEE 1076-2008, 6.4.2.4, 11.3).

ghost use Rattle.std.specs.Prelude.{◌≡◌, flat_map, IfOk, OnOk};
ghost use Rattle.vhdl_expand_rules.specs.Declarations as definition;
ghost use Rattle.vhdl_expand_operands.specs.Results.{Expands};
ghost use Rattle.vhdl_expand_bodies.specs.Sites.{IsSite, site_view};
ghost use Rattle.vhdl_tree.specs.View.{ident_view};
ghost use Rattle.vhdl_names_units.specs.views.Declarations.{declaration_view, object_view};
ghost use Rattle.vhdl_expand_tree.specs.Views.{variable_view};
ghost use Rattle.vhdl_expand_declarations.specs.Objects.{named_object};
ghost use Rattle.vhdl_expand_declarations.specs.Stepwise.{stepwise};
ghost use Rattle.vhdl_expand_declarations.specs.Variables.{HasWidth, IsOuter, next_variable, variables_view};

use crate::declared::ProcessVariables;
use crate::entering::entered;
use std::alloc::Global;
use vhdl_expand_bodies::Site;
use vhdl_expand_processes::{kind, starts};
use vhdl_expand_rules::ElabFault;
use vhdl_expand_tree::Variable;
use vhdl_names_units::{Declaration, Objects};
use vhdl_tree::Identifier;

/// The variable of this name among those of a declaration; a fault is StaticError, GenericRange,
/// Length, Index or TooWide.
#[tactic(auto, unfolding(vhdl_expand_rules::specs::Declarations::variable))]
fn variable(
    alloc: Global,
    site: &Site,
    objects: &Objects,
    name: &Identifier,
) -> Result<Variable, ElabFault>
    requires { IsSite site.now }
    ensures given { Expands variable_view
        (definition.variable (site_view site.now) (named_object objects.now (ident_view name.now))) result }
    ensures wide { IfOk result HasWidth }
{
    let kind = kind(&site.integers, &objects.form, name.at)?;
    let starts = starts(alloc, site, kind, &objects.default, name.at)?;
    let name = name.text.to_vec(alloc)?;
    Ok(Variable { name, kind, starts })
}

/// Puts the variables of a declaration behind what is declared before them, in a process that
/// stands at a site; a fault is StaticError, GenericRange, Length, Index or TooWide.
fn add_variables(
    alloc: Global,
    site: &Site,
    objects: &Objects,
    declared: &mut ProcessVariables,
) -> Result<(), ElabFault>
    requires site { IsSite site.now }
    requires outer { IsOuter site.now }
    ensures { Expands (λ _. variables_view (site_view site.now) declared.new)
        (stepwise next_variable (variables_view (site_view site.now) declared.old) (object_view objects.now)) result }
{
    for name in &objects.names {
        let inner = declared.within(site);
        let next = variable(alloc, &inner, objects, name);
        inner.end();
        declared.add(next?)?;
    }
    Ok(())
}

/// Puts a constant or a subtype behind what is declared before it; a fault is GenericRange,
/// StaticError, Length, Index or TooWide.
fn enter(
    alloc: Global,
    site: &Site,
    declaration: &Declaration,
    declared: &mut ProcessVariables,
) -> Result<(), ElabFault>
    requires site { IsSite site.now }
    requires outer { IsOuter site.now }
    ensures known { Expands (λ _. (variables_view (site_view site.now) declared.new).site)
        (stepwise definition.declared (variables_view (site_view site.now) declared.old).site
        (declaration_view declaration.now)) result }
    ensures variables { OnOk result (declared.new.variables ≡ declared.old.variables) }
{
    let inner = declared.within(site);
    let made = entered(alloc, &inner, declaration);
    inner.end();
    declared.region.enter(made?)?;
    Ok(())
}

/// Puts what is declared behind what was declared before it, in a process that stands at a site; a
/// fault is GenericRange, StaticError, Length, Index or TooWide.
fn declare(
    alloc: Global,
    site: &Site,
    declaration: &Declaration,
    declared: &mut ProcessVariables,
) -> Result<(), ElabFault>
    requires site { IsSite site.now }
    requires outer { IsOuter site.now }
    ensures { Expands (λ _. variables_view (site_view site.now) declared.new)
        (definition.process_declarations (variables_view (site_view site.now) declared.old)
        (declaration_view declaration.now)) result }
{
    match declaration {
        Declaration::Variables(objects) => add_variables(alloc, site, objects, declared),
        _ => enter(alloc, site, declaration, declared),
    }
}

/// What a process that stands at a site declares, in order; a fault is GenericRange, StaticError,
/// Length, Index or TooWide. It takes the memory of what it declares.
pub fn process_declarations(
    alloc: Global,
    site: &Site,
    declarations: &[Declaration],
) -> Result<ProcessVariables, ElabFault>
    requires site { IsSite site.now }
    requires outer { IsOuter site.now }
    ensures { Expands (variables_view (site_view site.now))
        (definition.process_declarations (definition.no_variables (site_view site.now))
        (flat_map declaration_view declarations.now)) result }
{
    let mut declared = ProcessVariables::new(alloc);
    for declaration in declarations {
        declare(alloc, site, declaration, &mut declared)?;
    }
    Ok(declared)
}
