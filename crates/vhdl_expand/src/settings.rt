//! The values that are set for the generics of a top (IEEE 1076-2008, 14.2, 14.3.3).

ghost use Rattle.std.specs.Prelude.{◌≡◌, ◌++◌, flat_map, map, option_map, IfOk, OnOk};
ghost use Rattle.std.specs.List.{list_all};
ghost use Rattle.vhdl_names_rules.specs.units.Units as u;
ghost use Rattle.vhdl_names_trees.specs.views.Integers.{static_view};
ghost use Rattle.vhdl_names_units.specs.views.Answers.{fixed_view};
ghost use Rattle.vhdl_names_units.specs.views.Declarations.{generics_view};
ghost use Rattle.vhdl_expand_rules.specs.Tops as definition;
ghost use Rattle.vhdl_expand_rules.specs.views.Tops.{setting_view};
ghost use Rattle.vhdl_expand_declarations.specs.Generics.{actuals_view};

use std::alloc::{AllocError, Global};
use vhdl_expand_rules::{Setting, set_actual};
use vhdl_names_trees::Static;
use vhdl_names_units::{Fixed, GenericType, Generics};

/// Whether a setting is of a generic of this declaration.
fn is_of(declaration: &Generics, setting: &Setting) -> bool
    ensures { result ≡ definition.is_generic (generics_view declaration.now) (setting_view setting.now) }
{
    let GenericType::Integers(_) = &declaration.generic_type else {
        return false;
    };
    for name in &declaration.names {
        if setting.sets(&name.text) {
            return true;
        }
    }
    false
}

/// Whether a setting is of one of these generics.
fn is_generic(declarations: &[Generics], setting: &Setting) -> bool
    ensures { result ≡
        definition.is_generic (flat_map generics_view declarations.now) (setting_view setting.now) }
{
    for declaration in declarations {
        if is_of(declaration, setting) {
            return true;
        }
    }
    false
}

/// Whether each setting is of one of these generics.
pub(crate) fn are_generics(declarations: &[Generics], settings: &[Setting]) -> bool
    ensures { result ≡ list_all (definition.is_generic (flat_map generics_view declarations.now))
        (map setting_view settings.now) }
{
    for setting in settings {
        if !is_generic(declarations, setting) {
            return false;
        }
    }
    true
}

/// An integer as an actual, if there is one.
fn as_fixed(value: Option<Static>) -> Option<Fixed>
    ensures { option_map fixed_view result ≡ option_map (λ s. u.Fixed.integer (static_view s)) value }
{
    match value {
        None => None,
        Some(value) => Some(Fixed::Integer(value)),
    }
}

/// Puts the actuals of the generics of one declaration behind others. It takes the memory of the
/// list.
fn add_actuals(
    alloc: Global,
    settings: &[Setting],
    declaration: &Generics,
    actuals: &mut Vec<Option<Fixed>>,
) -> Result<(), AllocError>
    ensures { OnOk result (map (option_map fixed_view) actuals.new.items ≡
        map (option_map fixed_view) actuals.old.items ++ map (λ (g : u.Generic).
        definition.set_actual (map setting_view settings.now) g.name g.at) (generics_view declaration.now)) }
{
    for name in &declaration.names {
        let actual = set_actual(alloc, settings, &name.text, name.at)?;
        actuals.push(as_fixed(actual))?;
    }
    Ok(())
}

/// The actuals of generics, in their order; of no setting there is none. It takes the memory of the
/// list.
pub(crate) fn set_actuals(
    alloc: Global,
    settings: &[Setting],
    declarations: &[Generics],
) -> Result<Vec<Option<Fixed>>, AllocError>
    ensures { IfOk result (λ actuals. map (option_map fixed_view) actuals.items ≡
        definition.actuals_of (map setting_view settings.now) (flat_map generics_view declarations.now)) }
{
    let mut actuals = Vec::new(alloc);
    if settings.is_empty() {
        return Ok(actuals);
    }
    for declaration in declarations {
        add_actuals(alloc, settings, declaration, &mut actuals)?;
    }
    Ok(actuals)
}

/// Actuals that are lent. It takes the memory of a list.
pub(crate) fn lent(
    alloc: Global,
    actuals: &[Option<Fixed>],
) -> Result<Vec<Option<&Fixed>>, AllocError>
    ensures { IfOk result (λ list. actuals_view list.items ≡ map (option_map fixed_view) actuals.now) }
{
    let mut list = Vec::new(alloc);
    for actual in actuals {
        list.push(actual.as_ref())?;
    }
    Ok(list)
}
