//! Objects of one type: signals of an architecture and variables of a process (IEEE 1076-2008,
//! 6.4.2), and what ports share with them.

ghost use Rattle.std.specs.Prelude.{◌≡◌, ◌++◌, map, option_map, IfOk, OnOk, IfErr};
ghost use Rattle.vhdl_names_declarations.specs.Counts.{AreCounts};
ghost use Rattle.vhdl_names_declarations.specs.Entered.{entering, entering_variables};
ghost use Rattle.vhdl_names_declarations.specs.Typed.{typed_object};
ghost use Rattle.vhdl_names_rules.specs.Declarations as rules;
ghost use Rattle.vhdl_names_rules.specs.Gives.{Gives};
ghost use Rattle.vhdl_names_rules.specs.Rules.{if_any};
ghost use Rattle.vhdl_names_rules.specs.Subtypes as types;
ghost use Rattle.vhdl_names_trees.specs.views.Integers.{target_range_view};
ghost use Rattle.vhdl_tree.specs.View as tree;
ghost use Rattle.vhdl_names_units.specs.views.Answers.{subtype_view, fixed_view};
ghost use Rattle.vhdl_names_units.specs.views.Declarations.{declaration_view, object_view};
ghost use Rattle.vhdl_names_rules.specs.problems.Broken.{Tells, of_any};
ghost use Rattle.vhdl_names_rules.specs.problems.Declarations as broken;
ghost use Rattle.vhdl_names_rules.specs.problems.Subtypes as subtypes_broken;

use crate::class::ObjectClass;
use crate::counts::{Counts, region_is_small};
use crate::generics::is_global;
use crate::names::copied_names;
use crate::region::{Settled, hide, settle};
use std::alloc::{AllocError, Global};
use vhdl_names_rules::{NameFault, ObjectType};
use vhdl_names_sight::Sight;
use vhdl_names_trees::TargetRange;
use vhdl_names_units::{Declaration, Fixed, Objects, Subtype};
use vhdl_names_values::{fixed_value, object_subtype};
use vhdl_tree::{Identifier, Signals, Subtype as TreeSubtype, Value, Variables};

/// A default for objects of a type, with this range if they are vectors, if there is one.
pub fn fixed_if_any(
    sight: &Sight,
    object_type: ObjectType,
    range: Option<TargetRange<'_>>,
    value: &Option<Value>,
) -> Result<Option<Fixed>, NameFault>
    ensures given { Gives (option_map fixed_view)
        (if_any (types.fixed_value sight.now object_type (option_map target_range_view range.entry))
        (tree.option_value_view value.now)) result }
    ensures told { IfErr result (Tells
        (of_any (subtypes_broken.fixed_value sight.now object_type (option_map target_range_view range.entry))
        (tree.option_value_view value.now))) }
{
    match value {
        None => Ok(None),
        Some(value) => Ok(Some(fixed_value(sight, object_type, range, value)?)),
    }
}

/// The type of objects, and their default.
pub fn object_type(
    sight: &Sight,
    indication: &TreeSubtype,
    value: &Option<Value>,
) -> Result<(Subtype, Option<Fixed>), NameFault>
    ensures given { Gives (λ x. (subtype_view x.0, option_map fixed_view x.1))
        (typed_object sight.now (tree.subtype_view indication.now) (tree.option_value_view value.now)) result }
    ensures told { IfErr result (Tells
        (broken.object sight.now (tree.subtype_view indication.now) (tree.option_value_view value.now))) }
{
    let subtype = object_subtype(sight, indication)?;
    let default = fixed_if_any(sight, subtype.object_type, subtype.form.range(), value)?;
    Ok((subtype, default))
}

/// Objects of these names.
pub fn objects(
    alloc: Global,
    names: &[Identifier],
    subtype: Subtype,
    default: Option<Fixed>,
) -> Result<Objects, AllocError>
    ensures { IfOk result (λ o. object_view o
        ≡ rules.for_each (types.object (subtype_view subtype) (option_map fixed_view default))
        (map tree.ident_view names.now)) }
{
    let names = copied_names(alloc, names)?;
    Ok(Objects {
        names,
        form: subtype.form,
        is_resolved: subtype.is_resolved,
        default,
    })
}

/// Signals of one declaration, numbered from here on. Within it their names hide outer ones.
pub fn signals(
    sight: &mut Sight,
    counts: Counts,
    declaration: &Signals,
) -> Result<Declaration, NameFault>
    requires { AreCounts counts sight.old.region }
    ensures given { Gives (λ o. (sight.new, declaration_view o))
        (entering rules.signals sight.old (tree.signals_view declaration.now)) result }
    ensures kept { OnOk result (sight.new ≡ record sight.old { region = sight.new.region }) }
    ensures told { IfErr result (Tells (broken.signals sight.old (tree.signals_view declaration.now))) }
{
    let first = sight.region.len();
    hide(sight.alloc, &mut sight.region, &declaration.names)?;
    let (subtype, default) = object_type(sight, &declaration.subtype, &declaration.default)?;
    let settled = Settled {
        class: ObjectClass::Signal(subtype.object_type),
        direction: subtype.form.direction(),
        is_global: is_global(sight, &declaration.subtype),
    };
    settle(sight.alloc, &mut sight.region, first, counts, &settled)?;
    let objects = objects(sight.alloc, &declaration.names, subtype, default)?;
    Ok(Declaration::Signals(objects))
}

/// Variables of one declaration, numbered from here on. Within it their names hide outer ones.
pub fn variables(
    sight: &mut Sight,
    counts: Counts,
    declaration: &Variables,
) -> Result<Declaration, NameFault>
    requires { AreCounts counts (sight.old.region ++ sight.old.variables) }
    ensures given { Gives (λ o. (sight.new, declaration_view o))
        (entering_variables rules.variables sight.old (tree.variables_view declaration.now)) result }
    ensures kept { OnOk result (sight.new ≡ record sight.old { variables = sight.new.variables }) }
    ensures told { IfErr result (Tells (broken.variables sight.old (tree.variables_view declaration.now))) }
{
    region_is_small(&sight.region);
    let first = sight.variables.len();
    hide(sight.alloc, &mut sight.variables, &declaration.names)?;
    let (subtype, default) = object_type(sight, &declaration.subtype, &declaration.default)?;
    let settled = Settled {
        class: ObjectClass::Variable(subtype.object_type),
        direction: subtype.form.direction(),
        is_global: is_global(sight, &declaration.subtype),
    };
    settle(sight.alloc, &mut sight.variables, first, counts, &settled)?;
    let objects = objects(sight.alloc, &declaration.names, subtype, default)?;
    Ok(Declaration::Variables(objects))
}
