//! Ports and signals (IEEE 1076-2008, 6.4.2.3, 6.5.2, 14.4).

ghost use Rattle.std.specs.Prelude.{◌≡◌, ◌≢◌, [], flat_map};
ghost use Rattle.vhdl_expand_tree.specs.Views.{role_view};
ghost use Rattle.vhdl_expand_rules.specs.Declarations as definition;
ghost use Rattle.vhdl_expand_rules.specs.Tree.{internal};
ghost use Rattle.vhdl_expand_operands.specs.Results.{Expands};
ghost use Rattle.vhdl_names_units.specs.views.Declarations as units;
ghost use Rattle.vhdl_expand_declarations.specs.Objects.{next_object};
ghost use Rattle.vhdl_expand_declarations.specs.Views.{declared_view};
ghost use Rattle.vhdl_expand_declarations.specs.Stepwise.{stepwise};

use crate::declared::InstanceObjects;
use std::alloc::Global;
use vhdl_expand_rules::ElabFault;
use vhdl_expand_tree::Role;
use vhdl_names_units::{Objects, Ports};
use vhdl_tree::Mode;

/// Puts the ports or signals of one declaration behind those before them, ports before any signal;
/// a fault is StaticError, GenericRange, Length, Index or TooWide. What they are and start with is
/// computed once.
pub(crate) fn add_objects(
    alloc: Global,
    role: Role,
    objects: &Objects,
    declared: &mut InstanceObjects,
) -> Result<(), ElabFault>
    requires { role_view role ≢ internal → (declared_view declared.old).site.signals ≡ [] }
    ensures { Expands (λ _. declared_view declared.new)
        (stepwise (next_object (role_view role)) (declared_view declared.old) (units.object_view objects.now)) result }
{
    let names = objects.names.as_slice();
    let Some(first) = names.first() else {
        return Ok(());
    };
    let shape = declared.shape(alloc, objects, first.at)?;
    for name in names {
        let object = shape.object(alloc, role, objects, name)?;
        declared.add_object(object)?;
    }
    Ok(())
}

/// What a port of this mode is to its instance.
fn role_of(mode: Mode) -> Role
    ensures { role_view result ≡ definition.role_of mode }
{
    match mode {
        Mode::In => Role::Input,
        Mode::Out => Role::Output,
    }
}

/// Puts ports behind those before them, in order, before any signal; a fault is StaticError,
/// GenericRange, Length, Index or TooWide.
pub(crate) fn add_ports(
    alloc: Global,
    declarations: &[Ports],
    declared: &mut InstanceObjects,
) -> Result<(), ElabFault>
    requires { (declared_view declared.old).site.signals ≡ [] }
    ensures { Expands (λ _. declared_view declared.new)
        (definition.ports (declared_view declared.old) (flat_map units.ports_view declarations.now)) result }
{
    for declaration in declarations {
        add_objects(
            alloc,
            role_of(declaration.mode),
            &declaration.objects,
            declared,
        )?;
    }
    Ok(())
}
