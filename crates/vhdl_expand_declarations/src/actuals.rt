//! What the generics and ports of an instance are associated with (IEEE 1076-2008, 6.5.7, 6.5.6.3).

ghost use Rattle.std.specs.Prelude.{◌≡◌, ◌≤◌, drop, flat_map, length, map, option_map, IfOk};
ghost use Rattle.vhdl_expand_tree.specs.Views.{object_view, role_view};
ghost use Rattle.vhdl_names_trees.specs.views.Vectors.{place_view};
ghost use Rattle.vhdl_expand_rules.specs.Declarations as definition;
ghost use Rattle.vhdl_expand_rules.specs.Elab.{same_length};
ghost use Rattle.vhdl_expand_rules.specs.Computed.{covers};
ghost use Rattle.vhdl_expand_rules.specs.Kinds as kinds;
ghost use Rattle.vhdl_expand_rules.specs.Kinds.{range_span, size};
ghost use Rattle.vhdl_expand_rules.specs.views.Integers.{range_view, Computes};
ghost use Rattle.vhdl_expand_rules.specs.views.Kinds.{kind_view, run_view};
ghost use Rattle.vhdl_expand_operands.specs.Results.{Expands};
ghost use Rattle.vhdl_expand_bodies.specs.Sites.{IsShort, IsSite, site_view};
ghost use Rattle.vhdl_names_units.specs.views.Actuals.{each_actual};
ghost use Rattle.vhdl_names_units.specs.views.Declarations.{all_ports_view, ports_view};
ghost use Rattle.vhdl_expand_declarations.specs.Associations.{any_port, associated, associated_to, next_associated, places_view};
ghost use Rattle.vhdl_expand_declarations.specs.Views.{declared_view};
ghost use Rattle.vhdl_expand_declarations.specs.Stepwise.{stepwise};

use crate::declared::InstanceObjects;
use std::alloc::{AllocError, Global};
use vhdl_expand_bodies::Site;
use vhdl_expand_rules::{ElabFault, ElabProblem, IntegerRange, ObjectKind, Run};
use vhdl_expand_tree::{Object, Role};
use vhdl_names_trees::SignalPart;
use vhdl_names_units::{Actuals, Entity, Ports};

/// The actual of the generic or port of this number, if it has one.
pub(crate) fn actual_of<'a, T>(actuals: &[Option<&'a T>], number: usize) -> Option<&'a T>
    ensures { result ≡ definition.first_of (drop number actuals.now) }
{
    match actuals.get(number) {
        Some(actual) => *actual,
        None => None,
    }
}

/// Neighbouring elements, one by one.
fn elements(alloc: Global, run: Run) -> Result<Vec<usize>, AllocError>
    requires { IsShort run }
    ensures { IfOk result (λ elements. elements.items ≡ run_view run) }
{
    let mut elements = Vec::new(alloc);
    for k in 0..run.len {
        elements.push(run.first + k)?;
    }
    Ok(elements)
}

/// Whether it is an in port.
fn is_input(role: Role) -> bool
    ensures { result ≡ definition.is_input (role_view role) }
{
    match role {
        Role::Input => true,
        Role::Output | Role::Internal => false,
    }
}

/// Sees that there are as many elements as an object of this kind has; a fault is Length.
#[tactic(auto, using(crate::proofs::Associating::run_long))]
fn as_many(run: Run, kind: ObjectKind, at: usize) -> Result<(), ElabFault>
    ensures { Computes (same_length at (length (run_view run)) (size (kind_view kind))) result }
{
    let found = run.len;
    let needed = kind.size();
    if found != needed {
        return Err(ElabProblem::Length { found, needed }.at(at));
    }
    Ok(())
}

/// Whether a range has each number of another.
fn has_all(range: IntegerRange, other: IntegerRange) -> bool
    ensures { result ≡ covers (range_span (range_view range)) (range_span (range_view other)) }
{
    range.has(other.lower()) && range.has(other.upper())
}

/// Whether the numbers of a range are kept with a sign.
fn has_sign(range: IntegerRange) -> bool
    ensures { result ≡ kinds.has_sign (range_view range) }
{
    range.lower() < 0
}

/// Whether integers may flow from a range into another: that has them, and is kept in the same way.
fn flows_into(from: IntegerRange, to: IntegerRange) -> bool
    ensures { result ≡ definition.flows_into (range_view from) (range_view to) }
{
    if !has_all(to, from) {
        return false;
    }
    if has_sign(from) {
        has_sign(to)
    } else {
        !has_sign(to)
    }
}

/// Whether a port of this kind may have an actual of this kind: of integers, the range that they
/// flow from lies in the one that they flow to.
fn may_flow(role: Role, actual: Option<ObjectKind>, formal: ObjectKind) -> bool
    ensures { result ≡
        definition.may_flow (role_view role) (option_map kind_view actual) (kind_view formal) }
{
    let Some(ObjectKind::Integer(actual)) = actual else {
        return true;
    };
    let ObjectKind::Integer(formal) = formal else {
        return true;
    };
    match role {
        Role::Input => flows_into(actual, formal),
        Role::Output => flows_into(formal, actual),
        Role::Internal => true,
    }
}

/// Gives a port of a declaration the elements of its actual, if it has one; a fault is StaticError,
/// Index, Length, GenericRange or Unassociated, the last at this byte.
#[tactic(auto, unfolding(vhdl_expand_rules::specs::Declarations::association), using(crate::proofs::Associating::run_long))]
fn associate(
    alloc: Global,
    above: &Site,
    declaration: &Ports,
    actual: Option<&SignalPart>,
    port: &mut Object,
    at: usize,
) -> Result<(), ElabFault>
    requires { IsSite above.now }
    ensures { Expands (λ _. object_view port.new)
        (definition.association (site_view above.now) at (any_port declaration.now)
        (option_map (λ place. place_view place.now) actual.entry) (object_view port.old)) result }
{
    let Some(place) = actual else {
        if is_input(port.role) && declaration.objects.default.is_none() {
            return Err(ElabProblem::Unassociated.at(at));
        }
        return Ok(());
    };
    let run = above.signal_elements(place.signal, &place.part, place.at)?;
    as_many(run, port.kind, place.at)?;
    if !may_flow(port.role, above.signal_kind(place.signal), port.kind) {
        return Err(ElabProblem::GenericRange.at(place.at));
    }
    port.actual = Some(elements(alloc, run)?);
    Ok(())
}

/// Associates the ports of one declaration, where so many are associated before; how many are then.
/// It ends where there are no further ones.
fn associate_all(
    alloc: Global,
    above: &Site,
    declaration: &Ports,
    actuals: &[Option<&SignalPart>],
    before: usize,
    ports: &mut Vec<Object>,
    at: usize,
) -> Result<usize, ElabFault>
    requires placed { IsSite above.now }
    requires there { before ≤ length ports.old.items }
    ensures given { Expands (λ count. associated_to count ports.new.items)
        (stepwise (next_associated (site_view above.now) at (places_view actuals.now))
        (associated_to before ports.old.items) (ports_view declaration.now)) result }
    ensures within { IfOk result (λ count. count ≤ length ports.new.items) }
{
    let mut count = before;
    let names = declaration.objects.names.as_slice();
    for _name in names {
        if count >= ports.len() {
            return Ok(count);
        }
        let actual = actual_of(actuals, count);
        associate(alloc, above, declaration, actual, &mut ports[count], at)?;
        count += 1;
    }
    Ok(count)
}

/// Associates ports, in order, with elements of the instance above; a fault is StaticError, Index,
/// Length, or Unassociated at this byte.
fn associate_ports(
    alloc: Global,
    above: &Site,
    declarations: &[Ports],
    actuals: &[Option<&SignalPart>],
    ports: &mut Vec<Object>,
    at: usize,
) -> Result<(), ElabFault>
    requires { IsSite above.now }
    ensures { Expands (λ _. map object_view ports.new.items)
        (definition.associations (site_view above.now) at (flat_map ports_view declarations.now)
        (places_view actuals.now) (map object_view ports.old.items)) result }
{
    let mut count = 0;
    for declaration in declarations {
        count = associate_all(alloc, above, declaration, actuals, count, ports, at)?;
    }
    ports.truncate(count);
    Ok(())
}

/// Associates the ports of an instance of an entity, behind which nothing is declared yet, with
/// elements of the instance above. It takes the memory of these, and for a while that of a list of
/// the actuals. A fault is StaticError, Index, Length, GenericRange, or Unassociated at this byte,
/// and then no one says how far it came.
pub fn associations(
    alloc: Global,
    above: &Site,
    unit: &Entity,
    actuals: &Actuals<SignalPart>,
    declared: &mut InstanceObjects,
    at: usize,
) -> Result<(), ElabFault>
    requires { IsSite above.now }
    ensures { Expands (λ _. declared_view declared.new)
        (associated (site_view above.now) at (all_ports_view unit.now.ports)
        (map (option_map place_view) (each_actual actuals.now)) (declared_view declared.old)) result }
{
    let actuals = actuals.listed(alloc)?;
    associate_ports(
        alloc,
        above,
        &unit.ports,
        &actuals,
        &mut declared.objects,
        at,
    )
}
