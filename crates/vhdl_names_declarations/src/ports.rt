//! Ports of an interface (IEEE 1076-2008, 6.5.6.2).

ghost use Rattle.std.specs.Prelude.{◌≡◌, map, OnOk, IfErr};
ghost use Rattle.vhdl_names_declarations.specs.Counts.{AreCounts};
ghost use Rattle.vhdl_names_declarations.specs.Entered.{entering};
ghost use Rattle.vhdl_names_declarations.specs.Porting as typed;
ghost use Rattle.vhdl_names_rules.specs.Declarations as rules;
ghost use Rattle.vhdl_names_rules.specs.Gives.{Gives};
ghost use Rattle.vhdl_names_rules.specs.Visibility.{count_of, is_port, with_declared};
ghost use Rattle.vhdl_tree.specs.View as tree;
ghost use Rattle.vhdl_names_units.specs.views.Declarations.{ports_view, all_ports_view};
ghost use Rattle.vhdl_lexer.specs.declared.language.Language.TheVariants.{Profile, Wide};
ghost use Rattle.vhdl_names_rules.specs.problems.Broken.{Tells, refused};
ghost use Rattle.vhdl_names_rules.specs.problems.Declarations as broken;
ghost use Rattle.vhdl_names_rules.specs.problems.Interfaces as interfaces_broken;
ghost use Rattle.vhdl_names_rules.specs.declared.fault.NameProblem.TheVariants.{LeftOut};

use crate::class::ObjectClass;
use crate::counts::Counts;
use crate::generics::is_global;
use crate::objects::{fixed_if_any, objects};
use crate::region::{Settled, hide, settle, settle_between};
use vhdl_lexer::Language;
use vhdl_names_rules::{ElementKind, NameFault, NameProblem, ObjectType};
use vhdl_names_sight::{Sight, names_are_apart};
use vhdl_names_units::{Fixed, Ports, Subtype};
use vhdl_names_values::object_subtype;
use vhdl_tree::{Mode, Port};

/// A type of the nine values, whose mark is at byte `at`; other constants are left out.
pub fn kind_of(object_type: ObjectType, at: usize) -> Result<ElementKind, NameFault>
    ensures given { Gives (λ k. k) (rules.as_kind object_type) result }
    ensures told { IfErr result (Tells (refused LeftOut at)) }
{
    match object_type {
        ObjectType::Elements(kind) => Ok(kind),
        ObjectType::Enumeration { .. } | ObjectType::Integers | ObjectType::Booleans => {
            Err(NameProblem::LeftOut.at(at))
        }
    }
}

/// A type of ports, whose mark is at byte `at`; those of an enumeration are left out.
fn port_type_of(object_type: ObjectType, at: usize) -> Result<ObjectType, NameFault>
    ensures given { Gives (λ t. t) (rules.as_port_type object_type) result }
    ensures told { IfErr result (Tells (refused LeftOut at)) }
{
    match object_type {
        ObjectType::Enumeration { .. } => Err(NameProblem::LeftOut.at(at)),
        ObjectType::Elements(_) | ObjectType::Integers | ObjectType::Booleans => Ok(object_type),
    }
}

/// What ports of one declaration are, beside their names.
#[derive(Drop)]
struct TypedPort {
    settled: Settled,
    subtype: Subtype,
    default: Option<Fixed>,
}

/// The type and default of ports of one declaration; a port with no mode is an input.
fn port_type(sight: &Sight, port: &Port) -> Result<TypedPort, NameFault>
    ensures given { Gives typed.port_view (typed.port sight.now (tree.port_view port.now)) result }
    ensures told { IfErr result (Tells (broken.typed_port sight.now (tree.port_view port.now))) }
{
    let subtype = object_subtype(sight, &port.subtype)?;
    let object_type = port_type_of(subtype.object_type, port.subtype.mark.at)?;
    let range = subtype.form.range();
    let default = fixed_if_any(sight, subtype.object_type, range, &port.default)?;
    let settled = Settled {
        class: ObjectClass::Port(port.mode.unwrap_or(Mode::In), object_type),
        direction: subtype.form.direction(),
        is_global: is_global(sight, &port.subtype),
    };
    Ok(TypedPort {
        settled,
        subtype,
        default,
    })
}

/// Ports of one declaration, where those before them in their list are in sight as it is read.
/// Their names are declared behind their type and default, which they do not hide, and mean nothing
/// yet.
fn hidden_port(sight: &mut Sight, port: &Port) -> Result<(Settled, Ports), NameFault>
    ensures given { Gives (λ x. (sight.new, typed.hidden_view x))
        (typed.hidden_port sight.old (tree.port_view port.now)) result }
    ensures kept { OnOk result (sight.new ≡ record sight.old { region = sight.new.region }) }
    ensures told { IfErr result (Tells (typed.hidden_breaks sight.old (tree.port_view port.now))) }
{
    let typed = port_type(sight, port);
    hide(sight.alloc, &mut sight.region, &port.names)?;
    let TypedPort {
        settled,
        subtype,
        default,
    } = typed?;
    let mode = port.mode.unwrap_or(Mode::In);
    let objects = objects(sight.alloc, &port.names, subtype, default)?;
    Ok((settled, Ports { mode, objects }))
}

/// Ports of one declaration of the narrow language, numbered from here on.
fn narrow_port(sight: &mut Sight, counts: Counts, port: &Port) -> Result<Ports, NameFault>
    requires narrow { sight.old.language ≡ Profile }
    requires counts { AreCounts counts sight.old.region }
    ensures given { Gives (λ p. (sight.new, ports_view p))
        (entering rules.port sight.old (tree.port_view port.now)) result }
    ensures kept { OnOk result (sight.new ≡ record sight.old { region = sight.new.region }) }
    ensures told { IfErr result (Tells (broken.port sight.old (tree.port_view port.now))) }
{
    let first = sight.region.len();
    let (settled, ports) = hidden_port(sight, port)?;
    settle(sight.alloc, &mut sight.region, first, counts, &settled)?;
    Ok(ports)
}

/// Ports of an interface of the narrow language: each has those before it in sight.
fn narrow_ports(sight: &mut Sight, all: &[Port]) -> Result<Vec<Ports>, NameFault>
    requires { sight.old.language ≡ Profile }
    ensures given { Gives (λ v. (sight.new, all_ports_view v))
        (entering (rules.in_order with_declared rules.port) sight.old (map tree.port_view all.now)) result }
    ensures kept { OnOk result (sight.new ≡ record sight.old { region = sight.new.region }) }
    ensures told { IfErr result (Tells (interfaces_broken.ports sight.old (map tree.port_view all.now))) }
{
    let mut done = Vec::new(sight.alloc);
    names_are_apart(&sight.region);
    let mut counts = Counts::NONE.of(&sight.region, 0);
    for one in all {
        let first = sight.region.len();
        let next = narrow_port(sight, counts, one)?;
        done.push(next)?;
        counts = counts.of(&sight.region, first);
    }
    Ok(done)
}

/// Ports of an interface of the wider language: their names mean nothing in their list (6.5.6.1).
fn wide_ports(sight: &mut Sight, all: &[Port]) -> Result<Vec<Ports>, NameFault>
    requires wide { sight.old.language ≡ Wide }
    requires none { count_of is_port sight.old.region ≡ 0 }
    ensures given { Gives (λ v. (sight.new, all_ports_view v))
        (entering (rules.in_order with_declared rules.port) sight.old (map tree.port_view all.now)) result }
    ensures kept { OnOk result (sight.new ≡ record sight.old { region = sight.new.region }) }
    ensures told { IfErr result (Tells (interfaces_broken.ports sight.old (map tree.port_view all.now))) }
{
    let mut done = Vec::new(sight.alloc);
    let mut hidden = Vec::new(sight.alloc);
    let mut first = sight.region.len();
    names_are_apart(&sight.region);
    let mut counts = Counts::NONE.of(&sight.region, 0);
    for one in all {
        let (settled, next) = hidden_port(sight, one)?;
        hidden.push((settled, sight.region.len()))?;
        done.push(next)?;
    }
    for (settled, last) in &hidden {
        settle_between(
            sight.alloc,
            &mut sight.region,
            first,
            *last,
            counts,
            settled,
        )?;
        counts = counts.between(&sight.region, first, *last);
        first = *last;
    }
    Ok(done)
}

/// Ports of an interface. It takes memory for what is declared and analysed.
pub fn ports(sight: &mut Sight, all: &[Port]) -> Result<Vec<Ports>, NameFault>
    requires { count_of is_port sight.old.region ≡ 0 }
    ensures given { Gives (λ v. (sight.new, all_ports_view v))
        (entering (rules.in_order with_declared rules.port) sight.old (map tree.port_view all.now)) result }
    ensures kept { OnOk result (sight.new ≡ record sight.old { region = sight.new.region }) }
    ensures told { IfErr result (Tells (interfaces_broken.ports sight.old (map tree.port_view all.now))) }
{
    match sight.language {
        Language::Profile => narrow_ports(sight, all),
        Language::Wide => wide_ports(sight, all),
    }
}
