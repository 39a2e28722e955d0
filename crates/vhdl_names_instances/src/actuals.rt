//! The actuals of ports (IEEE 1076-2008, 6.5.7.3).

ghost use Rattle.std.specs.Prelude.{◌≡◌, true, IfErr, map, option_map, slice_get};
ghost use Rattle.vhdl_names_instances.specs.Views.{actual_view, places_view};
ghost use Rattle.vhdl_names_instances.specs.steps.Actuals as steps;
ghost use Rattle.vhdl_names_rules.specs.problems.Broken.{Tells, ◌▸◌, refused};
ghost use Rattle.vhdl_names_rules.specs.problems.Expressions.{no_attribute};
ghost use Rattle.vhdl_names_rules.specs.problems.Instances as broken;
ghost use Rattle.vhdl_names_rules.specs.problems.Statements.{named};
ghost use Rattle.vhdl_names_rules.specs.Gives.{Gives};
ghost use Rattle.vhdl_names_rules.specs.Instances as rules;
ghost use Rattle.vhdl_names_rules.specs.Statements.{signal as signal_of};
ghost use Rattle.vhdl_names_rules.specs.declared.fault.NameProblem.TheVariants.{LeftOut};
ghost use Rattle.vhdl_names_rules.specs.declared.kind.ObjectType.TheVariants.{Elements};
ghost use Rattle.vhdl_names_rules.specs.Visibility as visibility;
ghost use Rattle.vhdl_names_trees.specs.views.Vectors.{place_view};
ghost use Rattle.vhdl_tree.specs.View.{view, name_view, attribute_view, suffix_view};
ghost use Rattle.vhdl_names_sight.specs.Views.{meaning_view};
ghost use Rattle.vhdl_names_units.specs.views.Answers.{signal_name_view};

use vhdl_names_asked::signal;
use vhdl_names_expressions::{name_of, start, typed_suffix};
use vhdl_names_parts::attribute_start;
use vhdl_names_rules::{ElementKind, NameFault, NameProblem, ObjectType};
use vhdl_names_sight::{Meaning, Sight};
use vhdl_names_trees::SignalPart;
use vhdl_names_units::{Actuals, SignalName};
use vhdl_tree::{Expr, Mode, Name, Suffix};

/// A port as it is associated: its mode and type.
#[derive(Clone, Copy)]
pub struct PortType {
    pub mode: Mode,
    pub object_type: ObjectType,
}

/// Whether an actual has the kind of its formal.
fn is_kind(kind: ElementKind, actual: ObjectType) -> bool
    ensures { result ≡ rules.is_type (Elements kind) actual }
{
    match (kind, actual) {
        (ElementKind::Element, ObjectType::Elements(ElementKind::Element)) => true,
        (ElementKind::LogicVector, ObjectType::Elements(ElementKind::LogicVector)) => true,
        (ElementKind::Unsigned, ObjectType::Elements(ElementKind::Unsigned)) => true,
        _ => false,
    }
}

/// Whether an actual has the type of its formal.
fn is_type(formal: ObjectType, actual: ObjectType) -> bool
    ensures { result ≡ rules.is_type formal actual }
{
    match formal {
        ObjectType::Elements(kind) => is_kind(kind, actual),
        ObjectType::Enumeration { .. } => false,
        ObjectType::Integers => matches!(actual, ObjectType::Integers),
        ObjectType::Booleans => matches!(actual, ObjectType::Booleans),
    }
}

/// Whether a port may be joined to a signal: an out port to no in port.
fn may_join(mode: Mode, actual: Option<Mode>) -> bool
    ensures { result ≡ rules.may_join mode actual }
{
    match (mode, actual) {
        (Mode::Out, Some(Mode::In)) => false,
        _ => true,
    }
}

/// Whether a name of this meaning is a value, with what follows it.
fn is_value(meaning: &Meaning, suffix: &Suffix) -> bool
    ensures { result ≡ broken.is_value (meaning_view meaning.now) (suffix_view suffix.now) }
{
    match meaning {
        Meaning::Generic(_) | Meaning::IntegerConstant(_) => true,
        Meaning::BooleanGeneric(_) | Meaning::BooleanConstant(_) => true,
        Meaning::BooleanLiteral(_) => true,
        Meaning::GenerateParameter(_) | Meaning::LoopParameter(_) => true,
        Meaning::Constant(..) | Meaning::Literal { .. } | Meaning::Function(_) => true,
        Meaning::VectorType(..) => matches!(suffix, Suffix::Arguments(_)),
        _ => false,
    }
}

/// Whether a name is a value.
fn names_value(sight: &Sight, name: &Name) -> bool
    ensures { result ≡ broken.names_value (visibility.meaning sight.now name.now.identifier.text.items)
        (suffix_view name.now.suffix) }
{
    match sight.meaning(&name.identifier.text) {
        None => false,
        Some(meaning) => is_value(meaning, &name.suffix),
    }
}

/// The byte at which a value is left out: an attribute is left out at itself.
fn left_out_place(name: &Name) -> usize
    ensures { (no_attribute (option_map attribute_view name.now.attribute) ▸ refused LeftOut name.now.identifier.at) ≡
        refused LeftOut result }
{
    match &name.attribute {
        None => name.identifier.at,
        Some(attribute) => attribute_start(attribute),
    }
}

/// No signal, where a name is a value: it is an expression, which is left out.
fn signal_of_value(sight: &Sight, name: &Name) -> Result<SignalName, NameFault>
    ensures given { broken.names_value (visibility.meaning sight.now name.now.identifier.text.items)
        (suffix_view name.now.suffix) ≡ true
        → Gives signal_name_view (signal_of sight.now (name_view name.now)) result }
    ensures told { broken.names_value (visibility.meaning sight.now name.now.identifier.text.items)
        (suffix_view name.now.suffix) ≡ true
        → IfErr result (Tells (named sight.now (name_view name.now) ▸ refused LeftOut name.now.identifier.at)) }
{
    typed_suffix(sight, &name.suffix)?;
    Err(NameProblem::LeftOut.at(left_out_place(name)))
}

/// The signal that an actual is.
fn actual_signal(sight: &Sight, name: &Name) -> Result<SignalName, NameFault>
    ensures given { Gives signal_name_view (signal_of sight.now (name_view name.now)) result }
    ensures told { IfErr result (Tells (broken.actual_signal sight.now (name_view name.now))) }
{
    if names_value(sight, name) {
        signal_of_value(sight, name)
    } else {
        signal(sight, name)
    }
}

/// The actual of a port: the name of a signal or port, or of a part of one.
#[tactic(auto, unfolding(vhdl_names_rules::specs::Instances::port_actual))]
pub(crate) fn port_actual(sight: &Sight, port: PortType, e: &Expr) -> Result<SignalPart, NameFault>
    ensures given { Gives place_view (rules.port_actual sight.now (steps.formal port) (view e.now)) result }
    ensures told { IfErr result (Tells (broken.port_actual sight.now (steps.formal port) (view e.now))) }
{
    match name_of(e) {
        None => Err(NameProblem::LeftOut.at(start(e))),
        Some(name) => {
            let actual = actual_signal(sight, name)?;
            if !is_type(port.object_type, actual.object_type) {
                return Err(NameProblem::TypeMismatch.at(name.identifier.at));
            }
            if !may_join(port.mode, actual.mode) {
                return Err(NameProblem::WriteOfIn.at(name.identifier.at));
            }
            Ok(actual.place)
        }
    }
}

/// The actual of a port, if one is associated.
fn port_entry(
    sight: &Sight,
    port: PortType,
    actual: &Option<&Expr>,
) -> Result<Option<SignalPart>, NameFault>
    ensures { Gives (option_map place_view) (steps.port_entry sight.now port (actual_view actual.now)) result }
{
    match actual {
        None => Ok(None),
        Some(e) => Ok(Some(port_actual(sight, port, e)?)),
    }
}

/// The actual at a place, if there are so many.
#[tactic(auto, using(crate::proofs::Actual::entry_at))]
pub(crate) fn entry_at<'a>(actuals: &[Option<&'a Expr>], index: usize) -> Option<Option<&'a Expr>>
    ensures { option_map actual_view result ≡ slice_get (map actual_view actuals.now) index }
{
    match actuals.get(index) {
        None => None,
        Some(actual) => Some(*actual),
    }
}

/// The type of the port at a place, if there are so many.
pub(crate) fn port_at(ports: &[PortType], index: usize) -> Option<PortType>
    ensures { result ≡ slice_get ports.now index }
{
    match ports.get(index) {
        None => None,
        Some(port) => Some(*port),
    }
}

/// The actual of the port at a place, where there are both.
fn entry(
    sight: &Sight,
    ports: &[PortType],
    actuals: &[Option<&Expr>],
    index: usize,
) -> Result<Option<Option<SignalPart>>, NameFault>
    ensures { Gives (option_map (option_map place_view))
        (steps.entry sight.now ports.now (map actual_view actuals.now) index) result }
{
    match port_at(ports, index) {
        None => Ok(None),
        Some(port) => match entry_at(actuals, index) {
            None => Ok(None),
            Some(actual) => Ok(Some(port_entry(sight, port, &actual)?)),
        },
    }
}

/// The actuals of ports, in the order of the ports.
pub(crate) fn port_actuals(
    sight: &Sight,
    ports: &[PortType],
    actuals: &[Option<&Expr>],
) -> Result<Actuals<SignalPart>, NameFault>
    ensures { Gives places_view (steps.port_actuals sight.now ports.now (map actual_view actuals.now)) result }
{
    let mut all = Actuals::none(sight.alloc);
    for index in 0..ports.len() {
        match entry(sight, ports, actuals, index)? {
            None => return Ok(all),
            Some(actual) => all.push(actual)?,
        }
    }
    Ok(all)
}
