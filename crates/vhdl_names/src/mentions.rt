//! Where an architecture names entities that aren't given (IEEE 1076-2008, 6.8 and 11.7).

ghost use Rattle.std.specs.Prelude.{◌≡◌, ◌&&◌, nat_eq, map, flat_map};
ghost use Rattle.vhdl_names.specs.Views as views;
ghost use Rattle.vhdl_names.specs.Views.{one_is_hidden};
ghost use Rattle.vhdl_names_interfaces.specs.Views.{entities_view};
ghost use Rattle.vhdl_names_rules.specs.problems.Files as broken;
ghost use Rattle.vhdl_names_rules.specs.Interfaces.{EntityView};
ghost use Rattle.vhdl_names_rules.specs.Visibility.{is_among};
ghost use Rattle.vhdl_tree.specs.Tree as t;
ghost use Rattle.vhdl_tree.specs.View as view;

use crate::outline::has_name;
use crate::tables::Given;
use vhdl_names_interfaces::Entities;
use vhdl_names_rules::{NameFault, NameProblem};
use vhdl_tree::{
    Architecture, Concurrent, Declaration, Generate, Identifier, Instance, Instantiated,
};

/// Whether a name is that of an entity that is given.
fn is_given(entities: &Entities<'_>, name: &[u8]) -> bool
    ensures { result ≡ is_among name.now (map (λ (e : EntityView). e.name) (entities_view entities.now)) }
{
    entities.contains_key(name)
}

/// Whether a name is that of an entity that isn't given.
fn is_hidden(given: &Given<'_, '_>, name: &[u8]) -> bool
    ensures { result ≡ views.is_hidden given.now name.now }
{
    has_name(given.names, name) && !is_given(given.entities, name)
}

/// Whether a name stands at byte `at` and is of an entity that isn't given.
fn is_at(given: &Given<'_, '_>, name: &Identifier, at: usize) -> bool
    ensures { result ≡ (nat_eq name.now.at at && views.is_hidden given.now name.now.text.items) }
{
    name.at == at && is_hidden(given, &name.text)
}

/// Whether a declaration is a component of such an entity, named at byte `at`.
fn is_component(given: &Given<'_, '_>, declaration: &Declaration, at: usize) -> bool
    ensures { result ≡ one_is_hidden given.now at (broken.of_declaration (view.declaration_view declaration.now)) }
{
    match declaration {
        Declaration::Component(component) => is_at(given, &component.name, at),
        Declaration::Signals(_) => false,
        Declaration::Constants(_) => false,
        Declaration::Enumeration(_) => false,
        Declaration::Subtype(_) => false,
        Declaration::Attribute(_) => false,
    }
}

/// Whether one of these declarations is.
fn is_declared(given: &Given<'_, '_>, declarations: &[Declaration], at: usize) -> bool
    ensures { result ≡ one_is_hidden given.now at
        (flat_map broken.of_declaration (map view.declaration_view declarations.now)) }
{
    for declaration in declarations {
        if is_component(given, declaration, at) {
            return true;
        }
    }
    false
}

/// Whether an instance names such an entity at byte `at`.
fn is_instantiated(given: &Given<'_, '_>, instance: &Instance, at: usize) -> bool
    ensures { result ≡ one_is_hidden given.now at
        (broken.of_instantiated (view.instance_view instance.now).unit) }
{
    match &instance.unit {
        Instantiated::Entity { name, .. } => is_at(given, name, at),
        Instantiated::Component { .. } => false,
    }
}

/// Whether one of the statements of a generate does.
#[cycle(instances)]
fn is_generated(given: &Given<'_, '_>, generate: &Generate, at: usize) -> bool
    ensures { result ≡ one_is_hidden given.now at
        (broken.of_concurrents (t.concurrents_of (view.concurrents_view generate.now.statements))) }
{
    is_among(given, &generate.statements, at)
}

/// Whether a statement does, however deep.
#[cycle(instances)]
fn is_within(given: &Given<'_, '_>, statement: &Concurrent, at: usize) -> bool
    ensures { result ≡ one_is_hidden given.now at (broken.of_concurrent (view.concurrent_view statement.now)) }
{
    match statement {
        Concurrent::Instance { instance, .. } => is_instantiated(given, instance, at),
        Concurrent::Generate(generate) => is_generated(given, generate, at),
        Concurrent::Assignment(_) => false,
        Concurrent::Selected { .. } => false,
        Concurrent::Process { .. } => false,
        Concurrent::Assert(_) => false,
    }
}

/// Whether one of these statements does.
#[cycle(instances)]
fn is_among(given: &Given<'_, '_>, statements: &[Concurrent], at: usize) -> bool
    ensures { result ≡ one_is_hidden given.now at
        (broken.of_concurrents (t.concurrents_of (map view.concurrent_view statements.now))) }
{
    for statement in statements {
        if is_within(given, statement, at) {
            return true;
        }
    }
    false
}

/// Whether an architecture names an entity that isn't given at byte `at`: by a component, or by an
/// instance.
fn mentions(given: &Given<'_, '_>, architecture: &Architecture, at: usize) -> bool
    ensures { result ≡ one_is_hidden given.now at
        (broken.mentions (view.architecture_view architecture.now)) }
{
    is_declared(given, &architecture.declarations, at)
        || is_among(given, &architecture.statements, at)
}

/// Whether this is the problem of a name that nothing declares.
fn is_undeclared(problem: NameProblem) -> bool
    ensures { result ≡ views.is_undeclared problem }
{
    match problem {
        NameProblem::Undeclared => true,
        NameProblem::Twice
        | NameProblem::WrongKind
        | NameProblem::TypeMismatch
        | NameProblem::NotVisible
        | NameProblem::WriteOfIn
        | NameProblem::NoOthers
        | NameProblem::ChoiceTwice
        | NameProblem::SecondArchitecture
        | NameProblem::NoSensitivity
        | NameProblem::LeftOut => false,
    }
}

/// Whether a fault of an architecture is told where it names an entity that isn't given.
pub fn is_of_hidden(given: &Given<'_, '_>, architecture: &Architecture, fault: NameFault) -> bool
    ensures { result ≡ views.is_of_hidden given.now (view.architecture_view architecture.now) fault }
{
    match fault {
        NameFault::NoMemory => false,
        NameFault::At { problem, at } => {
            is_undeclared(problem) && mentions(given, architecture, at)
        }
    }
}
