//! Names of signals, targets and variables (IEEE 1076-2008, 8.1, 10.5, 10.6). Each takes memory for
//! what is analysed.

ghost use Rattle.std.specs.Prelude.{◌≡◌, IfErr};
ghost use Rattle.vhdl_names_rules.specs.problems.Broken.{Tells, refused};
ghost use Rattle.vhdl_names_rules.specs.problems.Statements as broken;
ghost use Rattle.vhdl_names_rules.specs.Gives.{Gives};
ghost use Rattle.vhdl_names_rules.specs.Statements as rules;
ghost use Rattle.vhdl_tree.specs.View.{name_view};
ghost use Rattle.vhdl_names_rules.specs.Visibility as visibility;
ghost use Rattle.vhdl_names_sight.specs.Views.{meaning_view, entry_of};
ghost use Rattle.vhdl_names_trees.specs.views.Expressions.{typed_suffix_view};
ghost use Rattle.vhdl_names_asked.specs.Asked.{unattributed as unattributed_name};
ghost use Rattle.vhdl_names_asked.specs.Asked.{driven_target};
ghost use Rattle.vhdl_names_units.specs.views.Answers.{signal_name_view};
ghost use Rattle.vhdl_names_units.specs.views.Targets.{target_view};

use vhdl_names_expressions::typed_suffix;
use vhdl_names_parts::{any_part_of, attribute_start, part_of};
use vhdl_names_rules::{NameFault, NameProblem, ObjectType, without};
use vhdl_names_sight::{Entry, Meaning, Sight, declaration_of};
use vhdl_names_trees::{Signal, SignalPart, TypedSuffix};
use vhdl_names_units::{Object, SignalName, Target};
use vhdl_tree::{Mode, Name};

/// What a name is declared to be, and what stands behind it; no attribute is offered.
pub fn unattributed<'a>(
    sight: &'a Sight,
    name: &Name,
) -> Result<(&'a Entry, TypedSuffix), NameFault>
    ensures given { Gives (λ e. (entry_of name.now.identifier.text.items e.0.now, typed_suffix_view e.1))
        (unattributed_name sight.now (name_view name.now)) result }
    ensures told { IfErr result (Tells (broken.named sight.now (name_view name.now))) }
{
    let entry = declaration_of(sight, &name.identifier)?;
    let suffix = typed_suffix(sight, &name.suffix)?;
    match &name.attribute {
        Some(attribute) => Err(NameProblem::LeftOut.at(attribute_start(attribute))),
        None => Ok((entry, suffix)),
    }
}

/// The signal or port that a name at byte `at` is, or the part of one.
fn as_signal(entry: &Entry, suffix: TypedSuffix, at: usize) -> Result<SignalName, NameFault>
    ensures given { (n : visibility.Name) → Gives signal_name_view
        (rules.as_signal at (entry_of n entry.now) (typed_suffix_view suffix)) result }
    ensures told { IfErr result (Tells (refused (broken.signal_problem (meaning_view entry.now.meaning)) at)) }
{
    let (signal, mode, object_type) = match &entry.meaning {
        Meaning::Port(k, mode, object_type) => (Signal::Port(*k), Some(*mode), *object_type),
        Meaning::Signal(k, object_type) => (Signal::Signal(*k), None, *object_type),
        Meaning::Unfinished => return Err(NameProblem::Undeclared.at(at)),
        _ => return Err(NameProblem::WrongKind.at(at)),
    };
    let (part, object_type) = part_of(object_type, suffix, at)?;
    Ok(SignalName {
        place: SignalPart { at, signal, part },
        mode,
        object_type,
        declared: entry.range,
    })
}

/// The signal that a name is.
#[tactic(auto, using(crate::proofs::Asking::signal_in_turn))]
pub fn signal(sight: &Sight, name: &Name) -> Result<SignalName, NameFault>
    ensures given { Gives signal_name_view (rules.signal sight.now (name_view name.now)) result }
    ensures told { IfErr result (Tells (broken.signal sight.now (name_view name.now))) }
{
    let (entry, suffix) = unattributed(sight, name)?;
    as_signal(entry, suffix, name.identifier.at)
}

/// The signal or port that a target at byte `at` is, or the part of one.
fn as_signal_target(entry: &Entry, suffix: TypedSuffix, at: usize) -> Result<Target, NameFault>
    ensures given { (n : visibility.Name) → Gives target_view
        (rules.as_signal_target at (entry_of n entry.now) (typed_suffix_view suffix)) result }
    ensures told { IfErr result (Tells (refused (broken.signal_problem (meaning_view entry.now.meaning)) at)) }
{
    let (signal, object_type) = match &entry.meaning {
        Meaning::Port(k, _, object_type) => (Signal::Port(*k), *object_type),
        Meaning::Signal(k, object_type) => (Signal::Signal(*k), *object_type),
        Meaning::Unfinished => return Err(NameProblem::Undeclared.at(at)),
        _ => return Err(NameProblem::WrongKind.at(at)),
    };
    let (part, object_type) = any_part_of(object_type, suffix, at)?;
    Ok(Target {
        at,
        object: Object::Signal(signal),
        part,
        object_type,
        declared: entry.range,
    })
}

/// Whether it is an in port.
fn is_in_port(meaning: &Meaning) -> bool
    ensures { result ≡ rules.is_input (rules.mode_of (meaning_view meaning.now)) }
{
    match meaning {
        Meaning::Port(_, mode, _) => match mode {
            Mode::In => true,
            Mode::Out => false,
        },
        _ => false,
    }
}

/// The same; no in port.
fn signal_target(entry: &Entry, suffix: TypedSuffix, at: usize) -> Result<Target, NameFault>
    ensures given { (n : visibility.Name) → Gives target_view
        (driven_target at (entry_of n entry.now) (typed_suffix_view suffix)) result }
    ensures told { (n : visibility.Name) → IfErr result (Tells
        (broken.target_by_declaration at (entry_of n entry.now) (typed_suffix_view suffix))) }
{
    let target = as_signal_target(entry, suffix, at)?;
    if is_in_port(&entry.meaning) {
        return Err(without(target, NameProblem::WriteOfIn.at(at)));
    }
    Ok(target)
}

/// The variable that a target at byte `at` is, or the part of one.
fn variable_target(entry: &Entry, suffix: TypedSuffix, at: usize) -> Result<Target, NameFault>
    ensures given { (n : visibility.Name) → Gives target_view
        (rules.as_variable_target at (entry_of n entry.now) (typed_suffix_view suffix)) result }
    ensures told { IfErr result (Tells (refused (broken.variable_problem (meaning_view entry.now.meaning)) at)) }
{
    match &entry.meaning {
        Meaning::Variable(number, object_type) => {
            let (part, object_type) = any_part_of(*object_type, suffix, at)?;
            Ok(Target {
                at,
                object: Object::Variable(*number),
                part,
                object_type,
                declared: entry.range,
            })
        }
        Meaning::Unfinished => Err(NameProblem::Undeclared.at(at)),
        _ => Err(NameProblem::WrongKind.at(at)),
    }
}

/// The target of an assignment (10.5, 10.6): a signal that is no in port, or a variable.
#[tactic(auto, using(crate::proofs::Asking::target_in_turn))]
pub fn target(sight: &Sight, is_variable: bool, name: &Name) -> Result<Target, NameFault>
    ensures given { Gives target_view (rules.target_by sight.now is_variable (name_view name.now)) result }
    ensures told { IfErr result (Tells (broken.target_by sight.now is_variable (name_view name.now))) }
{
    let (entry, suffix) = unattributed(sight, name)?;
    if is_variable {
        variable_target(entry, suffix, name.identifier.at)
    } else {
        signal_target(entry, suffix, name.identifier.at)
    }
}
