//! Labels and end names (IEEE 1076-2008, 10.1, 11.1).

ghost use Rattle.std.specs.Prelude.{◌≡◌, IfErr, IfOk, bytes_eq, option_map};
ghost use Rattle.vhdl_names_rules.specs.problems.Broken.{Tells};
ghost use Rattle.vhdl_names_rules.specs.problems.Declarations.{end_name};
ghost use Rattle.vhdl_names_rules.specs.problems.Statements.{end_label};
ghost use Rattle.vhdl_names_rules.specs.declared.fault.NameProblem.TheVariants.{WrongKind};
ghost use Rattle.vhdl_names_rules.specs.Rules.{rule};
ghost use Rattle.vhdl_names_rules.specs.Visibility as visibility;
ghost use Rattle.vhdl_names_rules.specs.Gives.{Gives};
ghost use Rattle.vhdl_tree.specs.View as tree;

use std::alloc::{AllocError, Global};
use vhdl_names_rules::{NameFault, NameProblem};
use vhdl_tree::Identifier;

/// Whether two texts are the same.
pub fn is_text(text: &[u8], other: &[u8]) -> bool
    ensures { result ≡ bytes_eq text.now other.now }
{
    text == other
}

/// An end name, if there is one, repeats the name at the beginning.
pub fn ends(name: &Identifier, end: &Option<Identifier>) -> Result<(), NameFault>
    ensures given { Gives (λ _. tt)
        (rule WrongKind (visibility.ends name.now.text.items (option_map tree.ident_view end.now))) result }
    ensures told { IfErr result (Tells (end_name (tree.ident_view name.now) (option_map tree.ident_view end.now))) }
{
    match end {
        None => Ok(()),
        Some(end) => {
            if is_text(&name.text, &end.text) {
                Ok(())
            } else {
                Err(NameProblem::WrongKind.at(end.at))
            }
        }
    }
}

/// An end label repeats the label; where no label stands, none stands at the end.
pub fn label_ends(label: &Option<Identifier>, end: &Option<Identifier>) -> Result<(), NameFault>
    ensures given { Gives (λ _. tt)
        (rule WrongKind (visibility.label_ends (option_map tree.ident_view label.now)
        (option_map tree.ident_view end.now))) result }
    ensures told { IfErr result (Tells
        (end_label (option_map tree.ident_view label.now) (option_map tree.ident_view end.now))) }
{
    match (label, end) {
        (Some(label), _) => ends(label, end),
        (None, None) => Ok(()),
        (None, Some(end)) => Err(NameProblem::WrongKind.at(end.at)),
    }
}

/// What was analysed, whose end label repeats its label. Where it is refused, what was analysed is
/// let go here.
pub fn ended<T: Drop>(
    label: &Option<Identifier>,
    end: &Option<Identifier>,
    found: T,
) -> Result<T, NameFault>
    ensures same { IfOk result (λ x. x ≡ found) }
    ensures asked { Gives (λ _. tt)
        (rule WrongKind (visibility.label_ends (option_map tree.ident_view label.now)
        (option_map tree.ident_view end.now))) result }
    ensures told { IfErr result (Tells
        (end_label (option_map tree.ident_view label.now) (option_map tree.ident_view end.now))) }
{
    label_ends(label, end)?;
    Ok(found)
}

/// A copy of an identifier.
pub fn copied(alloc: Global, name: &Identifier) -> Result<Identifier, AllocError>
    ensures { IfOk result (λ n. tree.ident_view n ≡ tree.ident_view name.now) }
{
    Ok(Identifier {
        at: name.at,
        text: name.text.to_vec(alloc)?,
    })
}

/// A copy of a label, if there is one.
pub fn copied_label(
    alloc: Global,
    label: &Option<Identifier>,
) -> Result<Option<Identifier>, AllocError>
    ensures { IfOk result (λ n. option_map tree.ident_view n ≡ option_map tree.ident_view label.now) }
{
    match label {
        None => Ok(None),
        Some(label) => Ok(Some(copied(alloc, label)?)),
    }
}
