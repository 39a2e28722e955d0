//! Literals as they stand, which constants, defaults and choices ask for (IEEE 1076-2008, 9.3.2).

ghost use Rattle.std.specs.Prelude.{◌≡◌, None, IfErr};
ghost use Rattle.vhdl_names_rules.specs.problems.Broken.{Tells, refused};
ghost use Rattle.vhdl_names_rules.specs.problems.Subtypes as broken;
ghost use Rattle.vhdl_names_rules.specs.declared.kind.ObjectType.{ObjectType};
ghost use Rattle.vhdl_names_rules.specs.declared.kind.ObjectType.TheVariants.{Elements};
ghost use Rattle.vhdl_names_rules.specs.Declarations.{as_kind};
ghost use Rattle.vhdl_names_rules.specs.declared.fault.NameProblem.TheVariants.{TypeMismatch};
ghost use Rattle.vhdl_names_rules.specs.Gives.{Gives};
ghost use Rattle.vhdl_names_rules.specs.Subtypes as subtypes;
ghost use Rattle.vhdl_tree.specs.View.{view};
ghost use Rattle.vhdl_names_expressions.specs.Chosen.{character_values as character_values_of};

use std::alloc::Global;
use vhdl_names_expressions::start;
use vhdl_names_operators::{bit_string_values, string_values};
use vhdl_names_rules::{ElementKind, NameFault, NameProblem, nine_of};
use vhdl_tree::Expr;
use vhdl_values::Nine;

/// The values of a character literal at byte `at`, which is one element.
fn character_values(
    alloc: Global,
    kind: ElementKind,
    code: u8,
    at: usize,
) -> Result<Vec<Nine>, NameFault>
    ensures given { Gives (λ v. v.items) (character_values_of kind code) result }
    ensures told { IfErr result (Tells (refused TypeMismatch at)) }
{
    match (kind, nine_of(code)) {
        (ElementKind::Element, Some(value)) => {
            let mut values = Vec::new(alloc);
            values.push(value)?;
            Ok(values)
        }
        _ => Err(NameProblem::TypeMismatch.at(at)),
    }
}

/// What is told of an expression, which is no name, as a value that is of no elements: a literal is
/// of another type, and any other form is left out.
#[tactic(auto, using(crate::proofs::BreakingValues::chain_literal))]
pub(crate) fn no_literal(e: &Expr) -> NameFault
    ensures { (type : ObjectType) → as_kind type ≡ None → Tells (broken.literal type (view e.now)) result }
{
    match e {
        Expr::Character { at, .. } => NameProblem::TypeMismatch.at(*at),
        Expr::StringLiteral(literal) => NameProblem::TypeMismatch.at(literal.at),
        Expr::BitString(literal) => NameProblem::TypeMismatch.at(literal.at),
        Expr::Integer(literal) => NameProblem::LeftOut.at(literal.at),
        Expr::Name(name) => NameProblem::LeftOut.at(name.identifier.at),
        Expr::Parens { at, .. } => NameProblem::LeftOut.at(*at),
        Expr::Not { at, .. } => NameProblem::LeftOut.at(*at),
        Expr::Abs { at, .. } => NameProblem::LeftOut.at(*at),
        Expr::Power(_) => NameProblem::LeftOut.at(start(e)),
        Expr::Signed { at, .. } => NameProblem::LeftOut.at(*at),
        Expr::Chain(_) => NameProblem::LeftOut.at(start(e)),
        Expr::Aggregate { at, .. } => NameProblem::LeftOut.at(*at),
        Expr::Qualified { mark, .. } => NameProblem::LeftOut.at(mark.at),
    }
}

/// The values of a literal as it stands: a character for one element, a string or a bit string for
/// a vector. It takes the memory of a list.
#[tactic(auto, using(vhdl_names_expressions::proofs::Choosing::literal_forms))]
pub(crate) fn literal_values(
    alloc: Global,
    kind: ElementKind,
    e: &Expr,
) -> Result<Vec<Nine>, NameFault>
    ensures given { Gives (λ v. v.items) (subtypes.literal_values kind (view e.now)) result }
    ensures told { IfErr result (Tells (broken.literal (Elements kind) (view e.now))) }
{
    match e {
        Expr::Character { at, code } => character_values(alloc, kind, *code, *at),
        Expr::StringLiteral(literal) => {
            if kind.is_vector() {
                string_values(alloc, literal)
            } else {
                Err(NameProblem::TypeMismatch.at(literal.at))
            }
        }
        Expr::BitString(literal) => {
            if kind.is_vector() {
                bit_string_values(alloc, literal)
            } else {
                Err(NameProblem::TypeMismatch.at(literal.at))
            }
        }
        Expr::Integer(literal) => Err(NameProblem::LeftOut.at(literal.at)),
        Expr::Name(name) => Err(NameProblem::LeftOut.at(name.identifier.at)),
        Expr::Parens { at, .. } => Err(NameProblem::LeftOut.at(*at)),
        Expr::Not { at, .. } => Err(NameProblem::LeftOut.at(*at)),
        Expr::Abs { at, .. } => Err(NameProblem::LeftOut.at(*at)),
        Expr::Power(_) => Err(NameProblem::LeftOut.at(start(e))),
        Expr::Signed { at, .. } => Err(NameProblem::LeftOut.at(*at)),
        Expr::Chain(_) => Err(NameProblem::LeftOut.at(start(e))),
        Expr::Aggregate { at, .. } => Err(NameProblem::LeftOut.at(*at)),
        Expr::Qualified { mark, .. } => Err(NameProblem::LeftOut.at(mark.at)),
    }
}
