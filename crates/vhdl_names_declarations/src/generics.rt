//! Generics of an interface (IEEE 1076-2008, 6.5.2).

ghost use Rattle.std.specs.Prelude.{◌≡◌, map, option_map, OnOk, IfErr};
ghost use Rattle.vhdl_names_declarations.specs.Counts.{AreCounts};
ghost use Rattle.vhdl_names_declarations.specs.Entered.{entering};
ghost use Rattle.vhdl_names_declarations.specs.Typed as typed;
ghost use Rattle.vhdl_names_rules.specs.Declarations as rules;
ghost use Rattle.vhdl_names_rules.specs.Gives.{Gives};
ghost use Rattle.vhdl_names_rules.specs.Rules.{if_any};
ghost use Rattle.vhdl_names_rules.specs.Visibility.{with_declared};
ghost use Rattle.vhdl_names_rules.specs.views.Ranges.{base_view};
ghost use Rattle.vhdl_tree.specs.View.{option_expr_view, generic_view, subtype_view as tree_subtype_view};
ghost use Rattle.vhdl_names_sight.specs.Views.{meaning_view};
ghost use Rattle.vhdl_names_units.specs.views.Answers.{fixed_view};
ghost use Rattle.vhdl_names_units.specs.views.Declarations.{generics_view, all_generics_view};
ghost use Rattle.vhdl_names_rules.specs.problems.Broken.{Tells, refused, of_any};
ghost use Rattle.vhdl_names_rules.specs.problems.Declarations as broken;
ghost use Rattle.vhdl_names_rules.specs.problems.Expressions as expressions_broken;
ghost use Rattle.vhdl_names_rules.specs.problems.Interfaces as interfaces_broken;

use crate::class::ObjectClass;
use crate::counts::Counts;
use crate::names::copied_names;
use crate::ports::kind_of;
use crate::region::{Settled, hide, settle};
use vhdl_lexer::Language;
use vhdl_names_asked::static_condition;
use vhdl_names_expressions::static_integer;
use vhdl_names_parts::subtype_is_local;
use vhdl_names_rules::{IntegerBase, NameFault, NameProblem};
use vhdl_names_sight::{Meaning, Sight, declaration_of, names_are_apart};
use vhdl_names_units::{Fixed, GenericType, Generics};
use vhdl_names_values::{
    TypeClass, class_of, fixed_expression, integer_subtype, integers_of, subtype,
};
use vhdl_tree::{Expr, Generic, Subtype};

/// What generics of one declaration are, beside their names.
#[derive(Drop)]
struct TypedGeneric {
    settled: Settled,
    generic_type: GenericType,
    default: Option<Fixed>,
}

/// Why a type that is none of integers is refused in the narrow language: another type is left out,
/// another name is of WrongKind.
fn generic_problem(meaning: &Meaning) -> NameProblem
    ensures { result ≡ broken.generic_problem (meaning_view meaning.now) }
{
    match meaning {
        Meaning::BooleanType
        | Meaning::ElementType { .. }
        | Meaning::VectorType(..)
        | Meaning::EnumerationType { .. } => NameProblem::LeftOut,
        _ => NameProblem::WrongKind,
    }
}

/// A default that is a static integer, if there is one.
fn integer_if_any(sight: &Sight, value: &Option<Expr>) -> Result<Option<Fixed>, NameFault>
    ensures given { Gives (option_map fixed_view)
        (if_any (typed.integer_value sight.now) (option_expr_view value.now)) result }
    ensures told { IfErr result (Tells (of_any (expressions_broken.static sight.now) (option_expr_view value.now))) }
{
    match value {
        None => Ok(None),
        Some(value) => Ok(Some(Fixed::Integer(static_integer(sight, value)?))),
    }
}

/// A default that is a truth over static integers, if there is one.
fn truth_if_any(sight: &Sight, value: &Option<Expr>) -> Result<Option<Fixed>, NameFault>
    ensures given { Gives (option_map fixed_view)
        (if_any (typed.truth_value sight.now) (option_expr_view value.now)) result }
    ensures told { IfErr result (Tells
        (of_any (expressions_broken.static_condition sight.now) (option_expr_view value.now))) }
{
    match value {
        None => Ok(None),
        Some(value) => Ok(Some(Fixed::Truth(static_condition(sight, value)?))),
    }
}

/// Whether a subtype indication is globally static alone.
pub fn is_global(sight: &Sight, indication: &Subtype) -> bool
    ensures { result ≡ rules.is_global sight.now (tree_subtype_view indication.now) }
{
    !subtype_is_local(sight, indication)
}

/// Generics of integers of this base.
fn integers(sight: &Sight, base: IntegerBase, generic: &Generic) -> Result<TypedGeneric, NameFault>
    ensures given { Gives typed.generic_view
        (typed.integers sight.now (base_view base) (generic_view generic.now)) result }
    ensures told { IfErr result (Tells (typed.integers_break sight.now (generic_view generic.now))) }
{
    let subtype = integer_subtype(sight, base, &generic.subtype)?;
    let default = integer_if_any(sight, &generic.default)?;
    Ok(TypedGeneric {
        settled: Settled {
            class: ObjectClass::Generic,
            direction: None,
            is_global: is_global(sight, &generic.subtype),
        },
        generic_type: GenericType::Integers(subtype),
        default,
    })
}

/// Generics of booleans, whose type takes no range.
fn booleans(sight: &Sight, generic: &Generic) -> Result<TypedGeneric, NameFault>
    ensures given { Gives typed.generic_view (typed.booleans sight.now (generic_view generic.now)) result }
    ensures told { IfErr result (Tells (typed.booleans_break sight.now (generic_view generic.now))) }
{
    if generic.subtype.constraint.is_some() {
        return Err(NameProblem::LeftOut.at(generic.subtype.mark.at));
    }
    let default = truth_if_any(sight, &generic.default)?;
    Ok(TypedGeneric {
        settled: Settled {
            class: ObjectClass::BooleanGeneric,
            direction: None,
            is_global: is_global(sight, &generic.subtype),
        },
        generic_type: GenericType::Truths,
        default,
    })
}

/// Generics of the nine values.
fn others(sight: &Sight, generic: &Generic) -> Result<TypedGeneric, NameFault>
    ensures given { Gives typed.generic_view (typed.others sight.now (generic_view generic.now)) result }
    ensures told { IfErr result (Tells (typed.others_break sight.now (generic_view generic.now))) }
{
    let subtype = subtype(sight, &generic.subtype)?;
    let kind = kind_of(subtype.object_type, generic.subtype.mark.at)?;
    let default = match &generic.default {
        None => None,
        Some(e) => Some(fixed_expression(sight, subtype.object_type, subtype.form.range(), e)?),
    };
    Ok(TypedGeneric {
        settled: Settled {
            class: ObjectClass::Constant(kind, None),
            direction: subtype.form.direction(),
            is_global: is_global(sight, &generic.subtype),
        },
        generic_type: GenericType::Values(subtype.form),
        default,
    })
}

/// What generics of one declaration are: integers; in the wider language also booleans, or of the
/// nine values.
fn typed_generic(sight: &Sight, generic: &Generic) -> Result<TypedGeneric, NameFault>
    ensures given { Gives typed.generic_view (typed.generic sight.now (generic_view generic.now)) result }
    ensures told { IfErr result (Tells (broken.typed_generic sight.now (generic_view generic.now))) }
{
    let mark = declaration_of(sight, &generic.subtype.mark)?;
    if let Some(base) = integers_of(mark) {
        return integers(sight, base, generic);
    }
    match sight.language {
        Language::Profile => {
            let problem = generic_problem(&mark.meaning);
            Err(problem.at(generic.subtype.mark.at))
        }
        Language::Wide => match class_of(&mark.meaning) {
            TypeClass::Booleans => booleans(sight, generic),
            _ => others(sight, generic),
        },
    }
}

/// Generics of one declaration, numbered from here on. Their names are declared behind their type
/// and default, which they do not hide.
fn generic(sight: &mut Sight, counts: Counts, generic: &Generic) -> Result<Generics, NameFault>
    requires { AreCounts counts sight.old.region }
    ensures given { Gives (λ g. (sight.new, generics_view g))
        (entering rules.generic sight.old (generic_view generic.now)) result }
    ensures kept { OnOk result (sight.new ≡ record sight.old { region = sight.new.region }) }
    ensures told { IfErr result (Tells (broken.generic sight.old (generic_view generic.now))) }
{
    let first = sight.region.len();
    let typed = typed_generic(sight, generic);
    hide(sight.alloc, &mut sight.region, &generic.names)?;
    let TypedGeneric {
        settled,
        generic_type,
        default,
    } = typed?;
    settle(sight.alloc, &mut sight.region, first, counts, &settled)?;
    let names = copied_names(sight.alloc, &generic.names)?;
    Ok(Generics {
        names,
        generic_type,
        default,
    })
}

/// Generics of an interface. It takes memory for what is declared and analysed.
pub fn generics(sight: &mut Sight, all: &[Generic]) -> Result<Vec<Generics>, NameFault>
    ensures given { Gives (λ v. (sight.new, all_generics_view v))
        (entering (rules.in_order with_declared rules.generic) sight.old (map generic_view all.now)) result }
    ensures kept { OnOk result (sight.new ≡ record sight.old { region = sight.new.region }) }
    ensures told { IfErr result (Tells (interfaces_broken.generics sight.old (map generic_view all.now))) }
{
    let mut done = Vec::new(sight.alloc);
    names_are_apart(&sight.region);
    let mut counts = Counts::NONE.of(&sight.region, 0);
    for one in all {
        let first = sight.region.len();
        let next = generic(sight, counts, one)?;
        done.push(next)?;
        counts = counts.of(&sight.region, first);
    }
    Ok(done)
}
