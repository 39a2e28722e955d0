//! Subtype indications of signals, ports and variables (IEEE 1076-2008, 6.3), which in the wider
//! language may be of integers or boolean.

ghost use Rattle.std.specs.Prelude.{◌≡◌, IfErr};
ghost use Rattle.vhdl_lexer.specs.declared.language.Language.TheVariants.{Wide};
ghost use Rattle.vhdl_names_rules.specs.problems.Broken.{Tells};
ghost use Rattle.vhdl_names_rules.specs.problems.Subtypes as broken;
ghost use Rattle.vhdl_names_rules.specs.Gives.{Gives};
ghost use Rattle.vhdl_names_rules.specs.Subtypes as rules;
ghost use Rattle.vhdl_names_rules.specs.views.Ranges.{base_view};
ghost use Rattle.vhdl_tree.specs.View as trees;
ghost use Rattle.vhdl_names_sight.specs.Views.{meaning_view};
ghost use Rattle.vhdl_names_values.specs.Classes.{type_class_view};
ghost use Rattle.vhdl_names_values.specs.Marking as steps;
ghost use Rattle.vhdl_names_units.specs.views.Answers.{subtype_view};

use crate::integers::{integer_subtype, integers_of};
use crate::subtypes::subtype;
use vhdl_lexer::Language;
use vhdl_names_rules::{IntegerBase, NameFault, NameProblem, ObjectType};
use vhdl_names_sight::{Meaning, Sight, declaration_of};
use vhdl_names_units::{Form, Subtype};
use vhdl_tree::Subtype as TreeSubtype;

/// Of which class a type is: of integers, of booleans, or of the nine values or an enumeration.
#[derive(Clone, Copy)]
pub enum TypeClass {
    Integers,
    Booleans,
    Others,
}

/// The class of a type.
pub fn class_of(meaning: &Meaning) -> TypeClass
    ensures { type_class_view result ≡ rules.class_of (meaning_view meaning.now) }
{
    match meaning {
        Meaning::IntegerType(_) => TypeClass::Integers,
        Meaning::BooleanType => TypeClass::Booleans,
        _ => TypeClass::Others,
    }
}

/// A signal, port or variable of integers of this base.
fn integer_object(
    sight: &Sight,
    base: IntegerBase,
    indication: &TreeSubtype,
) -> Result<Subtype, NameFault>
    ensures given { Gives subtype_view
        (steps.integer_object sight.now (base_view base) (trees.subtype_view indication.now)) result }
    ensures told { IfErr result (Tells (broken.integer_subtype sight.now (trees.subtype_view indication.now))) }
{
    let numbers = integer_subtype(sight, base, indication)?;
    Ok(Subtype {
        object_type: ObjectType::Integers,
        form: Form::Number(numbers),
        is_resolved: false,
    })
}

/// A boolean one, which has no range here.
fn boolean_object(indication: &TreeSubtype) -> Result<Subtype, NameFault>
    ensures given { Gives subtype_view (rules.boolean_object (trees.subtype_view indication.now)) result }
    ensures told { IfErr result (Tells (broken.boolean_subtype (trees.subtype_view indication.now))) }
{
    match &indication.constraint {
        None => Ok(Subtype {
            object_type: ObjectType::Booleans,
            form: Form::Boolean,
            is_resolved: false,
        }),
        Some(_) => Err(NameProblem::LeftOut.at(indication.mark.at)),
    }
}

/// The same in the wider language.
fn wide_subtype(sight: &Sight, indication: &TreeSubtype) -> Result<Subtype, NameFault>
    requires { sight.now.language ≡ Wide }
    ensures given { Gives subtype_view (rules.object_subtype sight.now (trees.subtype_view indication.now)) result }
    ensures told { IfErr result (Tells (broken.object_subtype sight.now (trees.subtype_view indication.now))) }
{
    let mark = declaration_of(sight, &indication.mark)?;
    if let Some(base) = integers_of(mark) {
        return integer_object(sight, base, indication);
    }
    match class_of(&mark.meaning) {
        TypeClass::Booleans => boolean_object(indication),
        _ => subtype(sight, indication),
    }
}

/// The type of a signal, port or variable: in the wider language also an integer type or boolean.
/// It takes memory for what is analysed, and fails at the first byte where a rule is broken.
pub fn object_subtype(sight: &Sight, indication: &TreeSubtype) -> Result<Subtype, NameFault>
    ensures given { Gives subtype_view (rules.object_subtype sight.now (trees.subtype_view indication.now)) result }
    ensures told { IfErr result (Tells (broken.object_subtype sight.now (trees.subtype_view indication.now))) }
{
    match sight.language {
        Language::Profile => subtype(sight, indication),
        Language::Wide => wide_subtype(sight, indication),
    }
}
