//! The values of constants that are no integers, and of defaults (IEEE 1076-2008, 6.4.2.2, 9.4), by
//! their type.

ghost use Rattle.std.specs.Prelude.{◌≡◌, option_map, IfErr};
ghost use Rattle.vhdl_names_rules.specs.problems.Broken.{Broken, Tells};
ghost use Rattle.vhdl_names_rules.specs.problems.Declarations.{of_single};
ghost use Rattle.vhdl_names_rules.specs.problems.Subtypes as broken;
ghost use Rattle.vhdl_names_rules.specs.Declarations.{single_expression as single_expression_of};
ghost use Rattle.vhdl_names_rules.specs.Gives.{Gives};
ghost use Rattle.vhdl_names_rules.specs.Subtypes as rules;
ghost use Rattle.vhdl_names_trees.specs.views.Integers.{target_range_view};
ghost use Rattle.vhdl_tree.specs.Tree as t;
ghost use Rattle.vhdl_tree.specs.View.{view, value_view};
ghost use Rattle.vhdl_names_units.specs.views.Answers.{fixed_view};

use crate::fixed::{wider_expression, wider_value};
use vhdl_names_asked::static_condition;
use vhdl_names_expressions::static_integer;
use vhdl_names_rules::{NameFault, NameProblem, ObjectType};
use vhdl_names_sight::Sight;
use vhdl_names_trees::TargetRange;
use vhdl_names_units::Fixed;
use vhdl_tree::{Expr, Value as TreeValue};

/// The value of an integer or a boolean is one expression; `(others => e)` is a TypeMismatch.
pub fn single_expression(value: &TreeValue) -> Result<&Expr, NameFault>
    ensures given { Gives (λ e. view e.now) (single_expression_of (value_view value.now)) result }
    ensures told { (b : t.Expr → Broken) → IfErr result (Tells (of_single b (value_view value.now))) }
{
    match value {
        TreeValue::Expr(e) => Ok(e),
        TreeValue::Others { at, .. } => Err(NameProblem::TypeMismatch.at(*at)),
    }
}

/// The value of a constant that is no integer, or a default, of a type, with this range if it is a
/// vector's, that is an expression.
pub fn fixed_expression(
    sight: &Sight,
    object_type: ObjectType,
    range: Option<TargetRange<'_>>,
    e: &Expr,
) -> Result<Fixed, NameFault>
    ensures given { Gives fixed_view
        (rules.fixed_value sight.now object_type (option_map target_range_view range.entry)
        (t.single (view e.now))) result }
    ensures told { IfErr result (Tells
        (broken.fixed_value sight.now object_type (option_map target_range_view range.entry) (t.single (view e.now)))) }
{
    match object_type {
        ObjectType::Integers => {
            let number = static_integer(sight, e)?;
            Ok(Fixed::Integer(number))
        }
        ObjectType::Booleans => {
            let truth = static_condition(sight, e)?;
            Ok(Fixed::Truth(truth))
        }
        _ => wider_expression(sight, object_type, range, e),
    }
}

/// The value of a constant that is no integer, or a default, of a type, with this range if it is a
/// vector's: a constant, a literal, a call of to_unsigned, or `(others => c)`; in the wider
/// language any value that names no signal and no variable, and a static integer or truth. It takes
/// memory for what is analysed, and fails at the first byte where a rule is broken.
pub fn fixed_value(
    sight: &Sight,
    object_type: ObjectType,
    range: Option<TargetRange<'_>>,
    value: &TreeValue,
) -> Result<Fixed, NameFault>
    ensures given { Gives fixed_view
        (rules.fixed_value sight.now object_type (option_map target_range_view range.entry)
        (value_view value.now)) result }
    ensures told { IfErr result (Tells
        (broken.fixed_value sight.now object_type (option_map target_range_view range.entry)
        (value_view value.now))) }
{
    match object_type {
        ObjectType::Integers | ObjectType::Booleans => {
            let e = single_expression(value)?;
            fixed_expression(sight, object_type, range, e)
        }
        _ => wider_value(sight, object_type, range, value),
    }
}
