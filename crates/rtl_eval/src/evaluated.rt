//! Values that are assigned, and that select an alternative.

ghost use Rattle.std.specs.Prelude.{◌≡◌, [], ◌∷◌, map};
ghost use Rattle.std.specs.List.{list_any};
ghost use Rattle.vhdl_values.specs.Scalar.{code_of};
ghost use Rattle.rtl_model.specs.bodies.Values.{value_of};
ghost use Rattle.rtl_model.specs.bodies.Tests.{same};
ghost use Rattle.rtl_net.specs.Bodies.{value_view, choice_view};
ghost use Rattle.rtl_eval.specs.Evaluations.{codes_of};
ghost use Rattle.rtl_eval.specs.Seeing.{seen_of, Within, IsPosition, IsValue};

use crate::expressions::value as elements;
use crate::seen::SeenValues;
use rtl_net::{Choice, Value};
use vhdl_values::Vec9;

/// Elements of the nine values, or the position of a literal of an enumeration.
#[derive(Clone, Copy)]
pub enum Evaluated {
    Elements(Vec9),
    Position(u8),
}

/// What a value is in a run.
pub(crate) fn evaluate(value: &Value, seen: SeenValues<'_>) -> Evaluated
    requires { Within (seen_of seen) (λ scope. IsValue scope (value_view value.now)) }
    ensures { codes_of result ≡ value_of (seen_of seen.entry) (value_view value.now) }
{
    match value {
        Value::Elements(expr) => Evaluated::Elements(elements(expr, seen)),
        _ => Evaluated::Position(position(value, seen)),
    }
}

/// The position of a value of an enumeration.
fn position(value: &Value, seen: SeenValues<'_>) -> u8
    requires { Within (seen_of seen) (λ scope. IsPosition scope (value_view value.now)) }
    ensures { value_of (seen_of seen.entry) (value_view value.now) ≡ result ∷ [] }
{
    match value {
        Value::Elements(_) => 0,
        Value::Position(at) => *at,
        Value::PositionOf(net) => seen.current[*net as usize],
        Value::PositionIn(element) => seen.variables[*element as usize],
    }
}

/// Whether one of the choices is this value.
pub fn is_chosen(choices: &[Choice], value: &Evaluated) -> bool
    ensures { result ≡ list_any (λ choice. same (codes_of value.now) (choice_view choice)) choices.now }
{
    choices
        .iter()
        .any(|choice| are_same(value, &chosen(choice)))
}

/// The value that a choice stands for.
fn chosen(choice: &Choice) -> Evaluated
    ensures { codes_of result ≡ choice_view choice.now }
{
    match choice {
        Choice::Elements(values) => Evaluated::Elements(*values),
        Choice::Position(at) => Evaluated::Position(*at),
    }
}

/// Whether two values are the same.
pub fn are_same(left: &Evaluated, right: &Evaluated) -> bool
    ensures { result ≡ same (codes_of left.now) (codes_of right.now) }
{
    match left {
        Evaluated::Elements(values) => match right {
            Evaluated::Elements(others) => values.same(others),
            Evaluated::Position(at) => has_code(values, *at),
        },
        Evaluated::Position(at) => match right {
            Evaluated::Elements(values) => has_code(values, *at),
            Evaluated::Position(other) => at == other,
        },
    }
}

/// Whether a vector is of one element, which has this code.
fn has_code(values: &Vec9, code: u8) -> bool
    ensures ahead { result ≡ same (map code_of values.now) (code ∷ []) }
    ensures behind { result ≡ same (code ∷ []) (map code_of values.now) }
{
    values.len() == 1 && values.get(0).code() == code
}
