//! The parts of conditions: names and character literals that are compared, and relations the other
//! way round (IEEE 1076-2008, 9.2.3).

ghost use Rattle.std.specs.Prelude.{◌≡◌, option_map};
ghost use Rattle.vhdl_names_trees.specs.views.Vectors.{value_view, vector_view};
ghost use Rattle.vhdl_expand_rules.specs.Expressions.{converse_of};
ghost use Rattle.vhdl_expand_choices.specs.Compared as definition;
ghost use Rattle.vhdl_expand_choices.specs.Compared.{named_view, character_view};

use vhdl_names_trees::{SignalPart, Value, Vector};
use vhdl_values::{Cmp, Nine};

/// A character literal, and whether it stands with no parentheses.
#[derive(Clone, Copy)]
pub struct Character {
    pub is_plain: bool,
    pub literal: Nine,
}

/// The signal's name that a vector is.
#[tactic(auto, using(crate::proofs::Chains::chain_is_no_name))]
fn name_in(vector: &Vector) -> Option<&SignalPart>
    ensures { option_map named_view result ≡ definition.name_in (vector_view vector.now) }
{
    match vector {
        Vector::Signal(place) => Some(place),
        Vector::Variable(_, _, _)
        | Vector::Constant(_, _, _)
        | Vector::InSignal(_, _, _)
        | Vector::InVariable(_, _, _)
        | Vector::InConstant(_, _, _)
        | Vector::Character(_, _)
        | Vector::EnclosedCharacter(_, _)
        | Vector::Literal(_, _)
        | Vector::Not(_, _)
        | Vector::Chain(_, _)
        | Vector::IntegerWith(_, _, _, _)
        | Vector::ComputedWith(_, _, _, _)
        | Vector::Encoded(_, _, _)
        | Vector::ComputedEncoded(_, _, _)
        | Vector::Counted(_, _, _, _)
        | Vector::Shifted(_, _, _, _)
        | Vector::Aggregate(_, _, _)
        | Vector::Sized(_, _, _) => None,
    }
}

/// The signal's name that a value is.
pub fn name_of(value: &Value) -> Option<&SignalPart>
    ensures { option_map named_view result ≡ definition.name_of (value_view value.now) }
{
    match value {
        Value::Elements(vector) => name_in(vector),
        Value::Position(_)
        | Value::StateOf(_)
        | Value::StateOfVariable(_)
        | Value::Computed(_)
        | Value::StaticTruth(_) => None,
    }
}

/// The character literal that a vector is.
#[tactic(auto, using(crate::proofs::Chains::chain_is_no_character))]
fn character_in(vector: &Vector) -> Option<Character>
    ensures { option_map character_view result ≡ definition.character_in (vector_view vector.now) }
{
    match vector {
        Vector::Character(_, literal) => Some(Character {
            is_plain: true,
            literal: *literal,
        }),
        Vector::EnclosedCharacter(_, literal) => Some(Character {
            is_plain: false,
            literal: *literal,
        }),
        Vector::Signal(_)
        | Vector::Variable(_, _, _)
        | Vector::Constant(_, _, _)
        | Vector::InSignal(_, _, _)
        | Vector::InVariable(_, _, _)
        | Vector::InConstant(_, _, _)
        | Vector::Literal(_, _)
        | Vector::Not(_, _)
        | Vector::Chain(_, _)
        | Vector::IntegerWith(_, _, _, _)
        | Vector::ComputedWith(_, _, _, _)
        | Vector::Encoded(_, _, _)
        | Vector::ComputedEncoded(_, _, _)
        | Vector::Counted(_, _, _, _)
        | Vector::Shifted(_, _, _, _)
        | Vector::Aggregate(_, _, _)
        | Vector::Sized(_, _, _) => None,
    }
}

/// The character literal that a value is.
pub fn character_of(value: &Value) -> Option<Character>
    ensures { option_map character_view result ≡ definition.character_of (value_view value.now) }
{
    match value {
        Value::Elements(vector) => character_in(vector),
        Value::Position(_)
        | Value::StateOf(_)
        | Value::StateOfVariable(_)
        | Value::Computed(_)
        | Value::StaticTruth(_) => None,
    }
}

/// `n relation x` as a relation of `x` and `n`.
pub fn turned(relation: Cmp) -> Cmp
    ensures { result ≡ converse_of relation }
{
    match relation {
        Cmp::Eq => Cmp::Eq,
        Cmp::Ne => Cmp::Ne,
        Cmp::Lt => Cmp::Gt,
        Cmp::Le => Cmp::Ge,
        Cmp::Gt => Cmp::Lt,
        Cmp::Ge => Cmp::Le,
    }
}
