//! Conditions (IEEE 1076-2008, 9.2.9), and those of generates. Each takes memory for what is
//! analysed, and fails at the first byte where a rule is broken.

ghost use Rattle.std.specs.Prelude.{IfErr};
ghost use Rattle.vhdl_names_rules.specs.problems.Broken.{Tells, refused};
ghost use Rattle.vhdl_names_rules.specs.problems.Expressions as broken;
ghost use Rattle.vhdl_names_rules.specs.declared.fault.NameProblem.TheVariants.{TypeMismatch};
ghost use Rattle.vhdl_names_rules.specs.Expressions as rules;
ghost use Rattle.vhdl_names_rules.specs.Gives.{Gives};
ghost use Rattle.vhdl_names_trees.specs.views.Tests.{test_view, static_test_view};
ghost use Rattle.vhdl_names_trees.specs.views.Expressions.{typed_view};
ghost use Rattle.vhdl_tree.specs.View.{view};
ghost use Rattle.vhdl_names_asked.specs.Asked.{static_condition as static_condition_of};

use vhdl_names_expressions::{start, typed};
use vhdl_names_rules::{ElementKind, NameFault, NameProblem};
use vhdl_names_sight::Sight;
use vhdl_names_trees::{StaticTest, Test, Typed};
use vhdl_tree::Expr;

/// The truth that an operand is, which starts at byte `at`; one element is one.
fn as_test(operand: Typed, at: usize) -> Result<Test, NameFault>
    ensures given { Gives test_view (rules.as_test (typed_view operand)) result }
    ensures told { IfErr result (Tells (refused TypeMismatch at)) }
{
    match operand {
        Typed::Truth(test) => Ok(test),
        Typed::Elements(ElementKind::Element, vector) => Ok(Test::Holds(vector)),
        _operand => Err(NameProblem::TypeMismatch.at(at)),
    }
}

/// A condition: a truth, or one element (9.2.9).
#[tactic(auto, using(crate::proofs::Asking::condition_is))]
pub fn condition(sight: &Sight, e: &Expr) -> Result<Test, NameFault>
    ensures given { Gives test_view (rules.condition sight.now (view e.now)) result }
    ensures told { IfErr result (Tells (broken.condition sight.now (view e.now))) }
{
    let value = typed(sight, e)?;
    as_test(value, start(e))
}

/// The truth over static integers alone that an operand is, which starts at byte `at`.
#[tactic(auto, using(crate::proofs::Asking::not_static))]
fn as_static_test(operand: Typed, at: usize) -> Result<StaticTest, NameFault>
    ensures given { Gives static_test_view (rules.as_static_test (typed_view operand)) result }
    ensures told { IfErr result (Tells (refused TypeMismatch at)) }
{
    match operand {
        Typed::Truth(test) => match test.as_fixed() {
            Ok(test) => Ok(test),
            Err(_) => Err(NameProblem::TypeMismatch.at(at)),
        },
        _ => Err(NameProblem::TypeMismatch.at(at)),
    }
}

/// A generate's condition, which is over static integers alone.
pub fn static_condition(sight: &Sight, e: &Expr) -> Result<StaticTest, NameFault>
    ensures given { Gives static_test_view (static_condition_of sight.now (view e.now)) result }
    ensures told { IfErr result (Tells (broken.static_condition sight.now (view e.now))) }
{
    let value = typed(sight, e)?;
    as_static_test(value, start(e))
}
