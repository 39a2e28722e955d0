//! What the tests of resets ask for.

ghost use Rattle.std.specs.Prelude.{◌≡◌};
ghost use Rattle.rtl_net.specs.Bodies.{test_view, statement_view, statements_of};
ghost use Rattle.rtl_process_kinds.specs.BodyViews as v;

use crate::asked::Asked;
use rtl_net::{Statement, Test};
use vhdl_values::Nine;

/// What a value is as one that is asked for.
fn asked_for(value: Nine) -> Option<Asked>
    ensures { result ≡ v.asked_for value }
{
    match value {
        Nine::Zero => Some(Asked::Zero),
        Nine::One => Some(Asked::One),
        _ => None,
    }
}

/// What a test asks for that is one of a net, for '0' or '1'.
fn asked_by_test(test: &Test) -> Option<Asked>
    ensures { result ≡ v.asked_by_test (test_view test.now) }
{
    match test {
        Test::Level { value, .. } => asked_for(*value),
        Test::Combined { first, rest } => {
            if rest.is_empty() {
                return asked_by_test(first);
            }
            None
        }
        _ => None,
    }
}

/// What the test of an if's first branch asks for.
fn asked_first(statement: &Statement) -> Option<Asked>
    ensures { result ≡ v.asked_first (statement_view statement.now) }
{
    match statement {
        Statement::If { branches, .. } => {
            if branches.is_empty() {
                return None;
            }
            asked_by_test(&branches[0].test)
        }
        _ => None,
    }
}

/// What the reset of a clocked process with this body asks for, if it has one.
pub fn asked_last(body: &[Statement]) -> Option<Asked>
    ensures { result ≡ v.asked_last (statements_of body.now) }
{
    if body.is_empty() {
        return None;
    }
    asked_first(&body[body.len() - 1])
}
