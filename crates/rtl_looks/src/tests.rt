//! What conditions look at.

ghost use Rattle.std.specs.Prelude.{◌≡◌, ◌++◌, IfOk};
ghost use Rattle.rtl_model.specs.bodies.Looks as m;
ghost use Rattle.rtl_net.specs.Bodies.{expr_view, value_view, test_view};
ghost use Rattle.rtl_looks.specs.Evaluating.{Sums, ChainsTests};
ghost use Rattle.rtl_looks.specs.Walks.{decided_of};

use crate::hubs::{Hubs, Look};
use crate::table::Table;
use crate::values::{expr_look, value_look};
use rtl_net::{Expr, Test, TestLink, Value};
use std::alloc::AllocError;

/// What two values together look at.
fn both_values(
    left: &Value,
    right: &Value,
    elements: &Table,
    hubs: &mut Hubs,
) -> Result<Option<Look>, AllocError>
    ensures { IfOk result (λ look. Sums
        (λ so_far. m.whole (m.value_looks so_far (value_view left.now))
        ++ m.whole (m.value_looks so_far (value_view right.now)))
        elements.now.looks.items hubs.old.hubs.items hubs.new.hubs.items look) }
{
    let left = value_look(left, elements, hubs)?;
    let right = value_look(right, elements, hubs)?;
    hubs.join(left, right)
}

/// What two expressions together look at.
fn both_exprs(
    left: &Expr,
    right: &Expr,
    elements: &Table,
    hubs: &mut Hubs,
) -> Result<Option<Look>, AllocError>
    ensures { IfOk result (λ look. Sums
        (λ so_far. m.whole (m.expr_looks so_far (expr_view left.now))
        ++ m.whole (m.expr_looks so_far (expr_view right.now)))
        elements.now.looks.items hubs.old.hubs.items hubs.new.hubs.items look) }
{
    let left = expr_look(left, elements, hubs)?;
    let right = expr_look(right, elements, hubs)?;
    hubs.join(left, right)
}

/// What a condition looks at, where elements of variables look at these.
#[cycle(condition)]
pub(crate) fn test_look(
    test: &Test,
    elements: &Table,
    hubs: &mut Hubs,
) -> Result<Option<Look>, AllocError>
    ensures { IfOk result (λ look. Sums (λ so_far. m.test_looks so_far (test_view test.now))
        elements.now.looks.items hubs.old.hubs.items hubs.new.hubs.items look) }
{
    match test {
        Test::Condition(expr) => expr_look(expr, elements, hubs),
        Test::Decided(_) => Ok(None),
        Test::Equal(left, right) => both_values(left, right, elements, hubs),
        Test::Unequal(left, right) => both_values(left, right, elements, hubs),
        Test::Level { net, .. } => Ok(Some(Look::Net(*net as usize))),
        Test::Compared(_, left, right) => both_exprs(left, right, elements, hubs),
        Test::ComparedTo(_, expr, _) => expr_look(expr, elements, hubs),
        Test::Rising(net) => Ok(Some(Look::Net(*net as usize))),
        Test::Falling(net) => Ok(Some(Look::Net(*net as usize))),
        Test::Event(net) => Ok(Some(Look::Net(*net as usize))),
        Test::Negated(operand) => test_look(operand, elements, hubs),
        Test::Combined { first, rest } => {
            let look = test_look(first, elements, hubs)?;
            chained_look(look, rest, elements, hubs)
        }
    }
}

/// The same of a chain, whose first operand looks at this.
#[cycle(condition)]
fn chained_look(
    mut look: Option<Look>,
    rest: &[TestLink],
    elements: &Table,
    hubs: &mut Hubs,
) -> Result<Option<Look>, AllocError>
    ensures { IfOk result (λ all. ChainsTests rest.now
        elements.now.looks.items hubs.old.hubs.items hubs.new.hubs.items look all) }
{
    for link in rest {
        let operand = test_look(&link.operand, elements, hubs)?;
        look = hubs.join(look, operand)?;
    }
    Ok(look)
}

/// Which way a static test goes, which may be alone in a chain.
pub(crate) fn decided(test: &Test) -> Option<bool>
    ensures { result ≡ decided_of (test_view test.now) }
{
    match test {
        Test::Decided(holds) => Some(*holds),
        Test::Combined { first, rest } => {
            if rest.is_empty() {
                return decided(first);
            }
            None
        }
        _ => None,
    }
}
